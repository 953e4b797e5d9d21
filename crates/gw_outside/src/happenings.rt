//! What is made to happen to the links with a test target.

/// What was made to happen to the links with a target.
#[derive(Clone, Copy, PartialEq, Eq, Debug)]
pub struct Happening {
    /// How many Presents are still to find all result sets deleted.
    pub presents: u32,
    /// How many looks find nothing before a reply that the target makes from now on.
    pub delay: u32,
    /// The number of the last link that was cut, as links are numbered from 1 in the order of their
    /// dials: those with a greater number are not cut.
    pub cut: u64,
}
