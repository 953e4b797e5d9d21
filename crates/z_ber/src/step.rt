//! One step within elements of indefinite length (X.690:2021, 8.1.3.6, 8.1.5).

/// What stands at the front of an indefinite element's contents.
#[derive(Clone, Copy, Debug, PartialEq, Eq)]
pub enum Step {
    /// The end of contents.
    End,
    /// An element of definite length, passed over.
    Whole,
    /// The header of an element of indefinite length.
    Open,
}
