//! What the legs of a request answered.

use leg::LegAnswer;

/// What a leg answered.
#[derive(Drop)]
pub struct Answered {
    /// The leg's place in the route, counted from 0.
    pub leg: u32,
    /// Its answer.
    pub answer: LegAnswer,
}
