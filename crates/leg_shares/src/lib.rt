//! A leg shares the session of its class: over a told pool that is kept as its uses left it, from the
//! first turn to the last it dials exactly where a dial is needed, searches exactly where a search is,
//! and leaves the pool kept with its use added.
#![tactic(auto)]

mod laws;
#[cfg(test)]
mod tests;

pub use laws::{
    again_needs_none, fair_class_is_one, last_uses_decide, legs_share, others_share, stays_once,
    turns_share,
};
