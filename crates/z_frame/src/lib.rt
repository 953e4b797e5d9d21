//! Frames (X.690:2021, 8.1) of a stream of octets that comes in pieces, with no IO. What the units in
//! them mean is left to the crates above.
#![tactic(auto)]

mod framer;

pub use framer::{Framed, Framer};
