//! The table of a session's sets, and the pools of one thread over sessions in memory. All of it is
//! tests, which stand apart so that the crates below are proved once.
#![tactic(auto)]

#[cfg(test)]
mod logins;
#[cfg(test)]
mod members;
mod sessions;
#[cfg(test)]
mod tables;
#[cfg(test)]
mod takes;
#[cfg(test)]
mod targets;
#[cfg(test)]
mod trials;
