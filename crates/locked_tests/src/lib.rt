//! Doors over one pool behind a lock, over sessions in memory, and stores of records over one behind a lock.
//! All of it is tests, which stand apart so that the crates below are proved once.
#![tactic(auto)]

#[cfg(test)]
mod doors;
mod holders;
#[cfg(test)]
mod ledgers;
#[cfg(test)]
mod stores;
#[cfg(test)]
mod takes;
#[cfg(test)]
mod turns;
