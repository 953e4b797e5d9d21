//! Connections over links with test targets and over both pools, step by step, each story worked out by
//! hand. All of it is tests, over public calls alone.
#![tactic(auto)]

#[cfg(test)]
mod cuts;
#[cfg(test)]
mod gets;
#[cfg(test)]
mod groups;
#[cfg(test)]
mod legs;
#[cfg(test)]
mod plays;
#[cfg(test)]
mod pools;
#[cfg(test)]
mod refusals;
#[cfg(test)]
mod stories;
#[cfg(test)]
mod turns;
#[cfg(test)]
mod units;
