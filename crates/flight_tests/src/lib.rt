//! Legs in flight, each story worked out by hand: over links with test targets whose replies arrive after
//! some looks, and a pool of one thread. All of it is tests, over public calls alone.
#![tactic(auto)]

#[cfg(test)]
mod asks;
#[cfg(test)]
mod flights;
#[cfg(test)]
mod outside;
#[cfg(test)]
mod packages;
#[cfg(test)]
mod routes;
#[cfg(test)]
mod stories;
#[cfg(test)]
mod works;
