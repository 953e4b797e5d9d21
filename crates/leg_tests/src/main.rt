//! Legs of a request as files of cases, which are played turn by turn, each answer worked out by hand: over
//! links with test targets, over targets in memory, and over a wire whose calls fail or lack memory, with a
//! pool of one thread. The program prints what went otherwise, and how many cases did not.
#![tactic(auto)]

mod asks;
mod far;
mod happens;
mod logins;
mod players;
mod plays;
mod routes;
mod steps;
mod words;

use crate::players::{OverFar, OverLinks, OverMemory};
use std::io;
use test_cases::play_folder;

fn main(rt: HostRuntime) -> io::Result<()> {
    let links = play_folder(&rt, "links", "", &OverLinks)?;
    let memory = play_folder(&rt, "memory", "", &OverMemory)?;
    let far = play_folder(&rt, "far", "", &OverFar)?;
    let right = links.saturating_add(memory).saturating_add(far);
    println!(rt; "{right} cases went as they say")
}
