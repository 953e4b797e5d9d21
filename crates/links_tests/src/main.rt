//! Sessions and links with targets as files of cases, which are played step by step: over the test targets,
//! and over a wire that brings octets that no true target sends. Each answer was worked out by hand, or
//! stands in what libyaz 5.34.0 spelt. The program prints what went otherwise, and how many cases did not.
#![tactic(auto)]

mod addresses;
mod asks;
mod octets;
mod played;
mod plays;
mod sessions;
mod steps;
mod turns;
mod wires;
mod words;

use crate::sessions::{OverPlayed, OverTargets};
use crate::wires::OverLinks;
use std::{fs, io};
use test_cases::play_folder;

fn main(rt: HostRuntime) -> io::Result<()> {
    let replies = fs::read_to_string(&rt, "replies")?;
    let played = play_folder(&rt, "played", &replies, &OverPlayed)?;
    let targets = play_folder(&rt, "targets", &replies, &OverTargets)?;
    let links = play_folder(&rt, "links", &replies, &OverLinks)?;
    let right = played.saturating_add(targets).saturating_add(links);
    println!(rt; "{right} cases went as they say")
}
