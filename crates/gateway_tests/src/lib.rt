//! What the commands print, what targets answer, the laws of connections and what pages say, each case
//! worked out by hand. All of it is tests, over public calls alone.
#![tactic(auto)]

#[cfg(test)]
mod commands;
#[cfg(test)]
mod connections;
#[cfg(test)]
mod pages;
#[cfg(test)]
mod targets;
