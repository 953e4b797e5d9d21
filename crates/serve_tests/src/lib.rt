//! Connections and workers over memory: what is written, under which marks, and how each ends, for each
//! of the ends that octets, reads, writes and accepts decide; what is asked again as moments pass; and that
//! a reply is written before the next read. All of it is tests, over public calls alone.
#![tactic(auto)]

#[cfg(test)]
mod cases;
#[cfg(test)]
mod connections;
#[cfg(test)]
mod flights;
#[cfg(test)]
mod memory;
#[cfg(test)]
mod moments;
#[cfg(test)]
mod octets;
#[cfg(test)]
mod order;
#[cfg(test)]
mod workers;
