//! Cases of the rules of the gateway and of what they stand on: merged sets, limits, virtual databases,
//! routes, the answer to an Init, replies cut to its sizes, the laws at a world, and the outside in memory.
#![tactic(auto)]

mod calls;
mod cuts;
mod databases;
mod inits;
mod laws;
mod limits;
mod memory;
mod merged;
mod parts;
mod users;
mod words;

use calls::Calls;
use std::io;

fn main(rt: HostRuntime) -> io::Result<()> {
    case_files::play(&rt, &Calls)
}
