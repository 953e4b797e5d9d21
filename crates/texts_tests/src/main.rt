//! Cases of texts: queries of CQL, their tokens, their trees and what they are mapped to; requests of SRU and
//! replies to them, octet for octet; configurations; scripts of replays.
#![tactic(auto)]

mod calls;
mod diagnostics;
mod heads;
mod mapping;
mod queries;
mod replies;
mod routes;
mod scripts;
mod trees;

use calls::Calls;
use std::io;

fn main(rt: HostRuntime) -> io::Result<()> {
    case_files::play(&rt, &Calls)
}
