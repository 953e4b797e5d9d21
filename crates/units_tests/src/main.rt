//! Cases of octets of X.690 read and written by `z_ber`, and of streams of them in pieces; of units that another
//! implementation spelt, and of other spellings of units, read by `z_read` and written again by `z_write`; of the
//! shared types, and of a client's sets put in place of operands.
#![tactic(auto)]

mod calls;
mod contents;
mod copies;
mod deep;
mod elements;
mod fields;
mod replies;
mod sets;
mod streams;
mod units;
mod values;
mod written;

use calls::Calls;
use std::io;

fn main(rt: HostRuntime) -> io::Result<()> {
    case_files::play(&rt, &Calls)
}
