//! The pool of one thread: a list of its sessions.
#![tactic(auto)]

mod choice;
mod door;
mod pool;
mod session;
mod spot;

pub use pool::{Pool, berth_for};
pub use session::{
    freshen, holds_in, is_for, is_idle_for, is_idle_in, is_in_class, is_of_member, is_seat, lend,
    move_to, rest, spot_for, stays,
};
pub use spot::Spot;
