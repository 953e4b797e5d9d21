//! The pool's interface: the sets that a session holds, a session with its sets, and the door
//! through which sessions are taken and put back. The pool itself is above.
#![tactic(auto)]

mod doors;
mod laws;
mod pooled;
mod sessions;
mod table;

pub use doors::{Door, Seat, Taken};
pub use laws::{full_exactly, gives_own, out_once, put_is_reused};
pub use pooled::{Parts, Pooled};
pub use sessions::{Open, Stand};
pub use table::{HeldSet, SetTable};
