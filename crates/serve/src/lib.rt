//! A connection served to its end, over a source and a sink; and a worker, which accepts connections one
//! after another and serves each, over a door to the pool that all workers share.
#![tactic(auto)]

mod rounds;
mod serving;
mod working;

pub use conn_served::Listed;
pub use serving::serve_connection;
pub use working::{Worked, Worker, work};

// Handed on: crates above name these through this one.
pub use conn_served;
