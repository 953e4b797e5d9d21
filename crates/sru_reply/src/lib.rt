//! The replies to SRU clients (SRU 1.2 by GET): a searchRetrieveResponse in XML behind the head of
//! its HTTP message, and the replies that have no body. What is answered is decided above.
#![tactic(auto)]

mod bare;
mod diagnostic;
mod escape;
mod message;
mod record;
mod response;
mod xml;

pub use bare::{Refusal, bare_text};
pub use escape::put_escaped;
pub use response::reply_text;
