//! The types that every layer of the gateway shares: octets, lists, object identifiers, queries,
//! requests, replies, works and their outcomes, and what the targets mean.
#![tactic(auto)]

mod address;
mod ask;
mod bounds;
mod conditions;
mod diagnostic;
mod exact;
mod key;
mod known_set;
mod limits;
mod list;
mod marks;
mod measures;
mod memory;
mod oid;
mod outcome;
mod query;
mod records;
mod replies;
mod requests;
mod scan;
mod schemas;
mod services;
mod shown;
mod sitting;
mod sru;
mod text;
mod work;
mod world;

pub use address::{Address, Site};
pub use ask::Ask;
pub use bounds::{
    MOST_ARCS, MOST_DATABASES, MOST_LEGS, MOST_LEVELS, MOST_LOGIN_OCTETS, MOST_NAME_OCTETS,
    MOST_NUMBER, MOST_QUERY_COST, MOST_QUERY_DEPTH, MOST_QUERY_NODES, MOST_UNIT_OCTETS,
};
pub use conditions::Condition;
pub use diagnostic::Diag;
pub use exact::{Exact, copy, same};
pub use key::SetKey;
pub use known_set::KnownSet;
pub use limits::Limits;
pub use list::List;
pub use marks::{End, Mark};
pub use measures::{Measures, cost, depth, size};
pub use memory::Memory;
pub use oid::{Oid, is_oid};
pub use outcome::{Fetched, Outcome};
pub use query::{Attr, Node, Rpn, RpnQuery, Term};
pub use records::{Body, Form, Item, NamedRecord};
pub use replies::Reply;
pub use requests::{Asked, Close, Init, Present, Request, Scan, Search};
pub use scan::{ScanAnswer, ScanAsk, ScanEntry};
pub use schemas::Schema;
pub use services::{NAMED_RESULT_SETS, OWN_OPTIONS, OWN_VERSIONS};
pub use shown::shown_count;
pub use sitting::Sitting;
pub use sru::{SruAnswer, SruDiag, SruItem};
pub use text::Text;
pub use work::Work;
pub use world::World;
