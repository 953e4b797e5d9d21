//! What is true of loads. These functions do nothing; what they ensure is the law.

ghost use Rattle.load_shares.specs.Laws.{LoadsAreAnswered, LoadsAreOrderly, LoadsAreAnsweredPlainly, LoadsNeedSo, RequestsAreReceived};

use replay_shares::sru_rules::one_answer;
use z_ber::written_extent;
use z_laws::{written_requests_are_read, written_requests_are_units};
use z_types::World;

/// The octets that a client of a load is fed are four units, which are read as its requests.
pub fn requests_are_received()
    ensures { RequestsAreReceived }
{
    written_extent();
    written_requests_are_units();
    written_requests_are_read();
}

/// A load is orderly: its runs are those of its clients, and then those that close each of them.
pub fn loads_are_orderly<W: World>()
    ensures { LoadsAreOrderly W.World }
{
    requests_are_received();
}

/// On a fair route each client of a load has four marks and ended by its Close, whatever befell links.
pub fn loads_are_answered<W: World>()
    ensures { LoadsAreAnswered W.World }
{
    requests_are_received();
}

/// Where no request of a load is marked, each client is written the answers to the requests of its
/// letter.
pub fn loads_are_answered_plainly<W: World>()
    ensures { LoadsAreAnsweredPlainly W.World }
{
    requests_are_received();
    one_answer::<W>();
}

/// A load needs a search for each of five letters, one for each client whose letter the target
/// refuses, and one dial.
pub fn loads_need_so<W: World>()
    ensures { LoadsNeedSo W.World }
{}
