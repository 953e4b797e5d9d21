//! What heads and GETs lead to. These functions do nothing; what they ensure is the law.

ghost use Rattle.front_http.specs.Laws.{GetsGoOn, GetsStand, HeadsAnswer, HeadsStand};

use front_sru::sru_rules::{fetch_asks_no_more, get_is_answered, head_is_refused, works_answer};
use z_types::World;

/// What a head was answered at once is the answer to its connection; one for which a work is begun is a
/// GET that waits for it.
pub fn heads_answer<W: World>()
    ensures answered { HeadsAnswer W.World }
    ensures stands { HeadsStand W.World }
{
    head_is_refused::<W>();
    get_is_answered::<W>();
}

/// A GET goes on behind each of its works, and stands where it stood whatever follows its octets.
pub fn gets_go_on<W: World>()
    ensures goes_on { GetsGoOn W.World }
    ensures stands { GetsStand W.World }
{
    works_answer::<W>();
    get_is_answered::<W>();
    fetch_asks_no_more();
}
