//! The shares that a door counts in.

ghost use Rattle.std.specs.Prelude.{◌≡◌, ◌<◌};
ghost use Rattle.pool_locked.specs.Books.{IsNoted};

use std::sync::ledger::{Book, Ledger, Share};

/// A share of each ledger that a door counts in, with a part of each at least.
#[derive(Drop)]
pub(crate) struct Shares<L: Ledger, M: Ledger, O: Ledger> {
    pub booked: Share<L>,
    pub fulls: Share<M>,
    pub opens: Share<O>,
    ghost booked_part: { 0 < booked.parts },
    ghost fulls_part: { 0 < fulls.parts },
    ghost opens_part: { 0 < opens.parts },
}

/// Counts in a book and in a share of it, where it happened.
pub(crate) fn note<L: Ledger>(book: &mut Book<L>, share: &mut Share<L>, happened: bool)
    requires { 0 < share.old.parts }
    ensures total { IsNoted happened book.old.total book.new.total }
    ensures amount { IsNoted happened share.old.amount share.new.amount }
    ensures parts { share.new.parts ≡ share.old.parts }
{
    if happened {
        book.add(share, 1);
    }
}
