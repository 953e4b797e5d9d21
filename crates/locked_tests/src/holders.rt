//! Sessions with targets of which nothing is told.

ghost use Rattle.std.specs.Prelude.{false, refl, Some};
ghost use Rattle.z_types.specs.Links.{no_link};
ghost use Rattle.z_types.specs.Pending.{resting};
ghost use Rattle.locked_tests.specs.Quiet.{no_hits, none_is_a_count, no_record, no_scan};

use pool_sets::{Parts, Pooled, SetTable};
use std::alloc::Global;
use z_types::{
    Address, List, Memory, Oid, Rpn, RpnQuery, SetKey, Sitting, Term, Text, World, copy,
};

/// A world of which nothing is told.
#[derive(Drop)]
pub(crate) struct Quiet;

impl World for Quiet {
    ghost told = { λ _. ⊥ };

    ghost inner_is_told = { λ _ h. h };

    ghost search = { λ _ _. no_hits };

    ghost record_ = { λ _ _ _ _ _. no_record };

    ghost scan = { λ _ _ _. no_scan };

    ghost hits_are_counts = { λ _ _. none_is_a_count };

    ghost whole_is_not_gone = { λ _ _ _ _ _. refl };
}

/// A session that rests and made a set of its key, of three records, under each name.
#[derive(Drop)]
pub(crate) struct Holder {
    address: Address,
    key: SetKey,
}

impl<W: World> Sitting<W> for Holder {
    ghost address = { λ holder. holder.address };

    ghost made = { λ holder name. Some (holder.key, 3) };

    ghost pending = { λ holder. resting };

    ghost link = { λ session. no_link };

    ghost keeps = { false };
}

/// The key of a search for a number, which names no databases.
pub(crate) fn key_for(alloc: Global, number: i64) -> Result<SetKey, Memory> {
    let attr_set = Oid::copy_of(alloc, &[1, 2, 840, 10003, 3, 1])?;
    let root = Rpn::leaf(List::new(alloc), Term::Number(number));
    Ok(SetKey {
        dbs: List::new(alloc),
        query: RpnQuery { attr_set, root },
    })
}

/// A session at the test target 1, inside a login or by itself, with a set of the key, used at a
/// moment.
pub(crate) fn holder_of(
    alloc: Global,
    key: &SetKey,
    login: &Option<Text>,
    now: u64,
) -> Result<Pooled<Quiet, Holder>, Memory> {
    let mut table = SetTable::new(alloc, 10)?;
    table.record_(0, copy(key)?, 3, now)?;
    let address = Address::Test(1).inside(login)?;
    let session = Holder {
        address: copy(&address)?,
        key: copy(key)?,
    };
    Ok(Pooled::join(Parts {
        session,
        table,
        address,
    }))
}
