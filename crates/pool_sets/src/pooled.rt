//! A session with its table.

ghost use Rattle.std.specs.Prelude.{◌≡◌};
ghost use Rattle.pool_sets.specs.Kept.{TableKept};
ghost use Rattle.pool_sets.specs.Table.{set_of, after_find, after_expire};
ghost use Rattle.pool_sets.specs.Entries.{slot_and_hits};

use crate::SetTable;
use std::marker::{Model, PhantomData};
use z_types::{Address, SetKey, Sitting, World};

/// A session apart from its table and its address.
#[derive(Drop)]
pub struct Parts<S> {
    pub session: S,
    pub table: SetTable,
    pub address: Address,
}

/// A session with its table and its address. Each set of the table stands in what the session made,
/// under its slot's name; its hits are at most `MOST_NUMBER`, and the world's where the address is told.
#[derive(Drop)]
pub struct Pooled<W: World, S: Sitting<W>> {
    parts: Parts<S>,
    world: PhantomData<W>,
}

impl<W: World, S: Sitting<W>> Model for Pooled<W, S> {
    ghost use Rattle.std.specs.Coded.{codes};
    ghost use Rattle.z_types.specs.Tree.{tree_code};
    ghost use Rattle.pool_sets.specs.declared.pooled.Parts.{Parts};

    ghost Value = { Parts S };

    ghost coded = { Prim.hlevel (codes, tree_code) };

    ghost use Rattle.pool_sets.specs.Kept.{TableKept};

    ghost view = { λ p. p.parts };

    ghost invariant = { λ p. TableKept W.World S.Sitting p.parts };
}

impl<W: World, S: Sitting<W>> Pooled<W, S> {
    ghost use Rattle.pool_sets.specs.Sessions.{with_table};

    /// A session with its table, whose sets it made.
    pub fn join(parts: Parts<S>) -> Pooled<W, S>
        requires { TableKept W.World S.Sitting parts }
        ensures { result ≡ parts }
    {
        Pooled {
            parts,
            world: PhantomData,
        }
    }

    /// The inverse of `join`.
    pub fn apart(self) -> Parts<S>
        ensures same { result ≡ self }
        ensures kept { TableKept W.World S.Sitting self }
    {
        let Pooled { parts, world: _ } = self;
        parts
    }

    /// Its address.
    pub fn address(&self) -> &Address
        ensures { result.now ≡ self.now.address }
    {
        &self.parts.address
    }

    /// Its sets.
    pub fn table(&self) -> &SetTable
        ensures { result.now ≡ self.now.table }
    {
        &self.parts.table
    }

    /// The slot and the hits of a key's set, where it is held. It is used now.
    pub fn find(&mut self, key: &SetKey, now: u64) -> Option<(u32, u32)>
        ensures found { result ≡ slot_and_hits (set_of key.now self.old.table) }
        ensures after { self.new ≡ with_table (after_find key.now now self.old.table) self.old }
    {
        self.parts.table.find(key, now)
    }

    /// Forgets the sets that were unused for `ttl` seconds or more.
    pub fn expire(&mut self, now: u64, ttl: u64)
        ensures after { self.new ≡ with_table (after_expire now ttl self.old.table) self.old }
    {
        self.parts.table.expire(now, ttl);
    }
}
