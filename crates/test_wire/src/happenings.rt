//! What is made to happen to the links of test targets.

ghost use Rattle.std.specs.Prelude.{◌≡◌, OnOk, OnErr};
ghost use Rattle.gw_outside.specs.Happened.{AreSame, AreQuiet};
ghost use Rattle.test_wire.specs.Happened.{happening_of, happened_in, IsPut};

use gw_outside::Happening;
use std::alloc::Global;
use std::collections::BTreeMap;
use z_types::Memory;

/// What was made to happen, target by target.
#[derive(Drop)]
pub(crate) struct Happenings {
    table: BTreeMap<u32, Happening>,
}

impl Happenings {
    /// Nothing was.
    #[tactic(auto, using(crate::proofs::WireLemmas::quiet))]
    pub(crate) fn new(alloc: Global) -> Happenings
        ensures { AreQuiet (happened_in result.table) }
    {
        Happenings {
            table: BTreeMap::new(alloc),
        }
    }

    /// What was made to happen to a target.
    pub(crate) fn of(&self, target: u32) -> Happening
        ensures { result ≡ happening_of self.now.table target }
    {
        match self.table.get(&target) {
            Some(happening) => *happening,
            None => Happening {
                presents: 0,
                delay: 0,
                cut: 0,
            },
        }
    }

    /// Keeps what is made to happen to a target now.
    #[tactic(auto, using(crate::proofs::WireLemmas::same))]
    pub(crate) fn put(&mut self, target: u32, happening: Happening) -> Result<(), Memory>
        ensures ok { OnOk result (IsPut target happening self.old.table self.new.table) }
        ensures err { OnErr result
            (AreSame (happened_in self.old.table) (happened_in self.new.table)) }
    {
        self.table.insert(target, happening)?;
        Ok(())
    }
}
