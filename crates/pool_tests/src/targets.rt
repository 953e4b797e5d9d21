//! Targets that find three records at each search. Neither records nor scans are asked of them.

ghost use Rattle.std.specs.Prelude.{refl};
ghost use Rattle.pool_tests.specs.Steady.{three_hits, three_is_a_count, no_record, no_scan};

use gw_outside::{TargetAnswer, Targets};
use std::alloc::Global;
use z_types::{Address, Item, List, Oid, RpnQuery, ScanAnswer, ScanAsk, Text, World};

/// Targets that find three records at each search, and are told.
#[derive(Drop)]
pub(crate) struct Steady;

impl World for Steady {
    ghost told = { λ _. Unit {0} };

    ghost inner_is_told = { λ _ h. h };

    ghost search = { λ _ _. three_hits };

    ghost record_ = { λ _ _ _ _ _. no_record };

    ghost scan = { λ _ _ _. no_scan };

    ghost hits_are_counts = { λ _ _. three_is_a_count };

    ghost whole_is_not_gone = { λ _ _ _ _ _. refl };
}

impl Targets for Steady {
    fn search(&self, _: Global, _: &Address, _: &List<Text>, _: &RpnQuery) -> TargetAnswer<u32> {
        TargetAnswer::Good(3)
    }

    fn record_(
        &self,
        _: Global,
        _: &Address,
        _: &List<Text>,
        _: &RpnQuery,
        _: u32,
        _: Option<&Oid>,
        _: Option<&Text>,
    ) -> TargetAnswer<Item> {
        TargetAnswer::Memory
    }

    fn scan(
        &self,
        _: Global,
        _: &Address,
        _: &List<Text>,
        _: &ScanAsk,
    ) -> TargetAnswer<ScanAnswer> {
        TargetAnswer::Memory
    }
}
