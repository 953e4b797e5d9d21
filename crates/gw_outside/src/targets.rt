//! Targets that can be asked directly.

ghost use Rattle.std.specs.Prelude.{◌≡◌, MatchResult};
ghost use Rattle.std.specs.Option.{option_copied};
ghost use Rattle.gw_outside.specs.Targets.{AnswersAs};

use std::alloc::Global;
use z_types::{Address, Diag, Item, List, Memory, Oid, RpnQuery, ScanAnswer, ScanAsk, Text, World};

/// What a target answers.
#[derive(Drop)]
pub enum TargetAnswer<T> {
    /// What was asked for.
    Good(T),
    /// The diagnostic in its place.
    Refused(Diag),
    /// No memory could be had.
    Memory,
}

impl<T: Drop> TargetAnswer<T> {
    /// What was asked for, where memory sufficed to find it.
    pub fn good(found: Result<T, Memory>) -> TargetAnswer<T>
        ensures { MatchResult found
            (λ x. result ≡ TargetAnswer.Good x) (λ _. result ≡ TargetAnswer.Memory) }
    {
        match found {
            Ok(found) => TargetAnswer::Good(found),
            Err(_) => TargetAnswer::Memory,
        }
    }

    /// A diagnostic, where memory sufficed to make it.
    pub fn refused(diag: Result<Diag, Memory>) -> TargetAnswer<T>
        ensures { MatchResult diag
            (λ d. result ≡ TargetAnswer.Refused d) (λ _. result ≡ TargetAnswer.Memory) }
    {
        match diag {
            Ok(diag) => TargetAnswer::Refused(diag),
            Err(_) => TargetAnswer::Memory,
        }
    }
}

/// Targets that answer as the world says. They have no faults.
pub trait Targets: World {
    /// The number of records that the query finds in the databases at an address.
    fn search(
        &self,
        alloc: Global,
        address: &Address,
        dbs: &List<Text>,
        query: &RpnQuery,
    ) -> TargetAnswer<u32>
        ensures { AnswersAs result
            (Self.search address.now (record { dbs = dbs.now; query = query.now })) };

    /// The record at a position, counted from 1, of the result set of that query and those databases,
    /// or the diagnostic in place of the whole present. Where no syntax or element set is named the
    /// target takes its own.
    fn record_(
        &self,
        alloc: Global,
        address: &Address,
        dbs: &List<Text>,
        query: &RpnQuery,
        position: u32,
        syntax: Option<&Oid>,
        element: Option<&Text>,
    ) -> TargetAnswer<Item>
        ensures { AnswersAs result
            (Self.record_ address.now (record { dbs = dbs.now; query = query.now })
            position (option_copied syntax.entry) (option_copied element.entry)) };

    /// The entries of an index of the databases at an address.
    fn scan(
        &self,
        alloc: Global,
        address: &Address,
        dbs: &List<Text>,
        ask: &ScanAsk,
    ) -> TargetAnswer<ScanAnswer>
        ensures { AnswersAs result (Self.scan address.now dbs.now ask.now) };
}
