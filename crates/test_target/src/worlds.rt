//! The built-in test targets as a world that can be asked directly.

ghost use Rattle.std.specs.Prelude.{◌≡◌, IfOk, [], Some};
ghost use Rattle.test_target.specs.World.{number_at, number_inside};
ghost use Rattle.std.specs.Option.{option_or};
ghost use Rattle.z_types.specs.Bib1.{bib1};
ghost use Rattle.z_types.specs.declared.conditions.Condition.TheVariants.{DatabaseUnavailable};
ghost use Rattle.gw_outside.specs.Targets.{AnswersAs};
ghost use Rattle.test_target.specs.Operands.{use_of};
ghost use Rattle.test_target.specs.Searches.{search_at, database_fault, operand_fault, use_fault};
ghost use Rattle.test_target.specs.Scans.{scan_at};

use crate::databases::database_fault;
use crate::hits::{find_fault, hits, use_fault};
use crate::operands::{sum_mod7, use_of};
use crate::records::record_at;
use crate::scans::scan_answer;
use gw_outside::{TargetAnswer, Targets};
use std::alloc::Global;
use z_types::{
    Address, Attr, Condition, Diag, Item, List, Memory, Oid, Rpn, RpnQuery, ScanAnswer, ScanAsk,
    Site, Text, World,
};

/// The built-in test targets, each an unchanging database. No other target can be asked here: its
/// databases are unavailable.
#[derive(Drop)]
pub struct TestWorld;

impl World for TestWorld {
    ghost use Rattle.test_target.specs.World.{told_of, search_of, record_of, scan_of};
    ghost use Rattle.test_target.specs.WorldLaws.{hits_are_counts, inner_is_told, whole_is_not_gone};

    ghost told = { told_of };

    ghost inner_is_told = { inner_is_told };

    ghost search = { search_of };

    ghost record_ = { record_of };

    ghost scan = { scan_of };

    ghost hits_are_counts = { hits_are_counts };

    ghost whole_is_not_gone = { whole_is_not_gone };
}

impl Targets for TestWorld {
    fn search(
        &self,
        alloc: Global,
        address: &Address,
        dbs: &List<Text>,
        query: &RpnQuery,
    ) -> TargetAnswer<u32> {
        match number_at(address) {
            Ok(Some(target)) => search_at(alloc, target, dbs, query),
            Ok(None) => TargetAnswer::refused(unavailable(alloc)),
            Err(_) => TargetAnswer::Memory,
        }
    }

    fn record_(
        &self,
        alloc: Global,
        address: &Address,
        dbs: &List<Text>,
        query: &RpnQuery,
        position: u32,
        syntax: Option<&Oid>,
        element: Option<&Text>,
    ) -> TargetAnswer<Item> {
        match number_at(address) {
            Ok(Some(target)) => record_at(alloc, target, dbs, query, position, syntax, element),
            Ok(None) => TargetAnswer::refused(unavailable(alloc)),
            Err(_) => TargetAnswer::Memory,
        }
    }

    fn scan(
        &self,
        alloc: Global,
        address: &Address,
        dbs: &List<Text>,
        ask: &ScanAsk,
    ) -> TargetAnswer<ScanAnswer> {
        match number_at(address) {
            Ok(Some(target)) => scan_at(alloc, target, dbs, ask),
            Ok(None) => TargetAnswer::refused(unavailable(alloc)),
            Err(_) => TargetAnswer::Memory,
        }
    }
}

/// The number as which a target answers, where it is a built-in one. For one past the numbers of 32 bits
/// there is no memory.
fn number_at(address: &Address) -> Result<Option<u32>, Memory>
    ensures { IfOk result (λ number. number ≡ number_at address.now) }
{
    match address {
        Address::Test(target) => Ok(Some(*target)),
        Address::Tcp(_, _) => Ok(None),
        Address::Login(Site::Test(target), login) => Ok(Some(number_with(*target, login)?)),
        Address::Login(Site::Tcp(_, _), _) => Ok(None),
    }
}

/// The number as which a target answers inside a login.
fn number_with(target: u32, login: &Text) -> Result<u32, Memory>
    ensures { IfOk result (λ number. number ≡ number_inside (Some login.now) target) }
{
    match target.checked_add(sum_mod7(login.as_slice())) {
        Some(number) => Ok(number),
        None => Err(Memory),
    }
}

/// The number as which a target answers, by itself or inside a login.
pub(crate) fn number_inside(target: u32, login: &Option<Text>) -> Result<u32, Memory>
    ensures { IfOk result (λ number. number ≡ number_inside login.now target) }
{
    match login {
        Some(login) => number_with(target, login),
        None => Ok(target),
    }
}

/// The answer of a test target to a search.
pub(crate) fn search_at(
    alloc: Global,
    target: u32,
    dbs: &List<Text>,
    query: &RpnQuery,
) -> TargetAnswer<u32>
    ensures { AnswersAs result
        (search_at target (record { dbs = dbs.now; query = query.now })) }
{
    match search_fault(alloc, target, dbs, &query.root) {
        Ok(Some(fault)) => TargetAnswer::Refused(fault),
        Ok(None) => TargetAnswer::good(hits(alloc, target, &query.root, dbs)),
        Err(_) => TargetAnswer::Memory,
    }
}

/// The fault of a search: first of its databases, then of its query.
fn search_fault(
    alloc: Global,
    target: u32,
    dbs: &List<Text>,
    query: &Rpn,
) -> Result<Option<Diag>, Memory>
    ensures { IfOk result
        (λ fault. fault ≡ option_or (database_fault target dbs.now) (operand_fault query.now)) }
{
    match database_fault(alloc, target, dbs)? {
        Some(fault) => Ok(Some(fault)),
        None => find_fault(alloc, query),
    }
}

/// The answer of a test target to a scan.
pub(crate) fn scan_at(
    alloc: Global,
    target: u32,
    dbs: &List<Text>,
    ask: &ScanAsk,
) -> TargetAnswer<ScanAnswer>
    ensures { AnswersAs result (scan_at target dbs.now ask.now) }
{
    match scan_fault(alloc, target, dbs, &ask.attrs) {
        Ok(Some(fault)) => TargetAnswer::Refused(fault),
        Ok(None) => TargetAnswer::good(scan_answer(alloc, target, dbs, ask)),
        Err(_) => TargetAnswer::Memory,
    }
}

/// The fault of a scan: first of its databases, then of its Use.
fn scan_fault(
    alloc: Global,
    target: u32,
    dbs: &List<Text>,
    attrs: &List<Attr>,
) -> Result<Option<Diag>, Memory>
    ensures { IfOk result
        (λ fault. fault ≡ option_or (database_fault target dbs.now) (use_fault (use_of attrs.now))) }
{
    match database_fault(alloc, target, dbs)? {
        Some(fault) => Ok(Some(fault)),
        None => use_fault(alloc, use_of(attrs)),
    }
}

/// The diagnostic of a target that cannot be asked here.
fn unavailable(alloc: Global) -> Result<Diag, Memory>
    ensures { IfOk result (λ diag. diag ≡ bib1 DatabaseUnavailable []) }
{
    Diag::bib1(alloc, Condition::DatabaseUnavailable, Text::new(alloc))
}
