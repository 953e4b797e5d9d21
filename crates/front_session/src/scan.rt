//! What a Scan asks, once its checks have passed (ANSI/NISO Z39.50-2003, 3.2.8.1).

ghost use Rattle.std.specs.Prelude.{◌≡◌, ◌≤◌, IfOk, nat_lt};
ghost use Rattle.z_types.specs.Numbers.{IfGood, ScanHasNumbers};
ghost use Rattle.z_types.specs.QueryMeasures.{leaf_cost};
ghost use Rattle.z_types.specs.Bounds.{most_query_cost};
ghost use Rattle.unit_forms.specs.Logins.{IsLoginIf};
ghost use Rattle.gateway_rules.specs.Asking as asking;
ghost use Rattle.gateway_rules.specs.Checks.{cost_check, scan_checks, terms_check};
ghost use Rattle.front_session.specs.Refusals.{AnswersCheck, AnswersChecks, AnswersDue};
ghost use Rattle.front_session.specs.Scans.{IsAskedOf, IsScan};

use crate::asking::Asking;
use crate::check::{check_databases, refuse_where, served_form};
use crate::refusal::Refusal;
use access_rules::Who;
use gateway_rules::Agreement;
use route_config::Route;
use std::alloc::Global;
use z_types::{Attr, Condition, List, MOST_QUERY_COST, Measures, Scan, ScanAsk, Term, Work, copy};

/// The most terms of a Scan.
const MOST_TERMS: u32 = 1000;

/// What a Scan asks of its leg, or why it fails.
pub(crate) fn scan_due(
    alloc: Global,
    route: &Route,
    agreed: &Agreement,
    scan: &Scan,
) -> Result<Asking, Refusal>
    requires login { IsLoginIf agreed.now.login }
    requires numbers { IfGood scan.now.ask ScanHasNumbers }
    ensures due { AnswersDue (asking.scan_due route.now agreed.now scan.now) result }
    ensures scans { IfOk result IsScan }
{
    let (ask, leg) = check_scan(alloc, route, agreed.whose, scan)?;
    Ok(Asking::Works(Work::Scan {
        login: copy(&agreed.login)?,
        leg,
        ask: copy(ask)?,
    }))
}

/// What a Scan asks, and of which leg, where no check refuses.
fn check_scan<'a>(
    alloc: Global,
    route: &Route,
    who: Who,
    scan: &'a Scan,
) -> Result<(&'a ScanAsk, u32), Refusal>
    requires numbers { IfGood scan.now.ask ScanHasNumbers }
    ensures { AnswersChecks (scan_checks route.now who scan.now)
        (λ both. IsAskedOf route.now scan.now both.0.now both.1) result }
{
    let ask = served_form(&scan.ask)?;
    let legs = check_databases(alloc, route, who, &scan.dbs)?;
    let is_other = legs.len() != 1;
    refuse_where(
        alloc,
        is_other,
        Condition::CombinationOfDatabasesNotSupported,
        b"",
    )?;
    check_terms(alloc, ask)?;
    check_cost(alloc, ask)?;
    Ok((ask, legs.as_slice()[0]))
}

/// Refuses where a Scan asks for too many terms.
fn check_terms(alloc: Global, ask: &ScanAsk) -> Result<(), Refusal>
    ensures { AnswersCheck (terms_check ask.now) result }
{
    let are_many = ask.number > MOST_TERMS;
    refuse_where(alloc, are_many, Condition::ResourcesExhausted, b"terms")
}

/// Refuses where the attributes and the term of a Scan cost too much.
fn check_cost(alloc: Global, ask: &ScanAsk) -> Result<(), Refusal>
    ensures check { AnswersCheck (cost_check ask.now) result }
    ensures cheap { IfOk result (λ passed. leaf_cost ask.now.attrs ask.now.term ≤ most_query_cost) }
{
    let is_costly = is_costly(&ask.attrs, &ask.term);
    refuse_where(alloc, is_costly, Condition::ResourcesExhausted, b"query")
}

/// Whether attributes and a term cost too much as one operand.
fn is_costly(attrs: &List<Attr>, term: &Term) -> bool
    ensures { result ≡ nat_lt most_query_cost (leaf_cost attrs.now term.now) }
{
    Measures::of_leaf(attrs, term).cost > MOST_QUERY_COST
}
