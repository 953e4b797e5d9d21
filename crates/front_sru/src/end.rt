//! A work of a GET, ended.

ghost use Rattle.std.specs.Prelude.{◌≡◌, Some, IsSome, IfOk, IfSome};
ghost use Rattle.sru_rules.specs.gateway_rules.Works.{FitsWork};
ghost use Rattle.sru_rules.specs.Asking as asking;
ghost use Rattle.sru_rules.specs.Settling as settling;
ghost use Rattle.sru_rules.specs.steps.Works.{IsRetrieval};
ghost use Rattle.front_sru.specs.Gets.{Awaits, IsEnded, next_behind, work_of};
ghost use Rattle.front_sru.specs.Kept.{IsKept};
ghost use Rattle.front_sru.specs.Followed.{IsReady, next_in};

use crate::answer::{failure, fetch_answer, given, put_answer, refusal};
use crate::diagnostics::out_of_range;
use crate::outcomes::{Came, came_of};
use crate::works::{fetch_work, fetched_count, is_out_of_range};
use crate::{Begun, SruStage, SruState};
use multi_merge::total;
use route_config::Route;
use sru_rules::Retrieval;
use sru_rules::gateway_rules::mark_of;
use std::alloc::Global;
use z_types::{List, Memory, Outcome, Schema, SruAnswer, Text, Work};

/// What follows a work of a GET.
#[derive(Drop)]
enum Followed {
    /// Its answer.
    Answered(SruAnswer),
    /// This fetch, from a result set with these hits.
    Fetches(List<u32>, Work),
}

/// Ends the work that a GET waits for, by what came of it: its answer is written behind the text,
/// under the mark of the work; or the GET goes on, and waits for the fetch of its records. So one mark
/// is told for both works. Without memory nothing is written.
#[tactic(auto, using(crate::proofs::Ending::ended_steps))]
pub fn end_get(
    alloc: Global,
    state: &mut SruState,
    route: &Route,
    outcome: Outcome,
    out: &mut Text,
) -> Begun
    requires waits { IsSome (work_of route.now state.old) }
    requires fits { IfSome (work_of route.now state.old) (λ work. FitsWork work outcome) }
    ensures ended { IsEnded route.now outcome (record { stage = state.old; out = out.old })
        (record { stage = state.new; out = out.new }) result }
    ensures awaited { Awaits route.now state.new result }
{
    let mark = mark_of(&outcome);
    match behind(alloc, route, state.stage(), outcome) {
        Ok(Followed::Answered(answer)) => {
            state.wait(SruStage::Idle);
            put_answer(alloc, Ok(answer), mark, out)
        }
        Ok(Followed::Fetches(hits, work)) => {
            state.fetch(hits);
            Begun::Work(work)
        }
        Err(_) => Begun::Memory,
    }
}

/// What follows the work that a GET waits for.
#[tactic(auto, using(crate::proofs::Ending::behind_steps))]
fn behind(
    alloc: Global,
    route: &Route,
    stage: &SruStage,
    outcome: Outcome,
) -> Result<Followed, Memory>
    requires kept { IsKept stage.now }
    requires waits { IsSome (work_of route.now stage.now) }
    requires fits { IfSome (work_of route.now stage.now) (λ work. FitsWork work outcome) }
    ensures next { IfOk result (λ followed.
        next_behind route.now stage.now outcome ≡ Some (next_in followed)) }
    ensures ready { IfOk result IsReady }
{
    match stage {
        SruStage::Searching(retrieval) => behind_search(alloc, route, retrieval, outcome),
        SruStage::Fetching(retrieval, hits) => {
            let count = total(hits.as_slice());
            behind_fetch(alloc, route, retrieval, count, outcome)
        }
        SruStage::Idle => unreachable!(),
    }
}

/// What follows the fetch of a retrieval of so many records.
fn behind_fetch(
    alloc: Global,
    route: &Route,
    retrieval: &Retrieval,
    count: u32,
    outcome: Outcome,
) -> Result<Followed, Memory>
    ensures next { IfOk result (λ followed. next_in followed
        ≡ settling.answered (settling.fetch_answer route.now.schemas retrieval.now.asked count
        outcome)) }
    ensures ready { IfOk result IsReady }
{
    let schemas = &route.parts().schemas;
    let answer = fetch_answer(alloc, schemas, &retrieval.asked, count, outcome)?;
    Ok(Followed::Answered(answer))
}

/// What follows the search of a retrieval.
fn behind_search(
    alloc: Global,
    route: &Route,
    retrieval: &Retrieval,
    outcome: Outcome,
) -> Result<Followed, Memory>
    requires kept { IsRetrieval retrieval.now }
    requires fits { FitsWork (asking.search_work retrieval.now) outcome }
    ensures next { IfOk result (λ followed. next_in followed
        ≡ settling.after_search route.now.schemas retrieval.now outcome) }
    ensures ready { IfOk result IsReady }
{
    let schemas = &route.parts().schemas;
    match came_of(alloc, outcome)? {
        Came::Failed(diag) => {
            let answer = failure(alloc, &retrieval.asked.version, diag)?;
            Ok(Followed::Answered(answer))
        }
        Came::Good(hits, _) => behind_hits(alloc, schemas, retrieval, hits),
    }
}

/// What follows a search that found these hits.
fn behind_hits(
    alloc: Global,
    schemas: &List<Schema>,
    retrieval: &Retrieval,
    hits: List<u32>,
) -> Result<Followed, Memory>
    ensures { IfOk result (λ followed. next_in followed
        ≡ settling.after_hits schemas.now retrieval.now hits) }
{
    let asked = &retrieval.asked;
    let count = total(hits.as_slice());
    if is_out_of_range(asked, count) {
        let diag = out_of_range(alloc, &asked.version, asked.start)?;
        return Ok(Followed::Answered(refusal(alloc, diag)?));
    }
    if fetched_count(asked, count) == 0 {
        let answer = given(alloc, schemas, asked, count, List::new(alloc))?;
        return Ok(Followed::Answered(answer));
    }
    let work = fetch_work(alloc, schemas, retrieval, &hits)?;
    Ok(Followed::Fetches(hits, work))
}
