//! A GET, begun.

ghost use Rattle.std.specs.Prelude.{◌≡◌, Some, IfOk};
ghost use Rattle.std.specs.Option.{option_copied};
ghost use Rattle.sru_rules.specs.Course as course;
ghost use Rattle.sru_rules.specs.steps.Works.{IsRetrieval};
ghost use Rattle.front_sru.specs.Gets.{Awaits, IsBegun, IsBegunAt, IsSearchBegun};

use crate::answer::{put_not_found, put_refusal};
use crate::reading::retrieval_of;
use crate::works::search_work;
use crate::{Begun, SruStage, SruState};
use route_config::{Database, Route, database_named};
use sru_request::{Get, QueryFault, name_of};
use sru_rules::Retrieval;
use std::alloc::Global;
use z_types::{Mark, Memory, Text};

/// Begins a GET of a client: its answer is written behind the text, under the mark Plain, or it waits
/// for its search. What names no virtual database is answered so (404), under no mark. Its parameters
/// are checked first, then its query, and the first check that fails refuses it with its diagnostic.
/// Without memory nothing is written.
#[tactic(auto, using(crate::proofs::Beginning::begun_steps, crate::proofs::Beginning::awaited_steps))]
pub fn begin_get(
    alloc: Global,
    state: &mut SruState,
    route: &Route,
    get: &Get,
    out: &mut Text,
) -> Begun
    ensures begun { IsBegun route.now get.now (record { stage = state.old; out = out.old })
        (record { stage = state.new; out = out.new }) result }
    ensures awaited { Awaits route.now state.new result }
{
    match database_of(alloc, route, get) {
        Ok(Some(database)) => begin_at(alloc, state, route, database, get, out),
        Ok(None) => put_not_found(alloc, out),
        Err(_) => Begun::Memory,
    }
}

/// The virtual database that a GET names.
fn database_of<'a>(
    alloc: Global,
    route: &'a Route,
    get: &Get,
) -> Result<Option<&'a Database>, Memory>
    ensures { IfOk result (λ found. option_copied found ≡ course.database_of route.now get.now) }
{
    match name_of(alloc, get.path.as_slice()) {
        Ok(Some(name)) => Ok(database_named(route, name.as_slice())),
        Ok(None) => Ok(None),
        Err(memory) => Err(memory),
    }
}

/// Begins a GET of a virtual database.
#[tactic(auto, using(crate::proofs::Beginning::begun_search, crate::proofs::Beginning::begun_refused, crate::proofs::Beginning::awaited_steps))]
fn begin_at(
    alloc: Global,
    state: &mut SruState,
    route: &Route,
    database: &Database,
    get: &Get,
    out: &mut Text,
) -> Begun
    requires { course.database_of route.now get.now ≡ Some database.now }
    ensures begun { IsBegunAt route.now database.now get.now
        (record { stage = state.old; out = out.old })
        (record { stage = state.new; out = out.new }) result }
    ensures awaited { Awaits route.now state.new result }
{
    match retrieval_of(alloc, route, database, get) {
        Ok(retrieval) => begin_search(state, retrieval),
        Err(QueryFault::Diag(diag)) => put_refusal(alloc, Ok(diag), Mark::Plain, out),
        Err(QueryFault::Memory) => Begun::Memory,
    }
}

/// Begins the search of a retrieval.
fn begin_search(state: &mut SruState, retrieval: Retrieval) -> Begun
    requires { IsRetrieval retrieval }
    ensures { IsSearchBegun retrieval state.old state.new result }
{
    match search_work(&retrieval) {
        Ok(work) => {
            state.wait(SruStage::Searching(retrieval));
            Begun::Work(work)
        }
        Err(_) => Begun::Memory,
    }
}
