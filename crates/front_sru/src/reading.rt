//! What a GET of a virtual database asks for.

ghost use Rattle.std.specs.Prelude.{◌≡◌, Some, IfOk, option_map, ◌∷◌, []};
ghost use Rattle.access_rules.specs.Denials.{first_denial};
ghost use Rattle.access_rules.specs.declared.who.Who.TheVariants.{Anonymous};
ghost use Rattle.sru_rules.specs.Course.{database_of};
ghost use Rattle.sru_rules.specs.Diagnostics as diagnostics;
ghost use Rattle.sru_rules.specs.steps.Works.{IsRetrieval};
ghost use Rattle.front_sru.specs.Queries.{IsOpenRequest, IsReadGet, IsReadRequest};

use crate::diagnostics::of_target;
use crate::query::rpn_of;
use access_rules::{Who, first_denial};
use route_config::{Database, Route};
use sru_request::{Get, QueryFault, SruQuery, query_of};
use sru_rules::Retrieval;
use std::alloc::Global;
use std::slice;
use z_types::{Memory, RpnQuery, SruDiag, Text, copy};

/// What a GET asks the targets for, or the diagnostic that refuses it: its parameters first, then its
/// query, then whether anyone may search the database.
pub(crate) fn retrieval_of(
    alloc: Global,
    route: &Route,
    database: &Database,
    get: &Get,
) -> Result<Retrieval, QueryFault>
    requires { database_of route.now get.now ≡ Some database.now }
    ensures read { IsReadGet route.now database.now get.now result }
    ensures kept { IfOk result IsRetrieval }
{
    match query_of(alloc, get, &route.parts().schemas) {
        Ok(asked) => retrieval_for(alloc, route, database, asked),
        Err(fault) => Err(fault),
    }
}

/// What a request whose parameters are taken asks the targets for.
fn retrieval_for(
    alloc: Global,
    route: &Route,
    database: &Database,
    asked: SruQuery,
) -> Result<Retrieval, QueryFault>
    ensures { IsReadRequest route.now database.now asked result }
{
    match rpn_of(alloc, &asked.version, &route.parts().indexes, &asked.query) {
        Ok(query) => retrieval_by(alloc, route, database, asked, query),
        Err(fault) => Err(fault),
    }
}

/// What a request asks the targets for by its query, where anyone may search the database.
fn retrieval_by(
    alloc: Global,
    route: &Route,
    database: &Database,
    asked: SruQuery,
    query: RpnQuery,
) -> Result<Retrieval, QueryFault>
    ensures { IsOpenRequest route.now database.now asked query result }
{
    let legs = copy(&database.legs)?;
    match denial_of(alloc, route, database, &asked.version)? {
        Some(diag) => Err(QueryFault::Diag(diag)),
        None => Ok(Retrieval { legs, asked, query }),
    }
}

/// Why a client of SRU, who is nobody's, may not search a database.
fn denial_of(
    alloc: Global,
    route: &Route,
    database: &Database,
    version: &Text,
) -> Result<Option<SruDiag>, Memory>
    ensures { IfOk result (λ denial. denial ≡ option_map (diagnostics.of_target version.now)
        (first_denial route.now Anonymous (database.now.name ∷ []))) }
{
    match first_denial(
        alloc,
        route,
        Who::Anonymous,
        slice::from_ref(&database.name),
    )? {
        Some(diag) => Ok(Some(of_target(version, diag)?)),
        None => Ok(None),
    }
}
