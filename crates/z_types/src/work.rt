//! What is asked of the targets for a request (this project's own).

ghost use Rattle.std.specs.Prelude.{◌≡◌, IfOk};
ghost use Rattle.z_types.specs.equality.Work.{work_exact};

use crate::{Exact, List, Memory, Oid, RpnQuery, ScanAsk, Text, copy};
use std::alloc::AllocError;

/// What is asked of the targets for one request. Legs are named by their places in the route, counted
/// from 0. A login is that of the client's idAuthentication, and None where none was read.
#[derive(PartialEq, Eq, Drop)]
pub enum Work {
    /// The hits of a query, and the records that a Search shows.
    Search {
        /// Who asks.
        login: Option<Text>,
        /// The legs, in the order of the databases.
        legs: List<u32>,
        /// The query, without operands that are result sets.
        query: RpnQuery,
        /// The small-set upper bound, 0 to 2147483647.
        small: u32,
        /// The large-set lower bound, 0 to 2147483647.
        large: u32,
        /// The medium-set present number, 0 to 2147483647.
        medium: u32,
        /// The element set name of a small set.
        small_element: Option<Text>,
        /// The element set name of a medium set.
        medium_element: Option<Text>,
        /// The preferred record syntax.
        syntax: Option<Oid>,
        /// How many records may be shown.
        room: u32,
    },
    /// Records of a query whose hits are known.
    Fetch {
        /// Who asks.
        login: Option<Text>,
        /// The legs, in the order of the databases.
        legs: List<u32>,
        /// The query, without operands that are result sets.
        query: RpnQuery,
        /// The hits of each leg, in the order of the legs, 0 to 2147483647 each.
        hits: List<u32>,
        /// The position of the first record, counted from 1.
        first: u32,
        /// How many records.
        count: u32,
        /// The preferred record syntax.
        syntax: Option<Oid>,
        /// The element set name.
        element: Option<Text>,
    },
    /// Entries of an index.
    Scan {
        /// Who asks.
        login: Option<Text>,
        /// The leg.
        leg: u32,
        /// What is asked of its index.
        ask: ScanAsk,
    },
}

/// Who asks, the legs and the query, copied.
fn asked_of(
    login: &Option<Text>,
    legs: &List<u32>,
    query: &RpnQuery,
) -> Result<(Option<Text>, List<u32>, RpnQuery), Memory>
    ensures login { IfOk result (λ asked. asked.0 ≡ login.now) }
    ensures legs { IfOk result (λ asked. asked.1 ≡ legs.now) }
    ensures query { IfOk result (λ asked. asked.2 ≡ query.now) }
{
    Ok((copy(login)?, copy(legs)?, copy(query)?))
}

/// Two element set names and a record syntax, copied.
fn names_of(
    small_element: &Option<Text>,
    medium_element: &Option<Text>,
    syntax: &Option<Oid>,
) -> Result<(Option<Text>, Option<Text>, Option<Oid>), Memory>
    ensures small { IfOk result (λ names. names.0 ≡ small_element.now) }
    ensures medium { IfOk result (λ names. names.1 ≡ medium_element.now) }
    ensures syntax { IfOk result (λ names. names.2 ≡ syntax.now) }
{
    Ok((copy(small_element)?, copy(medium_element)?, copy(syntax)?))
}

/// Hits, a record syntax and an element set name, copied.
fn records_of(
    hits: &List<u32>,
    syntax: &Option<Oid>,
    element: &Option<Text>,
) -> Result<(List<u32>, Option<Oid>, Option<Text>), Memory>
    ensures hits { IfOk result (λ records. records.0 ≡ hits.now) }
    ensures syntax { IfOk result (λ records. records.1 ≡ syntax.now) }
    ensures element { IfOk result (λ records. records.2 ≡ element.now) }
{
    Ok((copy(hits)?, copy(syntax)?, copy(element)?))
}

/// A work again. Its parts are copied in threes: where a copy fails, those made before it are given back, and a chain of ten has
/// too many such ends.
fn again(work: &Work) -> Result<Work, Memory>
    ensures { IfOk result (λ again. again ≡ work.now) }
{
    match work {
        Work::Search {
            login,
            legs,
            query,
            small,
            large,
            medium,
            small_element,
            medium_element,
            syntax,
            room,
        } => {
            let (login, legs, query) = asked_of(login, legs, query)?;
            let (small_element, medium_element, syntax) = names_of(
                small_element,
                medium_element,
                syntax,
            )?;
            Ok(Work::Search {
                login,
                legs,
                query,
                small: *small,
                large: *large,
                medium: *medium,
                small_element,
                medium_element,
                syntax,
                room: *room,
            })
        }
        Work::Fetch {
            login,
            legs,
            query,
            hits,
            first,
            count,
            syntax,
            element,
        } => {
            let (login, legs, query) = asked_of(login, legs, query)?;
            let (hits, syntax, element) = records_of(hits, syntax, element)?;
            Ok(Work::Fetch {
                login,
                legs,
                query,
                hits,
                first: *first,
                count: *count,
                syntax,
                element,
            })
        }
        Work::Scan { login, leg, ask } => Ok(Work::Scan {
            login: copy(login)?,
            leg: *leg,
            ask: copy(ask)?,
        }),
    }
}

impl Clone for Work {
    ghost is_clone = { λ a b. b ≡ a };

    fn clone(&self) -> Result<Work, AllocError> {
        match again(self) {
            Ok(work) => Ok(work),
            Err(Memory) => Err(AllocError),
        }
    }
}

impl Exact for Work {
    ghost exact_eq = { work_exact };

    ghost exact_clone = { λ a b h. h };
}
