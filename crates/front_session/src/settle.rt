//! What an outcome leaves of a request that waits (ANSI/NISO Z39.50-2003, 3.2.2.1, 3.2.3.1 and 3.2.8.1).

ghost use Rattle.std.specs.Prelude.{◌≡◌, ◌≤◌, ◌<◌, ◌+◌, ◌^◌, [], None, IfOk};
ghost use Rattle.limit_rules.specs.Limits.{most_records};
ghost use Rattle.gateway_rules.specs.Given.{returned};
ghost use Rattle.gateway_rules.specs.Settling as settling;
ghost use Rattle.gateway_rules.specs.Works.{CanBegin, FitsWork};
ghost use Rattle.front_session.specs.Settling.{ArePartsOf, IsAnswered, IsCutOf, good_reply_to, only_why, reply_by_parts, searches_behind};

use crate::cut::cut_of;
use gateway_rules::{
    Sizes, count_returned, failed_reply, finished_reply, init_answer, marked_diag, present_reply,
    scan_reply, search_reply,
};
use multi_merge::total;
use std::alloc::Global;
use z_types::{
    Diag, Fetched, List, Memory, Outcome, Reply, Request, ScanAnswer, Work, copy, shown_count,
};

/// A request that waits for what comes of its work.
#[derive(Drop)]
pub(crate) struct Pending {
    pub(crate) request: Request,
    pub(crate) work: Work,
}

impl Pending {
    /// A request and its work, copied.
    pub(crate) fn of(request: &Request, work: &Work) -> Result<Pending, Memory>
        ensures request { IfOk result (λ pending. pending.request ≡ request.now) }
        ensures work { IfOk result (λ pending. pending.work ≡ work.now) }
    {
        let request = copy(request)?;
        match copy(work) {
            Ok(work) => Ok(Pending { request, work }),
            Err(memory) => {
                drop(request);
                Err(memory)
            }
        }
    }
}

/// The parts of an outcome, each empty where it has no such part.
#[derive(Drop)]
struct OutcomeParts {
    /// Why the request fails.
    why: Option<Diag>,
    /// The hits that a Search found.
    hits: List<u32>,
    /// The records that were fetched.
    fetched: Fetched,
    /// The entries that a Scan found.
    scanned: ScanAnswer,
}

/// How many records were fetched, and the parts of an outcome with those of them that are given.
#[derive(Drop)]
struct CutParts {
    /// How many records were fetched.
    all: u32,
    /// The parts.
    parts: OutcomeParts,
}

/// What is answered to a request that waited, and what is kept of its outcome.
#[derive(Drop)]
pub(crate) struct Answer {
    /// The reply.
    pub(crate) reply: Reply,
    /// Whether the request did not fail.
    pub(crate) is_good: bool,
    /// The hits that a Search found.
    pub(crate) hits: List<u32>,
    /// How many records are given.
    pub(crate) given: u32,
}

/// What is answered to a request that waited, and what is kept of its outcome.
pub(crate) fn answer_to(
    alloc: Global,
    sizes: Sizes,
    pending: &Pending,
    outcome: Outcome,
) -> Result<Answer, Memory>
    requires begins { CanBegin pending.now.work }
    requires fits { FitsWork pending.now.work outcome }
    ensures { IfOk result (IsAnswered sizes pending.now outcome) }
{
    let parts = parts_of(alloc, outcome)?;
    let is_good = parts.why.is_none();
    let cut = cut_parts(alloc, sizes, &pending.work, parts)?;
    let given = count_returned(&cut.parts.fetched);
    let (reply, hits) = reply_to(alloc, pending, cut)?;
    Ok(Answer {
        reply,
        is_good,
        hits,
        given,
    })
}

/// The parts of an outcome, with what is given of its records in place of what was fetched.
#[tactic(auto, using(crate::proofs::CutLemmas::fewer))]
fn cut_parts(
    alloc: Global,
    sizes: Sizes,
    work: &Work,
    parts: OutcomeParts,
) -> Result<CutParts, Memory>
    requires few { returned parts.fetched ≤ most_records }
    ensures { IfOk result (IsCutOf sizes work.now parts) }
{
    let OutcomeParts {
        why,
        hits,
        fetched,
        scanned,
    } = parts;
    let all = count_returned(&fetched);
    let asked = asked_of(work, &hits);
    match cut_of(alloc, sizes, asked, fetched) {
        Ok(fetched) => Ok(CutParts {
            all,
            parts: OutcomeParts {
                why,
                hits,
                fetched,
                scanned,
            },
        }),
        Err(memory) => {
            drop((why, hits, scanned));
            Err(memory)
        }
    }
}

/// How many records a work asked for, of a Search with these hits those that are shown.
fn asked_of(work: &Work, hits: &List<u32>) -> u32
    ensures { result ≡ settling.asked_of work.now hits.now }
{
    match work {
        Work::Search {
            small,
            large,
            medium,
            ..
        } => shown_count(total(hits.as_slice()), *small, *large, *medium),
        Work::Fetch { count, .. } => *count,
        Work::Scan { .. } => 0,
    }
}

/// The parts of an outcome.
fn parts_of(alloc: Global, outcome: Outcome) -> Result<OutcomeParts, Memory>
    ensures { IfOk result (ArePartsOf outcome) }
{
    match outcome {
        Outcome::Found { hits, fetched } => Ok(OutcomeParts {
            why: None,
            hits,
            fetched,
            scanned: no_entries(alloc),
        }),
        Outcome::Fetched(fetched) => Ok(OutcomeParts {
            why: None,
            hits: List::new(alloc),
            fetched,
            scanned: no_entries(alloc),
        }),
        Outcome::Scanned(scanned) => Ok(OutcomeParts {
            why: None,
            hits: List::new(alloc),
            fetched: Fetched::None,
            scanned,
        }),
        Outcome::Refused(diag) => Ok(only_why(alloc, Some(diag))),
        Outcome::Marked { mark, class } => Ok(only_why(alloc, marked_diag(alloc, mark, class)?)),
    }
}

/// The parts of an outcome that is none but why the request fails.
fn only_why(alloc: Global, why: Option<Diag>) -> OutcomeParts
    ensures { result ≡ only_why why }
{
    OutcomeParts {
        why,
        hits: List::new(alloc),
        fetched: Fetched::None,
        scanned: no_entries(alloc),
    }
}

/// No entries of a Scan.
fn no_entries(alloc: Global) -> ScanAnswer
    ensures { result ≡ record { position = None; entries = [] } }
{
    ScanAnswer {
        position: None,
        entries: List::new(alloc),
    }
}

/// The reply to the request that waits, and the hits that a Search found.
fn reply_to(alloc: Global, pending: &Pending, cut: CutParts) -> Result<(Reply, List<u32>), Memory>
    requires few { returned cut.parts.fetched ≤ most_records }
    ensures reply { IfOk result (λ both. both.0 ≡ reply_by_parts pending.now cut.all cut.parts) }
    ensures hits { IfOk result (λ both. both.1 ≡ cut.parts.hits) }
{
    let CutParts { all, parts } = cut;
    let OutcomeParts {
        why,
        hits,
        fetched,
        scanned,
    } = parts;
    let reply = match why {
        Some(diag) => failed_reply(alloc, &pending.request, diag)?,
        None => good_reply(alloc, pending, &hits, all, fetched, scanned)?,
    };
    Ok((reply, hits))
}

/// The reply to a request that did not fail.
fn good_reply(
    alloc: Global,
    pending: &Pending,
    hits: &List<u32>,
    all: u32,
    fetched: Fetched,
    scanned: ScanAnswer,
) -> Result<Reply, Memory>
    requires few { returned fetched ≤ most_records }
    ensures { IfOk result
        (λ reply. reply ≡ good_reply_to pending.now hits.now all fetched scanned) }
{
    match &pending.request {
        Request::Init(init) => init_answer(init, true),
        Request::Search(search) => search_reply(search, hits, all, fetched),
        Request::Present(present) => {
            present_reply(present, fetched_from(&pending.work), all, fetched)
        }
        Request::Scan(scan) => scan_reply(alloc, scan, scanned),
        Request::Close(close) => finished_reply(close),
    }
}

/// The hits of the set that a Present fetches from.
fn fetched_from(work: &Work) -> &[u32]
    ensures { result.now ≡ settling.fetched_from work.now }
{
    match work {
        Work::Fetch { hits, .. } => hits.as_slice(),
        Work::Search { .. } | Work::Scan { .. } => &[],
    }
}

/// How many searches are spent behind a request.
pub(crate) fn searches_behind(request: &Request, searches: u32) -> u32
    requires { searches + 1 < 2 ^ 32 }
    ensures { result ≡ searches_behind request.now searches }
{
    match request {
        Request::Search(_) => searches + 1,
        _ => searches,
    }
}
