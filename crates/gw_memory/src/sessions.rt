//! Sessions with targets that are asked directly.

ghost use Rattle.std.specs.Prelude.{◌≡◌, ◌≤◌, ℕ, List, Ok, IfOk, true, false};
ghost use Rattle.std.specs.Option.{option_copied};
ghost use Rattle.z_types.specs.Links.{no_link};
ghost use Rattle.z_types.specs.Counts.{one_more};
ghost use Rattle.z_types.specs.Pending.{Pending, asked};
ghost use Rattle.z_types.specs.declared.ask.Ask.TheVariants as Asks;
ghost use Rattle.z_types.specs.Pending.{resting, IsPending};
ghost use Rattle.gw_outside.specs.Asks.{MayAsk};
ghost use Rattle.gw_outside.specs.Counts.{BackendCounts, no_counts};
ghost use Rattle.gw_outside.specs.Happened.{AreSame, AreLess, at_address};
ghost use Rattle.gw_outside.specs.Sessions.{IfSession, IsNewSession, OpenHappens, OpenCounts, LookCounts, Fits, IsWorlds, pending_from, pending_after, made_after, is_search, open_counted, start_counted, heard_counted};
ghost use Rattle.gw_outside.specs.Steady.{OpensSteadily, AsksSteadily, LooksSteadily};
ghost use Rattle.gw_outside.specs.Targets.{AnswersAs};
ghost use Rattle.gw_memory.specs.FakeCounts.{counts_of, never_steady};
ghost use Rattle.planned_calls.specs.Planned.{new_calls, fails_next, after_call};
ghost use Rattle.gw_memory.specs.FakeSessions.{pending_of, made_in, Answers, IsHeardOf, IsHeardScan, AreHeard};

use gw_outside::{Backend, Began, Heard, Opening, TargetAnswer, Targets, Watched};
use planned_calls::Calls;
use std::alloc::Global;
use std::mem;
use z_types::{Address, Ask, Item, List, Memory, Oid, ScanAsk, SetKey, Sitting, Text, World, copy};

/// What a session waits for.
#[derive(Drop)]
pub enum Waiting {
    /// Nothing: it rests.
    Nothing,
    /// The reply to its Init.
    Opening,
    /// The reply to an ask.
    Answer(Ask),
    /// Nothing more: a call failed or had no memory.
    Broken,
}

/// A session with a target that is asked directly.
#[derive(Drop)]
pub struct FakeSession {
    address: Address,
    answers: Vec<(Text, Option<(SetKey, u32)>)>,
    waiting: Waiting,
}

impl<W: World> Sitting<W> for FakeSession {
    ghost address = { λ session. session.address };

    ghost made = { λ session. made_in session.answers.items };

    ghost pending = { λ session. pending_of session.waiting };

    ghost link = { λ session. no_link };

    ghost keeps = { false };
}

impl FakeSession {
    /// Waits for something else.
    fn wait_for(&mut self, waiting: Waiting)
        ensures waiting { self.new.waiting ≡ waiting }
        ensures address { self.new.address ≡ self.old.address }
        ensures answers { self.new.answers.items ≡ self.old.answers.items }
    {
        self.waiting = waiting;
    }

    /// What it waited for; it is broken until it waits for something else.
    fn stop_waiting(&mut self) -> Waiting
        ensures waited { result ≡ self.old.waiting }
        ensures waiting { self.new.waiting ≡ Waiting.Broken }
        ensures address { self.new.address ≡ self.old.address }
        ensures answers { self.new.answers.items ≡ self.old.answers.items }
    {
        mem::replace(&mut self.waiting, Waiting::Broken)
    }

    /// The key of the set that was made last under a name.
    fn made(&self, name: &Text) -> Option<&(SetKey, u32)>
        ensures { option_copied result ≡ made_in self.now.answers.items name.now }
    {
        for answer in self.answers.as_slice() {
            if answer.0 == *name {
                return answer.1.as_ref();
            }
        }
        None
    }
}

/// A backend over targets that are asked directly, at each look. Every look is answered.
#[derive(Drop)]
pub struct FakeBackend<T> {
    targets: T,
    calls: Calls,
    faults: u64,
    gones: u64,
    searches: u64,
    dials: u64,
}

impl<T: Targets> FakeBackend<T> {
    /// A backend over these targets; the calls of these numbers, counted from 1, fail.
    pub fn new(targets: T, failing: List<u64>) -> FakeBackend<T>
        ensures counts { ⟦<FakeBackend<T> as Watched>⟧.counts result ≡ no_counts }
        ensures calls { result.calls ≡ new_calls failing }
    {
        FakeBackend {
            targets,
            calls: Calls::new(failing),
            faults: 0,
            gones: 0,
            searches: 0,
            dials: 0,
        }
    }
}

impl<T: Targets> Watched for FakeBackend<T> {
    ghost counts = { counts_of };

    ghost exact = { true };

    ghost happened = { λ _. never_steady };
}

impl<T: Targets> Backend<T> for FakeBackend<T> {
    type Session = FakeSession;

    ghost served = { λ _. 0 };

    fn open_(&mut self, alloc: Global, address: &Address) -> Opening<FakeSession>
        ensures session { IfSession result
            (IsNewSession ⟦<FakeSession as Sitting<T>>⟧ address.now) }
        ensures happened { OpenHappens result never_steady never_steady }
        ensures steady { T.told address.now → never_steady.steady ≡ true
            → OpensSteadily ⟦<FakeSession as Sitting<T>>⟧ true
            (at_address never_steady address.now) (counts_of self.new).dials result }
        ensures counts { OpenCounts true result (counts_of self.old) (counts_of self.new) }
        ensures planned { (open_counted result).fault ≡ fails_next self.old.calls }
        ensures unlinked { ¬ (result ≡ Opening.Failed true) }
        ensures counted { self.new.calls ≡ after_call self.old.calls }
    {
        if self.calls.next_fails() {
            self.faults = self.faults.saturating_add(1);
            return Opening::Failed { linked: false };
        }
        let Ok(address) = copy(address) else {
            return Opening::Memory;
        };
        self.dials = self.dials.saturating_add(1);
        Opening::Session(FakeSession {
            address,
            answers: Vec::new(alloc),
            waiting: Waiting::Opening,
        })
    }

    fn start(&mut self, _: Global, session: &mut FakeSession, ask: &Ask) -> Began
        requires rests { pending_of session.old.waiting ≡ resting }
        requires may { MayAsk (made_in session.old.answers.items) ask.now }
        ensures pending { pending_of session.new.waiting ≡ pending_from ask.now result }
        ensures address { session.new.address ≡ session.old.address }
        ensures made { (name : List ℕ) → made_in session.new.answers.items name
            ≡ made_in session.old.answers.items name }
        ensures happened { AreLess never_steady never_steady }
        ensures steady { T.told session.old.address → never_steady.steady ≡ true
            → AsksSteadily T.World false session.old.address ask.now no_link no_link
            never_steady never_steady result }
        ensures counts { BackendCounts true (Unit {0})
            (start_counted ask.now result) (counts_of self.old) (counts_of self.new) }
        ensures planned { (start_counted ask.now result).fault ≡ fails_next self.old.calls }
        ensures counted { self.new.calls ≡ after_call self.old.calls }
    {
        if self.calls.next_fails() {
            self.faults = self.faults.saturating_add(1);
            session.wait_for(Waiting::Broken);
            return Began::Failed;
        }
        let Ok(own) = copy(ask) else {
            session.wait_for(Waiting::Broken);
            return Began::Memory;
        };
        self.searches = searches_after(self.searches, ask);
        session.wait_for(Waiting::Answer(own));
        Began::Started
    }

    #[tactic(auto, using(crate::proofs::AnswersLemmas::answers_ready, crate::proofs::AnswersLemmas::answers_fit, crate::proofs::AnswersLemmas::answers_worlds, crate::proofs::AnswersLemmas::answers_not_failed))]
    fn look(&mut self, alloc: Global, session: &mut FakeSession) -> Heard
        requires { IsPending (pending_of session.old.waiting) }
        ensures fits { Fits (pending_of session.old.waiting) result }
        ensures worlds { T.told session.old.address → IsWorlds T.World session.old.address
            (made_in session.old.answers.items) (pending_of session.old.waiting) result }
        ensures pending { pending_of session.new.waiting
            ≡ pending_after (pending_of session.old.waiting) result }
        ensures made { (name : List ℕ) → made_in session.new.answers.items name
            ≡ made_after (pending_of session.old.waiting) result
            (made_in session.old.answers.items) name }
        ensures address { session.new.address ≡ session.old.address }
        ensures happened { AreSame never_steady never_steady }
        ensures steady { T.told session.old.address → never_steady.steady ≡ true
            → LooksSteadily false session.old.address never_steady no_link no_link result }
        ensures counts { LookCounts true (T.told session.old.address)
            result (counts_of self.old) (counts_of self.new) }
        ensures planned { (heard_counted result).fault ≡ fails_next self.old.calls }
        ensures ready { (heard_counted result).wait ≡ false }
        ensures counted { self.new.calls ≡ after_call self.old.calls }
    {
        let waiting = session.stop_waiting();
        if self.calls.next_fails() {
            self.faults = self.faults.saturating_add(1);
            return Heard::Failed;
        }
        match waiting {
            Waiting::Opening => {
                session.wait_for(Waiting::Nothing);
                Heard::Opened
            }
            Waiting::Answer(ask) => self.hear_ask(alloc, session, ask),
            _ => unreachable!(),
        }
    }

    fn served_from_cache(&self) -> u64 {
        0
    }
}

impl<T: Targets> FakeBackend<T> {
    /// The answer to an ask, after which the session rests, or is broken for want of memory.
    #[tactic(auto, using(crate::proofs::AnswersLemmas::answers_ready))]
    fn hear_ask(&mut self, alloc: Global, session: &mut FakeSession, ask: Ask) -> Heard
        ensures answer { Answers T.World
            session.old.address (made_in session.old.answers.items) ask result }
        ensures made { (name : List ℕ) → made_in session.new.answers.items name
            ≡ made_after (asked ask) result (made_in session.old.answers.items) name }
        ensures address { session.new.address ≡ session.old.address }
        ensures pending { (p : Pending)
            → pending_of session.new.waiting ≡ pending_after p result }
        ensures counts { counts_of self.new ≡ record (counts_of self.old) {
          gones = one_more (heard_counted result).gone self.old.gones;
        } }
        ensures calls { self.new.calls ≡ self.old.calls }
    {
        let heard = hear(alloc, &self.targets, session, ask);
        session.wait_for(waiting_after(&heard));
        self.gones = gones_after(self.gones, &heard);
        heard
    }
}

/// How many searches were begun after an ask.
fn searches_after(searches: u64, ask: &Ask) -> u64
    ensures { result ≡ one_more (is_search ask.now) searches }
{
    match ask {
        Ask::Search { .. } => searches.saturating_add(1),
        _ => searches,
    }
}

/// How many sets were gone after an answer.
fn gones_after(gones: u64, heard: &Heard) -> u64
    ensures { result ≡ one_more (heard_counted heard.now).gone gones }
{
    match heard {
        Heard::Gone => gones.saturating_add(1),
        _ => gones,
    }
}

/// What a session waits for after an answer.
fn waiting_after(heard: &Heard) -> Waiting
    ensures { (p : Pending) → (heard_counted heard.now).wait ≡ false
        → pending_of result ≡ pending_after p heard.now }
{
    match heard {
        Heard::Failed | Heard::Memory => Waiting::Broken,
        _ => Waiting::Nothing,
    }
}

/// The answer to an ask.
fn hear<T: Targets>(alloc: Global, targets: &T, session: &mut FakeSession, ask: Ask) -> Heard
    ensures answer { Answers T.World
        session.old.address (made_in session.old.answers.items) ask result }
    ensures made { (name : List ℕ) → made_in session.new.answers.items name
        ≡ made_after (asked ask) result (made_in session.old.answers.items) name }
    ensures address { session.new.address ≡ session.old.address }
{
    match ask {
        Ask::Search { name, key } => hear_search(alloc, targets, session, name, key),
        Ask::Present {
            name,
            first,
            count,
            syntax,
            element,
        } => match session.made(&name) {
            Some(made) => hear_present(
                alloc,
                targets,
                &session.address,
                &made.0,
                &syntax,
                &element,
                first,
                count,
            ),
            None => Heard::Gone,
        },
        Ask::Scan { dbs, ask } => hear_scan(alloc, targets, &session.address, &dbs, &ask),
    }
}

/// The answer to a search, which is kept under its name.
fn hear_search<T: Targets>(
    alloc: Global,
    targets: &T,
    session: &mut FakeSession,
    name: Text,
    key: SetKey,
) -> Heard
    ensures answer { Answers T.World
        session.old.address (made_in session.old.answers.items) (Asks.Search name key) result }
    ensures made { (other : List ℕ) → made_in session.new.answers.items other
        ≡ made_after (asked (Asks.Search name key)) result
        (made_in session.old.answers.items) other }
    ensures address { session.new.address ≡ session.old.address }
{
    match targets.search(alloc, &session.address, &key.dbs, &key.query) {
        TargetAnswer::Good(hits) => match session.answers.insert(0, (name, Some((key, hits)))) {
            Ok(()) => Heard::Hits(hits),
            Err(_) => Heard::Memory,
        },
        TargetAnswer::Refused(diag) => match session.answers.insert(0, (name, None)) {
            Ok(()) => Heard::Refused(diag),
            Err(_) => Heard::Memory,
        },
        TargetAnswer::Memory => Heard::Memory,
    }
}

/// The answer to a Present of a set that was made.
fn hear_present<T: Targets>(
    alloc: Global,
    targets: &T,
    address: &Address,
    key: &SetKey,
    syntax: &Option<Oid>,
    element: &Option<Text>,
    first: u32,
    count: u32,
) -> Heard
    ensures { IsHeardOf (λ position. T.World.record_ address.now key.now position
        syntax.now element.now) first count result }
{
    if count == 0 {
        return Heard::Gone;
    }
    match record_at(alloc, targets, address, key, syntax, element, first) {
        TargetAnswer::Good(item) => {
            match items_from(
                alloc, targets, address, key, syntax, element, first, count, item,
            ) {
                Ok(items) => Heard::Items(items),
                Err(_) => Heard::Memory,
            }
        }
        TargetAnswer::Refused(diag) => Heard::Refused(diag),
        TargetAnswer::Memory => Heard::Memory,
    }
}

/// The record at a position of a set.
fn record_at<T: Targets>(
    alloc: Global,
    targets: &T,
    address: &Address,
    key: &SetKey,
    syntax: &Option<Oid>,
    element: &Option<Text>,
    position: u32,
) -> TargetAnswer<Item>
    ensures { AnswersAs result
        (T.World.record_ address.now key.now position syntax.now element.now) }
{
    let (syntax, element) = (syntax.as_ref(), element.as_ref());
    targets.record_(
        alloc, address, &key.dbs, &key.query, position, syntax, element,
    )
}

/// The first record and those behind it, up to one that is refused.
fn items_from<T: Targets>(
    alloc: Global,
    targets: &T,
    address: &Address,
    key: &SetKey,
    syntax: &Option<Oid>,
    element: &Option<Text>,
    first: u32,
    count: u32,
    item: Item,
) -> Result<List<Item>, Memory>
    requires some { 1 ≤ count }
    requires first { T.World.record_ address.now key.now first
        syntax.now element.now ≡ Ok item }
    ensures { IfOk result (AreHeard (λ position. T.World.record_
        address.now key.now position syntax.now element.now) first count) }
{
    let mut items = List::new(alloc);
    items.push(item)?;
    for place in 1..count {
        let Some(position) = first.checked_add(place) else {
            break;
        };
        match record_at(alloc, targets, address, key, syntax, element, position) {
            TargetAnswer::Good(item) => items.push(item)?,
            TargetAnswer::Refused(_) => break,
            TargetAnswer::Memory => return Err(Memory),
        }
    }
    Ok(items)
}

/// The answer to a scan.
fn hear_scan<T: Targets>(
    alloc: Global,
    targets: &T,
    address: &Address,
    dbs: &List<Text>,
    ask: &ScanAsk,
) -> Heard
    ensures { IsHeardScan (T.World.scan address.now dbs.now ask.now) result }
{
    match targets.scan(alloc, address, dbs, ask) {
        TargetAnswer::Good(answer) => Heard::Scanned(answer),
        TargetAnswer::Refused(diag) => Heard::Refused(diag),
        TargetAnswer::Memory => Heard::Memory,
    }
}
