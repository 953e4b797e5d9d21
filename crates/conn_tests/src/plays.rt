//! Two connections of one route, over any backend and any door, played step by step.

ghost use Rattle.std.specs.Prelude.{◌≡◌, ℕ};
ghost use Rattle.route_config.specs.declared.route.Route.{Route};
ghost use Rattle.conn_tests.specs.Played.{ArePlayed, IsClient, StaysClient};

use crate::units::octets_of;
use front_conn::{Conn, Stepped, Total, stays_of_route};
use gw_outside::{Backend, Events};
use pool_sets::Door;
use route_config::Route;
use std::alloc::Global;
use std::marker::Model;
use std::mem;
use z_types::{End, List, Mark, Memory, Sitting, Text, World};

/// The most steps until a connection is idle.
const MOST_STEPS: u32 = 10_000;

/// What is done with a connection, what is to come of it, or what happens between two of its steps.
#[derive(Clone, Copy, Drop)]
pub(crate) enum Step {
    /// These units come as one piece.
    Feed(&'static [&'static str]),
    /// They come octet by octet, and behind each steps are made until one is idle.
    FeedEach(&'static [&'static str]),
    /// They come in two pieces, the first of so many octets, and behind each steps are made until one is
    /// idle.
    FeedCut(&'static [&'static str], usize),
    /// No more will come.
    End,
    /// Steps, which answer so.
    Steps(&'static [Stepped]),
    /// Steps are made until one is idle.
    Run,
    /// These units were written, and no others since it was last asked.
    Wrote(&'static [&'static str]),
    /// It has these marks, this end, and of each class these dials, searches, Gones and faults.
    Has(&'static [Mark], Option<End>, &'static [[u64; 4]]),
    /// Units come as one piece, steps are made until one is idle, and these units were written.
    Ask(&'static [&'static str], &'static [&'static str]),
    /// No more will come, steps are made until one is idle, nothing was written, and it has these.
    Ends(&'static [Mark], End, &'static [[u64; 4]]),
    /// It is given up.
    GiveUp,
    /// The other connection is played on.
    Other,
    /// So many seconds go by.
    Tick(u64),
    /// The next Presents of a test target, so many, find all sets gone.
    Gone(u32, u32),
    /// All links with a test target are cut.
    Cut(u32),
    /// The replies of a test target arrive after so many looks from now on.
    Slow(u32, u32),
}

/// A connection, whether its input has ended, and what was written since it was last asked.
struct Client<W: World, S: Sitting<W>> {
    conn: Conn<W, S>,
    has_ended: bool,
    written: Text,
}

impl<W: World, S: Sitting<W>> Model for Client<W, S> {
    ghost use Rattle.std.specs.Coded.{codes};
    ghost use Rattle.z_types.specs.Tree.{tree_code};
    ghost use Rattle.conn_tests.specs.Played.{ClientState};

    ghost Value = { ClientState S };

    ghost coded = { Prim.hlevel (codes, tree_code) };

    ghost view = { λ c. record { conn = c.conn; has_ended = c.has_ended } };
}

/// The connection that is played, the other, and the moment.
struct Play<W: World, S: Sitting<W>> {
    client: Client<W, S>,
    other: Client<W, S>,
    now: u64,
}

impl<W: World, S: Sitting<W>> Client<W, S> {
    /// A new connection.
    fn new(alloc: Global) -> Client<W, S>
        ensures { (route : Route) (most : ℕ) → IsClient W.World S.Sitting route most result }
    {
        Client {
            conn: Conn::new(alloc),
            has_ended: false,
            written: Text::new(alloc),
        }
    }

    /// Lets it go.
    fn let_go(self) {
        let Client {
            conn,
            has_ended: _,
            written: _,
        } = self;
        drop(conn.into_marks());
    }

    /// Whether a piece may still come, which then does.
    fn feed(&mut self, piece: &[u8]) -> Result<bool, Memory>
        requires { self.old.conn.has_ended ≡ self.old.has_ended }
        ensures { StaysClient W.World S.Sitting self.old self.new }
    {
        stays_of_route::<W, S>();
        if self.has_ended {
            return Ok(false);
        }
        self.conn.feed(piece)?;
        Ok(true)
    }

    /// No more will come.
    fn end_input(&mut self) -> bool
        ensures { StaysClient W.World S.Sitting self.old self.new }
    {
        stays_of_route::<W, S>();
        self.conn.end_input();
        self.has_ended = true;
        true
    }

    /// Takes what is to be written.
    fn take_out(&mut self) -> Result<(), Memory>
        ensures { StaysClient W.World S.Sitting self.old self.new }
    {
        stays_of_route::<W, S>();
        self.written.append(self.conn.out())?;
        self.conn.clear_out();
        Ok(())
    }

    /// Whether these units were written since it was last asked, and no others.
    fn wrote(&mut self, alloc: Global, units: &[&str]) -> Result<bool, Memory>
        ensures { self.new ≡ self.old }
    {
        let written = mem::replace(&mut self.written, Text::new(alloc));
        Ok(written.as_slice() == octets_of(alloc, units)?.as_slice())
    }

    /// Whether it has these marks, this end and these totals.
    fn has(&self, marks: &[Mark], end: Option<End>, totals: &[[u64; 4]]) -> bool {
        self.conn.marks().as_slice() == marks
            && self.conn.end() == end
            && are_totals(self.conn.totals(), totals)
    }
}

/// That something was done.
fn done(what: Result<(), Memory>) -> Result<bool, Memory> {
    what?;
    Ok(true)
}

/// What a step answered, unless it was that memory could not be had.
fn answered(stepped: Stepped) -> Result<Stepped, Memory> {
    match stepped {
        Stepped::Idle => Ok(Stepped::Idle),
        Stepped::NotYet => Ok(Stepped::NotYet),
        Stepped::Went => Ok(Stepped::Went),
        Stepped::Memory => Err(Memory),
    }
}

/// Whether these are the totals, class by class.
fn are_totals(totals: &List<Total>, wanted: &[[u64; 4]]) -> bool {
    let mut pairs = totals.as_slice().iter().zip(wanted).enumerate();
    totals.len() == wanted.len()
        && pairs.all(|(class, (total, counts))| is_total(class, total, counts))
}

/// Whether this is the total of a class.
fn is_total(class: usize, total: &Total, counts: &[u64; 4]) -> bool {
    total.class as usize == class
        && [total.dials, total.searches, total.gones, total.faults] == *counts
}

impl<W: World, S: Sitting<W>> Play<W, S> {
    /// Two new connections.
    fn new(alloc: Global) -> Play<W, S>
        ensures { (route : Route) (most : ℕ)
            → ArePlayed W.World S.Sitting route most result.client result.other }
    {
        Play {
            client: Client::new(alloc),
            other: Client::new(alloc),
            now: 0,
        }
    }

    /// Lets both go.
    fn let_go(self) {
        let Play {
            client,
            other,
            now: _,
        } = self;
        client.let_go();
        other.let_go();
    }
}

/// The place of the first step that goes otherwise, counted from 0.
pub(crate) fn first_other<
    W: World,
    S: Sitting<W>,
    B: Backend<W, Session = S> + Events,
    D: Door<W, S>,
>(
    alloc: Global,
    route: &Route,
    backend: &mut B,
    door: &mut D,
    steps: &[Step],
) -> Result<Option<usize>, Memory> {
    let mut play = Play::new(alloc);
    let place = take_steps(alloc, route, backend, door, &mut play, steps);
    play.let_go();
    place
}

/// The place of the first step that goes otherwise, counted from 0.
fn take_steps<W: World, S: Sitting<W>, B: Backend<W, Session = S> + Events, D: Door<W, S>>(
    alloc: Global,
    route: &Route,
    backend: &mut B,
    door: &mut D,
    play: &mut Play<W, S>,
    steps: &[Step],
) -> Result<Option<usize>, Memory>
    requires { ArePlayed W.World S.Sitting
        route.now (D.counts door.old).most play.old.client play.old.other }
{
    for (place, step) in steps.iter().enumerate() {
        if !goes(alloc, route, backend, door, play, *step)? {
            return Ok(Some(place));
        }
    }
    Ok(None)
}

/// Whether a step goes so.
fn goes<W: World, S: Sitting<W>, B: Backend<W, Session = S> + Events, D: Door<W, S>>(
    alloc: Global,
    route: &Route,
    backend: &mut B,
    door: &mut D,
    play: &mut Play<W, S>,
    step: Step,
) -> Result<bool, Memory>
    requires { ArePlayed W.World S.Sitting
        route.now (D.counts door.old).most play.old.client play.old.other }
    ensures { ArePlayed W.World S.Sitting
        route.now (D.counts door.new).most play.new.client play.new.other }
{
    match step {
        Step::Feed(units) => play.client.feed(octets_of(alloc, units)?.as_slice()),
        Step::End => Ok(play.client.end_input()),
        Step::Wrote(units) => play.client.wrote(alloc, units),
        Step::Has(marks, end, totals) => Ok(play.client.has(marks, end, totals)),
        Step::GiveUp => Ok(give_up(route, door, play)),
        Step::Other => Ok(change_over(play)),
        Step::Tick(seconds) => Ok(tick(play, seconds)),
        Step::Gone(target, presents) => done(backend.gone(target, presents)),
        Step::Cut(target) => done(backend.cut(target)),
        Step::Slow(target, looks) => done(backend.slow(target, looks)),
        Step::Run => run(alloc, route, backend, door, play),
        Step::Steps(answers) => take_each(alloc, route, backend, door, play, answers),
        Step::Ask(units, replies) => ask(alloc, route, backend, door, play, units, replies),
        Step::Ends(marks, end, totals) => ends(
            alloc, route, backend, door, play, marks, end, totals,
        ),
        Step::FeedEach(units) => feed_each(alloc, route, backend, door, play, units),
        Step::FeedCut(units, at) => feed_cut(alloc, route, backend, door, play, units, at),
    }
}

/// Gives the connection up.
fn give_up<W: World, S: Sitting<W>, D: Door<W, S>>(
    route: &Route,
    door: &mut D,
    play: &mut Play<W, S>,
) -> bool
    requires { ArePlayed W.World S.Sitting
        route.now (D.counts door.old).most play.old.client play.old.other }
    ensures { ArePlayed W.World S.Sitting
        route.now (D.counts door.new).most play.new.client play.new.other }
{
    let _ = route;
    play.client.conn.give_up(door);
    true
}

/// The other connection is played on.
fn change_over<W: World, S: Sitting<W>>(play: &mut Play<W, S>) -> bool
    ensures client { play.new.client ≡ play.old.other }
    ensures other { play.new.other ≡ play.old.client }
{
    mem::swap(&mut play.client, &mut play.other);
    true
}

/// So many seconds go by.
fn tick<W: World, S: Sitting<W>>(play: &mut Play<W, S>, seconds: u64) -> bool
    ensures client { play.new.client ≡ play.old.client }
    ensures other { play.new.other ≡ play.old.other }
{
    play.now = play.now.saturating_add(seconds);
    true
}

/// Makes a step, and takes what it wrote.
fn make_step<W: World, S: Sitting<W>, B: Backend<W, Session = S> + Events, D: Door<W, S>>(
    alloc: Global,
    route: &Route,
    backend: &mut B,
    door: &mut D,
    play: &mut Play<W, S>,
) -> Result<Stepped, Memory>
    requires { ArePlayed W.World S.Sitting
        route.now (D.counts door.old).most play.old.client play.old.other }
    ensures { ArePlayed W.World S.Sitting
        route.now (D.counts door.new).most play.new.client play.new.other }
{
    let stepped = take_step(alloc, route, backend, door, play);
    play.client.take_out()?;
    answered(stepped)
}

/// Makes a step.
fn take_step<W: World, S: Sitting<W>, B: Backend<W, Session = S> + Events, D: Door<W, S>>(
    alloc: Global,
    route: &Route,
    backend: &mut B,
    door: &mut D,
    play: &mut Play<W, S>,
) -> Stepped
    requires { ArePlayed W.World S.Sitting
        route.now (D.counts door.old).most play.old.client play.old.other }
    ensures { ArePlayed W.World S.Sitting
        route.now (D.counts door.new).most play.new.client play.new.other }
{
    let conn = &mut play.client.conn;
    conn.step(alloc, route, backend, door, play.now)
}

/// Makes steps. Whether they answer so.
fn take_each<W: World, S: Sitting<W>, B: Backend<W, Session = S> + Events, D: Door<W, S>>(
    alloc: Global,
    route: &Route,
    backend: &mut B,
    door: &mut D,
    play: &mut Play<W, S>,
    answers: &[Stepped],
) -> Result<bool, Memory>
    requires { ArePlayed W.World S.Sitting
        route.now (D.counts door.old).most play.old.client play.old.other }
    ensures { ArePlayed W.World S.Sitting
        route.now (D.counts door.new).most play.new.client play.new.other }
{
    for answer in answers {
        if make_step(alloc, route, backend, door, play)? != *answer {
            return Ok(false);
        }
    }
    Ok(true)
}

/// Makes steps. Whether one was idle at last.
fn run<W: World, S: Sitting<W>, B: Backend<W, Session = S> + Events, D: Door<W, S>>(
    alloc: Global,
    route: &Route,
    backend: &mut B,
    door: &mut D,
    play: &mut Play<W, S>,
) -> Result<bool, Memory>
    requires { ArePlayed W.World S.Sitting
        route.now (D.counts door.old).most play.old.client play.old.other }
    ensures { ArePlayed W.World S.Sitting
        route.now (D.counts door.new).most play.new.client play.new.other }
{
    for _ in 0..MOST_STEPS {
        if make_step(alloc, route, backend, door, play)? == Stepped::Idle {
            return Ok(true);
        }
    }
    Ok(false)
}

/// Whether these units are answered by these replies.
fn ask<W: World, S: Sitting<W>, B: Backend<W, Session = S> + Events, D: Door<W, S>>(
    alloc: Global,
    route: &Route,
    backend: &mut B,
    door: &mut D,
    play: &mut Play<W, S>,
    units: &[&str],
    replies: &[&str],
) -> Result<bool, Memory>
    requires { ArePlayed W.World S.Sitting
        route.now (D.counts door.old).most play.old.client play.old.other }
    ensures { ArePlayed W.World S.Sitting
        route.now (D.counts door.new).most play.new.client play.new.other }
{
    let octets = octets_of(alloc, units)?;
    Ok(
        feed_and_run(alloc, route, backend, door, play, octets.as_slice())?
            && play.client.wrote(alloc, replies)?,
    )
}

/// Whether a piece may still come, which then does, and of the steps behind it one is idle at last.
fn feed_and_run<W: World, S: Sitting<W>, B: Backend<W, Session = S> + Events, D: Door<W, S>>(
    alloc: Global,
    route: &Route,
    backend: &mut B,
    door: &mut D,
    play: &mut Play<W, S>,
    piece: &[u8],
) -> Result<bool, Memory>
    requires { ArePlayed W.World S.Sitting
        route.now (D.counts door.old).most play.old.client play.old.other }
    ensures { ArePlayed W.World S.Sitting
        route.now (D.counts door.new).most play.new.client play.new.other }
{
    Ok(play.client.feed(piece)? && run(alloc, route, backend, door, play)?)
}

/// Whether the connection has these once no more will come.
fn ends<W: World, S: Sitting<W>, B: Backend<W, Session = S> + Events, D: Door<W, S>>(
    alloc: Global,
    route: &Route,
    backend: &mut B,
    door: &mut D,
    play: &mut Play<W, S>,
    marks: &[Mark],
    end: End,
    totals: &[[u64; 4]],
) -> Result<bool, Memory>
    requires { ArePlayed W.World S.Sitting
        route.now (D.counts door.old).most play.old.client play.old.other }
    ensures { ArePlayed W.World S.Sitting
        route.now (D.counts door.new).most play.new.client play.new.other }
{
    play.client.end_input();
    let is_idle = run(alloc, route, backend, door, play)?;
    Ok(is_idle && play.client.written.is_empty() && play.client.has(marks, Some(end), totals))
}

/// Whether units may come octet by octet, which they then do.
fn feed_each<W: World, S: Sitting<W>, B: Backend<W, Session = S> + Events, D: Door<W, S>>(
    alloc: Global,
    route: &Route,
    backend: &mut B,
    door: &mut D,
    play: &mut Play<W, S>,
    units: &[&str],
) -> Result<bool, Memory>
    requires { ArePlayed W.World S.Sitting
        route.now (D.counts door.old).most play.old.client play.old.other }
    ensures { ArePlayed W.World S.Sitting
        route.now (D.counts door.new).most play.new.client play.new.other }
{
    let octets = octets_of(alloc, units)?;
    for octet in octets.as_slice() {
        if !feed_and_run(alloc, route, backend, door, play, &[*octet])? {
            return Ok(false);
        }
    }
    Ok(true)
}

/// Whether units have so many octets and may come in two pieces, which they then do.
fn feed_cut<W: World, S: Sitting<W>, B: Backend<W, Session = S> + Events, D: Door<W, S>>(
    alloc: Global,
    route: &Route,
    backend: &mut B,
    door: &mut D,
    play: &mut Play<W, S>,
    units: &[&str],
    at: usize,
) -> Result<bool, Memory>
    requires { ArePlayed W.World S.Sitting
        route.now (D.counts door.old).most play.old.client play.old.other }
    ensures { ArePlayed W.World S.Sitting
        route.now (D.counts door.new).most play.new.client play.new.other }
{
    let octets = octets_of(alloc, units)?;
    if octets.len() < at {
        return Ok(false);
    }
    let (front, back) = octets.as_slice().split_at(at);
    Ok(
        feed_and_run(alloc, route, backend, door, play, front)?
            && feed_and_run(alloc, route, backend, door, play, back)?,
    )
}
