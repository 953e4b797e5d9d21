//! The legs of a request together.

ghost use Rattle.std.specs.Prelude.{◌≡◌, ◌+◌, ◌++◌, ℕ, All, IfOk, OnOk, false, length, map, take, true};
ghost use Rattle.leg.specs.Turns.{IsLegOf};
ghost use Rattle.std.specs.Option.{option_map};
ghost use Rattle.package.specs.steps.Ends.{gave_up, lost_seats};
ghost use Rattle.package.specs.steps.Packages.{accounts_of, asked_of};
ghost use Rattle.package.specs.steps.Turns.{HaveTurned, no_round};

use crate::asking::{first_legs, then_legs};
use crate::finishing::{mark_among, marked, unmarked};
use crate::turning::{Round, all_done, done_or_went, turn_each};
use gw_outside::Backend;
use leg::{Account, Leg, Turned};
use pool_sets::Door;
use route_config::Route;
use std::alloc::Global;
use std::marker::Model;
use std::mem;
use z_types::{List, Memory, Outcome, Sitting, Work, World};

/// The legs of one request, turned together. First go those for what its work asks first: the hits of
/// each leg of a Search, the records of a fetch, or a scan; and once these are done, those for the
/// records that are shown with a Search, where no leg is marked and none is refused.
///
/// ```text
/// start     once, first
/// turn      until it answers Done
/// finish    then: what comes of the work
/// give_up   in place of what is left, also after Memory
/// ```
#[derive(Drop)]
pub struct Package<W: World, S: Sitting<W>> {
    work: Work,
    first: Vec<Leg<W, S>>,
    later: Vec<Leg<W, S>>,
    accounts: List<Account>,
    planned: bool,
}

impl<W: World, S: Sitting<W>> Model for Package<W, S> {
    ghost use Rattle.std.specs.Coded.{codes};
    ghost use Rattle.z_types.specs.Tree.{tree_code};
    ghost use Rattle.std.specs.Prelude.{◌≡◌, ◌++◌};
    ghost use Rattle.package.specs.steps.Packages.{PackageView, accounts_of};

    ghost Value = { PackageView S };

    ghost coded = { Prim.hlevel (codes, tree_code) };

    ghost view = { λ p. record {
      work = p.work;
      first = p.first.items;
      later = p.later.items;
      planned = p.planned;
    } };

    ghost invariant = { λ p. p.accounts ≡ accounts_of (p.first.items ++ p.later.items) };
}

/// Takes over what legs counted, behind the accounts of so many others.
fn take_over<W: World, S: Sitting<W>>(
    alloc: Global,
    accounts: &mut List<Account>,
    others: usize,
    legs: &[Leg<W, S>],
)
    requires { length accounts.old ≡ others + length legs.now }
    ensures { accounts.new ≡ take others accounts.old ++ accounts_of legs.now }
{
    let mut all = mem::replace(accounts, List::new(alloc)).into_vec();
    for place in 0..legs.len() {
        all[others + place] = legs[place].account();
    }
    *accounts = List::from_vec(all);
}

/// Turns each leg that is not done, and takes over what they counted, behind the accounts of so many
/// others.
fn turn_all<W: World, S: Sitting<W>, B: Backend<W, Session = S>, D: Door<W, S>>(
    alloc: Global,
    route: &Route,
    legs: &mut Vec<Leg<W, S>>,
    accounts: &mut List<Account>,
    others: usize,
    backend: &mut B,
    door: &mut D,
    now: u64,
) -> Round
    requires of { All (IsLegOf W.World S.Sitting route.now (D.counts door.old).most)
        legs.old.items }
    requires accounts { length accounts.old ≡ others + length legs.old.items }
    ensures of { All (IsLegOf W.World S.Sitting route.now (D.counts door.new).most) legs.new.items }
    ensures most { (D.counts door.new).most ≡ (D.counts door.old).most }
    ensures asked { map asked_of legs.new.items ≡ map asked_of legs.old.items }
    ensures accounts { accounts.new ≡ take others accounts.old ++ accounts_of legs.new.items }
    ensures turned { HaveTurned W.World S.Sitting B.exact route.now now
        legs.old.items legs.new.items no_round result
        (record { pool = D.pool door.old; counts = D.counts door.old })
        (record { pool = D.pool door.new; counts = D.counts door.new })
        (record { counts = B.counts backend.old; happened = B.happened backend.old })
        (record { counts = B.counts backend.new; happened = B.happened backend.new }) }
{
    let round = turn_each(alloc, route, legs.as_mut_slice(), backend, door, now);
    take_over(alloc, accounts, others, legs.as_slice());
    round
}

/// Puts what legs counted behind other accounts.
fn push_accounts<W: World, S: Sitting<W>>(
    accounts: &mut List<Account>,
    legs: &[Leg<W, S>],
) -> Result<(), Memory>
    ensures { OnOk result (accounts.new ≡ accounts.old ++ accounts_of legs.now) }
{
    for leg in legs {
        accounts.push(leg.account())?;
    }
    Ok(())
}

/// What legs counted.
fn accounts_of<W: World, S: Sitting<W>>(
    alloc: Global,
    first: &[Leg<W, S>],
    later: &[Leg<W, S>],
) -> Result<List<Account>, Memory>
    ensures { IfOk result (λ accounts. accounts ≡ accounts_of (first.now ++ later.now)) }
{
    let mut accounts = List::new(alloc);
    push_accounts(&mut accounts, first)?;
    push_accounts(&mut accounts, later)?;
    Ok(accounts)
}

/// Gives up each session that is out for a leg, one after another.
fn give_up_each<W: World, S: Sitting<W>, D: Door<W, S>>(legs: &mut [Leg<W, S>], door: &mut D)
    ensures legs { legs.new ≡ map gave_up legs.old }
    ensures pool { D.pool door.new ≡ option_map (lost_seats legs.old) (D.pool door.old) }
    ensures counts { D.counts door.new ≡ D.counts door.old }
{
    for leg in legs {
        leg.give_up(door);
    }
}

impl<W: World, S: Sitting<W>> Package<W, S> {
    ghost use Rattle.std.specs.Prelude.{◌≡◌, ◌++◌, IfOk, false};
    ghost use Rattle.std.specs.Option.{option_map};
    ghost use Rattle.gateway_rules.specs.Works.{CanBegin, IsAskable};
    ghost use Rattle.package_rules.specs.Planned.{AreThere};
    ghost use Rattle.package.specs.steps.Ends.{gave_all_up, lost_seats, outcome_in};
    ghost use Rattle.package.specs.steps.Packages.{AsksSo, AreDone, IsOver, IsPackageOf, all_accounts, new_package};
    ghost use Rattle.package.specs.steps.Turns.{IsPackageTurn, Plans};
    ghost use Rattle.leg.specs.declared.answers.Turned.TheVariants as turned;

    /// The legs for a work.
    pub fn start(alloc: Global, route: &Route, work: Work) -> Result<Package<W, S>, Memory>
        requires there { AreThere route.now work }
        requires can_begin { CanBegin work }
        requires askable { IsAskable work }
        ensures new { IfOk result (λ made. made ≡ new_package route.now work) }
        ensures of { (most : ℕ) → IfOk result (IsPackageOf W.World S.Sitting route.now most) }
    {
        let Ok(first) = first_legs(alloc, route, &work) else {
            drop(work);
            return Err(Memory);
        };
        let later = Vec::new(alloc);
        let Ok(accounts) = accounts_of(alloc, first.as_slice(), later.as_slice()) else {
            drop((work, first));
            return Err(Memory);
        };
        Ok(Package {
            work,
            first,
            later,
            accounts,
            planned: false,
        })
    }

    /// What its legs counted, those for what is asked then behind those for what is asked first.
    pub fn accounts(&self) -> &List<Account>
        ensures { result.now ≡ all_accounts self.now }
    {
        &self.accounts
    }

    /// Begins the legs for what is asked then, once the first are done.
    fn plan(&mut self, alloc: Global, route: &Route) -> Turned
        requires asks { AsksSo route.now self.old }
        requires unplanned { self.old.planned ≡ false }
        requires done { AreDone self.old.first }
        ensures work { self.new.work ≡ self.old.work }
        ensures first { self.new.first ≡ self.old.first }
        ensures plans { Plans route.now self.new result }
    {
        let Ok(later) = then_legs(alloc, route, &self.work, self.first.as_slice()) else {
            return Turned::Memory;
        };
        let Ok(accounts) = accounts_of(alloc, self.first.as_slice(), later.as_slice()) else {
            drop(later);
            return Turned::Memory;
        };
        self.later = later;
        self.accounts = accounts;
        self.planned = true;
        done_or_went(all_done(self.later.as_slice()))
    }

    /// Turns each leg that is not done once, those for what is asked first until all are done, and from
    /// the next turn on those for what is asked then. All turns are given the same route. It answers
    /// `NotYet` where some were not done and each of these heard nothing, and `Done` where all are done
    /// after it. After `Memory` it is to be given up.
    pub fn turn<B: Backend<W, Session = S>, D: Door<W, S>>(
        &mut self,
        alloc: Global,
        route: &Route,
        backend: &mut B,
        door: &mut D,
        now: u64,
    ) -> Turned
        requires of { IsPackageOf W.World S.Sitting route.now (D.counts door.old).most self.old }
        ensures of { IsPackageOf W.World S.Sitting route.now (D.counts door.new).most self.new }
        ensures most { (D.counts door.new).most ≡ (D.counts door.old).most }
        ensures done { result ≡ turned.Done → IsOver self.new }
        ensures law { IsPackageTurn W.World S.Sitting B.exact route.now now self.old self.new result
            (record { pool = D.pool door.old; counts = D.counts door.old })
            (record { pool = D.pool door.new; counts = D.counts door.new })
            (record { counts = B.counts backend.old; happened = B.happened backend.old })
            (record { counts = B.counts backend.new; happened = B.happened backend.new }) }
    {
        let accounts = &mut self.accounts;
        if self.planned {
            let others = self.first.len();
            let later = &mut self.later;
            let round = turn_all(alloc, route, later, accounts, others, backend, door, now);
            return round.answer(all_done(self.later.as_slice()));
        }
        let first = &mut self.first;
        let round = turn_all(alloc, route, first, accounts, 0, backend, door, now);
        if !all_done(self.first.as_slice()) {
            return round.answer(false);
        }
        self.plan(alloc, route)
    }

    /// What comes of its work: the mark of the first leg that is marked, with the name of its class, or
    /// else what its legs answered. It is called once all are done, with the route of its turns.
    pub fn finish(self, alloc: Global, route: &Route) -> Result<Outcome, Memory>
        requires asks { AsksSo route.now self }
        requires over { IsOver self }
        ensures outcome { IfOk result (λ outcome. outcome ≡ outcome_in route.now self) }
    {
        let Package {
            work,
            first,
            later,
            accounts: _,
            planned: _,
        } = self;
        match mark_among(first.as_slice(), later.as_slice()) {
            Some((mark, leg)) => {
                drop((work, first, later));
                marked(alloc, route, mark, leg)
            }
            None => {
                let outcome = unmarked(alloc, route, &work, first, later);
                drop(work);
                outcome
            }
        }
    }

    /// Gives up each session that is out for a leg, one after another. A package that was given up does
    /// nothing more.
    pub fn give_up<D: Door<W, S>>(&mut self, door: &mut D)
        ensures legs { self.new ≡ gave_all_up self.old }
        ensures pool { D.pool door.new
            ≡ option_map (lost_seats (self.old.first ++ self.old.later)) (D.pool door.old) }
        ensures counts { D.counts door.new ≡ D.counts door.old }
    {
        give_up_each(self.first.as_mut_slice(), door);
        give_up_each(self.later.as_mut_slice(), door);
    }
}
