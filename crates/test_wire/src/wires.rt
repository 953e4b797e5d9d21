//! The wire to the test targets.

ghost use Rattle.std.specs.Prelude.{◌≡◌, ◌≤◌, ◌||◌, true, drop, length, None, OnOk, OnErr};
ghost use Rattle.z_types.specs.Logins.{login_of};
ghost use Rattle.planned_calls.specs.Planned.{after_call, fails_next, new_calls};
ghost use Rattle.gw_outside.specs.Counts.{WireCounts, no_counts};
ghost use Rattle.gw_outside.specs.Happened.{AreSame, AreCut, IsMade, IsQuietWire, is_cut};
ghost use Rattle.gw_outside.specs.Wires.{IfLink, IsNewLink, IsSameLink, SendFits, LookFits, SendsSteadily, LooksSteadily, SendCounts, dial_counted, look_counted};
ghost use Rattle.test_wire.specs.Happened.{happening_of};
ghost use Rattle.test_wire.specs.Links.{FindsNext, SendTakes, has_not_looked, has_not_sent};
ghost use Rattle.test_wire.specs.Steady.{happened_in_all};
ghost use Rattle.test_wire.specs.Wires.{counts_of, happened_of};

use crate::links::TestLink;
use crate::steady::SteadyWire;
use gw_outside::{Dialled, Events, Linked, Looked, Sent, Watched, Wire};
use planned_calls::Calls;
use std::alloc::Global;
use test_target::TestWorld;
use z_types::{Address, List, Memory, World};

/// A wire to the built-in test targets. It fails at every other address, on links that are cut, and at
/// the dials and looks that are to fail.
#[derive(Drop)]
pub struct TestWire {
    links: SteadyWire,
    calls: Calls,
}

impl TestWire {
    /// A quiet wire: without links, and nothing is made to happen to any target. It counted nothing.
    pub fn new(alloc: Global) -> TestWire
        ensures counts { counts_of result ≡ no_counts }
        ensures quiet { IsQuietWire (counts_of result) (happened_of result) }
    {
        TestWire::failing(alloc, List::new(alloc))
    }

    /// The same, of a wire whose dials and looks of these numbers fail, counted together from 1.
    pub fn failing(alloc: Global, failing: List<u64>) -> TestWire
        ensures counts { counts_of result ≡ no_counts }
        ensures calls { result.calls ≡ new_calls failing }
        ensures quiet { IsQuietWire (counts_of result) (happened_in_all result.links) }
    {
        TestWire {
            links: SteadyWire::new(alloc),
            calls: Calls::new(failing),
        }
    }
}

impl Watched for TestWire {
    ghost use Rattle.std.specs.Prelude.{true};
    ghost use Rattle.test_wire.specs.Wires.{counts_of, happened_of};

    ghost counts = { counts_of };

    ghost exact = { true };

    ghost happened = { happened_of };
}

impl Wire<TestWorld> for TestWire {
    type Link = TestLink;

    fn dial(&mut self, alloc: Global, address: &Address) -> Dialled<TestLink>
        ensures link { IfLink result (IsNewLink ⟦<TestWorld as World>⟧ ⟦<TestLink as Linked>⟧
            true address.now (counts_of self.new)) }
        ensures fails { result ≡ Dialled.Failed
            → (happened_of self.old).steady ≡ true → login_of address.now ≡ None
            → ¬ ⟦<TestWorld as World>⟧.told address.now }
        ensures happened { AreSame (happened_of self.old) (happened_of self.new) }
        ensures counts { WireCounts true
            (dial_counted result) (counts_of self.old) (counts_of self.new) }
        ensures planned { fails_next self.old.calls ≡ true → result ≡ Dialled.Failed }
        ensures called { self.new.calls ≡ after_call self.old.calls }
    {
        if self.calls.next_fails() {
            self.links.count_fault();
            return Dialled::Failed;
        }
        self.links.dial(alloc, address)
    }

    fn send(&mut self, alloc: Global, link: &mut TestLink, unit: &[u8]) -> Sent
        ensures arrived { link.new.arrived.items ≡ link.old.arrived.items }
        ensures peer { SendFits ⟦<TestWorld as World>⟧ unit.now (happened_of self.old)
            (⟦<TestLink as Linked>⟧.peer link.old) (⟦<TestLink as Linked>⟧.peer link.new) result }
        ensures steady { SendsSteadily ⟦<TestLink as Linked>⟧ unit.now link.old link.new
            (happened_of self.old) (happened_of self.new) result }
        ensures counts { SendCounts true unit.now
            result (counts_of self.old) (counts_of self.new) }
        ensures fails { has_not_sent result ≡ is_cut (happening_of
            self.old.links.happenings.table link.old.peer.target) link.old.number }
        ensures taken { SendTakes unit.now
            (happening_of self.old.links.happenings.table link.old.peer.target)
            link.old.peer link.new.peer link.old.owed.items link.new.owed.items result }
        ensures called { self.new.calls ≡ self.old.calls }
    {
        self.links.send(alloc, link, unit)
    }

    fn look(&mut self, alloc: Global, link: &mut TestLink) -> Looked
        ensures fits { LookFits
            (⟦<TestLink as Linked>⟧.peer link.old) (⟦<TestLink as Linked>⟧.peer link.new)
            link.old.arrived.items link.new.arrived.items result }
        ensures steady { LooksSteadily ⟦<TestLink as Linked>⟧ link.old link.new
            (happened_of self.old) (happened_of self.new) result }
        ensures counts { WireCounts true
            (look_counted (⟦<TestLink as Linked>⟧.peer link.old) result)
            (counts_of self.old) (counts_of self.new) }
        ensures fails { has_not_looked result ≡ fails_next self.old.calls || is_cut (happening_of
            self.old.links.happenings.table link.old.peer.target) link.old.number }
        ensures next { FindsNext link.old.owed.items link.new.owed.items result }
        ensures called { self.new.calls ≡ after_call self.old.calls }
    {
        if self.calls.next_fails() {
            self.links.count_fault();
            return Looked::Failed;
        }
        self.links.look(alloc, link)
    }

    fn arrived<'a>(&self, link: &'a TestLink) -> &'a [u8] {
        self.links.arrived(link)
    }

    fn consume(&mut self, link: &mut TestLink, count: usize)
        requires { count ≤ length link.old.arrived.items }
        ensures arrived { link.new.arrived.items ≡ drop count link.old.arrived.items }
        ensures link { IsSameLink ⟦<TestLink as Linked>⟧ link.old link.new }
        ensures happened { AreSame (happened_of self.old) (happened_of self.new) }
        ensures counts { counts_of self.new ≡ counts_of self.old }
        ensures called { self.new.calls ≡ self.old.calls }
    {
        self.links.consume(link, count);
    }

    ghost exact_links = { λ e. e };
}

impl Events for TestWire {
    fn gone(&mut self, target: u32, presents: u32) -> Result<(), Memory>
        ensures made { OnOk result (IsMade target
            (λ happening. record happening { presents = presents })
            (happened_of self.old) (happened_of self.new)) }
        ensures err { OnErr result (AreSame (happened_of self.old) (happened_of self.new)) }
        ensures counts { counts_of self.new ≡ counts_of self.old }
        ensures called { self.new.calls ≡ self.old.calls }
    {
        self.links.gone(target, presents)
    }

    fn cut(&mut self, target: u32) -> Result<(), Memory>
        ensures made { OnOk result (AreCut true target (counts_of self.old).dials
            (happened_of self.old) (happened_of self.new)) }
        ensures err { OnErr result (AreSame (happened_of self.old) (happened_of self.new)) }
        ensures counts { counts_of self.new ≡ counts_of self.old }
        ensures called { self.new.calls ≡ self.old.calls }
    {
        self.links.cut(target)
    }

    fn slow(&mut self, target: u32, looks: u32) -> Result<(), Memory>
        ensures made { OnOk result (IsMade target
            (λ happening. record happening { delay = looks })
            (happened_of self.old) (happened_of self.new)) }
        ensures err { OnErr result (AreSame (happened_of self.old) (happened_of self.new)) }
        ensures counts { counts_of self.new ≡ counts_of self.old }
        ensures called { self.new.calls ≡ self.old.calls }
    {
        self.links.slow(target, looks)
    }
}
