//! The wire to test targets and to targets at hosts.

ghost use Rattle.std.specs.Prelude.{◌≡◌, false, None};
ghost use Rattle.z_types.specs.declared.address.Address.TheVariants as At;
ghost use Rattle.gw_outside.specs.Counts.{WireCounts, no_counts};
ghost use Rattle.gw_outside.specs.Happened.{AreSame};
ghost use Rattle.gw_outside.specs.Wires.{IfLink, IsNewLink, SendFits, LookFits, SendsSteadily, LooksSteadily, dial_counted};
ghost use Rattle.tcp_edge.specs.declared.links.EdgeLink.TheVariants as Edge;
ghost use Rattle.tcp_edge.specs.Links.{arrived_at, peer_at};
ghost use Rattle.tcp_edge.specs.Wires.{counts_in, happened_at};

use crate::clocks::{milliseconds, seconds};
use crate::hosts::{Begun, Hosts};
use crate::links::{EdgeLink, TcpLink, connect};
use crate::prompt::{Now, PromptLink};
use crate::repeats::Times;
use crate::tally::Tally;
use crate::totals::Totals;
use crate::waits::Awaited;
use gw_outside::{Dialled, Linked, Looked, Sent, Watched, Wire};
use log::{Log, warn};
use std::alloc::Global;
use std::net::{Net, SocketAddr, TcpStream};
use std::{io, str, time};
use test_target::TestWorld;
use test_wire::{TestLink, TestWire};
use z_types::{Address, Text, World};

/// A wire that serves test targets as a `TestWire`, and targets at hosts by a socket each. It logs each
/// of these that failed, and counts in the totals what they were asked.
#[derive(Drop)]
pub struct EdgeWire<'a, R: Net + time::Clock, L: Log> {
    runtime: &'a R,
    log: &'a L,
    totals: &'a Totals,
    test: TestWire,
    tally: Tally,
    awaited: Awaited,
    hosts: Option<Hosts>,
}

impl<'a, R: Net<Stream = TcpStream> + time::Clock, L: Log> EdgeWire<'a, R, L> {
    /// A wire without links, which counted nothing yet.
    pub fn new(alloc: Global, runtime: &'a R, log: &'a L, totals: &'a Totals) -> EdgeWire<'a, R, L>
        ensures { counts_in result.tally ≡ no_counts }
    {
        EdgeWire {
            runtime,
            log,
            totals,
            test: TestWire::new(alloc),
            tally: Tally::new(),
            awaited: Awaited::new(),
            hosts: None,
        }
    }

    /// The same, for these hosts alone, where no call waits: a link whose connection is begun is made, and where
    /// that cannot be made a look fails, or a send.
    pub fn prompt(
        alloc: Global,
        runtime: &'a R,
        log: &'a L,
        totals: &'a Totals,
        hosts: Hosts,
    ) -> EdgeWire<'a, R, L>
        ensures { counts_in result.tally ≡ no_counts }
    {
        EdgeWire {
            runtime,
            log,
            totals,
            test: TestWire::new(alloc),
            tally: Tally::new(),
            awaited: Awaited::new(),
            hosts: Some(hosts),
        }
    }

    /// What it counted.
    pub fn tally(&self) -> Tally
        ensures { result ≡ self.now.tally }
    {
        self.tally
    }

    /// Makes a link to a test target.
    #[tactic(auto, using(crate::proofs::WireLemmas::new_unsteady, crate::proofs::WireLemmas::same_unsteady))]
    fn dial_test(&mut self, alloc: Global, address: &Address) -> Dialled<EdgeLink>
        ensures link { IfLink result (IsNewLink ⟦<TestWorld as World>⟧ ⟦<EdgeLink as Linked>⟧
            false address.now (counts_in self.new.tally)) }
        ensures happened { AreSame (happened_at self.old.test) (happened_at self.new.test) }
        ensures counts { WireCounts false
            (dial_counted result) (counts_in self.old.tally) (counts_in self.new.tally) }
    {
        match self.test.dial(alloc, address) {
            Dialled::Link(link) => {
                self.tally.count_dial();
                Dialled::Link(EdgeLink::Test(link))
            }
            Dialled::Failed => {
                self.tally.count_fault();
                Dialled::Failed
            }
            Dialled::Memory => Dialled::Memory,
        }
    }

    /// Makes a link to a target at a host.
    fn dial_host(&mut self, alloc: Global, host: &Text, port: u16) -> Dialled<EdgeLink>
        ensures link { IfLink result (IsNewLink ⟦<TestWorld as World>⟧ ⟦<EdgeLink as Linked>⟧
            false (At.Tcp host.now port) (counts_in self.new.tally)) }
        ensures test { self.new.test ≡ self.old.test }
        ensures counts { WireCounts false
            (dial_counted result) (counts_in self.old.tally) (counts_in self.new.tally) }
    {
        if self.hosts.is_some() {
            return self.begin_host(alloc, host, port);
        }
        let place = self.totals.place_of(host, port);
        match connect(self.runtime, host.as_slice(), port) {
            Ok((stream, address)) => {
                self.tell_made(place);
                self.tally.count_dial();
                let number = self.tally.dials;
                Dialled::Link(EdgeLink::Tcp(TcpLink::new(alloc, stream, address, place, number)))
            }
            Err(error) => {
                self.tell_unmade(place, host, port, error);
                self.tally.count_fault();
                Dialled::Failed
            }
        }
    }

    /// Makes a link to a target at a host, whose connection is begun.
    fn begin_host(&mut self, alloc: Global, host: &Text, port: u16) -> Dialled<EdgeLink>
        ensures link { IfLink result (IsNewLink ⟦<TestWorld as World>⟧ ⟦<EdgeLink as Linked>⟧
            false (At.Tcp host.now port) (counts_in self.new.tally)) }
        ensures test { self.new.test ≡ self.old.test }
        ensures counts { WireCounts false
            (dial_counted result) (counts_in self.old.tally) (counts_in self.new.tally) }
    {
        let place = self.totals.place_of(host, port);
        match self.begin(host, port) {
            Ok((begun, at)) => {
                self.tally.count_dial();
                let number = self.tally.dials;
                let now = milliseconds(self.runtime);
                let link = PromptLink::new(alloc, begun, at, place, number, now);
                Dialled::Link(EdgeLink::Prompt(link))
            }
            Err(error) => {
                self.tell_unmade(place, host, port, error);
                self.tally.count_fault();
                Dialled::Failed
            }
        }
    }

    /// Begins a connection with a host, whose place among those that are known is told with it.
    fn begin(&self, host: &Text, port: u16) -> io::Result<(Begun, usize)> {
        if let Some(hosts) = &self.hosts
            && let Some(at) = hosts.place_of(host, port)
        {
            return Ok((hosts.begin(self.runtime, at, 0)?, at));
        }
        Err(io::Error::from(io::ErrorKind::NotFound))
    }

    /// Sends a unit over a link, without counting.
    #[tactic(auto, using(crate::proofs::WireLemmas::sends_untold))]
    fn send_over(&mut self, alloc: Global, link: &mut EdgeLink, unit: &[u8]) -> Sent
        ensures arrived { arrived_at link.new ≡ arrived_at link.old }
        ensures peer { SendFits ⟦<TestWorld as World>⟧ unit.now (happened_at self.old.test)
            (peer_at link.old) (peer_at link.new) result }
        ensures steady { SendsSteadily ⟦<EdgeLink as Linked>⟧ unit.now link.old link.new
            (happened_at self.old.test) (happened_at self.new.test) result }
        ensures tally { self.new.tally ≡ self.old.tally }
    {
        match link {
            EdgeLink::Test(link) => self.send_test(alloc, link, unit),
            EdgeLink::Tcp(link) => self.send_host(link, unit),
            EdgeLink::Prompt(link) => self.send_prompt(link, unit),
        }
    }

    /// Sends a unit over a link with a test target.
    #[tactic(auto, using(crate::proofs::WireLemmas::fits_unsteady))]
    fn send_test(&mut self, alloc: Global, link: &mut TestLink, unit: &[u8]) -> Sent
        ensures arrived { arrived_at (Edge.Test link.new) ≡ arrived_at (Edge.Test link.old) }
        ensures peer { SendFits ⟦<TestWorld as World>⟧ unit.now (happened_at self.old.test)
            (peer_at (Edge.Test link.old)) (peer_at (Edge.Test link.new)) result }
        ensures steady { SendsSteadily ⟦<EdgeLink as Linked>⟧ unit.now
            (Edge.Test link.old) (Edge.Test link.new)
            (happened_at self.old.test) (happened_at self.new.test) result }
        ensures tally { self.new.tally ≡ self.old.tally }
    {
        self.test.send(alloc, link, unit)
    }

    /// Sends a unit over a link with a target at a host.
    fn send_host(&self, link: &mut TcpLink, unit: &[u8]) -> Sent
        ensures arrived { link.new.arrived ≡ link.old.arrived }
        ensures number { link.new.number ≡ link.old.number }
    {
        match link.send(unit) {
            Ok(()) => {
                self.tell_sent(link.place, unit);
                Sent::Sent
            }
            Err(error) => {
                self.tell_failed(link.place, link.address, error);
                Sent::Failed
            }
        }
    }

    /// Sends a unit over a link no call of which waits.
    fn send_prompt(&self, link: &mut PromptLink, unit: &[u8]) -> Sent
        ensures arrived { link.new.link.arrived ≡ link.old.link.arrived }
        ensures number { link.new.link.number ≡ link.old.link.number }
    {
        let Some(now) = self.now() else {
            return Sent::Failed;
        };
        let stood = link.stands;
        match link.send(now, unit) {
            Ok(()) => {
                self.tell_stands(link, stood);
                self.tell_sent(link.link.place, unit);
                Sent::Sent
            }
            Err(error) => {
                self.tell_broken(link, error);
                Sent::Failed
            }
        }
    }

    /// Looks at a link, without counting.
    #[tactic(auto, using(crate::proofs::WireLemmas::looks_untold))]
    fn look_over(&mut self, alloc: Global, link: &mut EdgeLink) -> Looked
        ensures fits { LookFits (peer_at link.old) (peer_at link.new)
            (arrived_at link.old) (arrived_at link.new) result }
        ensures steady { LooksSteadily ⟦<EdgeLink as Linked>⟧ link.old link.new
            (happened_at self.old.test) (happened_at self.new.test) result }
        ensures tally { self.new.tally ≡ self.old.tally }
    {
        match link {
            EdgeLink::Test(link) => self.look_test(alloc, link),
            EdgeLink::Tcp(link) => self.look_host(link),
            EdgeLink::Prompt(link) => self.look_prompt(link),
        }
    }

    /// Looks at a link with a test target.
    #[tactic(auto, using(crate::proofs::WireLemmas::looks_unsteady))]
    fn look_test(&mut self, alloc: Global, link: &mut TestLink) -> Looked
        ensures fits { LookFits (peer_at (Edge.Test link.old)) (peer_at (Edge.Test link.new))
            (arrived_at (Edge.Test link.old)) (arrived_at (Edge.Test link.new)) result }
        ensures steady { LooksSteadily ⟦<EdgeLink as Linked>⟧
            (Edge.Test link.old) (Edge.Test link.new)
            (happened_at self.old.test) (happened_at self.new.test) result }
        ensures tally { self.new.tally ≡ self.old.tally }
    {
        self.test.look(alloc, link)
    }

    /// Looks at a link with a target at a host.
    fn look_host(&mut self, link: &mut TcpLink) -> Looked
        ensures fits { LookFits None None link.old.arrived.items link.new.arrived.items result }
        ensures number { link.new.number ≡ link.old.number }
        ensures test { self.new.test ≡ self.old.test }
        ensures tally { self.new.tally ≡ self.old.tally }
    {
        match link.look(&mut self.awaited) {
            Ok(looked) => looked,
            Err(error) => {
                self.tell_failed(link.place, link.address, error);
                Looked::Failed
            }
        }
    }

    /// Looks at a link no call of which waits.
    fn look_prompt(&mut self, link: &mut PromptLink) -> Looked
        ensures fits { LookFits None None
            link.old.link.arrived.items link.new.link.arrived.items result }
        ensures number { link.new.link.number ≡ link.old.link.number }
        ensures test { self.new.test ≡ self.old.test }
        ensures tally { self.new.tally ≡ self.old.tally }
    {
        let Some(now) = self.now() else {
            return Looked::Failed;
        };
        let stood = link.stands;
        match link.look(now) {
            Ok(looked) => {
                self.tell_stands(link, stood);
                looked
            }
            Err(error) => {
                self.tell_broken(link, error);
                Looked::Failed
            }
        }
    }

    /// What a call of a link asks beside it, where no call waits.
    fn now(&self) -> Option<Now<'_, R>> {
        let hosts = self.hosts.as_ref()?;
        Some(Now {
            runtime: self.runtime,
            hosts,
            milliseconds: milliseconds(self.runtime),
        })
    }

    /// Counts a link that was made, where its connection stands and did not before.
    fn tell_stands(&self, link: &PromptLink, stood: bool) {
        if link.stands && !stood {
            self.tell_made(link.link.place);
        }
    }

    /// Logs a target whose link failed, or whose connection could not be made.
    fn tell_broken(&self, link: &PromptLink, error: io::Error) {
        if link.stands {
            self.tell_failed(link.link.place, link.link.address, error);
        } else if let Some(hosts) = &self.hosts {
            let (name, port) = hosts.name_of(link.host);
            self.tell_undialled(link.link.place, name, port, error);
        }
    }

    /// Counts a link that was made with the target at a place in the totals.
    fn tell_made(&self, place: Option<usize>) {
        if let Some(target) = self.totals.target(place) {
            target.count_dial();
        }
    }

    /// Counts a unit that was sent to the target at a place in the totals, which are logged once a minute.
    fn tell_sent(&self, place: Option<usize>, unit: &[u8]) {
        if let Some(target) = self.totals.target(place) {
            target.count_unit(unit);
            self.totals.tell_due(self.log, seconds(self.runtime));
        }
    }

    /// Logs a target that could not be dialled.
    fn tell_unmade(&self, place: Option<usize>, host: &Text, port: u16, error: io::Error) {
        let name = str::from_utf8(host.as_slice()).unwrap_or("?");
        self.tell_undialled(place, name, port, error);
    }

    /// Logs a target that could not be dialled, by its host's name.
    fn tell_undialled(&self, place: Option<usize>, name: &str, port: u16, error: io::Error) {
        let times = match self.totals.target(place) {
            Some(target) => target.count_unmade(seconds(self.runtime)),
            None => Some(Times(1)),
        };
        if let Some(times) = times {
            warn!(self.log; "target {name}:{port} cannot be dialled: {error}{times}");
        }
    }

    /// Logs a target whose link failed.
    fn tell_failed(&self, place: Option<usize>, address: SocketAddr, error: io::Error) {
        let times = match self.totals.target(place) {
            Some(target) => target.count_failed(seconds(self.runtime)),
            None => Some(Times(1)),
        };
        if let Some(times) = times {
            warn!(self.log; "target {address} failed: {error}{times}");
        }
    }
}

impl<R: Net + time::Clock, L: Log> Watched for EdgeWire<'_, R, L> {
    ghost use Rattle.std.specs.Prelude.{false};
    ghost use Rattle.tcp_edge.specs.Wires.{counts_in, happened_at};

    ghost counts = { λ wire. counts_in wire.tally };

    ghost exact = { false };

    ghost happened = { λ wire. happened_at wire.test };
}

impl<R: Net<Stream = TcpStream> + time::Clock, L: Log> Wire<TestWorld> for EdgeWire<'_, R, L> {
    type Link = EdgeLink;

    #[tactic(auto, using(crate::proofs::WireLemmas::same_self))]
    fn dial(&mut self, alloc: Global, address: &Address) -> Dialled<EdgeLink> {
        match address {
            Address::Test(_) | Address::Login(_, _) => self.dial_test(alloc, address),
            Address::Tcp(host, port) => self.dial_host(alloc, host, *port),
        }
    }

    fn send(&mut self, alloc: Global, link: &mut EdgeLink, unit: &[u8]) -> Sent {
        let sent = self.send_over(alloc, link, unit);
        self.tally.count_send(sent);
        sent
    }

    fn look(&mut self, alloc: Global, link: &mut EdgeLink) -> Looked {
        let looked = self.look_over(alloc, link);
        self.tally.count_look(looked);
        looked
    }

    fn arrived<'a>(&self, link: &'a EdgeLink) -> &'a [u8] {
        match link {
            EdgeLink::Test(link) => self.test.arrived(link),
            EdgeLink::Tcp(link) => link.arrived.as_slice(),
            EdgeLink::Prompt(link) => link.link.arrived.as_slice(),
        }
    }

    fn consume(&mut self, link: &mut EdgeLink, count: usize) {
        match link {
            EdgeLink::Test(link) => self.test.consume(link, count),
            EdgeLink::Tcp(link) => link.arrived.advance(count),
            EdgeLink::Prompt(link) => link.link.arrived.advance(count),
        }
    }

    ghost exact_links = { λ e. e };
}
