//! A load, played, and the line that is printed of it.

ghost use Rattle.std.specs.Prelude.{◌≡◌, ◌≤◌, ◌++◌, IfOk, OnOk, count_by};
ghost use Rattle.std.specs.Fmt.{decimal};
ghost use Rattle.script.specs.Events.{most_clients};
ghost use Rattle.route_config.specs.Smallest.{smallest_route};
ghost use Rattle.sample_maker.specs.Load.{load_events};
ghost use Rattle.replay_shares.specs.replay.Page.{requests};
ghost use Rattle.gateway_top.specs.Load.{HasLoadSums, LoadDone, is_plain, links_made, load_line, octets_written, plain_requests, searches_sent};
ghost use Rattle.gateway_config.specs.Outside.{sink_writes};
ghost use Rattle.replay_top.specs.Outside.{wire_calls};
ghost use Rattle.replay_top.specs.Reported.{IsPlayedReport};

use gateway_config::Status;
use gw_outside::{Events, Sink, Wire, write_all};
use load_shares::{
    loads_are_answered, loads_are_answered_plainly, loads_are_orderly, loads_need_so,
};
use replay_shares::replay::{ClassReport, ClientReport, Report};
use replay_top::run;
use route_config::Route;
use sample_maker::make;
use std::alloc::Global;
use z_client::ZSession;
use z_types::{Mark, Memory, Sitting, Text, World};

/// Plays the load of so many clients by the route of the smallest configuration, and prints its line.
pub(crate) fn load<W: World, N: Wire<W> + Events, K: Sink>(
    alloc: Global,
    clients: u32,
    out: &mut K,
    wire: &mut N,
) -> Status
    requires { clients ≤ most_clients }
    ensures { LoadDone W.World
        (wire_calls N.Watched ⟦<ZSession<W, N::Link> as Sitting<W>>⟧ wire.old wire.new) clients
        (sink_writes K.Sink out.old out.new) result }
{
    let Ok(report) = load_report::<W, N>(alloc, clients, wire) else {
        return Status::Memory;
    };
    let Ok(line) = load_line(alloc, clients, &report) else {
        return Status::Memory;
    };
    if write_all(out, line.as_slice()) {
        Status::Ok
    } else {
        Status::WriteFault
    }
}

/// The report of the load of so many clients, of which the sums are known.
fn load_report<W: World, N: Wire<W> + Events>(
    alloc: Global,
    clients: u32,
    wire: &mut N,
) -> Result<Report, Memory>
    requires { clients ≤ most_clients }
    ensures played { IfOk result (IsPlayedReport W.World
        (wire_calls N.Watched ⟦<ZSession<W, N::Link> as Sitting<W>>⟧ wire.old wire.new)
        smallest_route (load_events clients)) }
    ensures sums { IfOk result (HasLoadSums W.World
        (wire_calls N.Watched ⟦<ZSession<W, N::Link> as Sitting<W>>⟧ wire.old wire.new) clients) }
{
    loads_are_orderly::<W>();
    loads_are_answered::<W>();
    loads_are_answered_plainly::<W>();
    loads_need_so::<W>();
    play_load::<W, N>(alloc, clients, wire)
}

/// What came of the load of so many clients.
fn play_load<W: World, N: Wire<W> + Events>(
    alloc: Global,
    clients: u32,
    wire: &mut N,
) -> Result<Report, Memory>
    requires { clients ≤ most_clients }
    ensures { IfOk result (IsPlayedReport W.World
        (wire_calls N.Watched ⟦<ZSession<W, N::Link> as Sitting<W>>⟧ wire.old wire.new)
        smallest_route (load_events clients)) }
{
    let route = Route::smallest(alloc)?;
    let events = make(alloc, clients)?;
    run(alloc, &route, &events, wire)
}

/// The line of a load of so many clients.
#[tactic(auto, unfolding(crate::specs::Load::load_line))]
fn load_line(alloc: Global, clients: u32, report: &Report) -> Result<Text, Memory>
    ensures { IfOk result (λ line. line ≡ load_line clients report.now) }
{
    let told = report.clients.as_slice();
    let classes = report.classes.as_slice();
    let mut line = Text::new(alloc);
    put_count(alloc, &mut line, b"load clients ", u128::from(clients))?;
    put_count(alloc, &mut line, b" requests ", requests(told))?;
    put_count(alloc, &mut line, b" plain ", plain_requests(told))?;
    put_count(alloc, &mut line, b" bytes ", octets_written(told))?;
    put_count(alloc, &mut line, b" searches ", searches_sent(classes))?;
    put_count(alloc, &mut line, b" dials ", links_made(classes))?;
    line.append(b"\n")?;
    Ok(line)
}

/// Puts what is counted, and the number in decimal.
fn put_count(alloc: Global, line: &mut Text, counted: &[u8], number: u128) -> Result<(), Memory>
    ensures { OnOk result (line.new ≡ line.old ++ counted.now ++ decimal number) }
{
    let digits = format!(in alloc; "{number}")?;
    line.append(counted)?;
    line.append(digits.as_bytes())
}

/// How many marks there are.
fn requests(clients: &[ClientReport]) -> u128
    ensures { result ≡ requests clients.now }
{
    let mut count = 0;
    for client in clients {
        count += client.marks.len() as u128;
    }
    count
}

/// How many marks are Plain.
fn plain_requests(clients: &[ClientReport]) -> u128
    ensures { result ≡ plain_requests clients.now }
{
    let mut count = 0;
    for client in clients {
        count += plain_marks(client.marks.as_slice()) as u128;
    }
    count
}

/// How many of these marks are Plain.
fn plain_marks(marks: &[Mark]) -> usize
    ensures { result ≡ count_by is_plain marks.now }
{
    marks.iter().filter(|mark| is_plain(**mark)).count()
}

/// Whether a mark is Plain.
fn is_plain(mark: Mark) -> bool
    ensures { result ≡ is_plain mark }
{
    match mark {
        Mark::Plain => true,
        Mark::Link | Mark::Silent(_) | Mark::Gone | Mark::Full(_) => false,
    }
}

/// How many octets were written to clients.
fn octets_written(clients: &[ClientReport]) -> u128
    ensures { result ≡ octets_written clients.now }
{
    let mut count = 0;
    for client in clients {
        count += client.bytes.len() as u128;
    }
    count
}

/// How many searches were sent to targets.
fn searches_sent(classes: &[ClassReport]) -> u128
    ensures { result ≡ searches_sent classes.now }
{
    let mut count = 0;
    for class in classes {
        count += u128::from(class.searches);
    }
    count
}

/// How many links with targets were made.
fn links_made(classes: &[ClassReport]) -> u128
    ensures { result ≡ links_made classes.now }
{
    let mut count = 0;
    for class in classes {
        count += u128::from(class.dials);
    }
    count
}
