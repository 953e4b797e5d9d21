//! The top call of the event front, which the program makes.

ghost use Rattle.std.specs.Prelude.{◌≡◌, true, is_some};
ghost use Rattle.std.specs.Option.{option_copied};
ghost use Rattle.event_top.specs.Outcome.{EventsDone, FrontServed, IsDone, IsPrinted, IsServedTold, NamedDone, RouteServed, no_door_counts};
ghost use Rattle.gateway_config.specs.Outside.{file_reads, sink_writes};

use crate::lines::{ACCEPT_FAULT, POLL_FAULT, served_line};
use crate::pools::FullDoor;
use crate::words::{config_of, events_of};
use event_loop::{EventFront, Fronted, run_front};
use event_outside::{EdgeAccept, Poller};
use gateway_config::{
    ConfigRead, Status, USAGE, print_text, read_config, refuse_config, say, unread,
};
use gw_outside::{Backend, Clock, Files, Sink};
use pool_index::IndexedPool;
use pool_sets::Door;
use route_config::Route;
use std::alloc::Global;
use z_types::{Text, World};

/// Serves, as the words after the program's name say: many connections on one thread, over one pool of
/// sessions with targets, until no connection is left, or an accept or a wait fails. Then it prints how many
/// connections were served. It waits where the poller does.
///
/// The words are refused first, then the configuration.
pub fn top_events<W: World, B: Backend<W>, A: EdgeAccept, P: Poller, C: Clock, F: Files, K: Sink>(
    alloc: Global,
    words: &[Text],
    files: &mut F,
    out: &mut K,
    front: &mut EventFront<A, P, B, C>,
) -> Status
    ensures done { IsDone W.World A.In.EdgeSource A.Out.EdgeSink A.EdgeAccept P.Poller B.Watched
        words.now (file_reads F.Files files.old files.new) (sink_writes K.Sink out.old out.new)
        front.old front.new result }

    // So one line is printed, which its status names, or nothing for want of memory.
    ensures printed { IsPrinted (sink_writes K.Sink out.old out.new) result }
{
    match events_of(words) {
        Some(asked) => serve_named::<W, B, A, P, C, F, K>(
            alloc,
            asked.most as usize,
            config_of(words),
            files,
            out,
            front,
        ),
        None => {
            say(out, USAGE);
            Status::Words
        }
    }
}

/// Serves by the configuration of one file, where it is named.
fn serve_named<W: World, B: Backend<W>, A: EdgeAccept, P: Poller, C: Clock, F: Files, K: Sink>(
    alloc: Global,
    most: usize,
    config: Option<&Text>,
    files: &mut F,
    out: &mut K,
    front: &mut EventFront<A, P, B, C>,
) -> Status
    ensures { NamedDone W.World A.In.EdgeSource A.Out.EdgeSink A.EdgeAccept P.Poller B.Watched
        (option_copied config.entry) (file_reads F.Files files.old files.new)
        (sink_writes K.Sink out.old out.new) front.old front.new result }
{
    match config {
        Some(config) => serve::<W, B, A, P, C, F, K>(alloc, most, config, files, out, front),
        None => {
            say(out, USAGE);
            Status::Words
        }
    }
}

/// Serves by the configuration of one file.
fn serve<W: World, B: Backend<W>, A: EdgeAccept, P: Poller, C: Clock, F: Files, K: Sink>(
    alloc: Global,
    most: usize,
    config: &Text,
    files: &mut F,
    out: &mut K,
    front: &mut EventFront<A, P, B, C>,
) -> Status
    ensures { EventsDone W.World A.In.EdgeSource A.Out.EdgeSink A.EdgeAccept P.Poller B.Watched
        config.now (file_reads F.Files files.old files.new) (sink_writes K.Sink out.old out.new)
        front.old front.new result }
{
    match read_config(alloc, files, config) {
        ConfigRead::Taken(route) => {
            serve_route::<W, B, A, P, C, K>(alloc, &route, most, out, front)
        }
        ConfigRead::Refused(fault) => refuse_config(alloc, out, &fault),
        ConfigRead::Failed => unread(alloc, out, config),
        ConfigRead::Memory => Status::Memory,
    }
}

/// Serves by a route, over a new pool of its numbers.
fn serve_route<W: World, B: Backend<W>, A: EdgeAccept, P: Poller, C: Clock, K: Sink>(
    alloc: Global,
    route: &Route,
    most: usize,
    out: &mut K,
    front: &mut EventFront<A, P, B, C>,
) -> Status
    ensures { RouteServed W.World A.In.EdgeSource A.Out.EdgeSink A.EdgeAccept P.Poller B.Watched
        route.now (sink_writes K.Sink out.old out.new) front.old front.new result }
{
    let before = front.served.len();
    match serve_over_pool::<W, B, A, P, C>(alloc, route, most, front) {
        Fronted::Ended => {
            let after = front.served.len();
            tell_served(alloc, out, after.saturating_sub(before))
        }
        Fronted::AcceptFailed => {
            say(out, ACCEPT_FAULT);
            Status::AcceptFault
        }
        Fronted::PollFailed => {
            say(out, POLL_FAULT);
            Status::PollFault
        }
        Fronted::Memory => Status::Memory,
    }
}

/// Serves over a new pool of the route's numbers.
fn serve_over_pool<W: World, B: Backend<W>, A: EdgeAccept, P: Poller, C: Clock>(
    alloc: Global,
    route: &Route,
    most: usize,
    front: &mut EventFront<A, P, B, C>,
) -> Fronted
    ensures { FrontServed W.World A.In.EdgeSource A.Out.EdgeSink A.EdgeAccept P.Poller B.Watched
        route.now front.old front.new result }
{
    let numbers = route.parts().pool;
    let pool: IndexedPool<W, B::Session> = IndexedPool::after(alloc, numbers, 0);
    serve_through::<W, B, IndexedPool<W, B::Session>, A, P, C>(alloc, route, most, pool, front)
}

/// Serves over a pool that has counted nothing yet.
fn serve_through<
    W: World,
    B: Backend<W>,
    D: Door<W, B::Session> + Drop,
    A: EdgeAccept,
    P: Poller,
    C: Clock,
>(alloc: Global, route: &Route, most: usize, pool: D, front: &mut EventFront<A, P, B, C>) -> Fronted
    requires told { is_some (D.pool pool) ≡ true }
    requires counts { D.counts pool ≡ no_door_counts route.now.pool }
    ensures { FrontServed W.World A.In.EdgeSource A.Out.EdgeSink A.EdgeAccept P.Poller B.Watched
        route.now front.old front.new result }
{
    let mut door = FullDoor::new(pool);
    let fronted = run_front::<W, B, FullDoor<W, B::Session, D>, A, P, C>(
        alloc, route, &mut door, most, front,
    );
    door.tell();
    fronted
}

/// Prints how many connections were served.
fn tell_served<K: Sink>(alloc: Global, out: &mut K, number: u64) -> Status
    ensures { IsServedTold number (sink_writes K.Sink out.old out.new) result }
{
    match served_line(alloc, number) {
        Ok(line) => print_text(out, line.as_slice()),
        Err(_) => Status::Memory,
    }
}
