//! The top call of serving, which the program makes.

ghost use Rattle.std.specs.Prelude.{◌≡◌, ◌<◌, ◌≤◌, length};
ghost use Rattle.gateway_config.specs.Outside.{file_reads, sink_writes};
ghost use Rattle.serve_cached.specs.serve_threads.Serving.{HaveServed};
ghost use Rattle.serve_top.specs.Outcome.{IsDone, IsPrinted, IsServedTold, RouteServed, ServeDone};

use crate::lines::{ACCEPT_FAULT, listed, served_line};
use crate::words::serve_of;
use cache_backend::CachedSession;
use gateway_config::{
    ConfigRead, Status, USAGE, print_text, read_config, refuse_config, say, unread,
};
use gw_outside::{Accept, Backend, Clock, Files, Sink};
use pool_index::IndexedPool;
use record_cache::RecordCache;
use route_config::Route;
use serve_cached::serve_all_cached;
use serve_cached::serve_threads::serve::{Worked, Worker};
use serve_cached::serve_threads::serve_all;
use std::alloc::Global;
use std::hash::RandomState;
use std::random::RandomSource;
use std::sync::Wait;
use std::thread::Threads;
use z_types::{Memory, Text, World};

/// Serves, as the words after the program's name say: each worker accepts connections one after another
/// and serves each, in a thread of its own, over one pool of sessions with targets, until no connection
/// is left or an accept fails. Behind all of them it prints how many connections were served. It waits
/// where an acceptor, a connection, a backend or the pool's lock does.
///
/// The words are refused first, then the configuration. At every status the workers are the same, in
/// the same order.
pub fn top_serve<
    R: RandomSource + Threads + Wait + Sync,
    W: World + Send + Sync,
    B: Backend<W, Session: Send> + Drop + Send,
    A: Accept<In: Send, Out: Send> + Drop + Send,
    C: Clock + Drop + Send,
    F: Files,
    K: Sink,
>(
    rt: &R,
    alloc: Global,
    words: &[Text],
    files: &mut F,
    out: &mut K,
    workers: &mut Vec<Worker<B, A, C>>,
) -> Status
    ensures done { IsDone W.World A.In.Source A.Out.Sink A.Accept B.Watched words.now
        (file_reads F.Files files.old files.new) (sink_writes K.Sink out.old out.new)
        workers.old.items workers.new.items result }

    // So one line is printed, which its status names, or nothing for want of memory.
    ensures printed { IsPrinted (sink_writes K.Sink out.old out.new) result }
{
    match serve_of(words, workers.len()) {
        Some(config) => serve::<R, W, B, A, C, F, K>(rt, alloc, config, files, out, workers),
        None => {
            say(out, USAGE);
            Status::Words
        }
    }
}

/// Serves by the configuration of one file.
fn serve<
    R: RandomSource + Threads + Wait + Sync,
    W: World + Send + Sync,
    B: Backend<W, Session: Send> + Drop + Send,
    A: Accept<In: Send, Out: Send> + Drop + Send,
    C: Clock + Drop + Send,
    F: Files,
    K: Sink,
>(
    rt: &R,
    alloc: Global,
    config: &Text,
    files: &mut F,
    out: &mut K,
    workers: &mut Vec<Worker<B, A, C>>,
) -> Status
    requires few { length workers.old.items ≤ 64 }
    ensures { ServeDone W.World A.In.Source A.Out.Sink A.Accept B.Watched config.now
        (file_reads F.Files files.old files.new) (sink_writes K.Sink out.old out.new)
        workers.old.items workers.new.items result }
{
    match read_config(alloc, files, config) {
        ConfigRead::Taken(route) => {
            serve_route::<R, W, B, A, C, K>(rt, alloc, &route, out, workers)
        }
        ConfigRead::Refused(fault) => refuse_config(alloc, out, &fault),
        ConfigRead::Failed => unread(alloc, out, config),
        ConfigRead::Memory => Status::Memory,
    }
}

/// Serves by a route.
fn serve_route<
    R: RandomSource + Threads + Wait + Sync,
    W: World + Send + Sync,
    B: Backend<W, Session: Send> + Drop + Send,
    A: Accept<In: Send, Out: Send> + Drop + Send,
    C: Clock + Drop + Send,
    K: Sink,
>(rt: &R, alloc: Global, route: &Route, out: &mut K, workers: &mut Vec<Worker<B, A, C>>) -> Status
    requires few { length workers.old.items ≤ 64 }
    ensures { RouteServed W.World A.In.Source A.Out.Sink A.Accept B.Watched route.now
        (sink_writes K.Sink out.old out.new) workers.old.items workers.new.items result }
{
    let before = listed(workers);
    match serve_over_pool::<R, W, B, A, C>(rt, alloc, route, workers) {
        Worked::Ended => {
            let after = listed(workers);
            tell_served(alloc, out, after.saturating_sub(before))
        }
        Worked::Failed => {
            say(out, ACCEPT_FAULT);
            Status::AcceptFault
        }
        Worked::Memory => Status::Memory,
    }
}

/// Serves over a new pool of the route's numbers.
fn serve_over_pool<
    R: RandomSource + Threads + Wait + Sync,
    W: World + Send + Sync,
    B: Backend<W, Session: Send> + Drop + Send,
    A: Accept<In: Send, Out: Send> + Drop + Send,
    C: Clock + Drop + Send,
>(rt: &R, alloc: Global, route: &Route, workers: &mut Vec<Worker<B, A, C>>) -> Worked
    ensures served { HaveServed W.World A.In.Source A.Out.Sink A.Accept B.Watched route.now
        route.now.pool.max_sessions workers.old.items workers.new.items result }
    ensures len { length workers.new.items ≡ length workers.old.items }
{
    let most = route.parts().cache_records;
    if most > 0 {
        return serve_over_store::<R, W, B, A, C>(rt, alloc, route, most, workers);
    }
    let numbers = route.parts().pool;
    let pool: IndexedPool<W, B::Session> = IndexedPool::after(alloc, numbers, 0);
    let (worked, _) = serve_all::<R, W, B, IndexedPool<W, B::Session>, A, C>(
        rt, alloc, route, pool, workers,
    );
    worked
}

/// Serves over a new pool, and a new store of so many records at most.
fn serve_over_store<
    R: RandomSource + Threads + Wait + Sync,
    W: World + Send + Sync,
    B: Backend<W, Session: Send> + Drop + Send,
    A: Accept<In: Send, Out: Send> + Drop + Send,
    C: Clock + Drop + Send,
>(rt: &R, alloc: Global, route: &Route, most: u32, workers: &mut Vec<Worker<B, A, C>>) -> Worked
    requires most { 0 < most }
    ensures served { HaveServed W.World A.In.Source A.Out.Sink A.Accept B.Watched route.now
        route.now.pool.max_sessions workers.old.items workers.new.items result }
    ensures len { length workers.new.items ≡ length workers.old.items }
{
    let Ok(store) = new_store(rt, alloc, most) else {
        return Worked::Memory;
    };
    let numbers = route.parts().pool;
    let pool: IndexedPool<W, CachedSession<W, B::Session>> = IndexedPool::after(alloc, numbers, 0);
    let (worked, _) = serve_all_cached::<
        R,
        W,
        B,
        IndexedPool<W, CachedSession<W, B::Session>>,
        A,
        C,
    >(rt, alloc, route, pool, store, workers);
    worked
}

/// A store of so many records, whose keys are hashed by what is drawn from the system for this run: a client who
/// could tell the hashes could choose queries that make each look in the store long. Where the system gives nothing
/// they are hashed as in each run.
fn new_store<R: RandomSource, W: World>(
    rt: &R,
    alloc: Global,
    most: u32,
) -> Result<RecordCache<W>, Memory>
    requires { 0 < most }
{
    match RandomState::new(rt) {
        Ok(hasher) => RecordCache::with_hasher(alloc, most, hasher),
        Err(_) => RecordCache::new(alloc, most),
    }
}

/// Prints how many connections were served.
fn tell_served<K: Sink>(alloc: Global, out: &mut K, number: u128) -> Status
    ensures { IsServedTold number (sink_writes K.Sink out.old out.new) result }
{
    match served_line(alloc, number) {
        Ok(line) => print_text(out, line.as_slice()),
        Err(_) => Status::Memory,
    }
}
