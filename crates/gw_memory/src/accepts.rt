//! Connections in memory.

ghost use Rattle.std.specs.Prelude.{◌≡◌, ◌≤◌, ◌<◌, ◌+◌, ◌-◌, [], ◌∷◌, ◌++◌, Some, IfSome, option_map, length, IfOk};
ghost use Rattle.std.specs.Vec.{vec_len, vec_capacity};
ghost use Rattle.std.specs.VecDeque.{deque_len};
ghost use Rattle.std.proofs.Props.{props};
ghost use Rattle.z_types.specs.Counts.{Rose, one_more};
ghost use Rattle.gw_outside.specs.Accepts.{AcceptFits, IsNewConnection, out_after};
ghost use Rattle.planned_calls.specs.Planned.{new_calls, fails_next, after_call};
ghost use Rattle.gw_memory.specs.Accepts.{AreUntouched, HandsOut, is_failed_accept};

use gw_outside::{Accept, Accepted, Came, Sink, Source};
use planned_calls::Calls;
use std::alloc::Global;
use std::collections::VecDeque;
use z_types::{List, Memory};

/// An acceptor of stated connections, each a source and a sink of which nothing was read or written. It
/// has room for all that are handed back.
#[derive(Drop)]
pub struct MemoryAccept<I: Source, O: Sink> {
    waiting: VecDeque<(I, O)>,
    closed: Vec<(I, O)>,
    total: usize,
    calls: Calls,
    faults: u64,
    ghost untouched: { AreUntouched I.Source O.Sink waiting.items } by { Prim.hlevel props },
    ghost few: { deque_len waiting + vec_len closed ≤ total },
    ghost room: { total ≤ vec_capacity closed },
}

impl<I: Source, O: Sink> MemoryAccept<I, O> {
    /// An acceptor that hands out these connections in their order; the accepts of these numbers,
    /// counted from 1, fail.
    pub fn new(
        alloc: Global,
        connections: List<(I, O)>,
        failing: List<u64>,
    ) -> Result<MemoryAccept<I, O>, Memory>
        requires { AreUntouched I.Source O.Sink connections }
        ensures waiting { IfOk result (λ accept. accept.waiting.items ≡ connections) }
        ensures closed { IfOk result (λ accept. accept.closed.items ≡ []) }
        ensures total { IfOk result (λ accept. accept.total ≡ length connections) }
        ensures calls { IfOk result (λ accept. accept.calls ≡ new_calls failing) }
        ensures faults { IfOk result (λ accept. accept.faults ≡ 0) }
    {
        let total = connections.len();
        let closed = Vec::with_capacity(alloc, total)?;
        Ok(MemoryAccept {
            waiting: VecDeque::from_vec(connections.into_vec()),
            closed,
            total,
            calls: Calls::new(failing),
            faults: 0,
        })
    }

    /// The connections that were handed back, in their order.
    pub fn closed(&self) -> &[(I, O)]
        ensures { ⟦<MemoryAccept<I, O> as Accept>⟧.closed self.now ≡ Some result.now }
    {
        self.closed.as_slice()
    }
}

impl<I: Source, O: Sink> Accept for MemoryAccept<I, O> {
    type In = I;

    type Out = O;

    ghost faults = { λ accept. accept.faults };

    ghost left = { λ accept. Some (deque_len accept.waiting) };

    ghost out = { λ accept. Some
        (accept.total - (deque_len accept.waiting + vec_len accept.closed)) };

    ghost closed = { λ accept. Some accept.closed.items };

    fn accept(&mut self) -> Accepted<I, O>
        ensures fits { AcceptFits
            (Some (deque_len self.old.waiting)) (Some (deque_len self.new.waiting)) result }
        ensures connection { IsNewConnection
            I.Source O.Sink (Some (deque_len self.old.waiting)) result }
        ensures failed { result ≡ Accepted.Failed → Rose self.old.faults self.new.faults }
        ensures faults { self.old.faults ≤ self.new.faults }
        ensures closed { Some self.new.closed.items ≡ Some self.old.closed.items }
        ensures out { Some (self.new.total - (deque_len self.new.waiting + vec_len self.new.closed))
            ≡ out_after result (Some
            (self.old.total - (deque_len self.old.waiting + vec_len self.old.closed))) }
        ensures order { HandsOut self.old.waiting.items self.new.waiting.items result }
        ensures planned { is_failed_accept result ≡ fails_next self.old.calls }
        ensures counts { self.new.faults
            ≡ one_more (fails_next self.old.calls) self.old.faults }
        ensures counted { self.new.calls ≡ after_call self.old.calls }
    {
        if self.calls.next_fails() {
            self.faults = self.faults.saturating_add(1);
            return Accepted::Failed;
        }
        match self.waiting.pop_front() {
            Some((input, output)) => Accepted::Connection(input, output),
            None => Accepted::Ended,
        }
    }

    fn close(&mut self, input: I, output: O, _came: Came<'_>)
        requires { IfSome (Some
            (self.old.total - (deque_len self.old.waiting + vec_len self.old.closed)))
            (λ count. 0 < count) }
        ensures closed { Some self.new.closed.items
            ≡ option_map (λ before. before ++ (input, output) ∷ []) (Some self.old.closed.items) }
        ensures left { Some (deque_len self.new.waiting) ≡ Some (deque_len self.old.waiting) }
        ensures out { Some (self.new.total - (deque_len self.new.waiting + vec_len self.new.closed))
            ≡ option_map (λ count. count - 1) (Some
            (self.old.total - (deque_len self.old.waiting + vec_len self.old.closed))) }
        ensures faults { self.new.faults ≡ self.old.faults }
        ensures waiting { self.new.waiting ≡ self.old.waiting }
        ensures calls { self.new.calls ≡ self.old.calls }
    {
        self.closed.push_reserved((input, output));
    }
}
