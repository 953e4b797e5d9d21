//! Where connections come from.

ghost use Rattle.std.specs.Prelude.{◌≡◌, ◌-◌, ◌≤◌, ◌<◌, ℕ, List, [], ◌∷◌, ◌++◌, Option, IfSome, option_map};
ghost use Rattle.z_types.specs.Counts.{Rose};
ghost use Rattle.gw_outside.specs.Accepts.{AcceptFits, IsNewConnection, out_after};

use crate::{Came, Sink, Source};

/// What an accept gave.
#[derive(Drop)]
pub enum Accepted<I, O> {
    /// A new connection: where its octets come from, and where they go.
    Connection(I, O),
    /// No connection is left.
    Ended,
    /// There is no connection, and the count of faults rose.
    Failed,
}

/// A stream of connections. Each that is accepted is handed back when it has ended.
pub trait Accept {
    /// Where a connection's octets come from.
    type In: Source;

    /// Where they go.
    type Out: Sink;

    /// How many accepts failed. It never falls.
    ghost faults: { Self → ℕ };

    /// How many connections are left, where that is told.
    ghost left: { Self → Option ℕ };

    /// The connections that were handed back, in their order, where they are told.
    ghost closed: { Self → Option (List (Self.In × Self.Out)) };

    /// How many connections are out, accepted and not handed back, where that is told.
    ghost out: { Self → Option ℕ };

    /// The next connection. It has ended only where none is left, where that is told. The connections
    /// of an acceptor that tells begin with counts of 0, and nothing of them was read or written.
    fn accept(&mut self) -> Accepted<Self::In, Self::Out>
        ensures fits { AcceptFits (left self.old) (left self.new) result }
        ensures connection { IsNewConnection
            Self.In.Source Self.Out.Sink (left self.old) result }
        ensures failed { result ≡ Accepted.Failed → Rose (faults self.old) (faults self.new) }
        ensures faults { faults self.old ≤ faults self.new }
        ensures closed { closed self.new ≡ closed self.old }
        ensures out { out self.new ≡ out_after result (out self.old) };

    /// Takes back a connection that was accepted, with what came of it, which an acceptor may tell an
    /// operator. It takes no memory and cannot fail.
    fn close(&mut self, input: Self::In, output: Self::Out, came: Came<'_>)
        requires { IfSome (out self.old) (λ count. 0 < count) }
        ensures closed { closed self.new
            ≡ option_map (λ before. before ++ (input, output) ∷ []) (closed self.old) }
        ensures left { left self.new ≡ left self.old }
        ensures out { out self.new ≡ option_map (λ count. count - 1) (out self.old) }
        ensures faults { faults self.new ≡ faults self.old };
}
