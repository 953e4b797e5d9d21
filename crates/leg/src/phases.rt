//! Where a leg stands.

ghost use Rattle.std.specs.Prelude.{◌≡◌};
ghost use Rattle.leg.specs.Phases.{seat_of};
ghost use Rattle.leg.specs.Rules.{after_fault};
ghost use Rattle.leg.specs.steps.Replies.{IsRefusal};
ghost use Rattle.gw_outside.specs.declared.backends.Heard.TheVariants.{Refused};
ghost use Rattle.leg.specs.declared.answers.LegAnswer.TheVariants.{Marked};
ghost use Rattle.z_types.specs.declared.marks.Mark.TheVariants.{Silent};
ghost use Rattle.leg.specs.declared.phases.Phase.TheVariants.{Losing};

use crate::LegAnswer;
use gw_outside::Heard;
use pool_sets::{Parts, Seat};
use z_types::{Diag, Item, List, Mark};

/// A session that a leg works on.
#[derive(Drop)]
pub struct Held<S> {
    /// Its seat.
    pub seat: Seat,
    /// The session apart.
    pub parts: Parts<S>,
    /// Whether it came from the pool and has not replied to the leg.
    pub given: bool,
}

/// Where a leg stands, with what it has. Each turn leads from one to the next:
///
/// ```text
/// Begin ── Dialling ── Dialled ── Ready ── Searching ── Presenting ── Fetching ── Returning ── Done
///   │                               │          │             ↑             │
///   │                               │          └─────────────┴──── Gone ───┤  (Ready again)
///   ├── Ready (an idle session)     └── Scanning ── Returning              │
///   ├── Presenting, Returning (a session that holds the set)               │
///   └── Done (the door is full)                                            │
///          a fault: Redialling ── Dialling, or Losing ── Done; silence: Losing
/// ```
///
/// For want of memory only the seat is left: `Spoiled`.
#[derive(Drop)]
pub enum Phase<S> {
    /// A session is to be taken.
    Begin,
    /// A member is to be dialled.
    Dialling {
        /// The seat of the session that is out.
        seat: Seat,
        /// The member's place in the class, counted from 0.
        member: u32,
    },
    /// The reply to the Init is awaited.
    Dialled {
        /// The session.
        held: Held<S>,
        /// How many looks have heard nothing.
        looks: u32,
    },
    /// The search or the scan is to be sent.
    Ready {
        /// The session, which does not hold the set that is wanted.
        held: Held<S>,
        /// The records that came before the set was gone.
        items: List<Item>,
    },
    /// The reply to the search is awaited.
    Searching {
        /// The session.
        held: Held<S>,
        /// The records that came before the set was gone.
        items: List<Item>,
        /// The slot under whose name it was sent.
        slot: u32,
        /// How many looks have heard nothing.
        looks: u32,
    },
    /// The records that are left are to be asked for.
    Presenting {
        /// The session, which holds the set.
        held: Held<S>,
        /// The records that came.
        items: List<Item>,
        /// The slot of the set.
        slot: u32,
        /// How many records the set has.
        hits: u32,
    },
    /// Records are awaited.
    Fetching {
        /// The session, which holds the set.
        held: Held<S>,
        /// The records that came.
        items: List<Item>,
        /// The slot of the set.
        slot: u32,
        /// How many records the set has.
        hits: u32,
        /// How many looks have heard nothing.
        looks: u32,
    },
    /// The reply to the scan is awaited.
    Scanning {
        /// The session.
        held: Held<S>,
        /// How many looks have heard nothing.
        looks: u32,
    },
    /// The session is to be put back.
    Returning {
        /// The session, which rests.
        held: Held<S>,
        /// The leg's answer.
        answer: LegAnswer,
    },
    /// The session is to be given up.
    Losing {
        /// Its seat.
        seat: Seat,
        /// The leg's answer, a mark.
        answer: LegAnswer,
    },
    /// A session that came from the pool failed, and is to be dialled again.
    Redialling {
        /// Its seat.
        seat: Seat,
    },
    /// Memory was wanting, and only the seat is left.
    Spoiled {
        /// The seat of the session that is out.
        seat: Seat,
    },
    /// The leg is done.
    Done {
        /// Its answer.
        answer: LegAnswer,
    },
    /// The leg was given up. So it stands too while it is turned.
    Ended,
}

/// After a fault a session that came from the pool and had not replied is dialled again, and any other
/// is given up.
pub(crate) fn after_fault<S: Drop>(held: Held<S>) -> Phase<S>
    ensures { result ≡ after_fault held }
{
    let seat = held.seat;
    if held.given {
        return Phase::Redialling { seat };
    }
    let answer = LegAnswer::Marked(Mark::Link);
    Phase::Losing { seat, answer }
}

/// A seat again. The other is spent no more.
fn again(seat: &Seat) -> Seat
    ensures { result ≡ seat.now }
{
    Seat {
        class: seat.class,
        number: seat.number,
    }
}

/// The seat of the session that is out for a leg, where one is.
pub(crate) fn seat_of<S>(phase: &Phase<S>) -> Option<Seat>
    ensures { result ≡ seat_of phase.now }
{
    match phase {
        Phase::Dialling { seat, .. }
        | Phase::Losing { seat, .. }
        | Phase::Redialling { seat }
        | Phase::Spoiled { seat } => Some(again(seat)),
        Phase::Dialled { held, .. }
        | Phase::Ready { held, .. }
        | Phase::Searching { held, .. }
        | Phase::Presenting { held, .. }
        | Phase::Fetching { held, .. }
        | Phase::Scanning { held, .. }
        | Phase::Returning { held, .. } => Some(again(&held.seat)),
        Phase::Begin | Phase::Done { .. } | Phase::Ended => None,
    }
}

/// The patience is at its end: the session is given up.
pub(crate) fn silent<S>(seat: Seat, patience: u32) -> Phase<S>
    ensures { result ≡ Losing seat (Marked (Silent patience)) }
{
    let answer = LegAnswer::Marked(Mark::Silent(patience));
    Phase::Losing { seat, answer }
}

/// The diagnostic that was heard.
pub(crate) fn diag_of(heard: Heard) -> Diag
    requires refused { IsRefusal heard }
    ensures diag { heard ≡ Refused result }
{
    match heard {
        Heard::Refused(diag) => diag,
        _ => unreachable!(),
    }
}
