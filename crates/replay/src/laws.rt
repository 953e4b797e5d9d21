//! What a replay stands on.

ghost use Rattle.replay.specs.Twice.{IsReadTwice};
ghost use Rattle.replay.specs.Uncaused.{UncausedIsPlain};
ghost use Rattle.replay.specs.steps.Laws.{CostLaws, Laws, RunLaws};

use front_conn_costs::front_conn::{
    ends_answered, stands_at_start, stands_when_ended, stands_when_fed, stands_when_written,
    stays_of_route,
};
use front_conn_costs::sru_rules::one_answer;
use front_conn_costs::{
    costs_nothing, costs_on, marks_are_met, starts_costless, stays_costed, steps_cost, sums_at_rest,
};
use front_conn_seats::{steps_keep_seats, turns_keep_seats};
use package_quiet::packages_go_well;
use z_types::{Sitting, World};

/// The laws of connections, together. It does nothing; what it ensures are the laws.
pub(crate) fn connection_laws<W: World, S: Sitting<W>>()
    ensures { Laws W.World S.Sitting }
{
    stands_at_start::<W, S>();
    stands_when_fed::<W, S>();
    stands_when_ended::<W, S>();
    stands_when_written::<W, S>();
    stays_of_route::<W, S>();
    ends_answered::<W, S>();
}

/// The laws of what connections cost, together. It does nothing; what it ensures are the laws.
pub(crate) fn cost_laws<W: World, S: Sitting<W>>()
    ensures { CostLaws W.World S.Sitting }
{
    steps_cost::<W, S>();
    costs_on::<W, S>();
    costs_nothing::<W, S>();
    stays_costed::<W, S>();
    starts_costless::<W, S>();
    marks_are_met::<W, S>();
    sums_at_rest::<W, S>();
}

/// The laws of what a run of connections keeps, together. It does nothing; what it ensures are the laws.
pub(crate) fn run_laws<W: World, S: Sitting<W>>()
    ensures { RunLaws W.World S.Sitting }
{
    packages_go_well::<W, S>();
    turns_keep_seats::<W, S>();
    steps_keep_seats::<W, S>();
    steps_cost::<W, S>();
}

/// Two replays that feed a client the same octets, with all its marks Plain, write it the same and end
/// its connection the same.
#[tactic(auto, using(crate::proofs::TwiceLemmas::twice))]
pub fn read_twice<W: World>()
    ensures { IsReadTwice W.World }
{
    one_answer::<W>();
}

/// Where no call failed, no look was in vain, no set was gone and the door was never full, every mark
/// is Plain.
pub fn uncaused_is_plain<W: World, S: Sitting<W>>()
    ensures { UncausedIsPlain S }
{}
