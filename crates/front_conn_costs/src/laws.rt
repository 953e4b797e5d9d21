//! What the steps of a connection cost. These functions do nothing; what they ensure is the law.

ghost use Rattle.front_conn_costs.specs.steps.Laws.{CostsNothing, CostsOn, LeavesNoMore, MarksAreMet, PaidIsRisen, PaysOn, RisesPlainly, StartsCostless, StaysSoCosted, StepsCost, StepsCount, StepsKeepTotals, StepsMeet, StepsOweFew, StepsPay, SumsAtRest};

use z_types::{Sitting, World};

/// A step that had memory: links made, searches sent, sets that were gone and, where the backend is
/// exact, calls that failed, as the legs counted them, are those that the backend counted.
pub fn steps_count<W: World, S: Sitting<W>>()
    ensures { StepsCount W.World S.Sitting }
{}

/// A step keeps a sum for each class of the route.
pub fn steps_keep_totals<W: World, S: Sitting<W>>()
    ensures { StepsKeepTotals W.World S.Sitting }
{}

/// A step: for the marks that are listed then, the backend and the door have counted enough of what
/// they come of.
pub fn steps_meet<W: World, S: Sitting<W>>()
    ensures { StepsMeet W.World S.Sitting }
{}

/// A step that had memory is costed: all of these laws hold of it.
pub fn steps_cost<W: World, S: Sitting<W>>()
    ensures { StepsCost W.World S.Sitting }
{}

/// Steps that are costed one after another are costed together.
pub fn costs_on<W: World, S: Sitting<W>>()
    ensures { CostsOn S }
{}

/// Where no step is done, nothing is to be costed.
pub fn costs_nothing<W: World, S: Sitting<W>>()
    ensures { CostsNothing S }
{}

/// A step: each search was booked at the door or follows a Gone or a fault, and each address that
/// the door named was dialled, or failed, or is due.
pub fn steps_pay<W: World, S: Sitting<W>>()
    ensures { StepsPay W.World S.Sitting }
{}

/// Behind a step no more addresses are due than a request has legs.
pub fn steps_owe_few<W: World, S: Sitting<W>>()
    ensures { StepsOweFew W.World S.Sitting }
{}

/// What was paid for over steps was paid for over all of them.
pub fn pays_on<W: World, S: Sitting<W>>()
    ensures { PaysOn S }
{}

/// Where all is paid for and no count has come to its end, searches rose by no more than bookings,
/// Gones and faults did, and named addresses by no more than links made, faults, and what is due.
pub fn paid_is_risen<W: World, S: Sitting<W>>()
    ensures { PaidIsRisen S }
{}

/// A count that is not at its end rose by just as much, or by as much at least.
pub fn rises_plainly()
    ensures { RisesPlainly }
{}

/// A new connection has counted and met nothing.
pub fn starts_costless<W: World, S: Sitting<W>>()
    ensures { StartsCostless S }
{}

/// What comes, the end of the input and what is written cost nothing.
pub fn stays_costed<W: World, S: Sitting<W>>()
    ensures { StaysSoCosted S }
{}

/// A connection that is left has met no more than before.
pub fn leaves_no_more<W: World, S: Sitting<W>>()
    ensures { LeavesNoMore S }
{}

/// What the marks came of is among what was met.
pub fn marks_are_met<W: World, S: Sitting<W>>()
    ensures { MarksAreMet S }
{}

/// Where no request is in work, what was counted is in the sums by class.
pub fn sums_at_rest<W: World, S: Sitting<W>>()
    ensures { SumsAtRest S }
{}
