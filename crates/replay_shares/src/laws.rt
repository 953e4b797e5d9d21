//! Orderly scripts share the sessions of the pool. These functions do nothing; what they ensure is the law.

ghost use Rattle.replay_shares.specs.steps.Laws.{RunsOfGetsShare, RunsOfScriptsShare, RunsOfUnitsShare, RunsShare};

use front_conn_works::{begins_none, ended_is_whole, marks_decide, stays_begun, steps_begin};
use package_shares::package::package_outcome_is_true;
use package_shares::requests_share;
use replay::front_conn::{
    stands_at_start, stands_when_ended, stands_when_fed, stands_when_written, stays_of_route,
};
use replay::sru_rules::one_reading;
use sru_request::head_stays;
use z_types::{Sitting, World};

/// A run of a client of units, or of one of which nothing has come, leaves the pool kept behind the
/// uses of what the client asked, and each class costs what these need.
pub fn units_share<W: World, S: Sitting<W>>()
    ensures { RunsOfUnitsShare W.World S.Sitting }
{
    stands_when_written::<W, S>();
    stays_of_route::<W, S>();
    stays_begun::<W, S>();
    steps_begin::<W, S>();
    ended_is_whole::<W, S>();
    marks_decide::<W>();
    requests_share::<W, S>();
}

/// So does a run of a client of HTTP.
pub fn gets_share<W: World, S: Sitting<W>>()
    ensures { RunsOfGetsShare W.World S.Sitting }
{
    one_reading();
    head_stays();
    package_outcome_is_true::<W, S>();
    stands_when_written::<W, S>();
    requests_share::<W, S>();
}

/// And so does any run.
pub fn runs_share<W: World, S: Sitting<W>>()
    ensures { RunsShare W.World S.Sitting }
{
    units_share::<W, S>();
    gets_share::<W, S>();
}

/// Of a whole orderly script each mark is Plain, and each class costs what its uses need.
pub fn scripts_share<W: World, S: Sitting<W>>()
    ensures { RunsOfScriptsShare W.World S.Sitting }
{
    stands_at_start::<W, S>();
    stands_when_fed::<W, S>();
    stands_when_ended::<W, S>();
    stays_of_route::<W, S>();
    begins_none::<W, S>();
    stays_begun::<W, S>();
    runs_share::<W, S>();
}
