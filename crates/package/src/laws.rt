//! What comes of a package that is over. These functions do nothing; what they ensure is the law.

ghost use Rattle.package.specs.steps.Laws.{CauseIsAllowed, IsAnswered, OutcomeFits, OutcomeIsTrue};

use z_types::{Sitting, World};

/// The legs of a package that is over answered what they were asked.
pub fn package_is_answered<W: World, S: Sitting<W>>()
    ensures { IsAnswered W.World S.Sitting }
{}

/// On a fair route, what comes of a package is what comes of its work under its cause: the mark of the
/// first leg that is marked, with its class, or else what the targets mean.
pub fn package_outcome_is_true<W: World, S: Sitting<W>>()
    ensures { OutcomeIsTrue W.World S.Sitting }
{}

/// On every route, what comes of a package fits its work.
pub fn package_outcome_fits<W: World, S: Sitting<W>>()
    ensures { OutcomeFits W.World S.Sitting }
{}

/// The cause of a package is allowed: its mark is Plain, or names the class of a leg that its work
/// asks.
pub fn package_cause_is_allowed<W: World, S: Sitting<W>>()
    ensures { CauseIsAllowed W.World S.Sitting }
{}
