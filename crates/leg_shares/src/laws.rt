//! A leg shares the session of its class and login. These functions do nothing; what they ensure is the law. They speak of
//! legs with which nothing goes wrong, which is so over a quiet backend at addresses that are told.

ghost use Rattle.leg_shares.specs.steps.Laws.{AgainNeedsNone, FairClassIsOne, LastUsesDecide, LegsShare, OthersShare, StaysOnce, TurnsShare};

use z_types::{Sitting, World};

/// On a fair route the members of each class are one target.
pub fn fair_class_is_one<W: World>()
    ensures { FairClassIsOne W.World }
{}

/// Sessions that stay or expire twice at one moment do so once.
pub fn stays_once<S: Drop>()
    ensures { StaysOnce S }
{}

/// What is kept of a class is decided by the last uses of it and of its keys, in whatever order uses of
/// several classes at one moment stand.
pub fn last_uses_decide<W: World, S: Drop>()
    ensures { LastUsesDecide W.World S }
{}

/// A class that was used at a moment, with a key, needs no dial then, and no search but where the target
/// refuses it.
pub fn again_needs_none<W: World>()
    ensures { AgainNeedsNone W.World }
{}

/// A turn goes on as the leg's use of its class needs, and leaves the sessions of other classes and
/// logins but for those that expire.
pub fn turns_share<W: World, S: Sitting<W>>()
    ensures { TurnsShare W.World S.Sitting }
{}

/// What others do with sessions of other classes and logins leaves a leg where it stands.
pub fn others_share<W: World, S: Sitting<W>>()
    ensures { OthersShare W.World S.Sitting }
{}

/// A leg from its first turn to its last, over a class that is kept: it dials exactly where a dial is
/// needed, it searches exactly where a search is, and it leaves the class kept with its use.
pub fn legs_share<W: World, S: Sitting<W>>()
    ensures { LegsShare W.World S.Sitting }
{}
