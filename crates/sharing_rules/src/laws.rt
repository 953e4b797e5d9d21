//! Laws of a pool that is shared. These functions do nothing; what they ensure is the law.

ghost use Rattle.sharing_rules.specs.steps.Laws.{OthersKeep, StartsKept, TakesAsNeeded, TimeKeeps, TwiceIsOnce};

use z_types::World;

/// A pool without sessions is kept, behind no use.
pub fn new_pool_is_kept<W: World, S: Drop>()
    ensures { StartsKept W.World S }
{}

/// A take of a class that is kept for each login dials exactly where a dial is needed, and gives the set
/// that is wanted exactly where no search is.
pub fn takes_as_needed<W: World, S: Drop>()
    ensures { TakesAsNeeded W.World S }
{}

/// What is kept for a class and a login is kept as time passes.
pub fn time_keeps<W: World, S: Drop>()
    ensures { TimeKeeps W.World S }
{}

/// What is kept for a class and a login is kept behind a use of another class, or under another login.
pub fn other_uses_keep<W: World, S: Drop>()
    ensures { OthersKeep W.World S }
{}

/// A use that comes twice at one moment counts once.
pub fn twice_is_once<W: World, S: Drop>()
    ensures { TwiceIsOnce W.World S }
{}
