//! Nothing goes wrong over a quiet backend, and what befalls links marks no leg that bears it. These
//! functions do nothing; what they ensure is the law. A pool that is not told is outside of it.

ghost use Rattle.package_quiet.specs.steps.Laws.{BearingStays, BegunBears, BegunIsWell, PackagesBear, PackagesDialOn, PackagesGoWell, TurnsBear, TurnsGoWell};

use z_types::{Sitting, World};

/// A turn of a leg.
pub fn turns_go_well<W: World, S: Sitting<W>>()
    ensures { TurnsGoWell W.World S.Sitting }
{}

/// A package that is begun is well.
pub fn begun_is_well<W: World, S: Sitting<W>>()
    ensures { BegunIsWell W.World S.Sitting }
{}

/// A turn of a package, at want of memory too: no call fails and no look is in vain; and no set is gone,
/// where memory was not wanting.
pub fn packages_go_well<W: World, S: Sitting<W>>()
    ensures { PackagesGoWell W.World S.Sitting }
{}

/// A turn of a leg that bears what befalls links.
pub fn turns_bear<W: World, S: Sitting<W>>()
    ensures { TurnsBear W.World S.Sitting }
{}

/// The legs of a package that is begun bear it.
pub fn begun_bears<W: World, S: Sitting<W>>()
    ensures { BegunBears W.World S.Sitting }
{}

/// A turn of a package whose legs do.
pub fn packages_bear<W: World, S: Sitting<W>>()
    ensures { PackagesBear W.World S.Sitting }
{}

/// No turn of a package lowers the count of links that were made.
pub fn packages_dial_on<W: World, S: Sitting<W>>()
    ensures { PackagesDialOn W.World S.Sitting }
{}

/// Legs that bear it go on so as no worse becomes of links.
pub fn bearing_stays<W: World, S: Sitting<W>>()
    ensures { BearingStays W.World S.Sitting }
{}
