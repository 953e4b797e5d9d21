//! The legs of a request share the sessions of their classes. These functions do nothing; what they ensure is the law.
//! The legs go to different classes; a pool that is not told is outside of it.

ghost use Rattle.package_shares.specs.steps.Laws.{BegunShares, DoneLegsLeaveUses, PackagesShare, QuietPackagesShare, RoundsShare};
ghost use Rattle.package_shares.specs.steps.Requests.{BegunMayShare, PackagesMayShare, RequestsShare};

use z_types::{Sitting, World};

/// A package that is begun over a pool that is kept.
pub fn begun_shares<W: World, S: Sitting<W>>()
    ensures { BegunShares W.World S.Sitting }
{}

/// Legs of which all are done dialled and searched just as their uses need, and left each class kept with
/// them.
pub fn done_legs_leave_uses<W: World, S: Sitting<W>>()
    ensures { DoneLegsLeaveUses W.World S.Sitting }
{}

/// Legs that have their turns one after another, with memory and with nothing that goes wrong.
pub fn rounds_share<W: World, S: Sitting<W>>()
    ensures { RoundsShare W.World S.Sitting }
{}

/// A turn of a package, with memory and with nothing that goes wrong.
pub fn packages_share<W: World, S: Sitting<W>>()
    ensures { PackagesShare W.World S.Sitting }
{}

/// A turn of a package with memory, over a quiet backend that counts exactly, at told addresses.
pub fn quiet_packages_share<W: World, S: Sitting<W>>()
    ensures { QuietPackagesShare W.World S.Sitting }
{}

/// The legs of a work that may be done may share their classes when its package is begun.
pub fn begun_may_share<W: World, S: Sitting<W>>()
    ensures { BegunMayShare W.World S.Sitting }
{}

/// So may those of each package of the route that comes of it, the legs for records too.
pub fn packages_may_share<W: World, S: Sitting<W>>()
    ensures { PackagesMayShare W.World S.Sitting }
{}

/// A request from its first turn to its last, with memory, over a quiet backend that counts exactly, on a
/// fair route: it dials and searches just as the uses of its work need, none of its legs is marked, and
/// each class is kept with these uses.
pub fn requests_share<W: World, S: Sitting<W>>()
    ensures { RequestsShare W.World S.Sitting }
{}
