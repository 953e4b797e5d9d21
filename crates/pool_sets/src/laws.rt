//! Laws of the plain pool.

ghost use Rattle.pool_sets.specs.PoolLaws.{PutIsReused, FullExactly, GivesOwn, OutOnce};

/// A session that is put back is reused by the next take of its class and login for a key that it
/// holds. It does nothing; its contract is the law.
pub fn put_is_reused<S: Drop>()
    ensures { PutIsReused S }
{}

/// A pool is full for a class exactly where none of it is idle, of whatever login, and as many as
/// there may be are out. It does nothing; its contract is the law.
pub fn full_exactly<S: Drop>()
    ensures { FullExactly S }
{}

/// A pool gives no session that is of another login than the one that is asked for, where no login
/// is one of its own. It does nothing; its contract is the law.
pub fn gives_own<S: Drop>()
    ensures { GivesOwn S }
{}

/// A seat is out of a pool once at most, where the numbers of its sessions ascend. It does nothing; its
/// contract is the law.
pub fn out_once<S: Drop>()
    ensures { OutOnce S }
{}
