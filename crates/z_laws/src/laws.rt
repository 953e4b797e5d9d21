//! What is written is a unit, and is read again as itself.

ghost use Rattle.z_laws.specs.Laws.{WrittenRequestsAreRead, WrittenRepliesAreRead, WrittenRequestsAreUnits, WrittenRepliesAreUnits, WrittenRequestsAreOne, WrittenRepliesAreOne};

/// A request that is written and is a unit is read as the request that it was.
pub fn written_requests_are_read()
    ensures { WrittenRequestsAreRead }
{}

/// A reply that is written and is a unit is read as the reply that it was.
pub fn written_replies_are_read()
    ensures { WrittenRepliesAreRead }
{}

/// A request that is written is a unit, where its query has at most 57 levels and it takes at most
/// 1048576 octets.
pub fn written_requests_are_units()
    ensures { WrittenRequestsAreUnits }
{}

/// A reply that is written is a unit, where its records that are elements have at most 57 levels
/// and it takes at most 1048576 octets.
pub fn written_replies_are_units()
    ensures { WrittenRepliesAreUnits }
{}

/// Octets are the written form of one request at most.
pub fn written_requests_are_one()
    ensures { WrittenRequestsAreOne }
{}

/// Octets are the written form of one reply at most.
pub fn written_replies_are_one()
    ensures { WrittenRepliesAreOne }
{}
