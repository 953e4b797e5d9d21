//! What is true of every login and of every denial. These functions do nothing; what they ensure is
//! the law.

ghost use Rattle.access_rules.specs.Access.{DenialIsOfTheFirst, NoDenialIsOpen};
ghost use Rattle.access_rules.specs.Laws.{LoginsSayTheirFirstElement};

/// A login says what the first of its elements says, in whatever form of BER these are written, and
/// whatever stands behind the first.
pub fn one_reading()
    ensures { LoginsSayTheirFirstElement }
{}

/// A denial is of the first database named that the client may not search, and there is none
/// exactly where it may search them all.
pub fn first_denied()
    ensures first { DenialIsOfTheFirst }
    ensures none { NoDenialIsOpen }
{}
