//! Attributes of bib-1 (ANSI/NISO Z39.50-2003, Appendix ATR, bib-1), as terms of CQL use them.

ghost use Rattle.std.specs.Prelude.{◌≡◌, IfOk};
ghost use Rattle.cql_map.specs.Bib1.{attribute, bib1_attributes};

use std::alloc::Global;
use z_types::{Attr, Memory, Oid};

/// The attribute types.
pub const USE: u32 = 1;

pub const RELATION: u32 = 2;

pub const POSITION: u32 = 3;

pub const STRUCTURE: u32 = 4;

pub const TRUNCATION: u32 = 5;

pub const COMPLETENESS: u32 = 6;

/// Use: any field that the target searches by default.
pub const ANYWHERE: u32 = 1016;

/// Relations.
pub const LESS: u32 = 1;

pub const LESS_OR_EQUAL: u32 = 2;

pub const EQUAL: u32 = 3;

pub const GREATER_OR_EQUAL: u32 = 4;

pub const GREATER: u32 = 5;

pub const NOT_EQUAL: u32 = 6;

/// Position: first in the field. Completeness: the whole field.
pub const FIRST_IN_FIELD: u32 = 1;

pub const COMPLETE_FIELD: u32 = 3;

/// Structures.
pub const PHRASE: u32 = 1;

pub const WORD: u32 = 2;

/// Truncation: at the right end, at the left end, at both.
pub const RIGHT: u32 = 1;

pub const LEFT: u32 = 2;

pub const BOTH: u32 = 3;

/// An attribute of the query's own set.
pub fn attribute(kind: u32, value: u32) -> Attr
    ensures { result ≡ attribute kind value }
{
    Attr {
        set: None,
        kind,
        value,
    }
}

/// The object identifier of the attribute set bib-1.
pub fn bib1_attributes(alloc: Global) -> Result<Oid, Memory>
    ensures { IfOk result (λ set. set ≡ bib1_attributes) }
{
    Oid::copy_of(alloc, &[1, 2, 840, 10003, 3, 1])
}
