//! Records and what a response has in their place (ANSI/NISO Z39.50-2003, Records and NamePlusRecord).

ghost use Rattle.z_types.specs.equality.Records.{form, item, named_record, body};

use crate::{Diag, Exact, List, Oid, Text};

/// The encoding of an EXTERNAL's value (X.690:2021, 8.18).
#[derive(Clone, Copy, PartialEq, Eq, Debug)]
pub enum Form {
    /// One whole element (single-ASN1-type, \[0\]).
    Single,
    /// Octets (octet-aligned, \[1\]).
    Octets,
    /// The contents octets of a BIT STRING (arbitrary, \[2\]).
    Arbitrary,
}

/// A record, or the diagnostic that stands for one.
#[derive(PartialEq, Eq, Clone, Drop)]
pub enum Item {
    /// A record in a syntax (retrievalRecord, an EXTERNAL).
    Record {
        /// The record syntax.
        syntax: Oid,
        /// How the octets stand in the EXTERNAL.
        form: Form,
        /// The octets, as they stand.
        bytes: Text,
    },
    /// A diagnostic in a record's place (surrogateDiagnostic).
    Surrogate(Diag),
}

/// A record with the name of its database (NamePlusRecord).
#[derive(PartialEq, Eq, Clone, Drop)]
pub struct NamedRecord {
    /// The database, where it is told.
    pub name: Option<Text>,
    /// The record.
    pub item: Item,
}

/// What a response has for records (Records).
#[derive(PartialEq, Eq, Clone, Drop)]
pub enum Body {
    /// Nothing.
    None,
    /// Records in order (responseRecords).
    Records(List<NamedRecord>),
    /// One diagnostic (nonSurrogateDiagnostic).
    Diag(Diag),
    /// Several diagnostics (multipleNonSurDiagnostics).
    Diags(List<Diag>),
}

impl Exact for Form {
    ghost exact_eq = { form.eq_is_exact };

    ghost exact_clone = { λ a b h. h };
}

impl Exact for Item {
    ghost exact_eq = { item.eq_is_exact };

    ghost exact_clone = { item.clone_is_exact };
}

impl Exact for NamedRecord {
    ghost exact_eq = { named_record.eq_is_exact };

    ghost exact_clone = { named_record.clone_is_exact };
}

impl Exact for Body {
    ghost exact_eq = { body.eq_is_exact };

    ghost exact_clone = { body.clone_is_exact };
}
