//! What is answered to a searchRetrieve request (SRU 1.2, searchRetrieveResponse).

ghost use Rattle.z_types.specs.equality.Sru.{sru_diag, sru_item, sru_answer};

use crate::{Exact, List, Text};

/// A diagnostic (SRU 1.2, Diagnostics), with the version in which it is answered.
#[derive(PartialEq, Eq, Clone, Drop)]
pub struct SruDiag {
    /// The version, as `1.1` or `1.2`.
    pub version: Text,
    /// The number in the SRU diagnostic set.
    pub number: u32,
    /// What it is about; it may be empty.
    pub details: Text,
}

/// What stands for a record.
#[derive(PartialEq, Eq, Clone, Drop)]
pub enum SruItem {
    /// The record's octets.
    Data(Text),
    /// A diagnostic in its place (surrogate diagnostic).
    Fault(SruDiag),
}

/// A searchRetrieveResponse.
#[derive(PartialEq, Eq, Clone, Drop)]
pub struct SruAnswer {
    /// The version, as `1.1` or `1.2`.
    pub version: Text,
    /// Whether records are packed as `string` (recordPacking), and so escaped.
    pub escaped: bool,
    /// The numberOfRecords, 0 to 2147483647.
    pub count: u32,
    /// The position of the first record, counted from 1.
    pub start: u32,
    /// The identifier of the record schema.
    pub uri: Text,
    /// The records.
    pub items: List<SruItem>,
    /// The diagnostic in place of the records.
    pub refused: Option<SruDiag>,
}

impl Exact for SruDiag {
    ghost exact_eq = { sru_diag.eq_is_exact };

    ghost exact_clone = { sru_diag.clone_is_exact };
}

impl Exact for SruItem {
    ghost exact_eq = { sru_item.eq_is_exact };

    ghost exact_clone = { sru_item.clone_is_exact };
}

impl Exact for SruAnswer {
    ghost exact_eq = { sru_answer.eq_is_exact };

    ghost exact_clone = { sru_answer.clone_is_exact };
}
