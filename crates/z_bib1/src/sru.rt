//! Conditions of bib-1 as diagnostics of SRU.

ghost use Rattle.std.specs.Prelude.{◌≡◌, nat_eq};
ghost use Rattle.z_types.specs.Bib1.{condition_number};
ghost use Rattle.z_bib1.specs.SruDiagnostics.{sru_of, sru_of_diag, sru_text};

use z_types::{Condition, Diag};

/// The diagnostic of SRU that a condition of bib-1 is told as, a general system error where it has
/// none of its own (SRU 1.2, the list of diagnostics). Conditions of other sets are general system
/// errors too, 1.
pub fn sru_of(condition: u32) -> u32
    ensures { result ≡ sru_of condition }
{
    if is(condition, Condition::TemporarySystemError)
        || is(condition, Condition::DatabaseUnavailable)
    {
        2
    } else if is(condition, Condition::PresentRequestOutOfRange) {
        61
    } else if is(condition, Condition::ElementSetNameNotValid) {
        66
    } else if is(condition, Condition::MalformedQuery) {
        10
    } else if is(condition, Condition::OperatorUnsupported) {
        37
    } else if is(condition, Condition::UnsupportedUseAttribute) {
        16
    } else if is(condition, Condition::RecordSyntaxNotSupported) {
        67
    } else {
        1
    }
}

/// Whether the number of a condition is that of a known one.
fn is(condition: u32, known: Condition) -> bool
    ensures { result ≡ nat_eq condition (condition_number known) }
{
    condition == known.number()
}

/// The diagnostic of SRU that a diagnostic is told as: by its condition where it is of bib-1, and a
/// general system error, 1, where it is of another set.
pub fn sru_of_diag(diag: &Diag) -> u32
    ensures { result ≡ sru_of_diag diag.now }
{
    if diag.is_of_bib1() {
        sru_of(diag.condition)
    } else {
        1
    }
}

/// The text of a diagnostic of SRU (SRU 1.2, the list of diagnostics): empty for a number that the
/// gateway never gives.
pub fn sru_text(number: u32) -> &'static str
    ensures { result.now ≡ sru_text number }
{
    match number {
        1 => "General system error",
        2 => "System temporarily unavailable",
        4 => "Unsupported operation",
        5 => "Unsupported version",
        6 => "Unsupported parameter value",
        7 => "Mandatory parameter not supplied",
        8 => "Unsupported parameter",
        10 => "Query syntax error",
        15 => "Unsupported context set",
        16 => "Unsupported index",
        19 => "Unsupported relation",
        20 => "Unsupported relation modifier",
        27 => "Empty term unsupported",
        28 => "Masking character not supported",
        31 => "Anchoring character not supported",
        37 => "Unsupported boolean operator",
        46 => "Unsupported boolean modifier",
        48 => "Query feature unsupported",
        61 => "First record position out of range",
        66 => "Unknown schema for retrieval",
        67 => "Record not available in this schema",
        71 => "Unsupported record packing",
        80 => "Sort not supported",
        _ => "",
    }
}
