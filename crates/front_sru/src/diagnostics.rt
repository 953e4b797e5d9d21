//! Diagnostics of a request that is refused behind its parameters, and of a record that is not given
//! (SRU 1.2, Diagnostics).

ghost use Rattle.std.specs.Prelude.{◌≡◌, IfOk};
ghost use Rattle.std.specs.Fmt.{decimal};
ghost use Rattle.sru_request.specs.Checks as checks;
ghost use Rattle.sru_rules.specs.Diagnostics as diagnostics;

use cql_map::MapFault;
use std::alloc::Global;
use z_bib1::sru_of_diag;
use z_types::{Diag, Memory, SruDiag, Text, copy};

/// Query syntax error.
const QUERY_SYNTAX_ERROR: u32 = 10;

/// Query feature unsupported.
const QUERY_FEATURE_UNSUPPORTED: u32 = 48;

/// First record position out of range.
const OUT_OF_RANGE: u32 = 61;

/// Record not available in this schema.
const NOT_IN_SCHEMA: u32 = 67;

/// A diagnostic.
fn diagnostic(version: &Text, number: u32, details: Text) -> Result<SruDiag, Memory>
    ensures { IfOk result (λ diag. diag ≡ checks.diagnostic version.now number details) }
{
    Ok(SruDiag {
        version: copy(version)?,
        number,
        details,
    })
}

/// A number in decimal.
fn decimal(alloc: Global, number: u64) -> Result<Text, Memory>
    ensures { IfOk result (λ text. text ≡ decimal number) }
{
    Ok(Text::from_vec(format!(in alloc; "{number}")?.into_bytes()))
}

/// The text is no query from this octet on.
pub(crate) fn query_syntax_error(
    alloc: Global,
    version: &Text,
    place: usize,
) -> Result<SruDiag, Memory>
    ensures { IfOk result (λ diag. diag ≡ diagnostics.query_syntax_error version.now place) }
{
    diagnostic(version, QUERY_SYNTAX_ERROR, decimal(alloc, place as u64)?)
}

/// The query is too deep, too large or too costly.
pub(crate) fn query_feature_unsupported(alloc: Global, version: &Text) -> Result<SruDiag, Memory>
    ensures { IfOk result (λ diag. diag ≡ diagnostics.query_feature_unsupported version.now) }
{
    diagnostic(version, QUERY_FEATURE_UNSUPPORTED, Text::new(alloc))
}

/// A part of the query has no mapping.
pub(crate) fn not_mapped(alloc: Global, version: &Text, fault: &MapFault) -> Result<SruDiag, Memory>
    ensures { IfOk result (λ diag. diag ≡ diagnostics.not_mapped version.now fault.now) }
{
    let details = Text::copy_of(alloc, fault.detail())?;
    diagnostic(version, fault.diagnostic(), details)
}

/// The first record that is asked for lies behind the last.
pub(crate) fn out_of_range(alloc: Global, version: &Text, start: u32) -> Result<SruDiag, Memory>
    ensures { IfOk result (λ diag. diag ≡ diagnostics.out_of_range version.now start) }
{
    diagnostic(version, OUT_OF_RANGE, decimal(alloc, u64::from(start))?)
}

/// A record is none in the schema.
pub(crate) fn not_in_schema(alloc: Global, version: &Text) -> Result<SruDiag, Memory>
    ensures { IfOk result (λ diag. diag ≡ diagnostics.not_in_schema version.now) }
{
    diagnostic(version, NOT_IN_SCHEMA, Text::new(alloc))
}

/// A diagnostic of a target, or of a mark, as SRU tells it.
pub(crate) fn of_target(version: &Text, diag: Diag) -> Result<SruDiag, Memory>
    ensures { IfOk result (λ told. told ≡ diagnostics.of_target version.now diag) }
{
    let number = sru_of_diag(&diag);
    diagnostic(version, number, addinfo_of(diag))
}

/// What a diagnostic is about.
fn addinfo_of(diag: Diag) -> Text
    ensures { result ≡ diag.addinfo }
{
    diag.addinfo
}
