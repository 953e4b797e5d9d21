//! Diagnostics (SRU 1.2, Diagnostics).

ghost use Rattle.std.specs.Prelude.{◌≡◌, ◌++◌, OnOk, codes};
ghost use Rattle.std.specs.Fmt.{decimal};
ghost use Rattle.sru_reply.specs.Reply.{details, diagnostic_fields, diagnostic};
ghost use Rattle.sru_reply.specs.Xml.{element};

use crate::escape::put_escaped;
use crate::xml::{put_element, put_end, put_number, put_start, put_start_with};
use std::alloc::Global;
use z_bib1::sru_text;
use z_types::{Memory, SruDiag, Text};

/// The namespace of diagnostics.
const NAMESPACE: &[u8] = b"http://www.loc.gov/zing/srw/diagnostic/";

/// What a diagnostic is about, where there is something.
#[tactic(auto, unfolding(crate::specs::Reply::details, crate::specs::Xml::element))]
fn put_details(out: &mut Text, octets: &[u8]) -> Result<(), Memory>
    ensures { OnOk result (out.new ≡ out.old ++ details octets.now) }
{
    if octets.is_empty() {
        return Ok(());
    }
    put_start(out, b"diag:details")?;
    put_escaped(out, octets)?;
    put_end(out, b"diag:details")
}

/// The identifier of a diagnostic.
#[tactic(auto, unfolding(crate::specs::Xml::element))]
fn put_uri(alloc: Global, out: &mut Text, number: u32) -> Result<(), Memory>
    ensures { OnOk result (out.new ≡ out.old
        ++ element (codes "diag:uri") (codes "info:srw/diagnostic/1/" ++ decimal number)) }
{
    put_start(out, b"diag:uri")?;
    out.append(b"info:srw/diagnostic/1/")?;
    put_number(alloc, out, u128::from(number))?;
    put_end(out, b"diag:uri")
}

/// What a diagnostic says.
#[tactic(auto, unfolding(crate::specs::Reply::diagnostic_fields))]
fn put_fields(alloc: Global, out: &mut Text, diag: &SruDiag) -> Result<(), Memory>
    ensures { OnOk result (out.new ≡ out.old ++ diagnostic_fields diag.now) }
{
    put_uri(alloc, out, diag.number)?;
    put_details(out, diag.details.as_slice())?;
    put_element(out, b"diag:message", sru_text(diag.number).as_bytes())
}

/// A diagnostic.
pub(crate) fn put_diagnostic(alloc: Global, out: &mut Text, diag: &SruDiag) -> Result<(), Memory>
    ensures { OnOk result (out.new ≡ out.old ++ diagnostic diag.now) }
{
    put_start_with(out, b"diag:diagnostic", b"xmlns:diag", NAMESPACE)?;
    put_fields(alloc, out, diag)?;
    put_end(out, b"diag:diagnostic")
}
