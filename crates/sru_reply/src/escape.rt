//! Octets as character data.

ghost use Rattle.std.specs.Prelude.{◌≡◌, ◌++◌, OnOk};
ghost use Rattle.sru_reply.specs.Escape.{escaped_octet, escaped, HasNoMarkup, IsReadAgain};

use z_types::{Memory, Text};

/// One octet, escaped.
fn put_octet(out: &mut Text, octet: u8) -> Result<(), Memory>
    ensures { OnOk result (out.new ≡ out.old ++ escaped_octet octet) }
{
    match octet {
        b'&' => out.append(b"&amp;"),
        b'<' => out.append(b"&lt;"),
        b'>' => out.append(b"&gt;"),
        b'"' => out.append(b"&quot;"),
        _ => out.push(octet),
    }
}

/// Puts octets at the end as character data, with references for `&`, `<`, `>` and `"` (XML 1.0,
/// 2.4 and 4.6). What is put has no markup in it, and is read as the octets again.
#[tactic(auto, using(crate::proofs::EscapeLemmas::escape_laws))]
pub fn put_escaped(out: &mut Text, octets: &[u8]) -> Result<(), Memory>
    ensures value { OnOk result (out.new ≡ out.old ++ escaped octets.now) }
    ensures no_markup { HasNoMarkup octets.now }
    ensures again { IsReadAgain octets.now }
{
    for octet in octets {
        put_octet(out, *octet)?;
    }
    Ok(())
}
