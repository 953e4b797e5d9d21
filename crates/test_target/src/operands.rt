//! What an operand asks a test target for: its Use attribute, and the modulus of its term.

ghost use Rattle.std.specs.Prelude.{◌≡◌, ◌<◌, ◌%◌, ◌==◌, IfOk, find, sum, [], ◌∷◌};
ghost use Rattle.z_types.specs.declared.query.Term.TheVariants.{General};
ghost use Rattle.std.specs.Option.{option_copied};
ghost use Rattle.test_target.specs.Operands.{use_of, is_use, modulus};

use std::alloc::Global;
use z_types::{Attr, List, Memory, Term};

/// The attribute type of Use (bib-1).
const USE: u32 = 1;

/// Title (bib-1 Use).
const TITLE: u32 = 4;

/// ISBN (bib-1 Use).
const ISBN: u32 = 7;

/// ISSN (bib-1 Use).
const ISSN: u32 = 8;

/// Subject (bib-1 Use).
const SUBJECT: u32 = 21;

/// Author (bib-1 Use).
const AUTHOR: u32 = 1003;

/// Any (bib-1 Use), which an operand is of where it names no Use.
const ANY: u32 = 1016;

/// The Use attribute of an operand: the first that is named.
pub(crate) fn use_of(attrs: &List<Attr>) -> u32
    ensures { result ≡ use_of attrs.now }
{
    match first_use(attrs) {
        Some(attr) => attr.value,
        None => ANY,
    }
}

/// The first attribute of type Use.
fn first_use(attrs: &List<Attr>) -> Option<&Attr>
    ensures { option_copied result ≡ find (λ attr. attr.kind == 1) attrs.now }
{
    let mut attrs = attrs.as_slice().iter();
    attrs.find(|attr| attr.kind == USE)
}

/// Whether a test target has a Use attribute: title, ISBN, ISSN, subject, author or any.
pub(crate) fn is_use(value: u32) -> bool
    ensures { result ≡ is_use value }
{
    matches!(value, TITLE | ISBN | ISSN | SUBJECT | AUTHOR | ANY)
}

/// The n of a term that is found at every n-th record, 2 to 8.
pub(crate) fn modulus(alloc: Global, term: &Term) -> Result<u32, Memory>
    ensures { IfOk result (λ every. every ≡ modulus term.now) }
{
    match term {
        Term::General(text) => Ok(2 + sum_mod7(text.as_slice())),
        Term::Words(text) => Ok(2 + sum_mod7(text.as_slice())),
        Term::Number(number) => {
            let text = format!(in alloc; "{number}")?;
            Ok(2 + sum_mod7(text.as_bytes()))
        }
    }
}

/// The same of a word of one letter.
pub(crate) fn letter_modulus(letter: u8) -> u32
    ensures { result ≡ modulus (General (letter ∷ [])) }
{
    2 + sum_mod7(&[letter])
}

/// The sum of octets modulo 7.
pub(crate) fn sum_mod7(octets: &[u8]) -> u32
    ensures value { result ≡ sum octets.now % 7 }
    ensures bound { result < 7 }
{
    let mut rest = 0;
    for octet in octets {
        rest = (rest + u32::from(*octet)) % 7;
    }
    rest
}
