//! The octets of words and strings (CQL 1.2, BNF: charString1 and charString2).

ghost use Rattle.std.specs.Prelude.{◌≡◌, ◌≤◌, IfSome, length, not, false, ◌==◌, ◌&&◌};
ghost use Rattle.cql_lex.specs.Characters.{is_space, ends_word, quoted_length, word_length, is_word, is_whole};

/// Whether an octet is white space.
pub fn is_space(octet: u8) -> bool
    ensures { result ≡ is_space octet }
{
    octet == b' ' || octet == b'\t' || octet == b'\r' || octet == b'\n'
}

/// Whether a bare word ends before this octet (charString1).
pub fn ends_word(octet: u8) -> bool
    ensures { result ≡ ends_word octet }
{
    is_space(octet)
        || octet == b'('
        || octet == b')'
        || octet == b'='
        || octet == b'<'
        || octet == b'>'
        || octet == b'"'
        || octet == b'/'
}

/// Whether an octet that may be taken by a backslash ends a string (charString2).
fn ends_string(taken: bool, octet: u8) -> bool
    ensures { result ≡ (not taken && (octet == 34)) }
{
    !taken && octet == b'"'
}

/// Whether an octet that may be taken by a backslash ends a bare word (charString1).
fn ends_run(taken: bool, octet: u8) -> bool
    ensures { result ≡ (not taken && ends_word octet) }
{
    !taken && ends_word(octet)
}

/// Whether an octet that may be taken by a backslash takes the next.
fn takes_next(taken: bool, octet: u8) -> bool
    ensures { result ≡ (not taken && (octet == 92)) }
{
    !taken && octet == b'\\'
}

/// The octets behind a string's first quote, up to and with the quote that ends it.
#[tactic(auto, using(crate::proofs::LengthLemmas::quoted_steps))]
pub fn quoted_length(octets: &[u8]) -> Option<usize>
    ensures value { result ≡ quoted_length false octets.now }
    ensures within { IfSome result (λ len. len ≤ length octets.now) }
{
    let mut taken = false;
    for (index, octet) in octets.iter().enumerate() {
        if ends_string(taken, *octet) {
            return Some(index + 1);
        }
        taken = takes_next(taken, *octet);
    }
    None
}

/// The octets of the longest bare word at the front; `None` where a backslash ends the text.
#[tactic(auto, using(crate::proofs::LengthLemmas::word_steps))]
pub fn word_length(octets: &[u8]) -> Option<usize>
    ensures value { result ≡ word_length false octets.now }
    ensures within { IfSome result (λ len. len ≤ length octets.now) }
{
    let mut taken = false;
    for (index, octet) in octets.iter().enumerate() {
        if ends_run(taken, *octet) {
            return Some(index);
        }
        taken = takes_next(taken, *octet);
    }
    if taken { None } else { Some(octets.len()) }
}

/// Whether these octets alone are one bare word (charString1).
pub fn is_word(octets: &[u8]) -> bool
    ensures { result ≡ is_word octets.now }
{
    !octets.is_empty() && is_whole(word_length(octets), octets.len())
}

/// Whether a word of this length is the whole.
fn is_whole(found: Option<usize>, len: usize) -> bool
    ensures { result ≡ is_whole found len }
{
    match found {
        Some(found) => found == len,
        None => false,
    }
}
