//! Scans of the indexes of a test target (ANSI/NISO Z39.50-2003, ScanRequest and ListEntries).

ghost use Rattle.std.specs.Prelude.{◌≡◌, ◌≤◌, [], ◌∷◌, IfOk, count_by, drop, map, take};
ghost use Rattle.std.specs.Cmp.Lexicographic.{slice_cmp};
ghost use Rattle.std.specs.Ordering.{is_lt, nat_cmp};
ghost use Rattle.test_target.specs.Scans.{scan_answer, entry_of, letters, place_among, preferred, terms_below};

use crate::hits::letter_hits;
use std::alloc::Global;
use z_types::{Attr, List, Memory, ScanAnswer, ScanAsk, ScanEntry, Term, Text};

/// The terms of each index.
const LETTERS: [u8; 26] = *b"abcdefghijklmnopqrstuvwxyz";

/// The entries of a scan of databases that are there, by a Use that is there.
pub(crate) fn scan_answer(
    alloc: Global,
    target: u32,
    names: &List<Text>,
    ask: &ScanAsk,
) -> Result<ScanAnswer, Memory>
    ensures { IfOk result (λ answer. answer ≡ scan_answer target names.now ask.now) }
{
    let below = terms_below(alloc, &ask.term)?;
    let wish = preferred_position(ask);
    let first = (below + 1).saturating_sub(wish as usize);
    let letters = window(&LETTERS, first, ask.number as usize);
    let entries = entries_of(alloc, target, names, &ask.attrs, letters)?;
    let before = below.saturating_sub(first);
    let position = place_among(before, entries.len());
    Ok(ScanAnswer { position, entries })
}

/// How many terms are below another, octet by octet.
fn terms_below(alloc: Global, term: &Term) -> Result<usize, Memory>
    ensures below { IfOk result (λ below. below ≡ terms_below term.now) }
    ensures few { IfOk result (λ below. below ≤ 26) }
{
    match term {
        Term::General(text) => Ok(letters_below(text.as_slice())),
        Term::Words(text) => Ok(letters_below(text.as_slice())),
        Term::Number(number) => {
            let text = format!(in alloc; "{number}")?;
            Ok(letters_below(text.as_bytes()))
        }
    }
}

/// How many terms are below these octets.
fn letters_below(octets: &[u8]) -> usize
    ensures below { result
        ≡ count_by (λ letter. is_lt (slice_cmp nat_cmp (letter ∷ []) octets.now)) letters }
    ensures few { result ≤ 26 }
{
    LETTERS
        .iter()
        .filter(|letter| [**letter].as_slice().cmp(octets).is_lt())
        .count()
}

/// The position that is preferred for the asked term, within the number asked for.
fn preferred_position(ask: &ScanAsk) -> u32
    ensures { result ≡ preferred ask.now }
{
    ask.position.unwrap_or(1).max(1).min(ask.number.max(1))
}

/// At most `number` of the letters from a place on.
fn window(letters: &[u8], first: usize, number: usize) -> &[u8]
    ensures { result.now ≡ take number (drop first letters.now) }
{
    let rest = &letters[first.min(letters.len())..];
    &rest[..number.min(rest.len())]
}

/// The place, from 1, of a term that has `before` others before it among `count` entries.
fn place_among(before: usize, count: usize) -> Option<u32>
    requires { before ≤ 26 }
    ensures { result ≡ place_among before count }
{
    if before < count {
        Some(before as u32 + 1)
    } else {
        None
    }
}

/// An entry for each of these letters.
fn entries_of(
    alloc: Global,
    target: u32,
    names: &List<Text>,
    attrs: &List<Attr>,
    letters: &[u8],
) -> Result<List<ScanEntry>, Memory>
    ensures { IfOk result
        (λ entries. entries ≡ map (entry_of target names.now attrs.now) letters.now) }
{
    let mut entries = List::new(alloc);
    for letter in letters {
        entries.push(entry_of(alloc, target, names, attrs, *letter)?)?;
    }
    Ok(entries)
}

/// A term of one letter, and how many records it finds.
fn entry_of(
    alloc: Global,
    target: u32,
    names: &List<Text>,
    attrs: &List<Attr>,
    letter: u8,
) -> Result<ScanEntry, Memory>
    ensures { IfOk result (λ entry. entry ≡ entry_of target names.now attrs.now letter) }
{
    Ok(ScanEntry {
        term: Term::General(Text::copy_of(alloc, &[letter])?),
        occurrences: Some(letter_hits(alloc, target, attrs, letter, names)?),
    })
}
