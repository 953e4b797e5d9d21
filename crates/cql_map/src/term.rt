//! A term's characters, its words and its masks (CQL 1.2).

ghost use Rattle.std.specs.Prelude.{◌≡◌, ◌<◌, ◌≤◌, true, false, [], length, take, IfOk, IfErr, OnOk};
ghost use Rattle.std.specs.List.{list_all};
ghost use Rattle.cql_lex.specs.Characters.{is_space};
ghost use Rattle.cql_map.specs.Terms.{characters, octets, is_bare, has_space, parts_words, is_of_word, begins, words, begins_star, ends_star, behind_star, before_star, core};
ghost use Rattle.cql_map.specs.Faults.{sign_faults, core_faults, IsRefusal};
ghost use Rattle.cql_map.specs.Terms.{IsNextWord, EndsWord};

use crate::MapFault;
use std::alloc::Global;
use z_types::{Memory, Text};

/// An octet of a term, and whether a backslash took it.
#[derive(Clone, Copy, Debug, PartialEq, Eq)]
pub struct Character {
    /// The octet.
    pub octet: u8,
    /// Whether a backslash took it.
    pub taken: bool,
}

/// The characters of a term: each octet but the backslashes that take one.
#[tactic(auto, using(crate::proofs::TermLemmas::characters_steps))]
pub fn characters(alloc: Global, term: &[u8]) -> Result<Vec<Character>, Memory>
    ensures { IfOk result (λ cs. cs.items ≡ characters false term.now) }
{
    let mut found = Vec::new(alloc);
    let mut taken = false;
    for octet in term {
        if *octet == b'\\' && !taken {
            taken = true;
        } else {
            found.push(Character {
                octet: *octet,
                taken,
            })?;
            taken = false;
        }
    }
    Ok(found)
}

/// The octets of characters.
pub fn octets(alloc: Global, characters: &[Character]) -> Result<Text, Memory>
    ensures { IfOk result (λ text. text ≡ octets characters.now) }
{
    let bytes = characters
        .iter()
        .map(|character| character.octet)
        .collect(alloc)?;
    Ok(Text::from_vec(bytes))
}

/// Whether it is this octet, which no backslash took.
fn is_bare(octet: u8, character: Character) -> bool
    ensures { result ≡ is_bare octet character }
{
    character.octet == octet && !character.taken
}

/// Whether an octet is white space.
fn is_space(octet: u8) -> bool
    ensures { result ≡ is_space octet }
{
    octet == b' ' || octet == b'\t' || octet == b'\r' || octet == b'\n'
}

/// Whether it is white space, taken or not.
#[tactic(auto, using(crate::proofs::TermLemmas::space_steps))]
pub fn has_space(characters: &[Character]) -> bool
    ensures { result ≡ has_space characters.now }
{
    for character in characters {
        if is_space(character.octet) {
            return true;
        }
    }
    false
}

/// Whether it parts words: white space that no backslash took.
fn parts_words(character: Character) -> bool
    ensures { result ≡ parts_words character }
{
    is_space(character.octet) && !character.taken
}

/// Whether a mask stands at the start.
pub fn begins_star(characters: &[Character]) -> bool
    ensures { result ≡ begins_star characters.now }
{
    match characters {
        [first, ..] => is_bare(b'*', *first),
        [] => false,
    }
}

/// Whether a mask stands at the end.
#[tactic(auto, using(crate::proofs::TermLemmas::ends_last))]
pub fn ends_star(characters: &[Character]) -> bool
    ensures { result ≡ ends_star characters.now }
{
    match characters.split_last() {
        Some((last, _)) => is_bare(b'*', *last),
        None => false,
    }
}

/// What stands behind a mask at the start.
pub fn behind_star(characters: &[Character]) -> &[Character]
    ensures { result.now ≡ behind_star characters.now }
{
    match characters {
        [first, rest @ ..] => {
            if is_bare(b'*', *first) {
                rest
            } else {
                characters
            }
        }
        [] => characters,
    }
}

/// What stands before a mask at the end.
#[tactic(auto, using(crate::proofs::TermLemmas::before_steps))]
fn before_star(characters: &[Character]) -> &[Character]
    ensures { result.now ≡ before_star characters.now }
{
    match characters.split_last() {
        Some((last, rest)) => {
            if is_bare(b'*', *last) {
                rest
            } else {
                characters
            }
        }
        None => characters,
    }
}

/// What is left of a term or word without its masks.
pub fn core(characters: &[Character]) -> &[Character]
    ensures { result.now ≡ core characters.now }
{
    before_star(behind_star(characters))
}

/// Refuses the first character of a term or word that masks or anchors.
#[tactic(auto, using(crate::proofs::TermLemmas::sign_steps))]
fn refuse_signs(alloc: Global, characters: &[Character]) -> Result<(), MapFault>
    ensures taken { OnOk result (sign_faults characters.now ≡ []) }
    ensures refused { IfErr result (IsRefusal (sign_faults characters.now)) }
{
    for character in characters {
        if is_bare(b'*', *character) || is_bare(b'?', *character) {
            let text = Text::copy_of(alloc, &[character.octet])?;
            return Err(MapFault::Masking(text));
        }
        if is_bare(b'^', *character) {
            let text = Text::copy_of(alloc, &[character.octet])?;
            return Err(MapFault::Anchoring(text));
        }
    }
    Ok(())
}

/// Refuses a term or word of which nothing is left, or the first character that masks or anchors.
pub fn refuse_core(alloc: Global, core: &[Character]) -> Result<(), MapFault>
    ensures taken { OnOk result (core_faults core.now ≡ []) }
    ensures refused { IfErr result (IsRefusal (core_faults core.now)) }
{
    if core.is_empty() {
        return Err(MapFault::EmptyTerm(Text::new(alloc)));
    }
    refuse_signs(alloc, core)
}

/// What stands behind the white space that parts words.
#[tactic(auto, using(crate::proofs::TermLemmas::words_skip))]
fn behind_space(characters: &[Character]) -> &[Character]
    ensures words { words result.now ≡ words characters.now }
    ensures shorter { length result.now ≤ length characters.now }
    ensures word { begins parts_words result.now ≡ false }
{
    let mut rest = characters;
    'spaces: while let [first, behind @ ..] = rest {
        if !parts_words(*first) {
            return rest;
        }
        rest = behind;
    }
    rest
}

/// How long the word at the front is.
#[tactic(auto, using(crate::proofs::TermLemmas::word_steps))]
fn word_len(characters: &[Character]) -> usize
    ensures within { result ≤ length characters.now }
    ensures word { list_all is_of_word (take result characters.now) ≡ true }
    ensures end { EndsWord characters.now result }
{
    for (index, character) in characters.iter().enumerate() {
        if parts_words(*character) {
            return index;
        }
    }
    characters.len()
}

/// The first word and what stands behind it; `None` where there is no word.
#[tactic(auto, using(crate::proofs::TermLemmas::next_word_cut))]
pub fn next_word(characters: &[Character]) -> Option<(&[Character], &[Character])>
    ensures { IsNextWord characters.now result }
{
    let rest = behind_space(characters);
    if rest.is_empty() {
        return None;
    }
    let len = word_len(rest);
    Some((&rest[..len], &rest[len..]))
}
