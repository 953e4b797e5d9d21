//! The words of a term, each by itself, joined to the left.

ghost use Rattle.std.specs.Prelude.{◌≡◌, [], IfOk, IfErr, OnOk, Some};
ghost use Rattle.cql_map.specs.Terms.{words};
ghost use Rattle.cql_map.specs.Mapped.{beside, words_joined, words_mapped};
ghost use Rattle.cql_map.specs.Faults.{more_words_faults, words_faults, IsRefusal};

use crate::MapFault;
use crate::leaf::leaf;
use crate::relation::{Joint, Row};
use crate::term::{Character, next_word};
use std::alloc::Global;
use z_types::{Memory, Rpn, Text};

/// Two queries joined as words are.
fn beside(alloc: Global, joint: Joint, left: Rpn, right: Rpn) -> Result<Rpn, Memory>
    ensures { IfOk result (λ query. query ≡ beside joint left right) }
{
    match joint {
        Joint::All => Rpn::and(alloc, left, right),
        Joint::Any => Rpn::or(alloc, left, right),
    }
}

/// The words behind the first, joined to it.
fn join_words(
    alloc: Global,
    joint: Joint,
    value: u32,
    first: Rpn,
    term: &[Character],
) -> Result<Rpn, MapFault>
    ensures taken { OnOk result (more_words_faults (words term.now) ≡ []) }
    ensures joined { IfOk result (λ q. q ≡ words_joined joint value first (words term.now)) }
    ensures refused { IfErr result (IsRefusal (more_words_faults (words term.now))) }
{
    let mut joined = first;
    let mut rest = term;
    'words: while let Some((word, behind)) = next_word(rest) {
        let right = leaf(alloc, value, Row::Words(joint), word)?;
        joined = beside(alloc, joint, joined, right)?;
        rest = behind;
    }
    Ok(joined)
}

/// The words of a term, joined.
pub fn map_words(
    alloc: Global,
    joint: Joint,
    value: u32,
    term: &[Character],
) -> Result<Rpn, MapFault>
    ensures taken { OnOk result (words_faults (words term.now) ≡ []) }
    ensures mapped { IfOk result (λ q. words_mapped joint value (words term.now) ≡ Some q) }
    ensures refused { IfErr result (IsRefusal (words_faults (words term.now))) }
{
    let Some((word, rest)) = next_word(term) else {
        return Err(MapFault::EmptyTerm(Text::new(alloc)));
    };
    let first = leaf(alloc, value, Row::Words(joint), word)?;
    join_words(alloc, joint, value, first, rest)
}
