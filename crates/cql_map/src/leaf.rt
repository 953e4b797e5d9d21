//! The operand of a term or word (ANSI/NISO Z39.50-2003, AttributesPlusTerm).

ghost use Rattle.std.specs.Prelude.{◌≡◌, ◌++◌, [], IfOk, IfErr, OnOk};
ghost use Rattle.cql_map.specs.Leaves.{structure, row_attributes, truncation, attributes, leaf_of};
ghost use Rattle.cql_map.specs.Faults.{word_faults, IsRefusal};

use crate::MapFault;
use crate::bib1::{self, attribute};
use crate::relation::Row;
use crate::term::{
    Character, begins_star, behind_star, core, ends_star, has_space, octets, refuse_core,
};
use std::alloc::Global;
use z_types::{Attr, List, Memory, Rpn, Term};

/// Whether a term is a phrase or a word: a phrase where it has white space.
fn structure(core: &[Character]) -> Attr
    ensures { result ≡ structure core.now }
{
    if has_space(core) {
        attribute(bib1::STRUCTURE, bib1::PHRASE)
    } else {
        attribute(bib1::STRUCTURE, bib1::WORD)
    }
}

/// Puts the attributes of a row at the end.
fn push_row(attrs: &mut List<Attr>, row: Row, core: &[Character]) -> Result<(), Memory>
    ensures { OnOk result (attrs.new ≡ attrs.old ++ row_attributes row core.now) }
{
    match row {
        Row::Compared(relation) => {
            attrs.push(attribute(bib1::RELATION, relation))?;
            attrs.push(structure(core))
        }
        Row::Whole => {
            attrs.push(attribute(bib1::RELATION, bib1::EQUAL))?;
            attrs.push(attribute(bib1::POSITION, bib1::FIRST_IN_FIELD))?;
            attrs.push(attribute(bib1::STRUCTURE, bib1::PHRASE))?;
            attrs.push(attribute(bib1::COMPLETENESS, bib1::COMPLETE_FIELD))
        }
        Row::Adjacent => {
            attrs.push(attribute(bib1::RELATION, bib1::EQUAL))?;
            attrs.push(attribute(bib1::STRUCTURE, bib1::PHRASE))
        }
        Row::Words(_) => {
            attrs.push(attribute(bib1::RELATION, bib1::EQUAL))?;
            attrs.push(attribute(bib1::STRUCTURE, bib1::WORD))
        }
    }
}

/// Puts the attribute of masks at the end, where there are some.
fn push_truncation(attrs: &mut List<Attr>, left: bool, right: bool) -> Result<(), Memory>
    ensures { OnOk result (attrs.new ≡ attrs.old ++ truncation left right) }
{
    match (left, right) {
        (false, false) => Ok(()),
        (false, true) => attrs.push(attribute(bib1::TRUNCATION, bib1::RIGHT)),
        (true, false) => attrs.push(attribute(bib1::TRUNCATION, bib1::LEFT)),
        (true, true) => attrs.push(attribute(bib1::TRUNCATION, bib1::BOTH)),
    }
}

/// The attributes of a term or word.
fn attributes(alloc: Global, value: u32, row: Row, term: &[Character]) -> Result<List<Attr>, Memory>
    ensures { IfOk result (λ attrs. attrs ≡ attributes value row term.now) }
{
    let mut attrs = List::new(alloc);
    attrs.push(attribute(bib1::USE, value))?;
    push_row(&mut attrs, row, core(term))?;
    push_truncation(&mut attrs, begins_star(term), ends_star(behind_star(term)))?;
    Ok(attrs)
}

/// The operand of a term or word.
pub fn leaf(alloc: Global, value: u32, row: Row, term: &[Character]) -> Result<Rpn, MapFault>
    ensures taken { OnOk result (word_faults term.now ≡ []) }
    ensures mapped { IfOk result (λ leaf. leaf ≡ leaf_of value row term.now) }
    ensures refused { IfErr result (IsRefusal (word_faults term.now)) }
{
    let core = core(term);
    refuse_core(alloc, core)?;
    let attrs = attributes(alloc, value, row, term)?;
    let term = octets(alloc, core)?;
    Ok(Rpn::leaf(attrs, Term::General(term)))
}
