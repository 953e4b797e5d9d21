//! Elements one after another, each read alike (X.690:2021, 8.10).

ghost use Rattle.std.specs.Prelude.{Result};
ghost use Rattle.unit_forms.specs.declared.refusal.Refusal.{Refusal as RefusalValue};
ghost use Rattle.unit_forms.specs.Reading.Elements.{Field as FieldTree};
ghost use Rattle.unit_forms.specs.Reading.Rows.{each_with};
ghost use Rattle.z_fields.specs.Answers.{IsOrMemory};
ghost use Rattle.z_read.specs.Parts.{read_behind, IsBehind};

use std::alloc::Global;
use z_ber::Tag;
use z_fields::{Elements, Field, FieldFault, both, has_tag};
use z_types::List;

/// A value that one element of a list is read as.
pub trait Part: Drop {
    ghost reading: { FieldTree → Result Self RefusalValue };

    /// Reads an element.
    fn read(alloc: Global, field: &Field<'_>) -> Result<Self, FieldFault>
        ensures { IsOrMemory (Self.reading field.now) result };
}

/// A value behind others, where all are read.
#[tactic(auto, using(z_fields::proofs::AnswerLemmas::rows))]
fn read_behind<P: Drop>(
    items: Result<List<P>, FieldFault>,
    item: Result<P, FieldFault>,
) -> Result<List<P>, FieldFault>
    ensures { IsBehind read_behind items item result }
{
    let (mut items, item) = both(items, item)?;
    items.push(item)?;
    Ok(items)
}

/// Each element with this tag; others are skipped.
#[tactic(auto, using(crate::proofs::EachLemmas::each_steps))]
pub fn read_each<P: Part>(
    alloc: Global,
    mut elements: Elements<'_>,
    tag: Tag,
) -> Result<List<P>, FieldFault>
    ensures { IsOrMemory (each_with tag P.reading elements.entry) result }
{
    let mut items = Ok(List::new(alloc));
    loop {
        match elements.next() {
            None => return items,
            Some(field) => {
                if has_tag(field.tag(), tag) {
                    let item = P::read(alloc, &field);
                    items = read_behind(items, item);
                }
            }
        }
    }
}
