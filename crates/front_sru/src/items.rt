//! What stands for records (SRU 1.2, Records).

ghost use Rattle.std.specs.Prelude.{◌≡◌, IfOk};
ghost use Rattle.sru_rules.specs.Settling as settling;
ghost use Rattle.front_sru.specs.Kept.{data_if};

use crate::diagnostics::{not_in_schema, of_target};
use crate::works::is_xml;
use std::alloc::Global;
use z_types::{Form, Item, List, Memory, NamedRecord, Oid, SruItem, Text};

/// What stands for records. No record is copied.
pub(crate) fn items_of(
    alloc: Global,
    version: &Text,
    records: List<NamedRecord>,
) -> Result<List<SruItem>, Memory>
    ensures { IfOk result (λ items. items ≡ settling.items_of version.now records) }
{
    let mut items = List::new(alloc);
    for record in records.into_vec() {
        items.push(item_of(alloc, version, record.item)?)?;
    }
    Ok(items)
}

/// What stands for an item that a target gave.
fn item_of(alloc: Global, version: &Text, item: Item) -> Result<SruItem, Memory>
    ensures { IfOk result (λ given. given ≡ settling.item_of version.now item) }
{
    match item {
        Item::Record {
            syntax,
            form,
            bytes,
        } => data_in(alloc, version, &syntax, form, bytes),
        Item::Surrogate(diag) => Ok(SruItem::Fault(of_target(version, diag)?)),
    }
}

/// What stands for a record in a form: XML stands as octets.
fn data_in(
    alloc: Global,
    version: &Text,
    syntax: &Oid,
    form: Form,
    octets: Text,
) -> Result<SruItem, Memory>
    ensures { IfOk result (λ given. given
        ≡ settling.data_in version.now syntax.now form octets) }
{
    match form {
        Form::Octets => data_of(alloc, version, is_xml(syntax), octets),
        _ => Ok(SruItem::Fault(not_in_schema(alloc, version)?)),
    }
}

/// What stands for a record in octets, which is XML or not.
fn data_of(alloc: Global, version: &Text, is_xml: bool, octets: Text) -> Result<SruItem, Memory>
    ensures { IfOk result (λ given. given ≡ data_if is_xml version.now octets) }
{
    if is_xml {
        Ok(SruItem::Data(octets))
    } else {
        Ok(SruItem::Fault(not_in_schema(alloc, version)?))
    }
}
