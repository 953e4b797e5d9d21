//! Values by their kinds: each reader answers what the value is, or why it is refused.

ghost use Rattle.std.specs.Prelude.{◌≡◌, IfOk};
ghost use Rattle.std.specs.Fmt.{signed_decimal};
ghost use Rattle.toml.specs.View.{view};
ghost use Rattle.route_text.specs.Kinds.{Text as TextKind, Number as NumberKind, Flag as FlagKind};
ghost use Rattle.route_text.specs.Values.{text, number, flag};
ghost use Rattle.route_text.specs.Reads.{ReadsKind, IsArray, IsTable};

use crate::{RouteFault, TextRule};
use route_config::is_from;
use std::alloc::Global;
use toml::{Table, Value};
use z_types::{Memory, Text};

/// The text of a value that has to keep a rule.
pub fn text_in(
    alloc: Global,
    path: &[u8],
    value: &Value,
    rule: TextRule,
) -> Result<Text, RouteFault>
    ensures { ReadsKind (TextKind rule) text path.now (view value.now) result }
{
    match value.as_str() {
        Some(text) => {
            let text = text.as_bytes();
            if rule.fits(text) {
                Ok(Text::copy_of(alloc, text)?)
            } else {
                let path = Text::copy_of(alloc, path)?;
                Err(RouteFault::OutOfRange(path, Text::copy_of(alloc, text)?))
            }
        }
        None => Err(RouteFault::WrongKind(Text::copy_of(alloc, path)?)),
    }
}

/// The number of a value that has to be from one to another.
pub fn number_in(
    alloc: Global,
    path: &[u8],
    value: &Value,
    low: u32,
    high: u32,
) -> Result<u32, RouteFault>
    ensures { ReadsKind (NumberKind low high) number path.now (view value.now) result }
{
    match value.as_integer() {
        Some(number) => {
            if i64::from(low) <= number && number <= i64::from(high) {
                Ok(number as u32)
            } else {
                let path = Text::copy_of(alloc, path)?;
                Err(RouteFault::OutOfRange(path, signed_decimal(alloc, number)?))
            }
        }
        None => Err(RouteFault::WrongKind(Text::copy_of(alloc, path)?)),
    }
}

#[tactic(auto, using(crate::proofs::ItemLemmas::item_steps))]
/// The items of a value that has to be an array of `low` to `high` items.
pub fn items_in<'a>(
    alloc: Global,
    path: &[u8],
    value: &'a Value,
    low: usize,
    high: usize,
) -> Result<&'a [Value], RouteFault>
    ensures { IsArray path.now low high (view value.now) result }
{
    match value.as_array() {
        Some(items) => {
            let items = items.as_slice();
            if is_from(low, high, items.len()) {
                Ok(items)
            } else {
                Err(RouteFault::TooMany(Text::copy_of(alloc, path)?, items.len() as u64))
            }
        }
        None => Err(RouteFault::WrongKind(Text::copy_of(alloc, path)?)),
    }
}

/// The table that a value has to be.
pub fn table_in<'a>(alloc: Global, path: &[u8], value: &'a Value) -> Result<&'a Table, RouteFault>
    ensures { IsTable path.now (view value.now) result }
{
    match value.as_table() {
        Some(table) => Ok(table),
        None => Err(RouteFault::WrongKind(Text::copy_of(alloc, path)?)),
    }
}

/// A number in decimal.
fn signed_decimal(alloc: Global, number: i64) -> Result<Text, Memory>
    ensures { IfOk result (λ text. text ≡ signed_decimal number) }
{
    let digits = format!(in alloc; "{number}")?;
    Text::copy_of(alloc, digits.as_bytes())
}

/// Whether a value is true.
pub fn flag_in(alloc: Global, path: &[u8], value: &Value) -> Result<bool, RouteFault>
    ensures { ReadsKind FlagKind flag path.now (view value.now) result }
{
    match value.as_bool() {
        Some(flag) => Ok(flag),
        None => Err(RouteFault::WrongKind(Text::copy_of(alloc, path)?)),
    }
}
