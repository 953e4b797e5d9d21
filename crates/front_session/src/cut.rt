//! Which records a reply gives, by the sizes that the Init agreed on (ANSI/NISO Z39.50-2003, 3.3.3).

ghost use Rattle.std.specs.Prelude.{◌≡◌, length, IfOk};
ghost use Rattle.gateway_rules.specs.Cut as cuts;
ghost use Rattle.gateway_rules.specs.Cut.{as_given, cut_of, fitting, in_place_of, too_heavy};
ghost use Rattle.unit_forms.specs.Records as forms;
ghost use Rattle.front_session.specs.Cutting.{given_all};

use gateway_rules::Sizes;
use std::alloc::Global;
use z_types::{Condition, Diag, Fetched, Item, List, Memory, NamedRecord, Text};
use z_write::weight;

/// What is given of what was fetched, by the sizes of an Init, where so many records were asked for. A
/// diagnostic in place of all records stays.
pub fn cut_of(alloc: Global, sizes: Sizes, asked: u32, fetched: Fetched) -> Result<Fetched, Memory>
    ensures { IfOk result (λ given. given ≡ cut_of sizes asked fetched) }
{
    match fetched {
        Fetched::None => Ok(Fetched::None),
        Fetched::Records(records) => Ok(Fetched::Records(cut(alloc, sizes, asked, records)?)),
        Fetched::Whole(diag) => Ok(Fetched::Whole(diag)),
    }
}

/// The records that are given, where so many were asked for: as many as fit, but one at least. No record
/// is copied.
#[tactic(auto, using(crate::proofs::CutLemmas::kept))]
fn cut(
    alloc: Global,
    sizes: Sizes,
    asked: u32,
    records: List<NamedRecord>,
) -> Result<List<NamedRecord>, Memory>
    ensures { IfOk result (λ given. given ≡ cuts.cut sizes asked records) }
{
    let given = all_given(alloc, sizes, asked == 1, records)?;
    let count = fitting_count(given.as_slice(), u64::from(sizes.preferred_size()));
    let mut given = given.into_vec();
    given.truncate(count.max(1));
    Ok(List::from_vec(given))
}

/// Records as they are given, asked for alone or among others.
fn all_given(
    alloc: Global,
    sizes: Sizes,
    alone: bool,
    records: List<NamedRecord>,
) -> Result<List<NamedRecord>, Memory>
    ensures { IfOk result (λ given. given ≡ given_all sizes alone records) }
{
    let mut given = List::new(alloc);
    for one in records.into_vec() {
        given.push(given_for(alloc, sizes, alone, one)?)?;
    }
    Ok(given)
}

/// A record as it is given.
fn given_for(
    alloc: Global,
    sizes: Sizes,
    alone: bool,
    one: NamedRecord,
) -> Result<NamedRecord, Memory>
    ensures { IfOk result (λ given. given ≡ as_given sizes alone one) }
{
    let heavy = weight(&one);
    match too_heavy(sizes, alone, heavy) {
        Some(condition) => in_place_of(alloc, one, heavy, condition),
        None => Ok(one),
    }
}

/// Why a record of this weight, asked for alone or among others, is not given.
fn too_heavy(sizes: Sizes, alone: bool, weight: u64) -> Option<Condition>
    ensures { result ≡ too_heavy sizes alone weight }
{
    if weight > u64::from(sizes.exceptional_size()) {
        return Some(Condition::RecordExceedsExceptionalRecordSize);
    }
    if weight > u64::from(sizes.preferred_size()) && !alone {
        return Some(Condition::RecordExceedsPreferredMessageSize);
    }
    None
}

/// A surrogate diagnostic in the place of a record of this weight, under the same name.
fn in_place_of(
    alloc: Global,
    one: NamedRecord,
    weight: u64,
    condition: Condition,
) -> Result<NamedRecord, Memory>
    requires { weight ≡ forms.weight one }
    ensures { IfOk result (λ given. given ≡ in_place_of one condition) }
{
    let text = format!(in alloc; "{weight}")?;
    let addinfo = Text::copy_of(alloc, text.as_bytes())?;
    Ok(NamedRecord {
        name: one.name,
        item: Item::Surrogate(Diag::bib1(alloc, condition, addinfo)?),
    })
}

/// How many of the first records weigh at most a room together.
fn fitting_count(records: &[NamedRecord], room: u64) -> usize
    ensures { result ≡ length (fitting room records.now) }
{
    let mut left = room;
    let mut count = 0;
    for one in records {
        let heavy = weight(one);
        if heavy > left {
            return count;
        }
        left -= heavy;
        count += 1;
    }
    count
}
