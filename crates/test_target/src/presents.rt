//! How a peer answers a Present.

ghost use Rattle.std.specs.Prelude.{◌≡◌, ◌+◌, ◌<◌, ◌^◌, ◌≤◌, ◌++◌, IfOk, IfSome, OnOk, Some, length, map};
ghost use Rattle.std.specs.Option.{option_copied};
ghost use Rattle.z_types.specs.Bib1.{bib1};
ghost use Rattle.z_types.specs.declared.conditions.Condition.TheVariants.{ResultSetDoesNotExist};
ghost use Rattle.gw_outside.specs.Targets.{AnswersAs};
ghost use Rattle.test_target.specs.Records.{record_at};
ghost use Rattle.test_target.specs.Peer.{present_reply, present_failed, reply_from, first_within, hits_of, given, unnamed, records_reply};

use crate::peers::Peer;
use crate::records::record_at;
use crate::worlds::search_at;
use gw_outside::TargetAnswer;
use std::alloc::Global;
use z_types::{
    Asked, Body, Condition, Diag, Item, List, Memory, NamedRecord, Present, Reply, SetKey, Text,
    copy,
};

/// The most records of a reply.
const MOST_GIVEN: u32 = 5;

/// The reply to a Present of a target that answers as that of this number.
pub(crate) fn present_reply(
    alloc: Global,
    peer: &Peer,
    number: u32,
    present: &Present,
) -> Result<Reply, Memory>
    ensures { IfOk result (λ reply. reply
        ≡ present_reply number peer.now.sets.items present.now present.now.element) }
{
    match &present.element {
        Asked::Bad(diag) => Ok(present_failed(copy(&present.ref_id)?, copy(diag)?)),
        Asked::Good(element) => match peer.held(&present.set_name) {
            Some(key) => set_reply(alloc, number, present, element.as_ref(), key),
            None => not_held(alloc, present),
        },
    }
}

/// The reply to a Present of a name that has no set.
fn not_held(alloc: Global, present: &Present) -> Result<Reply, Memory>
    ensures { IfOk result (λ reply. reply ≡ present_failed present.now.ref_id
        (bib1 ResultSetDoesNotExist present.now.set_name)) }
{
    let name = copy(&present.set_name)?;
    let diag = Diag::bib1(alloc, Condition::ResultSetDoesNotExist, name)?;
    Ok(present_failed(copy(&present.ref_id)?, diag))
}

/// The reply to a Present of a set.
fn set_reply(
    alloc: Global,
    target: u32,
    present: &Present,
    element: Option<&Text>,
    key: &SetKey,
) -> Result<Reply, Memory>
    ensures { IfOk result (λ reply. reply
        ≡ reply_from target present.now (option_copied element.entry) key.now
        (first_within present.now.start present.now.number (hits_of target key.now))) }
{
    let hits = hits_of(alloc, target, key)?;
    match first_within(present.start, present.number, hits) {
        Some(first) => reply_from(alloc, target, present, element, key, first, hits),
        None => {
            let none = Text::new(alloc);
            let diag = Diag::bib1(alloc, Condition::PresentRequestOutOfRange, none)?;
            Ok(present_failed(copy(&present.ref_id)?, diag))
        }
    }
}

/// The hits of a set.
fn hits_of(alloc: Global, target: u32, key: &SetKey) -> Result<u32, Memory>
    ensures { IfOk result (λ hits. hits ≡ hits_of target key.now) }
{
    match search_at(alloc, target, &key.dbs, &key.query) {
        TargetAnswer::Good(hits) => Ok(hits),
        TargetAnswer::Refused(_) => Ok(0),
        TargetAnswer::Memory => Err(Memory),
    }
}

/// The position of the first record, where all that is asked for is within the hits.
fn first_within(start: i64, number: u32, hits: u32) -> Option<u32>
    ensures first { result ≡ first_within start number hits }
    ensures within { IfSome result (λ first. first + number ≤ hits + 1) }
    ensures some { IfSome result (λ first. 1 ≤ number) }
{
    if start < 1 || i64::from(hits) < start {
        return None;
    }
    let first = start as u32;
    if number < 1 || u64::from(hits) + 1 < u64::from(first) + u64::from(number) {
        return None;
    }
    Some(first)
}

/// The records from a position on, as many as a reply takes.
fn reply_from(
    alloc: Global,
    target: u32,
    present: &Present,
    element: Option<&Text>,
    key: &SetKey,
    first: u32,
    hits: u32,
) -> Result<Reply, Memory>
    requires hits { hits ≡ hits_of target key.now }
    requires within { first + present.now.number ≤ hits + 1 }
    requires some { 1 ≤ present.now.number }
    ensures { IfOk result (λ reply. reply
        ≡ reply_from target present.now (option_copied element.entry) key.now (Some first)) }
{
    match record_of(alloc, target, present, element, key, first) {
        TargetAnswer::Good(item) => {
            let mut records = List::new(alloc);
            records.push(without_name(item))?;
            let left = present.number.min(MOST_GIVEN) - 1;
            give(
                alloc,
                target,
                present,
                element,
                key,
                first + 1,
                left,
                &mut records,
            )?;
            records_reply(present, first, hits, records)
        }
        TargetAnswer::Refused(diag) => Ok(present_failed(copy(&present.ref_id)?, diag)),
        TargetAnswer::Memory => Err(Memory),
    }
}

/// The record at a position of a set, as a Present asks for it.
fn record_of(
    alloc: Global,
    target: u32,
    present: &Present,
    element: Option<&Text>,
    key: &SetKey,
    position: u32,
) -> TargetAnswer<Item>
    ensures { AnswersAs result (record_at
        target key.now position present.now.syntax (option_copied element.entry)) }
{
    let syntax = present.syntax.as_ref();
    record_at(
        alloc, target, &key.dbs, &key.query, position, syntax, element,
    )
}

/// Puts `left` records from a position on behind others, up to one that is refused.
fn give(
    alloc: Global,
    target: u32,
    present: &Present,
    element: Option<&Text>,
    key: &SetKey,
    position: u32,
    left: u32,
    records: &mut List<NamedRecord>,
) -> Result<(), Memory>
    requires { position + left < 2 ^ 32 }
    ensures { OnOk result (records.new ≡ records.old ++ map unnamed (given
        (λ at. record_at target key.now at present.now.syntax (option_copied element.entry))
        position left)) }
{
    if left == 0 {
        return Ok(());
    }
    match record_of(alloc, target, present, element, key, position) {
        TargetAnswer::Good(item) => {
            records.push(without_name(item))?;
            give(
                alloc,
                target,
                present,
                element,
                key,
                position + 1,
                left - 1,
                records,
            )
        }
        TargetAnswer::Refused(_) => Ok(()),
        TargetAnswer::Memory => Err(Memory),
    }
}

/// A record under no name.
fn without_name(item: Item) -> NamedRecord
    ensures { result ≡ unnamed item }
{
    NamedRecord { name: None, item }
}

/// The reply with records from a position on.
fn records_reply(
    present: &Present,
    first: u32,
    hits: u32,
    records: List<NamedRecord>,
) -> Result<Reply, Memory>
    requires { length records ≤ 5 }
    ensures { IfOk result (λ reply. reply ≡ records_reply present.now first hits records) }
{
    let returned = records.len() as u32;
    let next = u64::from(first) + u64::from(returned);
    Ok(Reply::Present {
        ref_id: copy(&present.ref_id)?,
        returned,
        next: if next <= u64::from(hits) {
            next as u32
        } else {
            0
        },
        status: if returned == present.number { 0 } else { 4 },
        body: Body::Records(records),
    })
}

/// The reply to a Present that failed.
fn present_failed(ref_id: Option<Text>, diag: Diag) -> Reply
    ensures { result ≡ present_failed ref_id diag }
{
    Reply::Present {
        ref_id,
        returned: 0,
        next: 0,
        status: 5,
        body: Body::Diag(diag),
    }
}
