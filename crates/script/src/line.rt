//! One line of a script.

ghost use Rattle.std.specs.Prelude.{◌≡◌, ◌<◌, ℕ, ◌∷◌, IfOk, IfSome, length};
ghost use Rattle.std.specs.Option.{option_copied};
ghost use Rattle.script.specs.Lines.{said_by, said_by_words, said_of_targets, feed_said, gone_said, slow_said, said_of, target_and_amount, two_fields, client_in, amount_in, target_in, IsOfTargets, SaysEvent};
ghost use Rattle.script.specs.Script.{lines, lines_behind};

use crate::Event;
use crate::fields::{amount_in, client_in, octets_in, place_of, target_in};
use std::alloc::Global;
use z_types::{List, Memory, Text};

/// What a line says.
#[derive(Drop)]
pub enum Said {
    /// Nothing.
    Nothing,
    /// An event.
    Says(Event),
    /// It is no line of a script.
    Unknown,
}

/// What a line says, where the targets have these names.
pub(crate) fn said_by(alloc: Global, targets: &List<Text>, line: &[u8]) -> Result<Said, Memory>
    ensures said { IfOk result (λ said. said ≡ said_by targets.now line.now) }
    ensures event { IfOk result (SaysEvent (length targets.now)) }
{
    match line {
        [] => Ok(Said::Nothing),
        [b'#', ..] => Ok(Said::Nothing),
        _ => said_by_words(alloc, targets, line),
    }
}

/// What a line of words says.
fn said_by_words(alloc: Global, targets: &List<Text>, line: &[u8]) -> Result<Said, Memory>
    ensures said { IfOk result (λ said. said ≡ said_by_words targets.now line.now) }
    ensures event { IfOk result (SaysEvent (length targets.now)) }
{
    if let Some(fields) = line.strip_prefix(b"feed ") {
        return feed_said(alloc, fields);
    }
    if let Some(field) = line.strip_prefix(b"end ") {
        return Ok(end_said(field));
    }
    if let Some(field) = line.strip_prefix(b"step ") {
        return Ok(step_said(field));
    }
    if let Some(field) = line.strip_prefix(b"run ") {
        return Ok(run_said(field));
    }
    Ok(said_of_targets(targets, line))
}

/// What a line of words says that speaks of no client.
fn said_of_targets(targets: &List<Text>, line: &[u8]) -> Said
    ensures said { result ≡ said_of_targets targets.now line.now }
    ensures event { SaysEvent (length targets.now) result }
{
    if let Some(field) = line.strip_prefix(b"tick ") {
        return tick_said(field);
    }
    if let Some(fields) = line.strip_prefix(b"gone ") {
        return gone_said(targets, fields);
    }
    if let Some(field) = line.strip_prefix(b"cut ") {
        return cut_said(targets, field);
    }
    if let Some(fields) = line.strip_prefix(b"slow ") {
        return slow_said(targets, fields);
    }
    Said::Unknown
}

/// What the fields of a feed say.
fn feed_said(alloc: Global, fields: &[u8]) -> Result<Said, Memory>
    ensures said { IfOk result (λ said. said ≡ feed_said fields.now) }
    ensures event { (targets : ℕ) → IfOk result (SaysEvent targets) }
{
    let Some(space) = place_of(fields, b' ') else {
        return Ok(Said::Unknown);
    };
    let Some(client) = client_in(&fields[..space]) else {
        return Ok(Said::Unknown);
    };
    match octets_in(alloc, &fields[space + 1..])? {
        Some(octets) => Ok(Said::Says(Event::Feed(client, octets))),
        None => Ok(Said::Unknown),
    }
}

/// The end of a client, if the field is one.
fn end_said(field: &[u8]) -> Said
    ensures said { result ≡ said_of Event.End (client_in field.now) }
    ensures event { (targets : ℕ) → SaysEvent targets result }
{
    match client_in(field) {
        Some(client) => Said::Says(Event::End(client)),
        None => Said::Unknown,
    }
}

/// A step of a client, if the field is one.
fn step_said(field: &[u8]) -> Said
    ensures said { result ≡ said_of Event.Step (client_in field.now) }
    ensures event { (targets : ℕ) → SaysEvent targets result }
{
    match client_in(field) {
        Some(client) => Said::Says(Event::Step(client)),
        None => Said::Unknown,
    }
}

/// The run of a client, if the field is one.
fn run_said(field: &[u8]) -> Said
    ensures said { result ≡ said_of Event.Run (client_in field.now) }
    ensures event { (targets : ℕ) → SaysEvent targets result }
{
    match client_in(field) {
        Some(client) => Said::Says(Event::Run(client)),
        None => Said::Unknown,
    }
}

/// Seconds, if the field is a number of them.
fn tick_said(field: &[u8]) -> Said
    ensures said { result ≡ said_of Event.Tick (amount_in field.now) }
    ensures event { (targets : ℕ) → SaysEvent targets result }
{
    match amount_in(field) {
        Some(seconds) => Said::Says(Event::Tick(seconds)),
        None => Said::Unknown,
    }
}

/// What the fields of deletions say.
fn gone_said(targets: &List<Text>, fields: &[u8]) -> Said
    ensures said { result ≡ gone_said targets.now fields.now }
    ensures event { SaysEvent (length targets.now) result }
{
    match target_and_amount(targets, fields) {
        Some((target, presents)) => Said::Says(Event::Gone(target, presents)),
        None => Said::Unknown,
    }
}

/// A cut, if the field is a target's name.
fn cut_said(targets: &List<Text>, field: &[u8]) -> Said
    ensures said { result ≡ said_of Event.Cut (target_in targets.now field.now) }
    ensures event { SaysEvent (length targets.now) result }
{
    match target_in(targets, field) {
        Some(target) => Said::Says(Event::Cut(target)),
        None => Said::Unknown,
    }
}

/// What the fields of a delay say.
fn slow_said(targets: &List<Text>, fields: &[u8]) -> Said
    ensures said { result ≡ slow_said targets.now fields.now }
    ensures event { SaysEvent (length targets.now) result }
{
    match target_and_amount(targets, fields) {
        Some((target, looks)) => Said::Says(Event::Slow(target, looks)),
        None => Said::Unknown,
    }
}

/// A target's name, one space, and an amount.
fn target_and_amount(targets: &List<Text>, fields: &[u8]) -> Option<(u32, u32)>
    ensures said { result ≡ target_and_amount targets.now (two_fields fields.now) }
    ensures within { IfSome result (IsOfTargets (length targets.now)) }
{
    let space = place_of(fields, b' ')?;
    let target = target_in(targets, &fields[..space])?;
    let amount = amount_in(&fields[space + 1..])?;
    Some((target, amount))
}

/// The line that a text begins with, and what follows its LF where it has one.
pub(crate) fn first_line(text: &[u8]) -> (&[u8], Option<&[u8]>)
    ensures { lines text.now ≡ result.0.now ∷ lines_behind (option_copied result.1) }
{
    match place_of(text, b'\n') {
        Some(end) => (&text[..end], Some(&text[end + 1..])),
        None => (text, None),
    }
}
