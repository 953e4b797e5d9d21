//! The events that were read so far.

ghost use Rattle.std.specs.Prelude.{◌≡◌, ◌≤◌, ◌<◌, ℕ, [], ◌∷◌, ◌++◌, length, IfOk, OnOk, OnErr};
ghost use Rattle.script.specs.Events.{IsEvent, AreEvents, most_clients, has_ended, may_follow};
ghost use Rattle.script.specs.Lines.{SaysEvent};
ghost use Rattle.script.specs.Flags.{AreEnded, AreClear};
ghost use Rattle.script.specs.Script.{put_event, put_said, IsPut};

use crate::fields::MOST_CLIENTS;
use crate::line::Said;
use crate::{Event, ScriptFault};
use std::alloc::Global;
use z_types::{List, Memory};

/// The most events of a script.
const MOST_EVENTS: usize = 1_000_000;

/// Events in order, and a flag for each client whose input they ended.
#[derive(Drop)]
pub struct Events {
    list: List<Event>,
    ended: Vec<bool>,
    ghost flags: { AreEnded list ended.items },
    ghost room: { most_clients < length ended.items },
}

impl Events {
    /// No events.
    pub(crate) fn new(alloc: Global) -> Result<Events, Memory>
        ensures { IfOk result (λ events. events.list ≡ []) }
    {
        Ok(Events {
            list: List::new(alloc),
            ended: clear_flags(alloc, MOST_CLIENTS as usize + 1)?,
        })
    }

    /// The events, given back.
    pub(crate) fn into_list(self) -> List<Event>
        ensures { result ≡ self.list }
    {
        self.list
    }

    /// Puts what the line of a number says behind the others, or refuses it and changes nothing.
    pub(crate) fn put_said(&mut self, said: Said, number: u64) -> Result<(), ScriptFault>
        requires { (targets : ℕ) × SaysEvent targets said }
        ensures put { IsPut (put_said number self.old.list said) self.new.list result }
        ensures events { OnOk result ((targets : ℕ) → SaysEvent targets said
            → AreEvents targets self.old.list → AreEvents targets self.new.list) }
    {
        match said {
            Said::Nothing => Ok(()),
            Said::Says(event) => self.put(event, number),
            Said::Unknown => Err(ScriptFault::Line(number)),
        }
    }

    /// Puts the event of the line of a number behind the others, or refuses it and changes nothing.
    fn put(&mut self, event: Event, number: u64) -> Result<(), ScriptFault>
        requires { (targets : ℕ) × IsEvent targets event }
        ensures put { IsPut (put_event number self.old.list event) self.new.list result }
        ensures events { OnOk result ((targets : ℕ) → IsEvent targets event
            → AreEvents targets self.old.list → AreEvents targets self.new.list) }
    {
        if !self.may_follow(&event) {
            return Err(ScriptFault::Line(number));
        }
        if self.list.len() >= MOST_EVENTS {
            return Err(ScriptFault::TooMany(number));
        }
        self.push(event)?;
        Ok(())
    }

    /// Whether an event may follow.
    fn may_follow(&self, event: &Event) -> bool
        requires { (targets : ℕ) × IsEvent targets event.now }
        ensures { result ≡ may_follow self.now.list event.now }
    {
        match event {
            Event::Feed(client, _) => !self.has_ended(*client),
            Event::End(client) => !self.has_ended(*client),
            _ => true,
        }
    }

    /// Whether the input of a client has ended.
    fn has_ended(&self, client: u32) -> bool
        requires { client ≤ most_clients }
        ensures { result ≡ has_ended self.now.list client }
    {
        self.ended[client as usize]
    }

    /// Puts an event behind the others; without memory nothing is changed.
    fn push(&mut self, event: Event) -> Result<(), Memory>
        requires { (targets : ℕ) × IsEvent targets event }
        ensures ok { OnOk result (self.new.list ≡ self.old.list ++ event ∷ []) }
        ensures err { OnErr result (self.new.list ≡ self.old.list) }
    {
        let ended = event.ended_by();
        self.list.push(event)?;
        if let Some(client) = ended {
            self.ended[client as usize] = true;
        }
        Ok(())
    }
}

/// Flags of which none is set.
fn clear_flags(alloc: Global, count: usize) -> Result<Vec<bool>, Memory>
    ensures count { IfOk result (λ flags. length flags.items ≡ count) }
    ensures clear { IfOk result (λ flags. AreClear flags.items) }
{
    Ok(vec![in alloc; false; count]?)
}
