//! What is heard of a unit by what a session waits for.

ghost use Rattle.std.specs.Prelude.{◌≡◌, IfOk};
ghost use Rattle.z_client.specs.Heard.{heard_of};
ghost use Rattle.z_client.specs.Looks.{IsHeardIn, IsUnheard};
ghost use Rattle.z_client.specs.Sets.{pending_of};

use crate::replies::{ask_heard, opening_heard};
use crate::sets::Waiting;
use gw_outside::Heard;
use std::alloc::Global;
use z_read::{ReadFault, read_reply};
use z_types::{Memory, Reply};

/// What is heard of a unit by what is waited for; nothing where it is no reply to that.
#[tactic(auto, using(crate::proofs::HearingLemmas::heard_is_in_if, crate::proofs::HearingLemmas::refused_unheard))]
pub(crate) fn heard_in(
    alloc: Global,
    waiting: &Waiting,
    unit: &[u8],
) -> Result<Option<Heard>, Memory>
    ensures { IfOk result (λ heard. IsHeardIn (pending_of waiting.now) unit.now heard) }
{
    match read_reply(alloc, unit) {
        Ok(reply) => heard_of(alloc, waiting, reply),
        Err(fault) => unheard(fault),
    }
}

/// What is heard of a unit that is no reply.
fn unheard(fault: ReadFault) -> Result<Option<Heard>, Memory>
    ensures { IfOk result (λ heard. IsUnheard fault heard) }
{
    match fault {
        ReadFault::Memory => Err(Memory),
        _ => Ok(None),
    }
}

/// What is heard of the reply to what is waited for.
fn heard_of(alloc: Global, waiting: &Waiting, reply: Reply) -> Result<Option<Heard>, Memory>
    ensures { IfOk result (λ heard. heard ≡ heard_of (pending_of waiting.now) reply) }
{
    match waiting {
        Waiting::Opening => Ok(opening_heard(&reply)),
        Waiting::Answer(ask) => ask_heard(alloc, ask, reply),
        Waiting::Nothing | Waiting::Broken => Ok(None),
    }
}
