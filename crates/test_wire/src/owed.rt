//! Replies that have not arrived.

ghost use Rattle.std.specs.Prelude.{◌≡◌, ◌-◌, ◌==◌, IfOk};
ghost use Rattle.gw_outside.specs.Wires.{IsReplyUnit};
ghost use Rattle.test_wire.specs.Owed.{IsNextOwed};

use std::alloc::Global;
use std::marker::Model;
use z_ber::whole;
use z_read::read_reply;
use z_types::{Memory, Reply, Text, same};
use z_write::write_reply;

/// A reply that is owed, as a unit, and how many looks are to find nothing before it comes.
#[derive(Drop)]
pub struct Owed {
    reply: Reply,
    octets: Text,
    looks: u32,
}

impl Model for Owed {
    ghost use Rattle.std.specs.Coded.{codes};
    ghost use Rattle.z_types.specs.Tree.{tree_code};
    ghost use Rattle.test_wire.specs.Owed.{OwedReply, IsUnitOf};

    ghost Value = { OwedReply };

    ghost coded = { Prim.hlevel (codes, tree_code) };

    ghost view = { λ o. record { reply = o.reply; octets = o.octets; looks = o.looks } };

    ghost invariant = { λ o. IsUnitOf (record { reply = o.reply; octets = o.octets; looks = o.looks }) };
}

impl Owed {
    /// A reply that is owed now.
    pub(crate) fn new(alloc: Global, reply: Reply, looks: u32) -> Result<Owed, Memory>
        ensures reply { IfOk result (λ owed. owed.reply ≡ reply) }
        ensures looks { IfOk result (λ owed. owed.looks ≡ looks) }
    {
        let octets = unit_of(alloc, &reply)?;
        Ok(Owed {
            reply,
            octets,
            looks,
        })
    }

    /// The reply.
    pub(crate) fn reply(&self) -> &Reply
        ensures { result.now ≡ self.now.reply }
    {
        &self.reply
    }

    /// Its unit.
    pub(crate) fn octets(&self) -> &[u8]
        ensures octets { result.now ≡ self.now.octets }
        ensures unit { IsReplyUnit self.now.octets self.now.reply }
    {
        self.octets.as_slice()
    }

    /// Whether a look finds it. One that does not is counted.
    fn comes(&mut self) -> bool
        ensures reply { self.new.reply ≡ self.old.reply }
        ensures octets { self.new.octets ≡ self.old.octets }
        ensures looks { self.new.looks ≡ self.old.looks - 1 }
        ensures comes { result ≡ (self.old.looks == 0) }
    {
        if self.looks == 0 {
            return true;
        }
        self.looks -= 1;
        false
    }
}

/// The unit of a reply, which is read back: what is no unit is not owed. A reply to a request whose texts
/// are within their bounds is one always.
fn unit_of(alloc: Global, reply: &Reply) -> Result<Text, Memory>
    ensures { IfOk result (λ unit. IsReplyUnit unit reply.now) }
{
    let unit = write_reply(alloc, reply)?;
    let Ok(size) = whole(unit.as_slice()) else {
        return Err(Memory);
    };
    if size != unit.len() {
        return Err(Memory);
    }
    match read_reply(alloc, unit.as_slice()) {
        Ok(again) => {
            if same(&again, reply) {
                Ok(unit)
            } else {
                Err(Memory)
            }
        }
        Err(_) => Err(Memory),
    }
}

/// The first reply that is owed, where it comes now.
pub(crate) fn next_reply(owed: &mut Vec<Owed>) -> Option<Owed>
    ensures { IsNextOwed owed.old.items owed.new.items result }
{
    if owed.is_empty() {
        return None;
    }
    if owed[0].comes() {
        return Some(owed.remove(0));
    }
    None
}
