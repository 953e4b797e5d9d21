//! The addresses of a class's members.

ghost use Rattle.std.specs.Prelude.{◌≡◌};
ghost use Rattle.std.specs.Slice.{IsItemAt};
ghost use Rattle.z_types.specs.Members.{AreMembers};

use std::marker::Model;
use z_types::{Address, List};

/// The addresses of a class's members, in their order: 1 to 16, whose hosts have at most 64 octets.
#[derive(Drop)]
pub struct Members {
    addresses: List<Address>,
}

impl Model for Members {
    ghost use Rattle.std.specs.Prelude.{List};
    ghost use Rattle.z_types.specs.declared.address.Address.{Address};
    ghost use Rattle.z_types.specs.Members.{AreMembers};

    ghost Value = { List Address };

    ghost view = { λ m. m.addresses };

    ghost invariant = { λ m. AreMembers m.addresses };
}

impl Members {
    /// The members at these addresses.
    pub fn new(addresses: List<Address>) -> Members
        requires members { AreMembers addresses }
        ensures same { result ≡ addresses }
    {
        Members { addresses }
    }

    /// The addresses, in the order of the members.
    pub fn as_slice(&self) -> &[Address]
        ensures same { result.now ≡ self.now }
        ensures members { AreMembers self.now }
    {
        self.addresses.as_slice()
    }

    /// The address of the member at a place, counted from 0.
    pub fn get(&self, place: usize) -> Option<&Address>
        ensures item { IsItemAt self.now place result }
    {
        self.addresses.get(place)
    }
}
