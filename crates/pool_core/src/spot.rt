//! The target of a session that is out, with room for any other that a class may have.

ghost use Rattle.std.specs.Prelude.{◌≡◌, ◌≤◌, IfOk, max};
ghost use Rattle.z_types.specs.Logins.{same_address, inner};
ghost use Rattle.z_types.specs.Members.{IsMember};

use std::alloc::Global;
use std::marker::Model;
use z_types::{Address, Memory, Site};

/// The octets that a host has at most.
const HOST_LEN: usize = 64;

/// The address of a target, without a login, that can be replaced without taking memory. The login
/// of a session is kept beside it.
#[derive(Drop)]
pub struct Spot {
    target: u32,
    port: Option<u16>,
    host: Vec<u8>,
}

impl Model for Spot {
    ghost use Rattle.std.specs.Prelude.{◌≤◌, vec_capacity};
    ghost use Rattle.z_types.specs.declared.address.Address.{Address};
    ghost use Rattle.pool_core.specs.SpotView.{address_of_spot};

    ghost Value = { Address };

    ghost view = { λ s. address_of_spot s.port s.target s.host.items };

    ghost invariant = { λ s. 64 ≤ vec_capacity s.host };
}

impl Spot {
    /// A spot with that address, without the login that it is inside.
    pub fn new(alloc: Global, address: &Address) -> Result<Spot, Memory>
        ensures { IfOk result (λ s. s ≡ inner address.now) }
    {
        match address {
            Address::Test(target) | Address::Login(Site::Test(target), _) => Ok(Spot {
                target: *target,
                port: None,
                host: Vec::with_capacity(alloc, HOST_LEN)?,
            }),
            Address::Tcp(name, port) | Address::Login(Site::Tcp(name, port), _) => {
                let mut host = Vec::with_capacity(alloc, name.len().max(HOST_LEN))?;
                host.extend_from_slice(name.as_slice())?;
                Ok(Spot {
                    target: 0,
                    port: Some(*port),
                    host,
                })
            }
        }
    }

    /// Replaces the address by one that a class may have.
    pub fn replace(&mut self, address: &Address)
        requires member { IsMember address.now }
        ensures { self.new ≡ address.now }
    {
        match address {
            Address::Test(target) => {
                self.target = *target;
                self.port = None;
            }
            Address::Tcp(name, port) => {
                self.port = Some(*port);
                self.host.clear();
                let Ok(()) = self.host.extend_from_slice(name.as_slice()) else {
                    unreachable!()
                };
            }
            Address::Login(_, _) => unreachable!(),
        }
    }

    /// Whether that is the address.
    pub fn is(&self, address: &Address) -> bool
        ensures { result ≡ same_address address.now (inner self.now) }
    {
        match (address, self.port) {
            (Address::Test(target), None) => *target == self.target,
            (Address::Tcp(name, port), Some(gate)) => {
                *name.as_slice() == *self.host.as_slice() && *port == gate
            }
            _ => false,
        }
    }
}
