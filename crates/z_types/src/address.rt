//! Where a target is, and under which login it is asked.

ghost use Rattle.std.specs.Prelude.{◌≡◌, IfOk};
ghost use Rattle.std.specs.Option.{option_copied};
ghost use Rattle.z_types.specs.Logins.{
  address_at,
  inner,
  inside,
  login_of,
  same_address,
  same_login,
  site_of,
};
ghost use Rattle.z_types.specs.equality.Address.{address, site};

use crate::{Exact, Memory, Text, copy};

/// Where a target is.
#[derive(PartialEq, Eq, Clone, Drop)]
pub enum Site {
    /// The built-in test target of a number, 0 to 999999.
    Test(u32),
    /// A host, of 1 to 64 octets, and a TCP port.
    Tcp(Text, u16),
}

/// The address of a target: where it is, by itself or inside a login.
#[derive(PartialEq, Eq, Clone, Drop)]
pub enum Address {
    /// The built-in test target of a number, 0 to 999999.
    Test(u32),
    /// A host, of 1 to 64 octets, and a TCP port.
    Tcp(Text, u16),
    /// The target at a site as it answers those with this login: the octets in the idAuthentication
    /// of an Init.
    Login(Site, Text),
}

impl Exact for Site {
    ghost exact_eq = { site.eq_is_exact };

    ghost exact_clone = { site.clone_is_exact };
}

impl Exact for Address {
    ghost exact_eq = { address.eq_is_exact };

    ghost exact_clone = { address.clone_is_exact };
}

impl Site {
    /// The address of this site by itself.
    fn address(&self) -> Result<Address, Memory>
        ensures { IfOk result (λ address. address ≡ address_at self.now) }
    {
        match self {
            Site::Test(number) => Ok(Address::Test(*number)),
            Site::Tcp(host, port) => Ok(Address::Tcp(copy(host)?, *port)),
        }
    }
}

impl Address {
    /// Where it is.
    fn site(&self) -> Result<Site, Memory>
        ensures { IfOk result (λ site. site ≡ site_of self.now) }
    {
        match self {
            Address::Test(number) => Ok(Site::Test(*number)),
            Address::Tcp(host, port) => Ok(Site::Tcp(copy(host)?, *port)),
            Address::Login(site, _) => copy(site),
        }
    }

    /// The inner address: without its login.
    pub fn inner(&self) -> Result<Address, Memory>
        ensures { IfOk result (λ address. address ≡ inner self.now) }
    {
        match self {
            Address::Login(site, _) => site.address(),
            Address::Test(_) | Address::Tcp(_, _) => copy(self),
        }
    }

    /// The login that it is inside, if any.
    pub fn login(&self) -> Option<&Text>
        ensures { option_copied result ≡ login_of self.now }
    {
        match self {
            Address::Login(_, login) => Some(login),
            Address::Test(_) | Address::Tcp(_, _) => None,
        }
    }

    /// The same place inside this login, or this address as it stands where there is none.
    pub fn inside(&self, login: &Option<Text>) -> Result<Address, Memory>
        ensures { IfOk result (λ address. address ≡ inside login.now self.now) }
    {
        match login {
            Some(login) => Ok(Address::Login(self.site()?, copy(login)?)),
            None => copy(self),
        }
    }
    /// Whether it is at that address of a target, by itself or inside a login.
    pub fn is_at(&self, target: &Address) -> bool
        ensures { result ≡ same_address target.now (inner self.now) }
    {
        match (self, target) {
            (Address::Test(here) | Address::Login(Site::Test(here), _), Address::Test(there)) => {
                *here == *there
            }
            (
                Address::Tcp(host, port) | Address::Login(Site::Tcp(host, port), _),
                Address::Tcp(other, gate),
            ) => *other == *host && *gate == *port,
            _ => false,
        }
    }

    /// Whether it is inside this login, or by itself where there is none.
    pub fn is_inside(&self, login: Option<&Text>) -> bool
        ensures { result ≡ same_login (option_copied login.entry) (login_of self.now) }
    {
        match (self, login) {
            (Address::Login(_, own), Some(login)) => *login == *own,
            (Address::Login(_, _), None) => false,
            (_, login) => login.is_none(),
        }
    }
}
