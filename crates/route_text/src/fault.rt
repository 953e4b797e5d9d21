//! Why a configuration is refused.

ghost use Rattle.std.specs.Prelude.{◌≡◌, IfOk};
ghost use Rattle.route_text.specs.declared.fault.RouteFault.TheVariants.{Memory as no_memory};
ghost use Rattle.route_text.specs.Fault.{spaced};

use std::alloc::Global;
use z_types::{Memory, Text, copy};

/// Why a configuration is refused, or that no memory could be had. Keys are named by their paths,
/// as `target[0].name`.
#[derive(Debug, PartialEq, Eq, Drop)]
pub enum RouteFault {
    /// The file is not UTF-8, or no TOML.
    Toml,
    /// The key of this path is required and not there.
    Missing(Text),
    /// The value at this path is of another kind than its key asks for.
    WrongKind(Text),
    /// The value at this path, a text as it stands or a number in decimal, is out of its range.
    OutOfRange(Text, Text),
    /// Two things of a kind have one name: the name of the later, in its own spelling.
    Twice(Text),
    /// No target, or no target or group, has this name.
    NoSuchTarget(Text),
    /// The array at this path has this many items, more than its key allows or fewer.
    TooMany(Text, u64),
    /// Result sets are kept longer than the sessions that they are in.
    TtlOrder,
    /// The key of this path is none of its table's.
    Unknown(Text),
    /// A rule is for this, which is no user.
    NoSuchUser(Text),
    /// A rule is for this, which is no virtual database.
    NoSuchDatabase(Text),
    /// No memory could be had.
    Memory,
}

impl RouteFault {
    ghost use Rattle.route_text.specs.Fault.{fault_number, fault_text};

    /// The number of the refusal, 1 to 11, and 0 for want of memory.
    pub fn number(&self) -> u32
        ensures { result ≡ fault_number self.now }
    {
        match self {
            RouteFault::Toml => 1,
            RouteFault::Missing(_) => 2,
            RouteFault::WrongKind(_) => 3,
            RouteFault::OutOfRange(_, _) => 4,
            RouteFault::Twice(_) => 5,
            RouteFault::NoSuchTarget(_) => 6,
            RouteFault::TooMany(_, _) => 7,
            RouteFault::TtlOrder => 8,
            RouteFault::Unknown(_) => 9,
            RouteFault::NoSuchUser(_) => 10,
            RouteFault::NoSuchDatabase(_) => 11,
            RouteFault::Memory => 0,
        }
    }

    /// What is printed of the refusal behind its number: a key's path, with a space and the value
    /// or the number of items where they are out of range; or a name. Nothing for want of memory.
    pub fn what(&self, alloc: Global) -> Result<Text, Memory>
        ensures { IfOk result (λ text. text ≡ fault_text self.now) }
    {
        match self {
            RouteFault::Toml => Text::copy_of(alloc, b"toml"),
            RouteFault::Missing(path) => copy(path),
            RouteFault::WrongKind(path) => copy(path),
            RouteFault::OutOfRange(path, value) => join_by_space(path, value.as_slice()),
            RouteFault::Twice(name) => copy(name),
            RouteFault::NoSuchTarget(name) => copy(name),
            RouteFault::TooMany(path, count) => {
                let digits = format!(in alloc; "{count}")?;
                join_by_space(path, digits.as_bytes())
            }
            RouteFault::TtlOrder => Text::copy_of(alloc, b"pool.set_ttl"),
            RouteFault::Unknown(path) => copy(path),
            RouteFault::NoSuchUser(name) => copy(name),
            RouteFault::NoSuchDatabase(name) => copy(name),
            RouteFault::Memory => Ok(Text::new(alloc)),
        }
    }
}

/// A text, a space and another.
fn join_by_space(one: &Text, other: &[u8]) -> Result<Text, Memory>
    ensures { IfOk result (λ text. text ≡ spaced one.now other.now) }
{
    let mut text = copy(one)?;
    text.push(b' ')?;
    text.append(other)?;
    Ok(text)
}

impl From<Memory> for RouteFault {
    ghost from_gives = { λ _ e. e ≡ no_memory };

    fn from(_: Memory) -> RouteFault {
        RouteFault::Memory
    }
}
