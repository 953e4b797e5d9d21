//! Object identifiers (X.660; X.690:2021, 8.19).

ghost use Rattle.std.specs.Prelude.{◌≡◌, ◌↔◌, ◌==◌, IsSome, IfSome, IfOk, IsTrue};
ghost use Rattle.std.specs.Cmp.Rules.{comparing};
ghost use Rattle.std.proofs.Common.{rules};
ghost use lib.Pointwise.{pointwise};
ghost use Rattle.z_types.specs.equality.Tests.{text_exact};
ghost use Rattle.z_types.specs.Oid.{is_oid, has_root};

use crate::{Exact, MOST_ARCS, Memory};
use std::alloc::{AllocError, Global};
use std::marker::Model;

/// An object identifier: 2 to 32 numbers below 2^32, the first at most 2, and the second below 40
/// where the first is 0 or 1 (X.660, 7.6). The bound of 32 numbers, `MOST_ARCS`, is this project's own.
#[derive(Debug, Drop)]
pub struct Oid {
    arcs: Vec<u32>,
}

impl Model for Oid {
    ghost use Rattle.std.specs.Prelude.{ℕ, List, IsTrue};
    ghost use Rattle.z_types.specs.Oid.{is_oid};

    ghost Value = { List ℕ };

    ghost view = { λ o. o.arcs.items };

    ghost invariant = { λ o. IsTrue (is_oid o.arcs.items) };
}

impl Oid {
    /// The object identifier of these numbers, or `None` where they are none. It takes no memory.
    pub fn from_vec(arcs: Vec<u32>) -> Option<Oid>
        ensures valid { IsSome result ↔ IsTrue (is_oid arcs.items) }
        ensures value { IfSome result (λ oid. oid ≡ arcs.items) }
    {
        if is_oid(arcs.as_slice()) {
            Some(Oid { arcs })
        } else {
            None
        }
    }

    /// A copy of these numbers.
    pub fn copy_of(alloc: Global, arcs: &[u32]) -> Result<Oid, Memory>
        requires { IsTrue (is_oid arcs.now) }
        ensures { IfOk result (λ oid. oid ≡ arcs.now) }
    {
        Ok(Oid {
            arcs: arcs.to_vec(alloc)?,
        })
    }

    /// The numbers, lent.
    pub fn arcs(&self) -> &[u32]
        ensures value { result.now ≡ self.now }
        ensures valid { IsTrue (is_oid self.now) }
    {
        self.arcs.as_slice()
    }
}

/// Whether these numbers are an object identifier (X.660, 7.6).
pub fn is_oid(arcs: &[u32]) -> bool
    ensures { result ≡ is_oid arcs.now }
{
    has_root(arcs) && arcs.len() <= MOST_ARCS
}

/// Whether the first two numbers name a place under one of the three roots (X.660, 7.6).
fn has_root(arcs: &[u32]) -> bool
    ensures { result ≡ has_root arcs.now }
{
    match arcs {
        [first, second, ..] => *first == 2 || (*first < 2 && *second < 40),
        _ => false,
    }
}

impl PartialEq for Oid {
    ghost eq = { pointwise ◌==◌ };

    ghost laws = { Prim.search (comparing, rules) };

    fn eq(&self, other: &Oid) -> bool {
        self.arcs.as_slice() == other.arcs.as_slice()
    }
}

impl Eq for Oid {
    ghost laws = { Prim.search (comparing, rules) };
}

impl Clone for Oid {
    ghost is_clone = { λ a b. b ≡ a };

    fn clone(&self) -> Result<Oid, AllocError> {
        Ok(Oid {
            arcs: self.arcs.clone()?,
        })
    }
}

impl Exact for Oid {
    ghost exact_eq = { text_exact };

    ghost exact_clone = { λ a b h. h };
}
