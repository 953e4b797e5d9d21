//! Types whose `==` and `clone` are exact: two values are equal where a contract says that they
//! are one, and a clone is its source.

ghost use Rattle.std.specs.Prelude.{◌≡◌, ◌↔◌, IfOk, IsTrue};
ghost use Rattle.z_types.specs.Exact.{EqIsExact, CloneIsExact};
ghost use Rattle.z_types.specs.equality.Tests.{numbers_exact, bools_exact, ints_exact, options_exact, options_cloned};

use crate::Memory;

/// A type whose `==` says whether two values are one, and whose clone is its source.
pub trait Exact: Eq + Clone {
    ghost exact_eq: { EqIsExact Self.eq };

    ghost exact_clone: { CloneIsExact Self.is_clone };
}

/// Whether two values are one.
pub fn same<T: Exact>(a: &T, b: &T) -> bool
    ensures { IsTrue result ↔ (a.now ≡ b.now) }
{
    *a == *b
}

/// The same value again.
pub fn copy<T: Exact>(a: &T) -> Result<T, Memory>
    ensures { IfOk result (λ c. c ≡ a.now) }
{
    Ok(a.clone()?)
}

impl Exact for u32 {
    ghost exact_eq = { numbers_exact };

    ghost exact_clone = { λ a b h. h };
}

impl Exact for u16 {
    ghost exact_eq = { numbers_exact };

    ghost exact_clone = { λ a b h. h };
}

impl Exact for bool {
    ghost exact_eq = { bools_exact };

    ghost exact_clone = { λ a b h. h };
}

impl Exact for i64 {
    ghost exact_eq = { ints_exact };

    ghost exact_clone = { λ a b h. h };
}

impl<T: Exact> Exact for Option<T> {
    ghost exact_eq = { options_exact T.exact_eq };

    ghost exact_clone = { options_cloned T.exact_clone };
}
