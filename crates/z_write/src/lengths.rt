//! Lengths of elements, computed before they are put.

ghost use Rattle.std.specs.Prelude.{◌≡◌, IfOk};
ghost use Rattle.std.specs.List.{sum};
ghost use Rattle.z_write.specs.Opened.{IsElementLength};
ghost use Rattle.z_ber.specs.Written.{IsTag};

use z_ber::{Tag, header_len};
use z_types::Memory;

/// The sum of lengths. For octets that are more than `usize` counts there is no memory.
pub(crate) fn sum_of(lens: &[usize]) -> Result<usize, Memory>
    ensures { IfOk result (λ total. total ≡ sum lens.now) }
{
    let mut total: usize = 0;
    for len in lens {
        match total.checked_add(*len) {
            Some(longer) => total = longer,
            None => return Err(Memory),
        }
    }
    Ok(total)
}

/// The length of an element whose contents have this length.
#[tactic(auto, unfolding(z_ber::specs::Written::element))]
pub(crate) fn element_len(tag: Tag, len: usize) -> Result<usize, Memory>
    requires { IsTag tag }
    ensures { IfOk result (IsElementLength tag len) }
{
    sum_of(&[header_len(tag, len), len])
}
