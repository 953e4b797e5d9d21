//! Frames at the front of octets (X.690:2021, 8.1.3.4 to 8.1.3.6).

ghost use Rattle.std.specs.Prelude.{◌≡◌, ℕ, ◌+◌, ◌-◌, ◌^◌, ◌<◌, nat_le, IfSome, None, Ok, Err};
ghost use Rattle.z_types.specs.Bounds.{most_unit_octets};
ghost use Rattle.z_ber.specs.Reading.{tag_at, has_room_after, has_room_behind, body_at, frame_at};
ghost use Rattle.z_ber.specs.FrameAnswer.{IsDefiniteAnswer, IsTooLarge};

use crate::BerFault;
use crate::read::{padded_number, read_header, read_tag};
use z_types::MOST_UNIT_OCTETS;

/// No frame takes more octets than these.
pub const FRAME_MAX: u64 = MOST_UNIT_OCTETS as u64;

/// Whether `size` octets, and `more` others, are no more than a frame may have.
pub fn is_small(size: u64, more: u64) -> bool
    ensures { result ≡ nat_le (size + more) most_unit_octets }
{
    size <= FRAME_MAX && more <= FRAME_MAX && size + more <= FRAME_MAX
}

/// Whether a frame whose length has come in part, behind a tag of `size` octets, may still be small
/// enough.
fn has_room_after(size: usize, rest: &[u8]) -> bool
    requires { size < 2 ^ 63 }
    ensures { result ≡ has_room_after size rest.now }
{
    match rest {
        [] => true,
        [lead, digits @ ..] => {
            let count = lead.saturating_sub(128).min(8);
            let least = padded_number(0, count, digits);
            is_small(size as u64 + 1 + u64::from(count), least)
        }
    }
}

/// Whether a frame whose header has come in part may still be small enough.
fn has_room_behind(bytes: &[u8]) -> bool
    ensures { result ≡ has_room_behind bytes.now (tag_at bytes.now) }
{
    match read_tag(bytes) {
        Ok((_, rest)) => has_room_after(bytes.len() - rest.len(), rest),
        Err(_) => true,
    }
}

/// The octets of a frame, behind a definite header of `size` octets.
fn body(size: usize, len: u64, body: &[u8]) -> Result<usize, BerFault>
    ensures { result ≡ body_at size len body.now }
{
    if !is_small(size as u64, len) {
        return Err(BerFault::TooLarge(len));
    }
    if (body.len() as u64) < len {
        return Err(BerFault::Short);
    }
    Ok(size + len as usize)
}

/// A definite frame at the front.
#[tactic(auto, unfolding(crate::specs::Reading::frame_at))]
fn read_frame(bytes: &[u8]) -> Result<usize, BerFault>
    ensures { result ≡ frame_at bytes.now }
{
    match read_header(bytes) {
        Ok((_, None, _)) => Err(BerFault::BadLength),
        Ok((_, Some(len), rest)) => body(bytes.len() - rest.len(), len, rest),
        Err(BerFault::Short) => {
            if has_room_behind(bytes) {
                Err(BerFault::Short)
            } else {
                Err(BerFault::TooLarge(FRAME_MAX + 1))
            }
        }
        Err(fault) => Err(fault),
    }
}

/// The size of the definite frame that octets begin with.
pub fn definite_frame(bytes: &[u8]) -> Result<usize, BerFault>
    ensures answer { IsDefiniteAnswer bytes.now result }
    ensures large { (n : ℕ) → IsTooLarge bytes.now n → result ≡ Err (BerFault.TooLarge n) }
{
    read_frame(bytes)
}

/// The contents octets of the definite header that octets begin with, where with these a frame would
/// take more than it may; `None` where octets begin with no such header.
pub fn too_large(bytes: &[u8]) -> Option<u64>
    ensures found { IfSome result (λ n. IsTooLarge bytes.now n) }
    ensures none { result ≡ None → (n : ℕ) → ¬ IsTooLarge bytes.now n }
{
    match read_header(bytes) {
        Ok((_, Some(len), rest)) => {
            if is_small((bytes.len() - rest.len()) as u64, len) {
                None
            } else {
                Some(len)
            }
        }
        Ok((_, None, _)) => None,
        Err(_) => None,
    }
}
