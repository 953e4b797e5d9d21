//! The digits of numbers, counted and put at the end of a text.

ghost use Rattle.std.specs.Prelude.{◌≡◌, ◌+◌, ◌-◌, ◌≤◌, ◌++◌, length, map, reverse, take, slice_index_or, OnOk, OnErr};
ghost use Rattle.std.specs.Int.Digits.{digits_of};
ghost use Rattle.z_ber.specs.Arcs.{marked_digits};
ghost use Rattle.z_ber.specs.Written.{mirror, turned};

use z_types::{Memory, Text};

/// How many digits a number has in a base; 0 has none.
pub fn count_digits(base: u64, number: u64) -> usize
    requires { 2 ≤ base }
    ensures value { result ≡ length (digits_of base number) }
    ensures small { result ≤ 64 }
{
    if number == 0 {
        return 0;
    }
    count_digits(base, number / base) + 1
}

/// The first digit of a number in base 256, and 128 for 0.
pub fn first_digit(number: u64) -> u8
    ensures { result ≡ slice_index_or (digits_of 256 number) 0 128 }
{
    if number == 0 {
        128
    } else if number < 256 {
        number as u8
    } else {
        first_digit(number / 256)
    }
}

/// Puts the digits of a number in base 256.
pub fn put_digits(out: &mut Text, number: u64) -> Result<(), Memory>
    ensures ok { OnOk result (out.new ≡ out.old ++ digits_of 256 number) }
    ensures err { OnErr result (take (length out.old) out.new ≡ out.old) }
{
    if number == 0 {
        return Ok(());
    }
    put_digits(out, number / 256)?;
    out.push((number % 256) as u8)
}

/// Puts the digits of a number in base 256, with each bit turned.
pub fn put_turned_digits(out: &mut Text, number: u64) -> Result<(), Memory>
    ensures ok { OnOk result (out.new ≡ out.old ++ turned (digits_of 256 number)) }
    ensures err { OnErr result (take (length out.old) out.new ≡ out.old) }
{
    if number == 0 {
        return Ok(());
    }
    put_turned_digits(out, number / 256)?;
    out.push(255 - (number % 256) as u8)
}

/// Puts the digits of a number in base 128, with bit 8 set.
pub fn put_marked_digits(out: &mut Text, number: u64) -> Result<(), Memory>
    ensures ok { OnOk result (out.new ≡ out.old ++ marked_digits number) }
    ensures err { OnErr result (take (length out.old) out.new ≡ out.old) }
{
    if number == 0 {
        return Ok(());
    }
    put_marked_digits(out, number / 128)?;
    out.push(128 + (number % 128) as u8)
}

/// Puts the octets of a number from the last to the first, each with its bits in turned order.
pub fn put_mirrored_digits(out: &mut Text, number: u64) -> Result<(), Memory>
    ensures ok { OnOk result (out.new ≡ out.old ++ map mirror (reverse (digits_of 256 number))) }
    ensures err { OnErr result (take (length out.old) out.new ≡ out.old) }
{
    if number == 0 {
        return Ok(());
    }
    out.push(mirror((number % 256) as u8))?;
    put_mirrored_digits(out, number / 256)
}

/// The octet with its bits in turned order.
#[tactic(auto, unfolding(crate::specs::Written::mirror))]
pub fn mirror(octet: u8) -> u8
    ensures { result ≡ mirror octet }
{
    128 * (octet % 2)
        + 64 * (octet / 2 % 2)
        + 32 * (octet / 4 % 2)
        + 16 * (octet / 8 % 2)
        + 8 * (octet / 16 % 2)
        + 4 * (octet / 32 % 2)
        + 2 * (octet / 64 % 2)
        + octet / 128 % 2
}
