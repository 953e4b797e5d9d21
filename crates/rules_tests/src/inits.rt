//! Inits and what they are answered. A subject is the versions and options that are asked for, in hexadecimal
//! digits, and the size; each has the referenceId `ab`, the exceptional size 7 and no login, and comes under the
//! smallest route.

ghost use Rattle.std.specs.Prelude.{◌≡◌, IfOk, None};

use case_files::{Answer, NoAnswer};
use front_session::gateway_rules::{init_reply, is_accepted};
use route_config::Route;
use std::alloc::Global;
use z_types::{Init, Reply, Text};

/// Whether a call is one of these. Its answer is put at the end.
pub(crate) fn is_answered(
    alloc: Global,
    call: &str,
    words: &str,
    out: &mut Answer,
) -> Result<bool, NoAnswer> {
    match call {
        "init_reply" => put_reply(out, &reply_to(alloc, words)?),
        "is_accepted" => out.print(&is_accepted_by(alloc, words)?),
        _ => return Ok(false),
    }
    Ok(true)
}

/// The reply to an Init.
fn reply_to(alloc: Global, words: &str) -> Result<Reply, NoAnswer> {
    let init = init_of(alloc, words)?;
    Ok(init_reply(&Route::smallest(alloc)?, &init)?)
}

/// Whether an Init is accepted.
fn is_accepted_by(alloc: Global, words: &str) -> Result<bool, NoAnswer> {
    let init = init_of(alloc, words)?;
    Ok(is_accepted(&Route::smallest(alloc)?, &init))
}

/// An Init.
fn init_of(alloc: Global, words: &str) -> Result<Init, NoAnswer>
    ensures { IfOk result (λ init. init.login ≡ None) }
{
    let Some((versions, words)) = words.split_once(' ') else {
        return Err(NoAnswer::Misspelt);
    };
    let Some((options, size)) = words.split_once(' ') else {
        return Err(NoAnswer::Misspelt);
    };
    Ok(Init {
        ref_id: Some(Text::copy_of(alloc, b"ab")?),
        versions: bits_of(versions)?,
        options: bits_of(options)?,
        preferred: size.parse().or(Err(NoAnswer::Misspelt))?,
        exceptional: 7,
        login: None,
    })
}

/// Bits in hexadecimal digits.
fn bits_of(word: &str) -> Result<u32, NoAnswer> {
    u32::from_str_radix(word, 16).or(Err(NoAnswer::Misspelt))
}

/// The fields of the reply to an Init.
fn put_reply(out: &mut Answer, reply: &Reply) {
    match reply {
        Reply::Init { init, result } => {
            put_init(out, init);
            out.put(" result ");
            out.print(result);
        }
        _ => out.put("another reply"),
    }
}

/// The fields of an Init.
fn put_init(out: &mut Answer, init: &Init) {
    if let Some(reference) = &init.ref_id {
        out.put("ref ");
        out.put_quoted(reference.as_slice());
    }
    out.put(" versions ");
    out.put_bits(init.versions);
    out.put(" options ");
    out.put_bits(init.options);
    out.put(" preferred ");
    out.print(&init.preferred);
    out.put(" exceptional ");
    out.print(&init.exceptional);
    if let Some(login) = &init.login {
        out.put(" login ");
        out.put_quoted(login.as_slice());
    }
}
