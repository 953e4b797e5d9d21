//! Replies without a body.

ghost use Rattle.std.specs.Prelude.{◌≡◌, IfOk};
ghost use Rattle.sru_reply.specs.Bare.{status_text, bare};

use crate::message::message;
use std::alloc::Global;
use z_types::{Memory, Text};

/// Why a request has no answer of SRU.
#[derive(Clone, Copy, Debug, PartialEq, Eq)]
pub enum Refusal {
    /// The head is no head of HTTP, or too long (400, RFC 9110, 15.5.1).
    BadRequest,
    /// The path names no database (404, RFC 9110, 15.5.5).
    NotFound,
    /// The method is not GET (405, RFC 9110, 15.5.6).
    MethodNotAllowed,
}

/// The code and the text of a status line.
fn status_text(refusal: Refusal) -> &'static [u8]
    ensures { result.now ≡ status_text refusal }
{
    match refusal {
        Refusal::BadRequest => b"400 Bad Request",
        Refusal::NotFound => b"404 Not Found",
        Refusal::MethodNotAllowed => b"405 Method Not Allowed",
    }
}

/// A reply without a body, which ends its connection (RFC 9112, 9.6).
pub fn bare_text(alloc: Global, refusal: Refusal) -> Result<Text, Memory>
    ensures { IfOk result (λ text. text ≡ bare refusal) }
{
    message(alloc, status_text(refusal), &[])
}
