//! What may stand behind the words of `serve`: `--quiet`, and `--listen ADDRESS`, in any order, each once.

use std::net::{IpAddr, Ipv4Addr};
use std::str;
use z_types::Text;

/// What the flags say.
#[derive(Clone, Copy, Debug, PartialEq, Eq)]
pub(crate) struct Flags {
    /// Where to listen, if that is said.
    pub listen: Option<IpAddr>,
    /// Whether no connection that begins or ends is logged.
    pub quiet: bool,
}

impl Flags {
    /// The address to listen at: that which is said, or else 127.0.0.1.
    pub(crate) fn address(&self) -> IpAddr {
        self.listen.unwrap_or(IpAddr::V4(Ipv4Addr::LOCALHOST))
    }
}

/// The words without the flags behind them, and what these say. One that stands there twice, or names no
/// address, is left among the words, which are then those of no command.
pub(crate) fn flags_of(words: &[Text]) -> (&[Text], Flags) {
    let none = Flags {
        listen: None,
        quiet: false,
    };
    let (words, flags) = one_flag(words, none);
    one_flag(words, flags)
}

/// The words without the flag behind them, where one stands there that was not told yet, and what is told with it.
fn one_flag(words: &[Text], flags: Flags) -> (&[Text], Flags) {
    match words {
        [others @ .., last] if !flags.quiet && is_word(last, b"--quiet") => {
            let listen = flags.listen;
            (
                others,
                Flags {
                    listen,
                    quiet: true,
                },
            )
        }
        [others @ .., flag, last] if flags.listen.is_none() && is_word(flag, b"--listen") => {
            let quiet = flags.quiet;
            match address_in(last) {
                Some(address) => (
                    others,
                    Flags {
                        listen: Some(address),
                        quiet,
                    },
                ),
                None => (words, flags),
            }
        }
        _ => (words, flags),
    }
}

/// Whether a word is this one.
fn is_word(word: &Text, wanted: &[u8]) -> bool {
    word.as_slice() == wanted
}

/// The address that a word writes, of IPv4 or IPv6.
fn address_in(word: &Text) -> Option<IpAddr> {
    str::from_utf8(word.as_slice()).ok()?.parse().ok()
}
