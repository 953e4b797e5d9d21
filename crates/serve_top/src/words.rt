//! The words of the command.

ghost use Rattle.std.specs.Prelude.{◌≡◌, ◌≤◌, IfSome};
ghost use Rattle.std.specs.Option.{option_copied};
ghost use Rattle.serve_top.specs.Words.{asked_of, asked_in, config_of, serve_of};

use gateway_config::number_in;
use z_types::Text;

/// The greatest port.
const MOST_PORT: u32 = 65_535;

/// The most workers.
const MOST_WORKERS: u32 = 64;

/// What the words of `serve` ask for beside a configuration.
#[derive(Clone, Copy, Debug, PartialEq, Eq)]
pub struct ServeWords {
    /// The port to listen at, 1 to 65535.
    pub port: u32,
    /// How many workers serve, 1 to 64.
    pub workers: u32,
}

/// What the words ask for, where they are those of `serve`.
pub fn asked_of(words: &[Text]) -> Option<ServeWords>
    ensures asked { result ≡ asked_of words.now }
{
    match words {
        [word, _, port, workers] => {
            if word.as_slice() == b"serve".as_slice() {
                asked_in(port, workers)
            } else {
                None
            }
        }
        _ => None,
    }
}

/// A port and a number of workers.
fn asked_in(port: &Text, workers: &Text) -> Option<ServeWords>
    ensures { result ≡ asked_in port.now workers.now }
{
    let port = number_in(1, MOST_PORT, port.as_slice())?;
    let workers = number_in(1, MOST_WORKERS, workers.as_slice())?;
    Some(ServeWords { port, workers })
}

/// The second word.
fn config_of(words: &[Text]) -> Option<&Text>
    ensures { option_copied result ≡ config_of words.now }
{
    match words {
        [_, config, ..] => Some(config),
        _ => None,
    }
}

/// The name of the configuration, where the words are those of `serve` with so many workers.
pub(crate) fn serve_of(words: &[Text], workers: usize) -> Option<&Text>
    ensures config { option_copied result ≡ serve_of workers words.now }
    ensures few { IfSome (option_copied result) (λ config. workers ≤ 64) }
{
    let asked = asked_of(words)?;
    if asked.workers as usize == workers {
        config_of(words)
    } else {
        None
    }
}
