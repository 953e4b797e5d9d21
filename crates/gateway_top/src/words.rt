//! The words of the commands.

ghost use Rattle.std.specs.Prelude.{◌≡◌, ◌≤◌, IfSome};
ghost use Rattle.std.specs.Option.{option_copied, option_map};
ghost use Rattle.script.specs.Events.{most_clients};
ghost use Rattle.gateway_top.specs.Command.{check_of, replay_of, load_of};

use gateway_config::number_in;
use script::MOST_CLIENTS;
use z_types::Text;

/// The name of the configuration where the words are those of `check`.
pub(crate) fn check_of(words: &[Text]) -> Option<&Text>
    ensures { option_copied result ≡ check_of words.now }
{
    match words {
        [word, config] => {
            if word.as_slice() == b"check".as_slice() {
                Some(config)
            } else {
                None
            }
        }
        _ => None,
    }
}

/// The names of the configuration and of the script where the words are those of `replay`.
pub(crate) fn replay_of(words: &[Text]) -> Option<(&Text, &Text)>
    ensures { option_map (λ names. (names.0.now, names.1.now)) result ≡ replay_of words.now }
{
    match words {
        [word, config, script] => {
            if word.as_slice() == b"replay".as_slice() {
                Some((config, script))
            } else {
                None
            }
        }
        _ => None,
    }
}

/// How many clients to play where the words are those of `load`.
pub(crate) fn load_of(words: &[Text]) -> Option<u32>
    ensures clients { result ≡ load_of words.now }
    ensures few { IfSome result (λ clients. clients ≤ most_clients) }
{
    match words {
        [word, number] => {
            if word.as_slice() == b"load".as_slice() {
                number_in(0, MOST_CLIENTS, number.as_slice())
            } else {
                None
            }
        }
        _ => None,
    }
}
