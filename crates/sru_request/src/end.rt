//! The end of a head.

ghost use Rattle.std.specs.Prelude.{◌≡◌, ◌≤◌, length, IfSome};
ghost use Rattle.sru_request.specs.Head.{empty_line, line_behind, head_length};

/// How many octets an empty line at the front has.
fn empty_line(octets: &[u8]) -> Option<usize>
    ensures value { result ≡ empty_line octets.now }
    ensures within { IfSome result (λ len. len ≤ length octets.now) }
{
    match octets {
        [b'\n', ..] => Some(1),
        [b'\r', b'\n', ..] => Some(2),
        _ => None,
    }
}

/// How many octets an empty line has that stands behind a line feed.
fn line_behind(octet: u8, rest: &[u8]) -> Option<usize>
    ensures value { result ≡ line_behind octet rest.now }
    ensures within { IfSome result (λ len. len ≤ length rest.now) }
{
    if octet == b'\n' {
        empty_line(rest)
    } else {
        None
    }
}

/// How many octets there are up to and with the first empty line.
#[tactic(auto, using(crate::proofs::EndLemmas::head_steps))]
pub(crate) fn head_length(octets: &[u8]) -> Option<usize>
    ensures value { result ≡ head_length octets.now }
    ensures within { IfSome result (λ len. len ≤ length octets.now) }
{
    for (index, octet) in octets.iter().enumerate() {
        if let Some(len) = line_behind(*octet, &octets[index + 1..]) {
            return Some(index + 1 + len);
        }
    }
    None
}
