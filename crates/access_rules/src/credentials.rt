//! What a login says (ANSI/NISO Z39.50-2003, 3.2.1.1.5, Id/authentication).

ghost use Rattle.std.specs.Prelude.{◌≡◌};
ghost use Rattle.std.specs.Option.{option_map};
ghost use Rattle.std.specs.List.{position};
ghost use Rattle.access_rules.specs.Credentials as credentials;
ghost use Rattle.unit_forms.specs.Logins.{IsLogin};
ghost use Rattle.access_rules.specs.Lent.{lent_credentials};

use z_fields::{Elements, Field, context, has_tag, universal};

/// A user and a password, as a login says them.
#[derive(Clone, Copy)]
pub(crate) struct Credentials<'a> {
    pub(crate) name: &'a [u8],
    pub(crate) password: &'a [u8],
}

/// What a login says, by its first element.
#[tactic(auto, using(crate::proofs::LoginLemmas::logins))]
pub(crate) fn said_in<'a>(login: &'a [u8]) -> Option<Credentials<'a>>
    requires { IsLogin login.now }
    ensures { option_map lent_credentials result ≡ credentials.says login.now }
{
    match Field::first(login) {
        Some(field) => said_by(&field),
        None => None,
    }
}

/// What an element says: a sequence by its fields, a VisibleString by its text.
fn said_by<'a>(field: &Field<'a>) -> Option<Credentials<'a>>
    ensures { option_map lent_credentials result ≡ credentials.said_by field.now }
{
    let tag = field.tag();
    if tag.constructed {
        if has_tag(tag, universal(16)) {
            id_pass(field)
        } else {
            None
        }
    } else if has_tag(tag, universal(26)) {
        Some(parted(field.contents()))
    } else {
        None
    }
}

/// The user and the password of a sequence.
fn id_pass<'a>(field: &Field<'a>) -> Option<Credentials<'a>>
    ensures { option_map lent_credentials result ≡ credentials.id_pass field.now.inner }
{
    let name = text_of(field.elements(), 1)?;
    let password = text_of(field.elements(), 2)?;
    Some(Credentials { name, password })
}

/// The text of the first element with the context tag of a number: empty where there is none.
fn text_of<'a>(elements: Elements<'a>, number: u32) -> Option<&'a [u8]>
    ensures { option_map (λ text. text.now) result ≡ credentials.text_of number elements.entry }
{
    match elements.first_of(&[context(number)]) {
        None => Some(&[]),
        Some(field) => {
            if field.tag().constructed {
                None
            } else {
                Some(field.contents())
            }
        }
    }
}

/// The user before the first `/`, and the password behind it.
fn parted(text: &[u8]) -> Credentials<'_>
    ensures { lent_credentials result ≡ credentials.parted text.now }
{
    match slash_in(text) {
        None => Credentials {
            name: text,
            password: &[],
        },
        Some(place) => Credentials {
            name: &text[..place],
            password: &text[place + 1..],
        },
    }
}

/// Where the first `/` stands.
fn slash_in(text: &[u8]) -> Option<usize>
    ensures { result ≡ position credentials.is_slash text.now }
{
    text.iter().position(|octet| *octet == b'/')
}
