//! What a client is told that may not search a database (ANSI/NISO Z39.50-2003, Appendix 4 ERR).

ghost use Rattle.std.specs.Prelude.{◌≡◌, ◌≤◌, ◌<◌, IfOk, IfSome, length};
ghost use Rattle.access_rules.specs.Denials as denials;

use crate::{Decision, Who, decide};
use route_config::Route;
use std::alloc::Global;
use z_types::{Condition, Diag, Memory, Text};

/// The diagnostic for the first of these databases that a client may not search: 236 with the name
/// of the rule that decides, or `default` where none does. Names that are no virtual databases are
/// passed over. Only want of memory fails.
pub fn first_denial(
    alloc: Global,
    route: &Route,
    who: Who,
    names: &[Text],
) -> Result<Option<Diag>, Memory>
    ensures { IfOk result (λ diag. diag ≡ denials.first_denial route.now who names.now) }
{
    for name in names {
        if let Decision::Denied(rule) = decision_for(route, who, name.as_slice()) {
            let name = rule_name(alloc, route, rule)?;
            return Ok(Some(Diag::bib1(alloc, Condition::AccessToDatabaseDenied, name)?));
        }
    }
    Ok(None)
}

/// What is decided of a client and the database of a name.
fn decision_for(route: &Route, who: Who, name: &[u8]) -> Decision
    ensures { result ≡ denials.decision_of route.now who name.now }
{
    match place_named(route, name) {
        Some(place) => decide(route, who, place as u32),
        None => Decision::Allowed(None),
    }
}

/// The place of the virtual database of a name, in any case of ASCII letters.
fn place_named(route: &Route, name: &[u8]) -> Option<usize>
    ensures place { result ≡ denials.place_named route.now name.now }
    ensures below { IfSome result (λ place. place < length route.now.databases) }
    ensures few { length route.now.databases ≤ 64 }
{
    route.parts().databases.as_slice().iter().position(|database| database
        .name
        .as_slice()
        .eq_ignore_ascii_case(name))
}

/// The name of the rule that decides, or `default` where none does.
fn rule_name(alloc: Global, route: &Route, rule: Option<u32>) -> Result<Text, Memory>
    ensures { IfOk result (λ name. name ≡ denials.rule_named route.now rule) }
{
    match rule {
        Some(place) => match route.parts().rules.get(place as usize) {
            Some(rule) => Text::copy_of(alloc, rule.name.as_slice()),
            None => Text::copy_of(alloc, b"default"),
        },
        None => Text::copy_of(alloc, b"default"),
    }
}
