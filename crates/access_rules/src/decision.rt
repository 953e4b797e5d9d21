//! Which databases the rules of the route allow.

ghost use Rattle.std.specs.Prelude.{◌≡◌, ◌≤◌, length};
ghost use Rattle.std.specs.Option.{option_copied};
ghost use Rattle.access_rules.specs.Coverings as coverings;
ghost use Rattle.access_rules.specs.Decisions as decisions;

use crate::Who;
use route_config::{ANONYMOUS, Route, Rule, is_for_user};
use z_types::List;

/// What the rules say of a client and a database, with the place of the rule that decides, if any.
#[derive(Clone, Copy, Debug, PartialEq, Eq)]
pub enum Decision {
    /// It may search it.
    Allowed(Option<u32>),
    /// It may not.
    Denied(Option<u32>),
}

/// Whether a client may search the database at a place of the route: the first rule that is for
/// both decides, and where none is, it may not. Without rules it may. It takes no memory, and no
/// database is compared by its name.
#[tactic(auto, using(crate::proofs::Coverings::decided_by_coverings))]
pub fn decide(route: &Route, who: Who, database: u32) -> Decision
    ensures { result ≡ decisions.decide route.now who database }
{
    let rules = route.parts().rules.as_slice();
    if rules.is_empty() {
        return Decision::Allowed(None);
    }
    decision_by(
        rules,
        name_of(route, who),
        route.covering(database as usize),
    )
}

/// What rules say of a client's name, and of a database by its list: nobody, and no database, is
/// denied.
fn decision_by(rules: &[Rule], name: Option<&[u8]>, covering: Option<&List<bool>>) -> Decision
    requires few { length rules.now ≤ 1000 }
    ensures { result ≡ coverings.covered_decision
        rules.now
        (option_copied name.entry)
        (option_copied covering.entry) }
{
    match (name, covering) {
        (Some(name), Some(covering)) => first_decision(rules, covering.as_slice(), name),
        _ => Decision::Denied(None),
    }
}

/// What rules call a client.
fn name_of(route: &Route, who: Who) -> Option<&[u8]>
    ensures { option_copied result ≡ decisions.name_of route.now who }
{
    match who {
        Who::Anonymous => Some(ANONYMOUS),
        Who::User(place) => {
            let user = route.parts().users.get(place as usize)?;
            Some(user.name.as_slice())
        }
        Who::Refused => None,
    }
}

/// What the first rule says that is for a client, of those that are for a database as this list has
/// it.
fn first_decision(rules: &[Rule], covering: &[bool], name: &[u8]) -> Decision
    requires few { length rules.now ≤ 1000 }
    ensures { result ≡ coverings.first_covered 0 name.now covering.now rules.now }
{
    for (place, rule) in rules.iter().enumerate() {
        if is_covered(covering, place) && is_for_user(rule.user.as_slice(), name) {
            return effect(rule, place as u32);
        }
    }
    Decision::Denied(None)
}

/// Whether the rule at a place is for the database.
fn is_covered(covering: &[bool], place: usize) -> bool
    ensures { result ≡ coverings.is_covered covering.now place }
{
    match covering.get(place) {
        Some(covers) => *covers,
        None => false,
    }
}

/// What the rule at a place says.
fn effect(rule: &Rule, place: u32) -> Decision
    ensures { result ≡ decisions.effect rule.now place }
{
    if rule.allow {
        Decision::Allowed(Some(place))
    } else {
        Decision::Denied(Some(place))
    }
}
