//! What is counted of asks and looks.

ghost use Rattle.std.specs.Prelude.{◌≡◌, ◌<◌, ◌≤◌, ◌-◌, ◌^◌};
ghost use Rattle.gw_outside.specs.Sessions.{is_search, start_counted, heard_counted};
ghost use Rattle.leg.specs.Accounts.{counted, rises_by};
ghost use Rattle.leg.specs.Deeds.{looks_then};
ghost use Rattle.leg.specs.steps.Follows.{IsSmall};

use crate::{Account, Rises};
use gw_outside::{Began, Heard};
use z_types::Ask;

/// Counts what came of an ask.
pub(crate) fn count_start(account: &mut Account, class: u32, ask: &Ask, began: Began, given: bool)
    requires small { IsSmall account.old }
    ensures { account.new
        ≡ counted class (rises_by (start_counted ask.now began)) given 0 account.old }
{
    account.count(class, start_rises(ask, began), given, 0);
}

/// Counts what was heard, and gives how many looks have then heard nothing of the ask.
pub(crate) fn count_look(
    account: &mut Account,
    class: u32,
    heard: &Heard,
    given: bool,
    looks: u32,
) -> u32
    requires small { IsSmall account.old }
    requires looks { looks ≤ account.old.looks }
    ensures account { account.new ≡ counted class
        (rises_by (heard_counted heard.now)) given (looks_then looks heard.now) account.old }
    ensures looks { result ≡ looks_then looks heard.now }
{
    let looks = looks_then(looks, heard);
    account.count(class, look_rises(heard), given, looks);
    looks
}

/// Which counts rise at what came of an ask.
fn start_rises(ask: &Ask, began: Began) -> Rises
    ensures { result ≡ rises_by (start_counted ask.now began) }
{
    let mut rises = Rises::none();
    match began {
        Began::Started => rises.searches = is_search(ask),
        Began::Failed => rises.faults = true,
        Began::Memory => {}
    }
    rises
}

/// Whether an ask is a search.
fn is_search(ask: &Ask) -> bool
    ensures { result ≡ is_search ask.now }
{
    matches!(ask, Ask::Search { .. })
}

/// Which counts rise at what was heard.
fn look_rises(heard: &Heard) -> Rises
    ensures { result ≡ rises_by (heard_counted heard.now) }
{
    let mut rises = Rises::none();
    match heard {
        Heard::Gone => rises.gones = true,
        Heard::Failed => rises.faults = true,
        _ => {}
    }
    rises
}

/// How many looks have then heard nothing of the ask.
fn looks_then(looks: u32, heard: &Heard) -> u32
    requires small { looks < 2 ^ 32 - 1 }
    ensures { result ≡ looks_then looks heard.now }
{
    match heard {
        Heard::NotYet => looks + 1,
        _ => 0,
    }
}
