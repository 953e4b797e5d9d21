//! What the legs of a connection counted, by their classes.

ghost use Rattle.std.specs.Prelude.{◌≡◌, IfOk, OnErr, OnOk, map};
ghost use Rattle.std.specs.List.{range_with_len};
ghost use Rattle.front_conn.specs.steps.Totals.{no_total, no_totals, totals_after, totals_for, totals_with, with_account};

use package::leg::Account;
use route_config::Route;
use std::alloc::Global;
use std::mem;
use z_types::{List, Memory};

/// What the legs of a connection's requests counted of a class. A sum past its type's end stays at that
/// end.
#[derive(Clone, Copy, PartialEq, Eq, Debug)]
pub struct Total {
    /// The class: its place in the route's classes, counted from 0.
    pub class: u32,
    /// The links that were made. A link that was made in an opening without memory is left out.
    pub dials: u64,
    /// The searches that were sent.
    pub searches: u64,
    /// How often a set was gone.
    pub gones: u64,
    /// How many calls failed.
    pub faults: u64,
}

impl Total {
    /// Nothing was counted of this class.
    fn new(class: u32) -> Total
        ensures { result ≡ no_total class }
    {
        Total {
            class,
            dials: 0,
            searches: 0,
            gones: 0,
            faults: 0,
        }
    }

    /// Adds what a leg counted.
    fn add(&mut self, account: &Account)
        ensures { self.new ≡ with_account account.now self.old }
    {
        self.dials = self.dials.saturating_add(u64::from(account.dials));
        self.searches = self.searches.saturating_add(u64::from(account.searches));
        self.gones = self.gones.saturating_add(u64::from(account.gones));
        self.faults = self.faults.saturating_add(u64::from(account.faults));
    }
}

/// Makes a sum for each class of a route, where there are none yet. Without memory nothing is changed.
pub(crate) fn make_totals(
    alloc: Global,
    route: &Route,
    totals: &mut List<Total>,
) -> Result<(), Memory>
    ensures ok { OnOk result (totals.new ≡ totals_for route.now totals.old) }
    ensures err { OnErr result (totals.new ≡ totals.old) }
{
    if totals.is_empty() {
        *totals = no_totals(alloc, route.parts().classes.len())?;
    }
    Ok(())
}

/// A sum for each of so many classes, in which nothing was counted. It is `Memory` also where a number of
/// 32 bits would not count the classes.
fn no_totals(alloc: Global, classes: usize) -> Result<List<Total>, Memory>
    ensures { IfOk result (λ totals. totals ≡ map no_total (range_with_len 0 classes)) }
{
    let Ok(count) = u32::try_from(classes) else {
        return Err(Memory);
    };
    let mut totals = List::new(alloc);
    for class in 0..count {
        totals.push(Total::new(class))?;
    }
    Ok(totals)
}

/// Adds what a leg counted to the sum of its class, where there is one.
fn add_account(totals: &mut Vec<Total>, account: &Account)
    ensures { totals.new.items ≡ totals_with totals.old.items account.now }
{
    let class = account.class as usize;
    if class < totals.len() {
        totals[class].add(account);
    }
}

/// Adds what each of these legs counted to the sums of their classes.
pub(crate) fn add_accounts(alloc: Global, totals: &mut List<Total>, accounts: &List<Account>)
    ensures { totals.new ≡ totals_after totals.old accounts.now }
{
    let mut sums = mem::replace(totals, List::new(alloc)).into_vec();
    for account in accounts.as_slice() {
        add_account(&mut sums, account);
    }
    *totals = List::from_vec(sums);
}
