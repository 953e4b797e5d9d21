//! What the requests of all clients cost, class by class.

ghost use Rattle.std.specs.Prelude.{◌≡◌, IfOk, map};
ghost use Rattle.replay.specs.Classes.{costless, costs_after, costs_with, with_total};

use crate::ClassReport;
use front_conn_costs::front_conn::Total;
use route_config::{Class, Route};
use std::alloc::Global;
use z_types::{List, Memory, copy};

impl ClassReport {
    /// Nothing was counted of a class.
    fn new(class: &Class) -> Result<ClassReport, Memory>
        ensures { IfOk result (λ report. report ≡ costless class.now) }
    {
        Ok(ClassReport {
            name: copy(&class.name)?,
            dials: 0,
            searches: 0,
            gones: 0,
            faults: 0,
        })
    }

    /// Adds what a connection's legs counted of the class.
    fn add(&mut self, total: &Total)
        ensures { self.new ≡ with_total total.now self.old }
    {
        self.dials = self.dials.saturating_add(total.dials);
        self.searches = self.searches.saturating_add(total.searches);
        self.gones = self.gones.saturating_add(total.gones);
        self.faults = self.faults.saturating_add(total.faults);
    }
}

/// The classes of a route, in its order, of which nothing was counted.
pub(crate) fn no_costs(alloc: Global, route: &Route) -> Result<List<ClassReport>, Memory>
    ensures { IfOk result (λ classes. classes ≡ map costless route.now.classes) }
{
    let mut classes = List::new(alloc);
    for class in route.parts().classes.as_slice() {
        classes.push(ClassReport::new(class)?)?;
    }
    Ok(classes)
}

/// Adds what a connection's legs counted, each sum at the place of its class, where there is one.
pub(crate) fn add_totals(classes: &mut [ClassReport], totals: &[Total])
    ensures { classes.new ≡ costs_after classes.old totals.now }
{
    for total in totals {
        add_total(classes, total);
    }
}

/// Adds one sum at the place of its class, where there is one.
fn add_total(classes: &mut [ClassReport], total: &Total)
    ensures { classes.new ≡ costs_with classes.old total.now }
{
    let place = total.class as usize;
    if place < classes.len() {
        classes[place].add(total);
    }
}
