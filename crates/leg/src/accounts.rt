//! What a leg counts.

ghost use Rattle.std.specs.Prelude.{◌≡◌, ◌<◌, ◌-◌, ◌^◌, max};
ghost use Rattle.leg.specs.Accounts.{more, counted, no_account, no_rises};
ghost use Rattle.leg.specs.steps.Follows.{IsSmall};

/// What a leg counted in its own turns.
#[derive(Clone, Copy, PartialEq, Eq, Debug)]
pub struct Account {
    /// The class that it goes to: a place in the route's classes, counted from 0.
    pub class: u32,
    /// The links that were made for it. A link that was made in an opening without memory is left out.
    pub dials: u32,
    /// The searches that were sent.
    pub searches: u32,
    /// How often its set was gone.
    pub gones: u32,
    /// How many calls failed.
    pub faults: u32,
    /// How many of them on a session that it had dialled, or that had replied to it.
    pub spent: u32,
    /// How often the door was full.
    pub fulls: u32,
    /// How often the door gave it a session that does not hold the set that it wants.
    pub booked: u32,
    /// How often the door named an address to dial.
    pub opens: u32,
    /// The most looks on one ask that heard nothing.
    pub looks: u32,
}

/// Which counts of an account rise in a turn.
#[derive(Clone, Copy, PartialEq, Eq, Debug)]
pub struct Rises {
    /// That of the links that were made.
    pub dials: bool,
    /// That of the searches that were sent.
    pub searches: bool,
    /// That of the sets that were gone.
    pub gones: bool,
    /// That of the calls that failed.
    pub faults: bool,
    /// That of the doors that were full.
    pub fulls: bool,
    /// That of the addresses that were named.
    pub opens: bool,
    /// That of the sessions without the set that was wanted.
    pub booked: bool,
}

impl Rises {
    /// None.
    pub(crate) fn none() -> Rises
        ensures { result ≡ no_rises }
    {
        Rises {
            dials: false,
            searches: false,
            gones: false,
            faults: false,
            fulls: false,
            opens: false,
            booked: false,
        }
    }
}

/// One more where it counts.
pub(crate) fn more(counts: bool, count: u32) -> u32
    requires small { count < 2 ^ 32 - 1 }
    ensures { result ≡ more counts count }
{
    if counts { count + 1 } else { count }
}

impl Account {
    /// Nothing is counted.
    pub(crate) fn new() -> Account
        ensures { result ≡ no_account }
    {
        Account {
            class: 0,
            dials: 0,
            searches: 0,
            gones: 0,
            faults: 0,
            spent: 0,
            fulls: 0,
            booked: 0,
            opens: 0,
            looks: 0,
        }
    }

    /// Counts a turn for a class: what rises, where a session that was given has not replied, and
    /// where `looks` have heard nothing of the ask.
    pub(crate) fn count(&mut self, class: u32, rises: Rises, given: bool, looks: u32)
        requires small { IsSmall self.old }
        ensures { self.new ≡ counted class rises given looks self.old }
    {
        let a = *self;
        *self = Account {
            class,
            dials: more(rises.dials, a.dials),
            searches: more(rises.searches, a.searches),
            gones: more(rises.gones, a.gones),
            faults: more(rises.faults, a.faults),
            spent: more(rises.faults && !given, a.spent),
            fulls: more(rises.fulls, a.fulls),
            booked: more(rises.booked, a.booked),
            opens: more(rises.opens, a.opens),
            looks: a.looks.max(looks),
        };
    }
}
