//! The route and its parts. A number that names a target, database, leg or class is its place in
//! the route's list of that kind, counted from 0.

ghost use Rattle.std.specs.Prelude.{◌≡◌, IfOk, slice_get};
ghost use Rattle.std.specs.Option.{option_copied};
ghost use Rattle.route_config.specs.Rules.{coverings};
ghost use Rattle.route_config.specs.Sound.{IsSound};

use crate::Members;
use crate::rules::coverings;
use std::alloc::Global;
use std::marker::Model;
use z_types::{Address, Limits, List, Memory, Schema, Text};

/// A target.
#[derive(PartialEq, Eq, Clone, Drop)]
pub struct Target {
    /// Its name, 1 to 64 octets.
    pub name: Text,
    /// Where it is.
    pub address: Address,
}

/// Targets that stand for one another.
#[derive(PartialEq, Eq, Clone, Drop)]
pub struct Group {
    /// Its name, 1 to 64 octets.
    pub name: Text,
    /// The places of its 1 to 16 targets.
    pub targets: List<u32>,
}

/// A virtual database, which clients name.
#[derive(PartialEq, Eq, Clone, Drop)]
pub struct Database {
    /// Its name, 1 to 64 octets, which clients may write in any case of ASCII letters.
    pub name: Text,
    /// Whether a leg that refuses a search counts as one that finds nothing.
    pub hide_errors: bool,
    /// The places of its 1 to 16 legs.
    pub legs: List<u32>,
}

/// A part of a virtual database: databases of a target.
#[derive(PartialEq, Eq, Clone, Drop)]
pub struct RouteLeg {
    /// The place of the virtual database.
    pub database: u32,
    /// The place of the class.
    pub class: u32,
    /// The 1 to 16 databases, as the target names them.
    pub databases: List<Text>,
}

/// A target or group that legs go to.
#[derive(Drop)]
pub struct Class {
    /// Its name.
    pub name: Text,
    /// The addresses of its members.
    pub addresses: Members,
}

/// The numbers of the pool of sessions.
#[derive(Clone, Copy, PartialEq, Eq, Debug)]
pub struct PoolNumbers {
    /// The most sessions open at a time for a class, 1 to 1000.
    pub max_sessions: u32,
    /// The most result sets of a session, 1 to 100.
    pub sets_max: u32,
    /// How long a session stays idle, 1 to 86400 seconds.
    pub session_ttl: u64,
    /// How long a result set stays unused, 1 to 86400 seconds.
    pub set_ttl: u64,
    /// How often a request searches again for a deleted set, 0 to 10.
    pub repeats: u32,
    /// How often a target is looked at for a reply, 1 to 1000000.
    pub patience: u32,
}

/// A CQL index.
#[derive(PartialEq, Eq, Clone, Drop)]
pub struct Index {
    /// Its name, with its prefix.
    pub name: Text,
    /// The Use attribute of bib-1, 0 to 2147483647.
    pub value: u32,
}

/// One who may log in.
#[derive(PartialEq, Eq, Clone, Drop)]
pub struct User {
    /// Its name, 1 to 64 octets, neither `anonymous` nor `*`, and without `/`.
    pub name: Text,
    /// Its password, 1 to 64 octets.
    pub password: Text,
}

/// Whom some databases are open or closed to.
#[derive(PartialEq, Eq, Clone, Drop)]
pub struct Rule {
    /// Its name, 1 to 64 octets.
    pub name: Text,
    /// Whether it allows; else it denies.
    pub allow: bool,
    /// A user, `anonymous`, or `*` for all.
    pub user: Text,
    /// 1 to 64 virtual databases, in any case of ASCII letters, or `*` for all.
    pub databases: List<Text>,
}

/// What a route is made of.
#[derive(Drop)]
pub struct RouteParts {
    /// The targets, in file order.
    pub targets: List<Target>,
    /// The groups, in file order.
    pub groups: List<Group>,
    /// The virtual databases, in file order.
    pub databases: List<Database>,
    /// The legs, in file order, database by database.
    pub legs: List<RouteLeg>,
    /// The classes, in the order in which the legs first name them.
    pub classes: List<Class>,
    /// The numbers of the pool.
    pub pool: PoolNumbers,
    /// What one connection may use.
    pub limits: Limits,
    /// The CQL indexes.
    pub indexes: List<Index>,
    /// The record schemas of SRU.
    pub schemas: List<Schema>,
    /// Those who may log in, in file order; where there are none, nobody has to.
    pub users: List<User>,
    /// The access rules, in file order: the first that matches decides.
    pub rules: List<Rule>,
    /// The most records that are kept of those that targets gave, 0 to 10000; 0 keeps none.
    pub cache_records: u32,
    /// The most octets of a record that is kept, 1 to 65536.
    pub cache_record_bytes: u32,
}

/// Where searches go, and who may. Its numbers are in their ranges, its lists in their sizes, every
/// place is one of the list that it is a place of, and every rule names users and databases that are
/// there. Which rules are for which database is found once, when the route is made.
#[derive(Drop)]
pub struct Route {
    parts: RouteParts,
    covered: List<List<bool>>,
}

impl Model for Route {
    ghost use Rattle.std.specs.Prelude.{◌≡◌};
    ghost use Rattle.route_config.specs.declared.route.RouteParts.{RouteParts};
    ghost use Rattle.route_config.specs.Rules.{coverings};
    ghost use Rattle.route_config.specs.Sound.{IsSound};

    ghost Value = { RouteParts };

    ghost view = { λ route. route.parts };

    ghost invariant = { λ route.
        IsSound route.parts
        × route.covered ≡ coverings route.parts.databases route.parts.rules };
}

impl Route {
    /// The route of these parts. Only want of memory fails.
    pub fn new(alloc: Global, parts: RouteParts) -> Result<Route, Memory>
        requires sound { IsSound parts }
        ensures same { IfOk result (λ route. route ≡ parts) }
    {
        let covered = coverings(alloc, parts.databases.as_slice(), parts.rules.as_slice())?;
        Ok(Route { parts, covered })
    }

    /// Which rules are for the virtual database at a place, rule by rule.
    pub fn covering(&self, database: usize) -> Option<&List<bool>>
        ensures { option_copied result
            ≡ slice_get (coverings self.now.databases self.now.rules) database }
    {
        self.covered.get(database)
    }

    /// Its parts.
    pub fn parts(&self) -> &RouteParts
        ensures same { result.now ≡ self.now }
        ensures sound { IsSound self.now }
    {
        &self.parts
    }
}
