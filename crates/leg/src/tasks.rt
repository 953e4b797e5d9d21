//! What a leg is to do.

ghost use Rattle.std.specs.Prelude.{◌≡◌, Some};
ghost use Rattle.std.specs.Option.{option_copied};
ghost use Rattle.leg.specs.Tasks.{want_of, task_of, MayBeAsked, MayDo};

use z_types::{List, Oid, ScanAsk, SetKey, Text};

/// What is asked of a leg's target.
#[derive(Drop)]
pub enum Job {
    /// How many records the key's set has.
    Hits,
    /// Records of the key's set.
    Records {
        /// The position of the first, counted from 1.
        first: u32,
        /// How many, at least 1.
        count: u32,
        /// The record syntax.
        syntax: Option<Oid>,
        /// The element set name.
        element: Option<Text>,
    },
    /// Entries of an index.
    Scan(ScanAsk),
}

/// What is asked of a leg.
#[derive(Drop)]
pub struct LegAsk {
    /// The leg's place in the route, counted from 0.
    pub leg: u32,
    /// The login of who asks, or none.
    pub login: Option<Text>,
    /// The databases and the query; none where the job is a scan.
    pub key: Option<SetKey>,
    /// What is asked of its target.
    pub job: Job,
}

/// What a leg is to do: a job with its key.
#[derive(Drop)]
pub enum Task {
    /// To find how many records a key's set has.
    Hits {
        /// The databases and the query.
        key: SetKey,
    },
    /// To fetch records of a key's set.
    Records {
        /// The databases and the query.
        key: SetKey,
        /// The position of the first, counted from 1.
        first: u32,
        /// How many, at least 1.
        count: u32,
        /// The record syntax.
        syntax: Option<Oid>,
        /// The element set name.
        element: Option<Text>,
    },
    /// To scan an index.
    Scan {
        /// What of it.
        ask: ScanAsk,
    },
}

/// The task of a key and a job that go together.
pub(crate) fn task_of(key: Option<SetKey>, job: Job) -> Task
    requires may { MayBeAsked (task_of key job) }
    ensures task { task_of key job ≡ Some result }
    ensures may { MayDo result }
{
    match (key, job) {
        (Some(key), Job::Hits) => Task::Hits { key },
        (
            Some(key),
            Job::Records {
                first,
                count,
                syntax,
                element,
            },
        ) => Task::Records {
            key,
            first,
            count,
            syntax,
            element,
        },
        (None, Job::Scan(ask)) => Task::Scan { ask },
        _ => unreachable!(),
    }
}

/// The set that a leg wants.
pub(crate) fn want_of(task: &Task) -> Option<&SetKey>
    ensures { option_copied result ≡ want_of task.now }
{
    match task {
        Task::Hits { key } => Some(key),
        Task::Records { key, .. } => Some(key),
        Task::Scan { .. } => None,
    }
}
