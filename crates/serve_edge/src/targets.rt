//! The targets of a route, as the edge sees them.

use log::{Log, warn};
use route_config::{Class, Route};
use tcp_edge::{Totals, descriptor_limit};
use z_types::{Address, Memory, copy};

/// How many descriptors the process takes beside those of its clients and sessions: the standard streams, the
/// listener, files, the wait for sockets.
const OF_PROCESS: u64 = 8;

/// Counts what the route's targets at hosts are asked.
pub(crate) fn add_targets(totals: &mut Totals, route: &Route) -> Result<(), Memory> {
    for target in route.parts().targets.as_slice() {
        if let Address::Tcp(host, port) = &target.address {
            totals.add_target(copy(&target.name)?, copy(host)?, *port)?;
        }
    }
    Ok(())
}

/// Logs that the system lets the process have fewer descriptors than it may need, where it does: for so many of
/// what serves clients, by its name, each of which takes so many.
pub(crate) fn tell_limit<L: Log>(log: &L, route: &Route, count: u32, name: &str, each: u64) {
    let sessions = sessions_of(route);
    let needed = each
        .saturating_mul(u64::from(count))
        .saturating_add(sessions)
        .saturating_add(OF_PROCESS);
    if let Some(limit) = descriptor_limit()
        && limit < needed
    {
        warn!(log;
            "the limit of {limit} descriptors is low: {count} {name} and {sessions} sessions with \
             targets may need {needed} (ulimit -n, LimitNOFILE)"
        );
    }
}

/// How many sessions with targets at hosts may be open at a time.
fn sessions_of(route: &Route) -> u64 {
    let most = u64::from(route.parts().pool.max_sessions);
    let mut sessions = 0u64;
    for class in route.parts().classes.as_slice() {
        if has_host(class) {
            sessions = sessions.saturating_add(most);
        }
    }
    sessions
}

/// Whether a member of a class is at a host.
fn has_host(class: &Class) -> bool {
    class
        .addresses
        .as_slice()
        .iter()
        .any(|address| matches!(address, Address::Tcp(_, _)))
}
