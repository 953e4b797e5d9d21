//! What the system lets a process have.

use libc::types::rlimit;

/// How many descriptors the process may have open at a time, where the system says it: its soft limit
/// (getrlimit(2), RLIMIT_NOFILE).
pub fn descriptor_limit() -> Option<u64> {
    let mut limit = rlimit {
        rlim_cur: 0,
        rlim_max: 0,
    };
    if libc::getrlimit(libc::RLIMIT_NOFILE, &mut limit) == 0 {
        Some(limit.rlim_cur)
    } else {
        None
    }
}
