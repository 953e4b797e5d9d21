//! Passwords of a configuration that others can read.

use log::{Log, warn};
use route_config::Route;
use std::os::unix::fs::PermissionsExt;
use std::{fs, rt, str};
use z_types::Text;

/// The bit of a file's mode by which everybody may read it.
const READ_BY_OTHERS: u32 = 0o004;

/// Logs that others can read the configuration of a name, where its route has users and so passwords.
pub(crate) fn tell_passwords<R: rt::Files, L: Log>(
    runtime: &R,
    log: &L,
    route: Option<&Route>,
    name: Option<&Text>,
) {
    if has_users(route) && is_read_by_others(runtime, name) {
        warn!(log; "the configuration has passwords, and everybody on this machine can read it (chmod 600)");
    }
}

/// Whether a route has users.
fn has_users(route: Option<&Route>) -> bool {
    match route {
        Some(route) => !route.parts().users.is_empty(),
        None => false,
    }
}

/// Whether everybody can read a file, as far as the system tells; of a name that is not UTF-8 it is not asked.
fn is_read_by_others<R: rt::Files>(runtime: &R, name: Option<&Text>) -> bool {
    match mode_of(runtime, name) {
        Some(mode) => mode & READ_BY_OTHERS != 0,
        None => false,
    }
}

/// The mode of a file.
fn mode_of<R: rt::Files>(runtime: &R, name: Option<&Text>) -> Option<u32> {
    let path = str::from_utf8(name?.as_slice()).ok()?;
    Some(fs::metadata(runtime, path).ok()?.permissions().mode())
}
