//! The standard input, output and error of the process.

/// The greatest of their descriptors: they are 0, 1 and 2.
const LAST: i32 = 2;

/// Opens the null device in the place of each of the three that is closed. The system gives the least
/// descriptor that is free, so a file or a socket that is opened later is none of them, and no line of the
/// log goes to a client. It is opened for reading alone: what is written to an output that was closed
/// fails, as before.
pub fn fill_standard_streams() {
    for _ in 0..=LAST {
        let descriptor = os::open_read(b"/dev/null");
        if descriptor > LAST {
            let _ = libc::close(descriptor);
            return;
        }
    }
}
