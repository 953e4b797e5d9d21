//! A file that is opened by a name in any octets, where the standard library takes UTF-8 alone.

use std::io::{Error, Read, Result};

/// An open file of the system. It is closed where it is dropped.
pub(crate) struct OpenedFile {
    descriptor: i32,
}

impl OpenedFile {
    /// Opens the file of a name for reading.
    pub(crate) fn open(name: &[u8]) -> Result<OpenedFile> {
        let descriptor = os::open_read(name);
        if descriptor < 0 {
            return Err(Error::from_raw_os_error(os::errno()));
        }
        Ok(OpenedFile { descriptor })
    }
}

impl Read for OpenedFile {
    fn read(&mut self, into: &mut [u8]) -> Result<usize> {
        let count = libc::read(self.descriptor, into);
        if count < 0 {
            return Err(Error::from_raw_os_error(os::errno()));
        }
        Ok(count as usize)
    }
}

impl Drop for OpenedFile {
    fn drop(self) {
        let OpenedFile { descriptor } = self;
        let _ = libc::close(descriptor);
    }
}
