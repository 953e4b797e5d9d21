//! Statuses and reasons that a reply tells by a number (ANSI/NISO Z39.50-2003, PresentStatus,
//! ScanResponse and Close).

/// PresentStatus: success.
pub(crate) const PRESENT_SUCCESS: u32 = 0;

/// PresentStatus: partial-2, some records are not given, since they do not fit the message.
pub(crate) const PRESENT_PARTIAL_2: u32 = 2;

/// PresentStatus: failure.
pub(crate) const PRESENT_FAILURE: u32 = 5;

/// scanStatus: success.
pub(crate) const SCAN_SUCCESS: u32 = 0;

/// scanStatus: failure.
pub(crate) const SCAN_FAILURE: u32 = 6;

/// CloseReason: finished.
pub(crate) const FINISHED: u32 = 0;

/// CloseReason: resources.
pub(crate) const RESOURCES: u32 = 4;

/// CloseReason: protocolError.
pub(crate) const PROTOCOL_ERROR: u32 = 6;
