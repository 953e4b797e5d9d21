//! Replies of a target (ANSI/NISO Z39.50-2003, InitializeResponse, SearchResponse, PresentResponse,
//! ScanResponse and Close).

ghost use Rattle.z_types.specs.equality.Replies.{reply_exact, reply_cloned};

use crate::{Body, Close, Diag, Exact, Init, List, ScanAnswer, Text};

/// A unit that a target sends. Its numbers are 0 to 2147483647.
#[derive(PartialEq, Eq, Clone, Drop)]
pub enum Reply {
    /// An InitializeResponse.
    Init {
        /// What is answered to the versions, options and sizes asked for.
        init: Init,
        /// Whether the session is accepted.
        result: bool,
    },
    /// A SearchResponse.
    Search {
        /// The referenceId of the request.
        ref_id: Option<Text>,
        /// The resultCount.
        count: u32,
        /// The numberOfRecordsReturned.
        returned: u32,
        /// The nextResultSetPosition.
        next: u32,
        /// The searchStatus.
        ok: bool,
        /// The presentStatus.
        status: Option<u32>,
        /// The records.
        body: Body,
    },
    /// A PresentResponse.
    Present {
        /// The referenceId of the request.
        ref_id: Option<Text>,
        /// The numberOfRecordsReturned.
        returned: u32,
        /// The nextResultSetPosition.
        next: u32,
        /// The presentStatus.
        status: u32,
        /// The records.
        body: Body,
    },
    /// A ScanResponse.
    Scan {
        /// The referenceId of the request.
        ref_id: Option<Text>,
        /// The scanStatus.
        status: u32,
        /// The positionOfTerm and the entries.
        answer: ScanAnswer,
        /// The nonsurrogateDiagnostics.
        diags: List<Diag>,
    },
    /// A Close.
    Close(Close),
}

impl Exact for Reply {
    ghost exact_eq = { reply_exact };

    ghost exact_clone = { reply_cloned };
}
