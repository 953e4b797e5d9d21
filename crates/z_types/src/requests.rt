//! Requests of an origin (ANSI/NISO Z39.50-2003, InitializeRequest, SearchRequest, PresentRequest,
//! ScanRequest and Close).

ghost use Rattle.z_types.specs.equality.Asked.{asked_eq, asked_per, asked_equiv, asked_exact, asked_cloned};

use crate::{Diag, Exact, List, Oid, RpnQuery, ScanAsk, Text};

/// What a request asks for, or the diagnostic of a form that the gateway reads and does not serve.
#[derive(Clone, Drop)]
pub enum Asked<T> {
    Good(T),
    Bad(Diag),
}

/// An Init, asked or answered. Bit k of `versions` and `options` is the protocol's bit k.
#[derive(PartialEq, Eq, Clone, Drop)]
pub struct Init {
    /// The referenceId.
    pub ref_id: Option<Text>,
    /// The protocol versions: bit 0 is version 1.
    pub versions: u32,
    /// The options: 0 search, 1 present, 7 scan, 14 named result sets.
    pub options: u32,
    /// The preferred message size in octets, 0 to 2147483647.
    pub preferred: u32,
    /// The exceptional record size in octets, 0 to 2147483647.
    pub exceptional: u32,
    /// The login: the octets in the idAuthentication of an Init, at most 4096; none is answered.
    pub login: Option<Text>,
}

/// A Search. Its numbers are 0 to 2147483647.
#[derive(PartialEq, Eq, Clone, Drop)]
pub struct Search {
    /// The referenceId.
    pub ref_id: Option<Text>,
    /// The small-set upper bound.
    pub small: u32,
    /// The large-set lower bound.
    pub large: u32,
    /// The medium-set present number.
    pub medium: u32,
    /// The replace indicator.
    pub replace: bool,
    /// The name of the result set.
    pub set_name: Text,
    /// The databases, in the order named.
    pub dbs: List<Text>,
    /// The element set name of a small set.
    pub small_element: Option<Text>,
    /// The element set name of a medium set.
    pub medium_element: Option<Text>,
    /// The preferred record syntax.
    pub syntax: Option<Oid>,
    /// The query.
    pub query: Asked<RpnQuery>,
}

/// A Present.
#[derive(PartialEq, Eq, Clone, Drop)]
pub struct Present {
    /// The referenceId.
    pub ref_id: Option<Text>,
    /// The name of the result set.
    pub set_name: Text,
    /// The position of the first record, counted from 1; any integer of at most 8 octets is read.
    pub start: i64,
    /// How many records are asked for, 0 to 2147483647.
    pub number: u32,
    /// The element set name.
    pub element: Asked<Option<Text>>,
    /// The preferred record syntax.
    pub syntax: Option<Oid>,
}

/// A Scan.
#[derive(PartialEq, Eq, Clone, Drop)]
pub struct Scan {
    /// The referenceId.
    pub ref_id: Option<Text>,
    /// The databases, in the order named.
    pub dbs: List<Text>,
    /// What is asked of their index.
    pub ask: Asked<ScanAsk>,
}

/// A Close, of either side.
#[derive(PartialEq, Eq, Clone, Drop)]
pub struct Close {
    /// The referenceId.
    pub ref_id: Option<Text>,
    /// The close reason, 0 to 2147483647: 0 finished, 3 cost limit, 6 protocol error.
    pub reason: u32,
    /// Diagnostic information.
    pub info: Option<Text>,
}

/// A unit that an origin sends.
#[derive(PartialEq, Eq, Clone, Drop)]
pub enum Request {
    Init(Init),
    Search(Search),
    Present(Present),
    Scan(Scan),
    Close(Close),
}

impl<T: PartialEq> PartialEq for Asked<T> {
    ghost eq = { asked_eq T.eq };

    ghost laws = { asked_per T.laws };

    fn eq(&self, other: &Asked<T>) -> bool {
        match (self, other) {
            (Asked::Good(asked), Asked::Good(other)) => *asked == *other,
            (Asked::Bad(diagnostic), Asked::Bad(other)) => *diagnostic == *other,
            _ => false,
        }
    }
}

impl<T: Eq> Eq for Asked<T> {
    ghost laws = { asked_equiv T.Eq.laws };
}

impl<T: Exact> Exact for Asked<T> {
    ghost exact_eq = { asked_exact T.exact_eq };

    ghost exact_clone = { asked_cloned T.exact_clone };
}

impl Exact for Init {
    ghost use Rattle.z_types.specs.equality.Requests.{init};

    ghost exact_eq = { init.eq_is_exact };

    ghost exact_clone = { init.clone_is_exact };
}

impl Exact for Search {
    ghost use Rattle.z_types.specs.equality.Requests.{search};

    ghost exact_eq = { search.eq_is_exact };

    ghost exact_clone = { search.clone_is_exact };
}

impl Exact for Present {
    ghost use Rattle.z_types.specs.equality.Requests.{present};

    ghost exact_eq = { present.eq_is_exact };

    ghost exact_clone = { present.clone_is_exact };
}

impl Exact for Scan {
    ghost use Rattle.z_types.specs.equality.Requests.{scan};

    ghost exact_eq = { scan.eq_is_exact };

    ghost exact_clone = { scan.clone_is_exact };
}

impl Exact for Close {
    ghost use Rattle.z_types.specs.equality.Requests.{close};

    ghost exact_eq = { close.eq_is_exact };

    ghost exact_clone = { close.clone_is_exact };
}

impl Exact for Request {
    ghost use Rattle.z_types.specs.equality.Requests.{request_exact, request_cloned};

    ghost exact_eq = { request_exact };

    ghost exact_clone = { request_cloned };
}
