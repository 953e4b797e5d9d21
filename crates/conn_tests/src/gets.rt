//! GETs of an HTTP client (SRU 1.2, searchRetrieve), and what is refused, each reply whole.

use crate::plays::Step::{Ask, Ends, Feed, FeedCut, FeedEach, Steps, Wrote};
use crate::pools::{SMALLEST, Story, other_way};
use crate::units::{ACCEPTED, INIT};
use front_conn::Stepped::{Idle, Went};
use std::test::Fail;
use z_types::End::{Closed, Cut, Malformed};
use z_types::Mark::Plain;

/// A GET of two records of the letter `a` as title, the same with a parameter that is none of SRU's, and
/// others.
const TITLE_A: &str =
    "GET /Default?version=1.2&operation=searchRetrieve&query=dc.title%3Da&maximumRecords=2 HTTP/1.1\r\n\r\n";

const OTHER_NAME: &str =
    "GET /Default?version=1.2&operation=searchRetrieve&query=dc.title%3Da&maximumRecords=2&x-session=1 HTTP/1.1\r\n\r\n";

const NO_VERSION: &str =
    "GET /Default?operation=searchRetrieve&query=dc.title%3Da&maximumRecords=2 HTTP/1.1\r\n\r\n";

const NO_RECORDS: &str =
    "GET /Default?version=1.2&operation=searchRetrieve&query=dc.title%3Da&maximumRecords=0 HTTP/1.1\r\n\r\n";

const FROM_5: &str =
    "GET /Default?version=1.2&operation=searchRetrieve&query=dc.title%3Da&startRecord=5 HTTP/1.1\r\n\r\n";

const OR_AND: &str =
    "GET /Default?version=1.2&operation=searchRetrieve&query=a%20or%20b%20and%20c&maximumRecords=0 HTTP/1.1\r\n\r\n";

const POST: &str = "POST /Default HTTP/1.1\r\n\r\n";

const POST_NOPE: &str = "POST /Nope HTTP/1.1\r\n\r\n";

const NOPE: &str = "GET /Nope HTTP/1.1\r\n\r\n";

const NO_HTTP: &str = "GET\r\n\r\n";

/// 64 octets of a head.
const LETTERS: &str = "GGGGGGGGGGGGGGGGGGGGGGGGGGGGGGGGGGGGGGGGGGGGGGGGGGGGGGGGGGGGGGGG";

/// The first lines of replies.
const OK_701: &str =
    "HTTP/1.1 200 OK\r\nContent-Type: text/xml; charset=utf-8\r\nContent-Length: 701\r\nConnection: close\r\n\r\n";

const OK_465: &str =
    "HTTP/1.1 200 OK\r\nContent-Type: text/xml; charset=utf-8\r\nContent-Length: 465\r\nConnection: close\r\n\r\n";

const OK_462: &str =
    "HTTP/1.1 200 OK\r\nContent-Type: text/xml; charset=utf-8\r\nContent-Length: 462\r\nConnection: close\r\n\r\n";

const OK_203: &str =
    "HTTP/1.1 200 OK\r\nContent-Type: text/xml; charset=utf-8\r\nContent-Length: 203\r\nConnection: close\r\n\r\n";

const NONE: &str =
    "\r\nContent-Type: text/xml; charset=utf-8\r\nContent-Length: 0\r\nConnection: close\r\n\r\n";

/// The front of a response, and its end.
const FRONT: &str =
    "<?xml version=\"1.0\" encoding=\"UTF-8\"?><zs:searchRetrieveResponse xmlns:zs=\"http://www.loc.gov/zing/srw/\"><zs:version>1.2</zs:version>";

const END: &str = "</zs:searchRetrieveResponse>";

/// Two records of three.
const TWO_OF_3: &str =
    "<zs:numberOfRecords>3</zs:numberOfRecords><zs:records><zs:record><zs:recordSchema>info:srw/schema/1/dc-v1.1</zs:recordSchema><zs:recordPacking>xml</zs:recordPacking><zs:recordData><r>0.Default.4</r></zs:recordData><zs:recordPosition>1</zs:recordPosition></zs:record><zs:record><zs:recordSchema>info:srw/schema/1/dc-v1.1</zs:recordSchema><zs:recordPacking>xml</zs:recordPacking><zs:recordData><r>0.Default.12</r></zs:recordData><zs:recordPosition>2</zs:recordPosition></zs:record></zs:records><zs:nextRecordPosition>3</zs:nextRecordPosition>";

/// No records of three, and diagnostics in the place of records.
const NONE_OF_3: &str = "<zs:numberOfRecords>3</zs:numberOfRecords>";

const DIAGNOSTIC_7: &str =
    "<zs:numberOfRecords>0</zs:numberOfRecords><zs:diagnostics><diag:diagnostic xmlns:diag=\"http://www.loc.gov/zing/srw/diagnostic/\"><diag:uri>info:srw/diagnostic/1/7</diag:uri><diag:details>version</diag:details><diag:message>Mandatory parameter not supplied</diag:message></diag:diagnostic></zs:diagnostics>";

const DIAGNOSTIC_61: &str =
    "<zs:numberOfRecords>0</zs:numberOfRecords><zs:diagnostics><diag:diagnostic xmlns:diag=\"http://www.loc.gov/zing/srw/diagnostic/\"><diag:uri>info:srw/diagnostic/1/61</diag:uri><diag:details>5</diag:details><diag:message>First record position out of range</diag:message></diag:diagnostic></zs:diagnostics>";

/// What a story is about, its configuration, and its steps.
const STORIES: [Story; 16] = [
    (
        "a GET with a fetch, whose legs have their turns behind the step that ends the search",
        SMALLEST,
        &[
            Feed(&[TITLE_A]),
            Steps(&[Went, Went, Went, Went, Went, Went, Went]),
            Wrote(&[]),
            Steps(&[Went, Went, Went, Went, Idle]),
            Wrote(&[OK_701, FRONT, TWO_OF_3, END]),
            Ends(&[Plain], Closed, &[[1, 1, 0, 0]]),
        ],
    ),
    (
        "a GET octet by octet",
        SMALLEST,
        &[
            FeedEach(&[TITLE_A]),
            Wrote(&[OK_701, FRONT, TWO_OF_3, END]),
            Ends(&[Plain], Closed, &[[1, 1, 0, 0]]),
        ],
    ),
    (
        "a GET behind which another stands",
        SMALLEST,
        &[
            Ask(&[TITLE_A, TITLE_A], &[OK_701, FRONT, TWO_OF_3, END]),
            Ends(&[Plain], Closed, &[[1, 1, 0, 0]]),
        ],
    ),
    (
        "a name that is none of SRU's",
        SMALLEST,
        &[
            Ask(&[OTHER_NAME], &[OK_701, FRONT, TWO_OF_3, END]),
            Ends(&[Plain], Closed, &[[1, 1, 0, 0]]),
        ],
    ),
    (
        "a GET without its version",
        SMALLEST,
        &[
            Ask(&[NO_VERSION], &[OK_465, FRONT, DIAGNOSTIC_7, END]),
            Ends(&[Plain], Closed, &[[0, 0, 0, 0]]),
        ],
    ),
    (
        "a GET of no record",
        SMALLEST,
        &[
            Feed(&[NO_RECORDS]),
            Steps(&[Went, Went, Went, Went, Went, Went, Went, Idle]),
            Wrote(&[OK_203, FRONT, NONE_OF_3, END]),
            Ends(&[Plain], Closed, &[[1, 1, 0, 0]]),
        ],
    ),
    (
        "a GET behind the last record",
        SMALLEST,
        &[
            Ask(&[FROM_5], &[OK_462, FRONT, DIAGNOSTIC_61, END]),
            Ends(&[Plain], Closed, &[[1, 1, 0, 0]]),
        ],
    ),
    (
        "booleans from the left",
        SMALLEST,
        &[
            Ask(&[OR_AND], &[OK_203, FRONT, NONE_OF_3, END]),
            Ends(&[Plain], Closed, &[[1, 1, 0, 0]]),
        ],
    ),
    (
        "another method, also of no database",
        SMALLEST,
        &[
            Ask(&[POST_NOPE], &["HTTP/1.1 405 Method Not Allowed", NONE]),
            Ends(&[], Closed, &[[0, 0, 0, 0]]),
        ],
    ),
    (
        "another method",
        SMALLEST,
        &[
            Ask(&[POST], &["HTTP/1.1 405 Method Not Allowed", NONE]),
            Ends(&[], Closed, &[[0, 0, 0, 0]]),
        ],
    ),
    (
        "no such database",
        SMALLEST,
        &[
            Ask(&[NOPE], &["HTTP/1.1 404 Not Found", NONE]),
            Ends(&[], Closed, &[[0, 0, 0, 0]]),
        ],
    ),
    (
        "a head that is none",
        SMALLEST,
        &[
            Ask(&[NO_HTTP], &["HTTP/1.1 400 Bad Request", NONE]),
            Ends(&[], Malformed(0), &[[0, 0, 0, 0]]),
        ],
    ),
    (
        "a head of 16384 octets without its end",
        SMALLEST,
        &[
            Feed(&[LETTERS; 255]),
            Steps(&[Idle]),
            Ask(&[LETTERS], &["HTTP/1.1 400 Bad Request", NONE]),
            Ends(&[], Malformed(0), &[[0, 0, 0, 0]]),
        ],
    ),
    (
        "a head that is cut",
        SMALLEST,
        &[Feed(&["G"]), Steps(&[Idle]), Ends(&[], Cut(1), &[])],
    ),
    (
        "a letter behind a unit, which is the front of another",
        SMALLEST,
        &[
            Ask(&[INIT, NOPE], &[ACCEPTED]),
            Ends(&[Plain], Cut(22), &[[0, 0, 0, 0]]),
        ],
    ),
    (
        "a head that is cut in two",
        SMALLEST,
        &[
            FeedCut(&[NOPE], 20),
            Wrote(&["HTTP/1.1 404 Not Found", NONE]),
            Ends(&[], Closed, &[[0, 0, 0, 0]]),
        ],
    ),
];

#[test]
fn one_get_is_answered_on_an_http_connection(rt: HostRuntime) -> Result<(), Fail> {
    for (about, config, steps) in STORIES {
        assert_eq!(rt; other_way(rt.alloc(), config, steps)?, None, "{about}");
    }
    Ok(())
}
