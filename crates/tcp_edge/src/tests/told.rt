//! What the log tells of a connection.

use crate::told::Told;
use gw_outside::{Came, Whose};
use std::test::Fail;
use z_types::{End, Text};

/// What came of a connection without requests.
fn came<'a>(end: Option<End>, whose: Whose<'a>, cached: u64) -> Came<'a> {
    Came {
        marks: &[],
        end,
        whose,
        cached,
    }
}

#[test]
fn a_connection_is_told_with_whose_it_was(rt: HostRuntime) -> Result<(), Fail> {
    let alloc = rt.alloc();
    let ann = Text::copy_of(alloc, b"ann")?;
    let bare = "0 requests (0 Link, 0 Silent, 0 Gone, 0 Full)";
    let cases = [
        (came(Some(End::Closed), Whose::Untold, 0), ", Closed"),
        (
            came(Some(End::Finished), Whose::Anonymous, 0),
            ", Finished, as anonymous",
        ),
        (
            came(Some(End::Closed), Whose::User(&ann), 2),
            ", 2 from the cache, Closed, as ann",
        ),
        (
            came(Some(End::Finished), Whose::Refused(1), 0),
            ", Finished, login refused",
        ),
        (
            came(None, Whose::Refused(3), 0),
            ", given up, login refused 3 times",
        ),
    ];
    for (came, end) in cases {
        let told = format!(in alloc; "{}", Told(came))?;
        let expected = format!(in alloc; "{bare}{end}")?;
        assert_eq!(rt; told.as_str(), expected.as_str());
    }
    Ok(())
}
