//! A session by a route with a group: its Init tells of the client, its records are of two legs, of which
//! one is broken, and its scan is of the group's database alone.

use crate::plays::Step::{Ask, Ends};
use crate::pools::other_way;
use crate::units::{ACCEPTED, CLOSE};
use std::test::Fail;
use z_types::End::Closed;
use z_types::Mark::Plain;

/// The group `pair` is the one leg of `Books`; that leg and `gamma` are those of `All`.
const CONFIG: &[u8] = b"[[target]]\nname = \"alpha\"\naddress = \"test:0\"\n\
[[target]]\nname = \"beta\"\naddress = \"test:0\"\n\
[[target]]\nname = \"gamma\"\naddress = \"test:5\"\n\
[[group]]\nname = \"pair\"\ntargets = [\"alpha\", \"beta\"]\n\
[[database]]\nname = \"Books\"\n\
[[database.leg]]\nvia = \"pair\"\ndatabases = [\"Default\"]\n\
[[database]]\nname = \"All\"\n\
[[database.leg]]\nvia = \"pair\"\ndatabases = [\"Default\"]\n\
[[database.leg]]\nvia = \"gamma\"\ndatabases = [\"Default\"]\n\
[limit]\n";

/// An Init with texts on the implementation and other information.
const INIT: &str =
    "b42b830205e0840301fffe850310000086031000009f6e0238319f6f06636c69656e749f7003312e30bf814900";

/// A Search of `All` for `b` as title, and its reply.
const SEARCH: &str = "b63a8d01008e01018f01009001ff910131b2069f6903416c6cb521a11f\
06072a8648ce130301a014bf6611bf2c0a30089f7801019f7901049f2d0162";

const FOUND_23: &str = "b70c9701179801009901019601ff";

/// Presents of the records 1 to 10, 11 to 20 and 21 to 23, and their replies, record by record.
const PRESENTS: &[&str] = &[
    "b8159f1f01319e01019d010a9f68082a8648ce13056d0a",
    "b8159f1f01319e010b9d010a9f68082a8648ce13056d0a",
    "b8159f1f01319e01159d01039f68082a8648ce13056d0a",
];

const SHOWN: &[&str] = &[
    "b98201bc98010a99010b9b0100bc8201af",
    "30298003416c6ca122a120281e06082a8648ce13056d0a81123c723e302e44656661756c742e323c2f723e",
    "30298003416c6ca122a120281e06082a8648ce13056d0a81123c723e352e44656661756c742e313c2f723e",
    "30298003416c6ca122a120281e06082a8648ce13056d0a81123c723e302e44656661756c742e343c2f723e",
    "30298003416c6ca122a120281e06082a8648ce13056d0a81123c723e352e44656661756c742e333c2f723e",
    "30298003416c6ca122a120281e06082a8648ce13056d0a81123c723e302e44656661756c742e363c2f723e",
    "30298003416c6ca122a120281e06082a8648ce13056d0a81123c723e352e44656661756c742e353c2f723e",
    "30298003416c6ca122a120281e06082a8648ce13056d0a81123c723e302e44656661756c742e383c2f723e",
    "30298003416c6ca122a120281e06082a8648ce13056d0a81123c723e352e44656661756c742e373c2f723e",
    "302a8003416c6ca123a121281f06082a8648ce13056d0a81133c723e302e44656661756c742e31303c2f723e",
    "30298003416c6ca122a120281e06082a8648ce13056d0a81123c723e352e44656661756c742e393c2f723e",
    "b98201b698010a9901159b0100bc8201a9",
    "302a8003416c6ca123a121281f06082a8648ce13056d0a81133c723e302e44656661756c742e31323c2f723e",
    "302a8003416c6ca123a121281f06082a8648ce13056d0a81133c723e352e44656661756c742e31313c2f723e",
    "302a8003416c6ca123a121281f06082a8648ce13056d0a81133c723e302e44656661756c742e31343c2f723e",
    "301b8003416c6ca114a212301006072a8648ce1304010201021b023133",
    "302a8003416c6ca123a121281f06082a8648ce13056d0a81133c723e302e44656661756c742e31363c2f723e",
    "302a8003416c6ca123a121281f06082a8648ce13056d0a81133c723e352e44656661756c742e31353c2f723e",
    "302a8003416c6ca123a121281f06082a8648ce13056d0a81133c723e302e44656661756c742e31383c2f723e",
    "302a8003416c6ca123a121281f06082a8648ce13056d0a81133c723e352e44656661756c742e31373c2f723e",
    "302a8003416c6ca123a121281f06082a8648ce13056d0a81133c723e302e44656661756c742e32303c2f723e",
    "302a8003416c6ca123a121281f06082a8648ce13056d0a81133c723e352e44656661756c742e31393c2f723e",
    "b981909801039901009b0100bc8184",
    "302a8003416c6ca123a121281f06082a8648ce13056d0a81133c723e352e44656661756c742e32313c2f723e",
    "302a8003416c6ca123a121281f06082a8648ce13056d0a81133c723e352e44656661756c742e32333c2f723e",
    "302a8003416c6ca123a121281f06082a8648ce13056d0a81133c723e352e44656661756c742e32353c2f723e",
];

/// A Scan of `Books` for five titles from `c` on, and its reply.
const SCAN: &str =
    "bf232aa3089f6905426f6f6b7306072a8648ce130301bf6611bf2c0a30089f7801019f7901049f2d0163860105";

const SCANNED: &str =
    "bf243a840100850105860101a72fa12da1079f2d0163820107a1079f2d0164820105a1079f2d0165820104\
a1079f2d0166820104a1079f2d0167820103";

#[test]
fn a_group_and_a_target_are_searched_as_one_database(rt: HostRuntime) -> Result<(), Fail> {
    let steps = [
        Ask(&[INIT, SEARCH], &[ACCEPTED, FOUND_23]),
        Ask(PRESENTS, SHOWN),
        Ask(&[SCAN, CLOSE], &[SCANNED, CLOSE]),
        Ends(
            &[Plain, Plain, Plain, Plain, Plain, Plain, Plain],
            Closed,
            &[[1, 1, 0, 0], [1, 1, 0, 0]],
        ),
    ];
    assert_eq!(rt; other_way(rt.alloc(), &[CONFIG], &steps)?, None);
    Ok(())
}
