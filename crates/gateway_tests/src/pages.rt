//! Pages of reports, by `docs/formats/replay.md`.

use replay::{ClassReport, ClientReport, Report, print};
use std::alloc::Global;
use std::test::Fail;
use z_types::{End, List, Mark, Memory, Text};

/// A client's number, octets, marks and end.
type Client<'a> = (u32, &'a [u8], &'a [Mark], End);

/// The report of a client.
fn client_report(
    alloc: Global,
    (number, octets, marks, end): Client,
) -> Result<ClientReport, Memory> {
    let bytes = Text::copy_of(alloc, octets)?;
    Ok(ClientReport {
        number,
        bytes,
        marks: List::from_vec(marks.to_vec(alloc)?),
        end,
    })
}

/// A class's name, and how many links were made, searches sent, sets gone and calls failed.
type Class<'a> = (&'a [u8], [u64; 4]);

/// The report of a class.
fn class_report(
    alloc: Global,
    (name, [dials, searches, gones, faults]): Class,
) -> Result<ClassReport, Memory> {
    Ok(ClassReport {
        name: Text::copy_of(alloc, name)?,
        dials,
        searches,
        gones,
        faults,
    })
}

/// What is told of a run: its clients, its classes, and the Presents that kept records answered.
type Told<'a> = (&'a [Client<'a>], &'a [Class<'a>], Option<u64>);

/// A report of this.
fn report(alloc: Global, (clients, classes, cache_hits): Told) -> Result<Report, Memory> {
    let mut report = Report {
        clients: List::new(alloc),
        classes: List::new(alloc),
        cache_hits,
    };
    for client in clients {
        report.clients.push(client_report(alloc, *client)?)?;
    }
    for class in classes {
        report.classes.push(class_report(alloc, *class)?)?;
    }
    Ok(report)
}

/// Whether this page is printed of a report of this.
fn prints(alloc: Global, told: Told, page: &[u8]) -> Result<bool, Memory> {
    let report = report(alloc, told)?;
    is_printed(alloc, &report, page)
}

/// Whether this is printed of a report.
fn is_printed(alloc: Global, report: &Report, page: &[u8]) -> Result<bool, Memory> {
    Ok(print(alloc, report)?.as_slice() == page)
}

/// The page of a client without octets and marks.
const SILENT: &[u8] = b"client 1\nbytes -\nmarks -\nend Finished\nclients 1 requests 0\n";

/// The marks of the first of three clients, and their page.
const MARKS: &[Mark] = &[
    Mark::Plain,
    Mark::Link,
    Mark::Silent(3),
    Mark::Gone,
    Mark::Full(64),
];

const SEVERAL: &[u8] = b"client 2\nbytes 00ab\n\
marks Plain Link Silent:3 Gone Full:64\nend Cut 12\n\
client 30\nbytes ff\nmarks Plain\nend Malformed 0\n\
client 10000\nbytes -\nmarks -\nend Closed\n\
clients 3 requests 6\n";

/// The page of two classes: one of which nothing was counted, and one with the greatest numbers.
const CLASSES: &[u8] = b"class a b dials 0 searches 0 gones 0 faults 0\n\
class beta dials 1 searches 20 gones 300 faults 18446744073709551615\n\
clients 0 requests 0\n";

/// The pages of a run of nobody without kept records, with none that was asked for, and with the greatest number.
const NOBODY: &[u8] = b"clients 0 requests 0\n";

const NO_HITS: &[u8] = b"cache hits 0\nclients 0 requests 0\n";

const MOST_HITS: &[u8] = b"class a b dials 0 searches 0 gones 0 faults 0\n\
cache hits 18446744073709551615\n\
clients 0 requests 0\n";

/// What is told, and the page of it: nobody, a client without octets and marks, three clients, two classes, and
/// kept records that answered no Present and the greatest number of them.
const PAGES: [(Told<'static>, &[u8]); 6] = [
    ((&[], &[], None), NOBODY),
    ((&[(1, &[], &[], End::Finished)], &[], None), SILENT),
    (
        (
            &[
                (2, &[0, 0xab], MARKS, End::Cut(12)),
                (30, &[0xff], &[Mark::Plain], End::Malformed(0)),
                (10000, &[], &[], End::Closed),
            ],
            &[],
            None,
        ),
        SEVERAL,
    ),
    (
        (
            &[],
            &[(b"a b", [0; 4]), (b"beta", [1, 20, 300, u64::MAX])],
            None,
        ),
        CLASSES,
    ),
    ((&[], &[], Some(0)), NO_HITS),
    ((&[], &[(b"a b", [0; 4])], Some(u64::MAX)), MOST_HITS),
];

#[test]
fn a_page_has_the_lines_of_each_client_and_class_and_one_of_sums(
    rt: HostRuntime,
) -> Result<(), Fail> {
    for (told, page) in PAGES {
        assert!(rt; prints(rt.alloc(), told, page)?, "{page:?}");
    }
    Ok(())
}
