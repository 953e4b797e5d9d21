//! The records of each leg among places, worked out by hand.

use crate::{Span, spans_of};
use std::alloc::Global;
use std::test::Fail;
use z_types::Memory;

/// Hits of legs, a first place and how many, and the spans: a leg, its first rank and how many.
type Row = (&'static [u32], u32, u32, &'static [(u32, u32, u32)]);

const ROWS: [Row; 7] = [
    (&[3, 0, 1], 1, 4, &[(0, 1, 3), (2, 1, 1)]),
    (&[3, 0, 1], 3, 2, &[(0, 2, 2)]),
    (&[2, 5, 3], 1, 10, &[(0, 1, 2), (1, 1, 5), (2, 1, 3)]),
    (&[2, 5, 3], 6, 3, &[(1, 3, 1), (2, 2, 2)]),
    (&[2, 5, 3], 5, 1, &[(1, 2, 1)]),
    (&[4], 2, 2, &[(0, 2, 2)]),
    (&[0, 7], 7, 1, &[(1, 7, 1)]),
];

/// Whether these are the spans.
fn are_spans(spans: &[Span], wanted: &[(u32, u32, u32)]) -> bool {
    spans.len() == wanted.len()
        && spans.iter().zip(wanted).all(|(span, (leg, first, count))| {
            span.leg == *leg && span.first == *first && span.count == *count
        })
}

#[test]
fn each_leg_has_the_ranks_that_stand_at_the_places(rt: HostRuntime) -> Result<(), Fail> {
    for (hits, first, count, wanted) in ROWS {
        let spans = spans_of(rt.alloc(), hits, first, count)?;
        assert!(rt; are_spans(spans.as_slice(), wanted), "from {first}");
    }
    Ok(())
}
