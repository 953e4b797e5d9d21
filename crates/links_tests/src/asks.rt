//! What the stories ask for: the set `0` of the word `b` as title in `Default`, records of it from the
//! first on, and entries of an index.

ghost use Rattle.std.specs.Prelude.{◌≡◌, ◌≤◌, IfOk};
ghost use Rattle.z_types.specs.Bounds.{most_number};
ghost use Rattle.gw_outside.specs.Asks.{AreFewShort};
ghost use Rattle.links_tests.specs.Stories.{IsOneAttribute, MayAskOf, set_name};

use std::alloc::Global;
use z_types::{Ask, Attr, List, Memory, Oid, Rpn, RpnQuery, ScanAsk, SetKey, Term, Text};

/// The name of the set.
fn set_name(alloc: Global) -> Result<Text, Memory>
    ensures { IfOk result (λ name. name ≡ set_name) }
{
    Text::copy_of(alloc, &[48])
}

/// The database `Default` alone.
fn databases(alloc: Global) -> Result<List<Text>, Memory>
    ensures { IfOk result AreFewShort }
{
    let mut dbs = List::new(alloc);
    dbs.push(Text::copy_of(alloc, b"Default")?)?;
    Ok(dbs)
}

/// The attribute Use of bib-1 with the value title.
fn title(alloc: Global) -> Result<List<Attr>, Memory>
    ensures { IfOk result IsOneAttribute }
{
    let mut attrs = List::new(alloc);
    attrs.push(Attr {
        set: None,
        kind: 1,
        value: 4,
    })?;
    Ok(attrs)
}

/// A search for the word `b` as title.
pub(crate) fn search(alloc: Global) -> Result<Ask, Memory>
    ensures { IfOk result (λ ask. MayAskOf 0 ask) }
{
    let attr_set = Oid::copy_of(alloc, &[1, 2, 840, 10003, 3, 1])?;
    let term = Term::General(Text::copy_of(alloc, b"b")?);
    let root = Rpn::leaf(title(alloc)?, term);
    Ok(Ask::Search {
        name: set_name(alloc)?,
        key: SetKey {
            dbs: databases(alloc)?,
            query: RpnQuery { attr_set, root },
        },
    })
}

/// A Present of `count` records of the set, from the first on.
pub(crate) fn present(alloc: Global, count: u32) -> Result<Ask, Memory>
    requires some { 1 ≤ count }
    requires number { count ≤ most_number }
    ensures { IfOk result (λ ask. MayAskOf count ask) }
{
    Ok(Ask::Present {
        name: set_name(alloc)?,
        first: 1,
        count,
        syntax: None,
        element: None,
    })
}

/// A scan of titles for three entries from `c` on.
pub(crate) fn scan(alloc: Global) -> Result<Ask, Memory>
    ensures { IfOk result (λ ask. MayAskOf 0 ask) }
{
    Ok(Ask::Scan {
        dbs: databases(alloc)?,
        ask: ScanAsk {
            attr_set: None,
            attrs: title(alloc)?,
            term: Term::General(Text::copy_of(alloc, b"c")?),
            step: None,
            number: 3,
            position: None,
        },
    })
}
