//! What the legs that are played are asked for.

ghost use Rattle.std.specs.Prelude.{◌≡◌, ◌≤◌, length, IfOk, IsTrue, []};
ghost use Rattle.unit_forms.specs.Logins.{IsLoginIf};
ghost use Rattle.gw_outside.specs.Asks.{AreFewShort, MaySearch, MayScan};
ghost use Rattle.leg.specs.Tasks.{task_of, MayBeAsked};
ghost use Rattle.leg_tests.specs.Played.{AreFew, IsOneAttribute};

use crate::logins::{Under, login_of};
use leg::{Job, LegAsk};
use std::alloc::Global;
use z_types::{Attr, List, Memory, Oid, Rpn, RpnQuery, ScanAsk, SetKey, Term, Text};

/// What is asked of a leg.
#[derive(Clone, Copy, Drop)]
pub(crate) enum Asked {
    /// The hits of a letter as title in `Default`.
    Hits(u8),
    /// The hits of a letter as title in `Nope`, which no target has.
    HitsOfNone(u8),
    /// Records of a letter's set: from this position on, so many.
    Records(u8, u32, u32),
    /// Three titles from `c` on.
    Scan,
}

/// Whether records are at positions of small numbers.
fn are_few(first: u32, count: u32) -> bool
    ensures { IsTrue result → AreFew first count }
{
    1 <= first && 1 <= count && first <= 5000 && count <= 5000
}

/// One database.
fn database(alloc: Global, name: &[u8]) -> Result<List<Text>, Memory>
    requires { length name.now ≤ 7 }
    ensures { IfOk result AreFewShort }
{
    let mut dbs = List::new(alloc);
    dbs.push(Text::copy_of(alloc, name)?)?;
    Ok(dbs)
}

/// The attribute Use of bib-1 with the value title.
fn title(alloc: Global) -> Result<List<Attr>, Memory>
    ensures { IfOk result IsOneAttribute }
{
    let mut attrs = List::new(alloc);
    attrs.push(Attr {
        set: None,
        kind: 1,
        value: 4,
    })?;
    Ok(attrs)
}

/// The key of a letter as title in a database.
fn key_of(alloc: Global, name: &[u8], letter: u8) -> Result<SetKey, Memory>
    requires { length name.now ≤ 7 }
    ensures { IfOk result (MaySearch []) }
{
    let attr_set = Oid::copy_of(alloc, &[1, 2, 840, 10003, 3, 1])?;
    let term = Term::General(Text::copy_of(alloc, &[letter])?);
    let root = Rpn::leaf(title(alloc)?, term);
    Ok(SetKey {
        dbs: database(alloc, name)?,
        query: RpnQuery { attr_set, root },
    })
}

/// A scan of titles for three entries from `c` on.
fn scan(alloc: Global) -> Result<ScanAsk, Memory>
    ensures { IfOk result (MayScan []) }
{
    Ok(ScanAsk {
        attr_set: None,
        attrs: title(alloc)?,
        term: Term::General(Text::copy_of(alloc, b"c")?),
        step: None,
        number: 3,
        position: None,
    })
}

/// Records of a letter's set, in the syntax that the target chooses.
fn records(
    alloc: Global,
    login: Option<Text>,
    letter: u8,
    first: u32,
    count: u32,
) -> Result<LegAsk, Memory>
    requires few { AreFew first count }
    requires login { IsLoginIf login }
    ensures leg { IfOk result (λ ask. ask.leg ≡ 0) }
    ensures login { IfOk result (λ ask. IsLoginIf ask.login) }
    ensures may { IfOk result (λ ask. MayBeAsked (task_of ask.key ask.job)) }
{
    let key = key_of(alloc, b"Default", letter)?;
    Ok(LegAsk {
        leg: 0,
        login,
        key: Some(key),
        job: Job::Records {
            first,
            count,
            syntax: None,
            element: None,
        },
    })
}

/// The hits of a letter in a database.
fn hits(alloc: Global, login: Option<Text>, name: &[u8], letter: u8) -> Result<LegAsk, Memory>
    requires short { length name.now ≤ 7 }
    requires login { IsLoginIf login }
    ensures leg { IfOk result (λ ask. ask.leg ≡ 0) }
    ensures login { IfOk result (λ ask. IsLoginIf ask.login) }
    ensures may { IfOk result (λ ask. MayBeAsked (task_of ask.key ask.job)) }
{
    let key = key_of(alloc, name, letter)?;
    Ok(LegAsk {
        leg: 0,
        login,
        key: Some(key),
        job: Job::Hits,
    })
}

/// What the first leg of a route is asked for under a login. More than 5000 records are not asked for, nor
/// any behind such a position.
pub(crate) fn ask_of(alloc: Global, under: Under, asked: Asked) -> Result<LegAsk, Memory>
    ensures leg { IfOk result (λ ask. ask.leg ≡ 0) }
    ensures login { IfOk result (λ ask. IsLoginIf ask.login) }
    ensures may { IfOk result (λ ask. MayBeAsked (task_of ask.key ask.job)) }
{
    let login = login_of(alloc, under)?;
    match asked {
        Asked::Hits(letter) => hits(alloc, login, b"Default", letter),
        Asked::HitsOfNone(letter) => hits(alloc, login, b"Nope", letter),
        Asked::Records(letter, first, count) => {
            if !are_few(first, count) {
                return Err(Memory);
            }
            records(alloc, login, letter, first, count)
        }
        Asked::Scan => Ok(LegAsk {
            leg: 0,
            login,
            key: None,
            job: Job::Scan(scan(alloc)?),
        }),
    }
}
