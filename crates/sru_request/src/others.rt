//! Names of parameters that say nothing here.

ghost use Rattle.std.specs.Prelude.{◌≡◌, not, IfOk};
ghost use Rattle.std.specs.Option.{option_copied};
ghost use Rattle.sru_request.specs.Choices.{is_absent, is_known, is_extra, first_other};
ghost use Rattle.sru_request.specs.Firsts.{has_value, is_other_in, IsTableOf};

use crate::parameter::Parameter;
use std::alloc::Global;
use std::collections::BTreeMap;
use z_types::Memory;

/// Whether a name says something.
#[tactic(auto, unfolding(crate::specs::Choices::is_known))]
fn is_known(name: &[u8]) -> bool
    ensures { result ≡ is_known name.now }
{
    name == b"operation".as_slice()
        || name == b"version".as_slice()
        || name == b"query".as_slice()
        || name == b"startRecord".as_slice()
        || name == b"maximumRecords".as_slice()
        || name == b"recordPacking".as_slice()
        || name == b"recordSchema".as_slice()
        || name == b"sortKeys".as_slice()
}

/// Whether a name is one of extra request data.
#[tactic(auto, unfolding(crate::specs::Choices::is_extra))]
fn is_extra(name: &[u8]) -> bool
    ensures { result ≡ is_extra name.now }
{
    name.starts_with(b"x-")
}

/// Whether a parameter has a value.
fn is_present(parameter: &Parameter) -> bool
    ensures { result ≡ not (is_absent parameter.now.value) }
{
    !parameter.value.is_empty()
}

/// For each name, whether its first pair has a value.
fn firsts_of(alloc: Global, given: &[Parameter]) -> Result<BTreeMap<&[u8], bool>, Memory>
    ensures { IfOk result (λ firsts. IsTableOf firsts given.now) }
{
    let mut firsts = BTreeMap::new(alloc);
    let mut left = given.len();
    while left > 0 {
        left -= 1;
        let parameter = &given[left];
        firsts.insert(parameter.name.as_slice(), is_present(parameter))?;
    }
    Ok(firsts)
}

/// Whether a name is another that has a value.
#[tactic(auto, unfolding(crate::specs::Firsts::is_other_in))]
fn is_other_in<'a>(firsts: &BTreeMap<&'a [u8], bool>, name: &'a [u8]) -> bool
    ensures { result ≡ is_other_in firsts.now name.now }
{
    !(is_known(name) || is_extra(name)) && has_value(firsts, name)
}

/// Whether a name has a value.
fn has_value<'a>(firsts: &BTreeMap<&'a [u8], bool>, name: &'a [u8]) -> bool
    ensures { result ≡ has_value firsts.now name.now }
{
    firsts.get(name).copied().unwrap_or(false)
}

/// The first of these names that a table tells to be another.
fn first_other_in<'a>(firsts: &BTreeMap<&'a [u8], bool>, given: &'a [Parameter]) -> Option<&'a [u8]>
    requires { IsTableOf firsts.now given.now }
    ensures { option_copied result ≡ first_other given.now given.now }
{
    for parameter in given {
        if is_other_in(firsts, parameter.name.as_slice()) {
            return Some(parameter.name.as_slice());
        }
    }
    None
}

/// The first other name that is given. It takes time in proportion to the parameters and the
/// logarithm of their number.
pub(crate) fn first_other(alloc: Global, given: &[Parameter]) -> Result<Option<&[u8]>, Memory>
    ensures { IfOk result (λ found. option_copied found ≡ first_other given.now given.now) }
{
    let firsts = firsts_of(alloc, given)?;
    Ok(first_other_in(&firsts, given))
}
