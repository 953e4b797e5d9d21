//! Diagnostics (ANSI/NISO Z39.50-2003, DefaultDiagFormat).

ghost use Rattle.std.specs.Prelude.{◌≡◌, ◌↔◌, IfOk, IsTrue};
ghost use Rattle.z_types.specs.equality.Diagnostic.{diagnostic};

use crate::{Condition, Exact, Memory, Oid, Text};
use std::alloc::Global;

/// What went wrong, as a target or the gateway tells it.
#[derive(PartialEq, Eq, Clone, Drop)]
pub struct Diag {
    /// The set that the condition is a number of, as bib-1.
    pub set: Oid,
    /// The condition's number in the set, 0 to 2147483647.
    pub condition: u32,
    /// What the condition is about, as a name; it may be empty.
    pub addinfo: Text,
}

impl Diag {
    ghost use Rattle.z_types.specs.Same.{is_same};
    ghost use Rattle.z_types.specs.Bib1.{bib1, bib1_diagnostics, is_gone, IsGone};

    /// The diagnostic of a condition of the bib-1 set (ANSI/NISO Z39.50-2003, Appendix 4 ERR).
    pub fn bib1(alloc: Global, condition: Condition, addinfo: Text) -> Result<Diag, Memory>
        ensures { IfOk result (λ diag. diag ≡ bib1 condition addinfo) }
    {
        Ok(Diag {
            set: Oid::copy_of(alloc, &[1, 2, 840, 10003, 4, 1])?,
            condition: condition.number(),
            addinfo,
        })
    }

    /// Whether its condition is one of the bib-1 set, 1.2.840.10003.4.1.
    pub fn is_of_bib1(&self) -> bool
        ensures value { result ≡ is_same self.now.set bib1_diagnostics }
        ensures exact { IsTrue result ↔ (self.now.set ≡ bib1_diagnostics) }
    {
        self.set.arcs() == [1, 2, 840, 10003, 4, 1].as_slice()
    }

    /// Whether it says that the result set is gone: result set no longer exists, 27, and specified
    /// result set does not exist, 30, of bib-1 (ANSI/NISO Z39.50-2003, Appendix 4 ERR). The same
    /// numbers of another set say nothing of it.
    pub fn is_gone(&self) -> bool
        ensures value { result ≡ is_gone self.now }
        ensures exact { IsTrue result ↔ IsGone self.now }
    {
        self.is_of_bib1()
            && (self.condition == Condition::ResultSetNoLongerExists.number()
                || self.condition == Condition::ResultSetDoesNotExist.number())
    }
}

impl Exact for Diag {
    ghost exact_eq = { diagnostic.eq_is_exact };

    ghost exact_clone = { diagnostic.clone_is_exact };
}
