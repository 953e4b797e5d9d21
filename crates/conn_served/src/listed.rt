//! What came of connections, one after another: kept, or counted and forgotten.

ghost use Rattle.std.specs.Prelude.{◌≡◌, ◌<◌, [], ◌∷◌, ◌++◌, length, IfSome, IsSomeAnd, OnOk};
ghost use Rattle.front_conn_costs.specs.steps.Growth.{last64};

use crate::Served;
use http_server::Log;
use std::alloc::Global;
use std::marker::Model;
use z_types::Memory;

/// What came of each connection, in their order, as contracts see it. It is kept, or counted and forgotten: a
/// server runs for months, and what it listed would grow with each connection.
#[derive(Drop)]
pub struct Listed {
    kept: Option<Vec<Served>>,
    count: u64,
    all: Log<Served, ()>,
}

impl Model for Listed {
    ghost use Rattle.std.specs.Prelude.{◌≡◌, List, length, map, IfSome};
    ghost use Rattle.conn_served.specs.declared.served.Served.{Served};

    ghost Value = { List Served };

    ghost view = { λ listed. map (λ pair. pair.0) listed.all.items };

    ghost invariant = { λ listed. (listed.count ≡ length listed.all.items)
        × IfSome listed.kept (λ kept. kept.items ≡ map (λ pair. pair.0) listed.all.items) };
}

impl Listed {
    /// The empty list, which keeps what is put into it.
    pub fn keeping(alloc: Global) -> Listed
        ensures { result ≡ [] }
    {
        Listed {
            kept: Some(Vec::new(alloc)),
            count: 0,
            all: Log::new(),
        }
    }

    /// The empty list, which counts what is put into it. It takes no memory.
    pub fn counting() -> Listed
        ensures { result ≡ [] }
    {
        Listed {
            kept: None,
            count: 0,
            all: Log::new(),
        }
    }

    /// How many connections are listed.
    pub fn len(&self) -> u64
        ensures { result ≡ length self.now }
    {
        self.count
    }

    /// What came of each, where it is kept.
    pub fn kept(&self) -> Option<&[Served]>
        ensures { IfSome result (λ kept. kept.now ≡ self.now) }
    {
        match &self.kept {
            Some(kept) => Some(kept.as_slice()),
            None => None,
        }
    }

    /// Makes room for one connection more.
    pub fn make_room(&mut self) -> Result<(), Memory>
        ensures room { OnOk result (length self.new < last64) }
        ensures same { self.new ≡ self.old }
    {
        if self.count == u64::MAX {
            return Err(Memory);
        }
        match &mut self.kept {
            Some(kept) => Ok(kept.reserve(1)?),
            None => Ok(()),
        }
    }

    /// Lists what came of one connection more. Without memory to keep it, all are counted alone from then on.
    pub fn push(&mut self, came: Served)
        requires { length self.old < last64 }
        ensures { self.new ≡ self.old ++ came ∷ [] }
    {
        let all = self.all.and(&came, &());
        self.all = all;
        self.count += 1;
        let kept = self.kept.take();
        self.kept = with_one(kept, came);
    }
}

/// These and one more, where they are kept and there is memory.
fn with_one(kept: Option<Vec<Served>>, came: Served) -> Option<Vec<Served>>
    ensures { IfSome result (λ all. IsSomeAnd kept (λ before.
        all.items ≡ before.items ++ came ∷ [])) }
{
    match kept {
        Some(mut all) => match all.push(came) {
            Ok(()) => Some(all),
            Err(_) => None,
        },
        None => None,
    }
}
