//! Where a GET of a client stands.

ghost use Rattle.std.specs.Prelude.{◌≡◌};
ghost use Rattle.front_sru.specs.declared.state.SruStage.TheVariants.{Idle};
ghost use Rattle.front_sru.specs.Kept.{IsKept, fetching, is_idle};

use sru_rules::Retrieval;
use std::marker::Model;
use std::mem::replace;
use z_types::List;

/// Where a GET stands.
#[derive(Drop)]
pub enum SruStage {
    /// It waits for no work.
    Idle,
    /// It waits for the hits of its search.
    Searching(Retrieval),
    /// It waits for the records that are fetched from a result set with these hits.
    Fetching(Retrieval, List<u32>),
}

/// What is kept of a client's GET between its works.
#[derive(Drop)]
pub struct SruState {
    stage: SruStage,
}

impl Model for SruState {
    ghost use Rattle.std.specs.Coded.{codes};
    ghost use Rattle.z_types.specs.Tree.{tree_code};
    ghost use Rattle.front_sru.specs.declared.state.SruStage.{SruStage};
    ghost use Rattle.front_sru.specs.Kept.{IsKept};

    ghost Value = { SruStage };

    ghost coded = { Prim.hlevel (codes, tree_code) };

    ghost view = { λ s. s.stage };

    ghost invariant = { λ s. IsKept s.stage };
}

impl SruState {
    /// The state before a GET.
    pub fn new() -> SruState
        ensures { result ≡ Idle }
    {
        SruState {
            stage: SruStage::Idle,
        }
    }

    /// Whether the GET waits for no work.
    pub fn is_idle(&self) -> bool
        ensures { result ≡ is_idle self.now }
    {
        matches!(self.stage, SruStage::Idle)
    }

    /// Where the GET stands.
    pub(crate) fn stage(&self) -> &SruStage
        ensures stage { result.now ≡ self.now }
        ensures kept { IsKept self.now }
    {
        &self.stage
    }

    /// Lets the GET wait, or not.
    pub(crate) fn wait(&mut self, stage: SruStage)
        requires { IsKept stage }
        ensures { self.new ≡ stage }
    {
        self.stage = stage;
    }

    /// Lets the GET wait for its fetch, from a result set with these hits.
    pub(crate) fn fetch(&mut self, hits: List<u32>)
        ensures { self.new ≡ fetching self.old hits }
    {
        self.stage = fetching(replace(&mut self.stage, SruStage::Idle), hits);
    }
}

/// A GET that waited for its search waits for its fetch, from a result set with these hits.
fn fetching(stage: SruStage, hits: List<u32>) -> SruStage
    requires { IsKept stage }
    ensures waits { result ≡ fetching stage hits }
    ensures kept { IsKept result }
{
    match stage {
        SruStage::Searching(retrieval) => SruStage::Fetching(retrieval, hits),
        other => other,
    }
}
