//! A session with a target over a link.

ghost use Rattle.std.specs.Prelude.{false};
ghost use Rattle.z_client.specs.Links.{link_of};
ghost use Rattle.z_client.specs.Sets.{made_in, pending_of};

use crate::sets::{FoundSet, Waiting};
use gw_outside::Linked;
use std::marker::{Model, PhantomData};
use z_ber::Scan;
use z_types::{Address, Sitting, World};

/// A session apart from its world: its link, how far the octets that have arrived are scanned, its
/// address, the sets that it made, and what it waits for.
#[derive(Drop)]
pub struct LinkParts<L> {
    /// The link to the target.
    pub link: L,
    /// How far what has arrived over it is scanned for a unit (X.690:2021, 8.1).
    pub scan: Scan,
    /// The address of the target.
    pub address: Address,
    /// The result sets of its searches that succeeded.
    pub made: Vec<FoundSet>,
    /// What it waits for.
    pub waiting: Waiting,
}

/// A session with a target over a link. Where its address is told it is a true session: for each set
/// that it made the peer of its link holds that set or nothing, and the reply that is owed is the
/// world's.
#[derive(Drop)]
pub struct ZSession<W: World, L: Linked> {
    pub(crate) parts: LinkParts<L>,
    pub(crate) world: PhantomData<W>,
}

impl<W: World, L: Linked> Model for ZSession<W, L> {
    ghost use Rattle.std.specs.Coded.{codes};
    ghost use Rattle.z_types.specs.Tree.{tree_code};
    ghost use Rattle.z_client.specs.declared.session.LinkParts.{LinkParts};

    ghost Value = { LinkParts L };

    ghost coded = { Prim.hlevel (codes, tree_code) };

    ghost use Rattle.z_client.specs.TrueSession.{IsTrueSession};

    ghost view = { λ s. s.parts };

    ghost invariant = { λ s. IsTrueSession W.World L.Linked s.parts };
}

impl<W: World, L: Linked> Sitting<W> for ZSession<W, L> {
    ghost address = { λ session. session.address };

    ghost made = { λ session. made_in session.made.items };

    ghost pending = { λ session. pending_of session.waiting };

    ghost link = { λ session. link_of L.Linked session.link };

    ghost keeps = { false };
}
