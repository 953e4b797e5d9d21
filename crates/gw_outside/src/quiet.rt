//! What is quiet stays so, and does nothing to links.

ghost use Rattle.std.specs.Prelude.{◌≡◌, ◌≤◌, ℕ, List, Option, false};
ghost use Rattle.z_types.specs.declared.address.Address.{Address};
ghost use Rattle.z_types.specs.declared.requests.Request.{Request};
ghost use Rattle.gw_outside.specs.Happened.{Happened, AreSame, AreLess, IsAsked, AreQuiet, StaysQuiet, at_address, to_peer, is_cut, sets_found, nothing_happens};
ghost use Rattle.gw_outside.specs.Peers.{NamedSet, Peer};

/// A quiet wire, and quiet sessions over one, stay quiet through every call: where nothing changes, where
/// a request is asked, and where at most some Presents less are left.
#[tactic(auto, using(crate::proofs::QuietLemmas::same_stays, crate::proofs::QuietLemmas::asked_stays, crate::proofs::QuietLemmas::less_stays))]
pub fn quiet_stays()
    ensures same { StaysQuiet AreSame }
    ensures asked { (address : Address) (request : Request) → StaysQuiet (IsAsked address request) }
    ensures less { StaysQuiet AreLess }
{}

/// Nothing happens to the links of a quiet wire: each request finds all sets, its reply comes at the
/// first look, and no link is cut, as links are numbered from 1.
#[tactic(auto, using(crate::proofs::QuietLemmas::nothing_at, crate::proofs::QuietLemmas::nothing_to, crate::proofs::QuietLemmas::all_found, crate::proofs::QuietLemmas::none_cut))]
pub fn quiet_does_nothing()
    ensures address { (h : Happened) (address : Address)
        → AreQuiet h → at_address h address ≡ nothing_happens }
    ensures peer { (h : Happened) (peer : Option Peer)
        → AreQuiet h → to_peer h peer ≡ nothing_happens }
    ensures finds { (request : Request) (sets : List NamedSet)
        → sets_found nothing_happens request sets ≡ sets }
    ensures uncut { (number : ℕ) → 1 ≤ number → is_cut nothing_happens number ≡ false }
{}
