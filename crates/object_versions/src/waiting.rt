// Which version a frame waits for.
ghost use Rattle.std.specs.Prelude.{◌≡◌, ℕ, ◌≤◌, Some, IsSome, IfSome, IfNone};
ghost use Rattle.slab.specs.Slab.{get};
ghost use Rattle.object_versions.specs.Store.{given_of};
ghost use Rattle.object_versions.specs.Waiting.{AwaitsAt};
ghost use Rattle.object_versions.specs.Whole.{IsWhole};

use crate::nodes::value_at;
use crate::{Node, PlacedObject};
use slab::Slab;
use std::collections::BTreeMap;

/// A place whose given version is owed, and the frame that owes it.
#[derive(Clone, Copy)]
pub struct Awaited {
    /// The place.
    pub place: u32,
    /// The frame that owes the version.
    pub owing: u64,
}

/// The frame that still owes the version that was given at a place, where one does. `O(1)`; it takes no
/// memory.
fn owing_of(nodes: &Slab<Node>, object: &PlacedObject) -> Option<u64>
    requires { (key : ℕ) → object.now.given ≡ Some key → IsSome (get nodes.now key) }
    ensures { result ≡ given_of nodes.now object.now.given }
{
    let Some(given) = object.given else {
        return None;
    };
    match value_at(nodes, given) {
        Ok(_) => None,
        Err(owing) => Some(owing),
    }
}

/// The lowest place of a frame whose given version is owed: one walk over the frame's places, `O(k + log n)`
/// for k objects of the frame and n places of all frames. It takes no memory.
pub fn first_awaited(
    places: &BTreeMap<(u64, u32), PlacedObject>,
    nodes: &Slab<Node>,
    frame: u64,
) -> Option<Awaited>
    requires whole { (made : ℕ) × IsWhole places.now.entries nodes.now made (λ _. 0) }
    ensures owes { IfSome result (λ awaited. AwaitsAt places.now.entries nodes.now frame awaited.place awaited.owing) }
    ensures first { IfSome result (λ awaited. (other n : ℕ) → AwaitsAt places.now.entries nodes.now frame other n → awaited.place ≤ other) }
    ensures none { IfNone result ((place owing : ℕ) → ¬ AwaitsAt places.now.entries nodes.now frame place owing) }
{
    for (&(owner, place), object) in places.range((frame, 0)..) {
        if owner != frame {
            return None;
        }
        if let Some(owing) = owing_of(nodes, object) {
            return Some(Awaited { place, owing });
        }
    }
    None
}
