// What a frame that ends leaves.
ghost use Rattle.std.specs.Prelude.{◌≡◌, ℕ, ◌+◌, Some, None, IsSome, IfSome, IfNone, OnOk};
ghost use Rattle.std.specs.BTreeMap.{is_at};
ghost use Rattle.std.specs.Map.{set_value};
ghost use Rattle.swan_model.specs.Versions.{place_cmp};
ghost use Rattle.slab.specs.Slab.{Slab as TheSlab, get};
ghost use Rattle.object_versions.specs.declared.node.Node.{Node as TheNode};
ghost use Rattle.object_versions.specs.declared.placed_object.PlacedObject.{PlacedObject as ThePlacedObject};
ghost use Rattle.object_versions.specs.Store.{PlaceEntries, place_at, one_of, uses_of};
ghost use Rattle.object_versions.specs.Whole.{IsWhole};
ghost use Rattle.object_versions.specs.Ending.{IsDebt, IsPaid, IsPaidBelow, IsAllPaid, IsSettling, IsReleased, IsForgetting};

use crate::nodes::{overwrite, release, value_at};
use crate::places::{first_place, forget_owed, take_out};
use crate::{Node, PlacedObject};
use slab::Slab;
use std::collections::BTreeMap;
use swan_model::NoMemory;

/// A version that a frame owes for a place, and the version that it has there.
#[derive(Clone, Copy)]
pub struct Debt {
    /// The place.
    pub place: u32,
    /// The version that the frame has there.
    pub present: usize,
    /// The version that it owes.
    pub owed: usize,
}

/// The first debt of a frame at its places from this one on, where it owes nothing for the lower ones; None comes exactly
/// where it owes nothing. `O(m + log n)` for the m places that it looks at, and n places of all frames; it takes no memory.
fn next_debt(places: &BTreeMap<(u64, u32), PlacedObject>, frame: u64, from: u32) -> Option<Debt>
    requires below { IsPaidBelow places.now.entries frame from }
    ensures owes { IfSome result (λ debt. IsDebt places.now.entries frame debt.place debt.present debt.owed) }
    ensures below { IfSome result (λ debt. IsPaidBelow places.now.entries frame debt.place) }
    ensures none { IfNone result (IsAllPaid places.now.entries frame) }
{
    for (&(owner, place), object) in places.range((frame, from)..) {
        if owner != frame {
            return None;
        }
        if let Some(owed) = object.owes {
            return Some(Debt {
                place,
                present: object.present,
                owed,
            });
        }
    }
    None
}

/// Gives the version that a frame owes for a place the frame's value there, and the frame owes it no more. Err is want of
/// memory for a copy of the value. `O(log n)`.
fn pay(
    places: &mut BTreeMap<(u64, u32), PlacedObject>,
    nodes: &mut Slab<Node>,
    frame: u64,
    debt: Debt,
) -> Result<(), NoMemory>
    // what it pays, as the frame ends
    requires owes { IsDebt places.old.entries frame debt.place debt.present debt.owed }
    requires began { (before : PlaceEntries) × (start : TheSlab TheNode) × (made : ℕ) × IsSettling before places.old.entries start nodes.old made frame }

    // what it leaves, with memory and without
    ensures settling { (before : PlaceEntries) (start : TheSlab TheNode) (made : ℕ) → IsSettling before places.old.entries start nodes.old made frame
        → IsSettling before places.new.entries start nodes.new made frame }

    // and with memory alone
    ensures paid { OnOk result ((has : ThePlacedObject) → place_at places.old.entries frame debt.place ≡ Some has
        → places.new.entries ≡ set_value (is_at (place_cmp (frame, debt.place))) places.old.entries (record has { owes = None })) }
{
    let value = match value_at(nodes, debt.present) {
        Ok(value) => value.copy()?,
        Err(_) => unreachable!(),
    };
    overwrite(nodes, debt.owed, value);
    forget_owed(places, frame, debt.place);
    release(nodes, debt.owed);
    Ok(())
}

/// Settles each version that a frame owes, and then it owes none. `O(k + (d + 1) log n)` for k objects of the frame,
/// for d of which it owes a version, and n places of all frames.
pub fn settle_all(
    places: &mut BTreeMap<(u64, u32), PlacedObject>,
    nodes: &mut Slab<Node>,
    frame: u64,
) -> Result<(), NoMemory>
    requires began { (made : ℕ) × IsSettling places.old.entries places.old.entries nodes.old nodes.old made frame }
    ensures settling { (made : ℕ) → IsSettling places.old.entries places.old.entries nodes.old nodes.old made frame
        → IsSettling places.old.entries places.new.entries nodes.old nodes.new made frame }
    ensures paid { OnOk result (IsAllPaid places.new.entries frame) }
{
    let mut from = 0;
    while let Some(debt) = next_debt(places, frame, from) {
        pay(places, nodes, frame, debt)?;
        from = debt.place;
    }
    Ok(())
}

/// Counts one less who refers to a version, where there is one. `O(1)`; it takes no memory.
fn release_one(nodes: &mut Slab<Node>, key: Option<usize>)
    requires { (is : ℕ) → key ≡ Some is → IsSome (get nodes.old is) }
    ensures { (entries : PlaceEntries) (made : ℕ) (held later : ℕ → ℕ) → IsWhole entries nodes.old made held → ((k : ℕ) → held k ≡ later k + one_of k key)
        → IsReleased entries nodes.old nodes.new made later }
{
    if let Some(key) = key {
        release(nodes, key);
    }
}

/// Releases the versions to which a place referred for which nothing is owed. `O(1)`; it takes no memory.
fn release_all(nodes: &mut Slab<Node>, place: &PlacedObject)
    requires whole { (entries : PlaceEntries) × (made : ℕ) × IsWhole entries nodes.old made (λ k. uses_of k place.now) }
    requires paid { IsPaid place.now }
    ensures { (entries : PlaceEntries) (made : ℕ) → IsWhole entries nodes.old made (λ k. uses_of k place.now) → IsReleased entries nodes.old nodes.new made (λ _. 0) }
{
    release_one(nodes, Some(place.present));
    release_one(nodes, place.given);
}

/// Forgets all places of a frame that owes nothing. `O(k log n)` for k objects of the frame; it takes no memory.
pub fn forget_all(
    places: &mut BTreeMap<(u64, u32), PlacedObject>,
    nodes: &mut Slab<Node>,
    frame: u64,
)
    requires began { (made : ℕ) × IsForgetting places.old.entries places.old.entries nodes.old nodes.old made frame }
    ensures forgotten { (made : ℕ) → IsForgetting places.old.entries places.old.entries nodes.old nodes.old made frame
        → IsForgetting places.old.entries places.new.entries nodes.old nodes.new made frame }
    ensures none { (place : ℕ) → place_at places.new.entries frame place ≡ None }
{
    while let Some(at) = first_place(places, frame) {
        let Some(place) = take_out(places, frame, at) else {
            unreachable!()
        };
        release_all(nodes, &place);
    }
}
