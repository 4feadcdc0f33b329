// The places of frames, in rising order.
ghost use Rattle.std.specs.Prelude.{◌≡◌, ℕ, ◌+◌, length, OnSome, ◌<◌, ◌≤◌, Some, None, IsSome, IfSome, IfNone, OnOk};
ghost use Rattle.std.specs.BTreeMap.{is_at, insert_entry};
ghost use Rattle.std.specs.Map.{keys_of, set_value, remove_entry};
ghost use Rattle.std.specs.List.Sorted.{IsStrictlySortedBy};
ghost use Rattle.swan_model.specs.Versions.{place_cmp};
ghost use Rattle.object_versions.specs.Store.{place_at};
ghost use Rattle.object_versions.specs.declared.placed_object.PlacedObject.{PlacedObject as ThePlacedObject};

use crate::PlacedObject;
use std::collections::BTreeMap;
use swan_model::NoMemory;

/// The first place at which a frame has an object. `O(log n)`; it takes no memory.
pub fn first_place(places: &BTreeMap<(u64, u32), PlacedObject>, frame: u64) -> Option<u32>
    ensures stands { IfSome result (λ first. IsSome (place_at places.now.entries frame first)) }
    ensures least { IfSome result (λ first. (place : ℕ) → IsSome (place_at places.now.entries frame place) → first ≤ place) }
    ensures none { IfNone result ((place : ℕ) → place_at places.now.entries frame place ≡ None) }
{
    match places.range((frame, 0)..).next() {
        Some((&(owner, place), _)) if owner == frame => Some(place),
        _ => None,
    }
}

/// Puts in an object at a place of a frame. Err is want of memory. `O(log n)`.
pub fn put(
    places: &mut BTreeMap<(u64, u32), PlacedObject>,
    frame: u64,
    place: u32,
    object: PlacedObject,
) -> Result<(), NoMemory>
    ensures put { OnOk result (places.new.entries ≡ insert_entry place_cmp places.old.entries (frame, place) object) }
    ensures sorted { IsStrictlySortedBy place_cmp (keys_of places.new.entries) }
{
    places.insert((frame, place), object)?;
    Ok(())
}

/// Gives a frame another version at a place. `O(log n)`; it takes no memory.
pub fn set_present(
    places: &mut BTreeMap<(u64, u32), PlacedObject>,
    frame: u64,
    place: u32,
    present: usize,
)
    requires { IsSome (place_at places.old.entries frame place) }
    ensures set { (object : ThePlacedObject) → place_at places.old.entries frame place ≡ Some object
        → places.new.entries ≡ set_value (is_at (place_cmp (frame, place))) places.old.entries (record object { present = present }) }
    ensures sorted { IsStrictlySortedBy place_cmp (keys_of places.new.entries) }
{
    let Some(object) = places.get_mut(&(frame, place)) else {
        unreachable!()
    };
    object.present = present;
}

/// Forgets which version a frame was given at a place. `O(log n)`; it takes no memory.
pub fn forget_given(places: &mut BTreeMap<(u64, u32), PlacedObject>, frame: u64, place: u32)
    requires { IsSome (place_at places.old.entries frame place) }
    ensures set { (object : ThePlacedObject) → place_at places.old.entries frame place ≡ Some object
        → places.new.entries ≡ set_value (is_at (place_cmp (frame, place))) places.old.entries (record object { given = None }) }
    ensures sorted { IsStrictlySortedBy place_cmp (keys_of places.new.entries) }
{
    let Some(object) = places.get_mut(&(frame, place)) else {
        unreachable!()
    };
    object.given = None;
}

/// Forgets which version a frame owes for a place. `O(log n)`; it takes no memory.
pub fn forget_owed(places: &mut BTreeMap<(u64, u32), PlacedObject>, frame: u64, place: u32)
    requires { IsSome (place_at places.old.entries frame place) }
    ensures set { (object : ThePlacedObject) → place_at places.old.entries frame place ≡ Some object
        → places.new.entries ≡ set_value (is_at (place_cmp (frame, place))) places.old.entries (record object { owes = None }) }
    ensures sorted { IsStrictlySortedBy place_cmp (keys_of places.new.entries) }
{
    let Some(object) = places.get_mut(&(frame, place)) else {
        unreachable!()
    };
    object.owes = None;
}

/// Takes out what a frame has at a place. `O(log n)`; it takes no memory.
pub fn take_out(
    places: &mut BTreeMap<(u64, u32), PlacedObject>,
    frame: u64,
    place: u32,
) -> Option<PlacedObject>
    ensures was { result ≡ place_at places.old.entries frame place }
    ensures fewer { OnSome result (length places.new.entries + 1 ≡ length places.old.entries) }
    ensures without { places.new.entries ≡ remove_entry (is_at (place_cmp (frame, place))) places.old.entries }
    ensures sorted { IsStrictlySortedBy place_cmp (keys_of places.new.entries) }
{
    places.remove(&(frame, place))
}
