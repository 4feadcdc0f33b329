// What renamed objects are kept in.
ghost use Rattle.std.specs.Prelude.{◌≡◌, ◌≢◌, ℕ, ◌+◌, Some, None, Ok, [], OnOk};
ghost use Rattle.swan_model.specs.Versions.{objects_after_create, after_write};
ghost use Rattle.object_versions.specs.Store.{given_of, KeepsOwed};
ghost use Rattle.object_versions.specs.Whole.{Becomes, HasOwn, IsAtRest, StaysAtRest, kept_at, seen_of};

use crate::nodes::{is_alone, make, overwrite, release, value_at};
use crate::places::{forget_given, put, set_present};
use crate::{Node, NodeState, ObjectNumber, PlacedObject};
use slab::Slab;
use std::alloc::Global;
use std::collections::BTreeMap;
use swan_model::{Mode, NoMemory, Value};

/// What each frame has at its places, and the versions to which places refer.
///
/// In costs, n counts the places of all frames. After want of memory nothing is said of what is kept.
#[derive(Drop)]
pub struct VersionStore {
    /// What each frame has at its places, by frame and place.
    pub places: BTreeMap<(u64, u32), PlacedObject>,
    /// The versions, by key.
    pub nodes: Slab<Node>,
}

impl VersionStore {
    /// No places. It takes no memory. `O(1)`.
    pub fn new(alloc: Global) -> VersionStore
        ensures none { result.places.entries ≡ [] }
        ensures whole { (made : ℕ) → IsAtRest result made }
    {
        VersionStore {
            places: BTreeMap::new(alloc),
            nodes: Slab::new(alloc),
        }
    }

    /// Gives all up, after want of memory: a call that ends in its middle may leave places and versions that do
    /// not fit together. `O(1)` for each place and version that is given up; it takes no memory.
    pub fn clear(&mut self)
        ensures none { self.new.places.entries ≡ [] }
        ensures whole { (made : ℕ) → IsAtRest self.new made }
    {
        self.places.clear();
        self.nodes.clear();
    }

    /// Puts in an object of this number with its first value, at a place of a frame. `O(log n)`, amortised.
    pub fn create(
        &mut self,
        made: &ObjectNumber,
        frame: u64,
        place: u32,
        first: Value,
    ) -> Result<(), NoMemory>
        // where it comes to
        requires free { kept_at self.old frame place ≡ None }

        // what is kept, and what is seen of it
        requires whole { IsAtRest self.old made.now }
        ensures whole { OnOk result (IsAtRest self.new (made.now + 1)) }
        ensures created { OnOk result (seen_of self.new (made.now + 1) ≡ objects_after_create (seen_of self.old made.now) frame place first) }
    {
        let kind = first.kind();
        let present = make(&mut self.nodes, made, NodeState::Settled(first), 1)?;
        let object = PlacedObject {
            object: made.again(),
            kind,
            mode: Mode::InOut,
            given: None,
            present,
            owes: None,
        };
        put(&mut self.places, frame, place, object)?;
        Ok(())
    }

    /// Gives up the version that a frame was given at a place, where that has its value: nobody waits for it any
    /// more. Answers what is kept at the place then. `O(log n)`; it takes no memory.
    pub fn release_given(&mut self, frame: u64, place: u32, object: PlacedObject) -> PlacedObject
        // what the frame has, and what is kept
        requires stands { kept_at self.old frame place ≡ Some object }
        requires whole { (made : ℕ) × IsAtRest self.old made }

        // the frame's place, and those of others
        ensures stands { kept_at self.new frame place ≡ Some result }
        ensures same { result ≡ record object { given = result.given } }
        ensures others { (other at : ℕ) → other ≢ frame → kept_at self.new other at ≡ kept_at self.old other at }

        // what is kept, and what is seen of it
        ensures whole { StaysAtRest self.old self.new }
        ensures seen { Becomes self.old self.new (λ state. state) }

        // where it is given up, and where not
        ensures given_up { given_of self.old.nodes object.given ≡ None → result.given ≡ None }
        ensures kept { KeepsOwed self.old.nodes object.given
            → (result ≡ object) × (self.new.places.entries ≡ self.old.places.entries) × (self.new.nodes ≡ self.old.nodes) }
    {
        let Some(given) = object.given else {
            return object;
        };
        match value_at(&self.nodes, given) {
            Ok(_) => {}
            Err(_) => return object,
        }
        forget_given(&mut self.places, frame, place);
        release(&mut self.nodes, given);
        PlacedObject {
            given: None,
            ..object
        }
    }

    /// Gives a frame a version with this value at a place: its own gets the value where nobody else has that.
    /// After that the frame has one of its own, and a further write makes none and takes no memory. `O(log n)`,
    /// amortised where it is a new one.
    pub fn write(
        &mut self,
        frame: u64,
        place: u32,
        object: PlacedObject,
        value: Value,
    ) -> Result<(), NoMemory>
        // where it is written
        requires stands { kept_at self.old frame place ≡ Some object }

        // what is kept, and what is seen of it
        requires whole { (made : ℕ) × IsAtRest self.old made }
        ensures whole { OnOk result (StaysAtRest self.old self.new) }
        ensures written { OnOk result (Becomes self.old self.new (λ state. after_write state frame place value)) }

        // the frame's own version
        ensures own { OnOk result ((made : ℕ) → IsAtRest self.old made → HasOwn self.new.places.entries self.new.nodes frame place) }
        ensures in_place { HasOwn self.old.places.entries self.old.nodes frame place → (result ≡ Ok tt) × (self.new.places.entries ≡ self.old.places.entries) }
    {
        let own = self.release_given(frame, place, object);
        if is_alone(&self.nodes, own.present) {
            overwrite(&mut self.nodes, own.present, value);
            return Ok(());
        }
        let next = make(&mut self.nodes, &own.object, NodeState::Settled(value), 1)?;
        set_present(&mut self.places, frame, place, next);
        release(&mut self.nodes, own.present);
        Ok(())
    }
}
