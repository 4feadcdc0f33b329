// Objects that a parent gives to a child.
ghost use Rattle.std.specs.Prelude.{◌≡◌, ◌≢◌, ℕ, true, false, Some, None, IsSome, OnOk};
ghost use Rattle.slab.specs.Slab.{get};
ghost use Rattle.swan_model.specs.Rights.{allows, is_queue_mode};
ghost use Rattle.swan_model.specs.declared.rights.Mode.TheVariants.{In, Out, InOut};
ghost use Rattle.swan_model.specs.Versions.{after_access};
ghost use Rattle.object_versions.specs.Store.{KeepsOwed};
ghost use Rattle.object_versions.specs.Whole.{Becomes, IsAtRest, MayGetAt, StaysAtRest, kept_at};
ghost use Rattle.object_versions.specs.declared.placed_object.PlacedObject.{PlacedObject as ThePlacedObject};

use crate::nodes::{make, release, share};
use crate::places::{put, set_present};
use crate::store::VersionStore;
use crate::{NodeState, PlacedObject};
use swan_model::{Mode, NoMemory, Value};

/// Where an object is given from, and where to.
#[derive(Clone, Copy)]
pub struct Gift {
    /// The frame that gives.
    pub parent: u64,
    /// The place at which that has the object.
    pub parent_place: u32,
    /// The frame to which it is given.
    pub child: u64,
    /// The place at which that gets it.
    pub child_place: u32,
}

impl VersionStore {
    /// Gives a child the object at a parent's place, by a mode of objects. `O(log n)`, amortised.
    pub fn give(&mut self, gift: Gift, mode: Mode) -> Result<(), NoMemory>
        // what is given, and where it comes to
        requires differ { gift.parent ≢ gift.child }
        requires stands { (object : ThePlacedObject) × (kept_at self.old gift.parent gift.parent_place ≡ Some object)
            × (allows object.mode mode ≡ true) × MayGetAt self.old.places.entries gift.child object.object mode }
        requires of_objects { is_queue_mode mode ≡ false }
        requires free { kept_at self.old gift.child gift.child_place ≡ None }

        // what is kept
        requires whole { (made : ℕ) × IsAtRest self.old made }
        ensures whole { OnOk result (StaysAtRest self.old self.new) }

        // what is seen of it, and which versions the two have
        ensures given { OnOk result (Becomes self.old self.new (λ state. after_access state gift.parent gift.parent_place gift.child gift.child_place mode)) }
        ensures given_up { OnOk result ((made : ℕ) → IsAtRest self.old made
            → (has : ThePlacedObject) → kept_at self.new gift.parent gift.parent_place ≡ Some has → KeepsOwed self.new.nodes has.given) }
        ensures shares { OnOk result (allows mode In ≡ true → (object has : ThePlacedObject) → kept_at self.old gift.parent gift.parent_place ≡ Some object
            → kept_at self.new gift.child gift.child_place ≡ Some has → has.present ≡ object.present) }
    {
        let Some(found) = self.places.get(&(gift.parent, gift.parent_place)) else {
            unreachable!()
        };
        let found = found.again();
        let object = self.release_given(gift.parent, gift.parent_place, found);
        match mode {
            Mode::In => self.give_to_read(&object, gift),
            Mode::Out => self.give_to_write(&object, gift),
            Mode::InOut => self.give_to_change(&object, gift),
            _ => unreachable!(),
        }
    }

    /// Gives a child a parent's object to read: its version is the parent's. `O(log n)`.
    fn give_to_read(&mut self, object: &PlacedObject, gift: Gift) -> Result<(), NoMemory>
        // what is given, and where it comes to
        requires differ { gift.parent ≢ gift.child }
        requires stands { kept_at self.old gift.parent gift.parent_place ≡ Some object.now }
        requires may { allows object.now.mode In ≡ true }
        requires free { kept_at self.old gift.child gift.child_place ≡ None }
        requires alone { MayGetAt self.old.places.entries gift.child object.now.object In }

        // what is kept
        requires known { (made : ℕ) × IsAtRest self.old made }
        requires present { IsSome (get self.old.nodes object.now.present) }
        ensures whole { OnOk result (StaysAtRest self.old self.new) }

        // what is seen of it, and which versions the two have
        ensures given { OnOk result (Becomes self.old self.new (λ state. after_access state gift.parent gift.parent_place gift.child gift.child_place In)) }
        ensures keeps { OnOk result ((has : ThePlacedObject) → kept_at self.new gift.parent gift.parent_place ≡ Some has → has.given ≡ object.now.given) }
        ensures shares { OnOk result ((has : ThePlacedObject) → kept_at self.new gift.child gift.child_place ≡ Some has → has.present ≡ object.now.present) }
    {
        let shared = object.present;
        // By the clause of `len` there are fewer than 2 ^ 63 places, so the count has room.
        let _few = self.places.len();
        share(&mut self.nodes, shared, 2);
        let read = PlacedObject {
            object: object.object.again(),
            kind: object.kind,
            mode: Mode::In,
            given: Some(shared),
            present: shared,
            owes: None,
        };
        put(&mut self.places, gift.child, gift.child_place, read)?;
        Ok(())
    }

    /// Gives a child a parent's object to write: its version has the zero of the object's kind, and the
    /// parent has one that the child owes. `O(log n)`, amortised.
    fn give_to_write(&mut self, object: &PlacedObject, gift: Gift) -> Result<(), NoMemory>
        // what is given, and where it comes to
        requires differ { gift.parent ≢ gift.child }
        requires stands { kept_at self.old gift.parent gift.parent_place ≡ Some object.now }
        requires may { allows object.now.mode Out ≡ true }
        requires free { kept_at self.old gift.child gift.child_place ≡ None }
        requires alone { MayGetAt self.old.places.entries gift.child object.now.object Out }

        // what is kept
        requires present { IsSome (get self.old.nodes object.now.present) }
        ensures whole { OnOk result (StaysAtRest self.old self.new) }

        // what is seen of it, and which version the parent was given
        ensures given { OnOk result (Becomes self.old self.new (λ state. after_access state gift.parent gift.parent_place gift.child gift.child_place Out)) }
        ensures keeps { OnOk result ((has : ThePlacedObject) → kept_at self.new gift.parent gift.parent_place ≡ Some has → has.given ≡ object.now.given) }
    {
        let zero = Value::zero(object.kind);
        let owed = make(
            &mut self.nodes,
            &object.object,
            NodeState::Owed(gift.child),
            2,
        )?;
        let own = make(&mut self.nodes, &object.object, NodeState::Settled(zero), 1)?;
        let written = PlacedObject {
            object: object.object.again(),
            kind: object.kind,
            mode: Mode::Out,
            given: None,
            present: own,
            owes: Some(owed),
        };
        put(&mut self.places, gift.child, gift.child_place, written)?;
        set_present(&mut self.places, gift.parent, gift.parent_place, owed);
        release(&mut self.nodes, object.present);
        Ok(())
    }

    /// Gives a child a parent's object to read and write: its version is the parent's, and the parent has one
    /// that the child owes. `O(log n)`, amortised.
    fn give_to_change(&mut self, object: &PlacedObject, gift: Gift) -> Result<(), NoMemory>
        // what is given, and where it comes to
        requires differ { gift.parent ≢ gift.child }
        requires stands { kept_at self.old gift.parent gift.parent_place ≡ Some object.now }
        requires may { allows object.now.mode InOut ≡ true }
        requires free { kept_at self.old gift.child gift.child_place ≡ None }
        requires alone { MayGetAt self.old.places.entries gift.child object.now.object InOut }

        // what is kept
        requires known { (made : ℕ) × IsAtRest self.old made }
        requires present { IsSome (get self.old.nodes object.now.present) }
        ensures whole { OnOk result (StaysAtRest self.old self.new) }

        // what is seen of it, and which versions the two have
        ensures given { OnOk result (Becomes self.old self.new (λ state. after_access state gift.parent gift.parent_place gift.child gift.child_place InOut)) }
        ensures keeps { OnOk result ((has : ThePlacedObject) → kept_at self.new gift.parent gift.parent_place ≡ Some has → has.given ≡ object.now.given) }
        ensures shares { OnOk result ((has : ThePlacedObject) → kept_at self.new gift.child gift.child_place ≡ Some has → has.present ≡ object.now.present) }
    {
        // By the clause of `len` there are fewer than 2 ^ 63 places, so the count has room.
        let _few = self.places.len();
        share(&mut self.nodes, object.present, 2);
        let next = make(
            &mut self.nodes,
            &object.object,
            NodeState::Owed(gift.child),
            2,
        )?;
        let changed = PlacedObject {
            object: object.object.again(),
            kind: object.kind,
            mode: Mode::InOut,
            given: Some(object.present),
            present: object.present,
            owes: Some(next),
        };
        put(&mut self.places, gift.child, gift.child_place, changed)?;
        set_present(&mut self.places, gift.parent, gift.parent_place, next);
        release(&mut self.nodes, object.present);
        Ok(())
    }
}
