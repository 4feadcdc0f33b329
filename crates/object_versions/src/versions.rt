// Renamed objects.
ghost use Rattle.std.specs.Prelude.{◌≡◌, ◌≢◌, ℕ, ◌≤◌, false, true, Some, None, List, [], ◌∷◌, ◌++◌, length, slice_get, IfOk, IfErr, OnOk};
ghost use Rattle.swan_model.specs.declared.origin.Origin.{Origin};
ghost use Rattle.swan_model.specs.declared.origin.Origin.TheVariants.{Root, Step};
ghost use Rattle.swan_model.specs.declared.script.Deed.TheVariants as deed;
ghost use Rattle.swan_model.specs.declared.script.Script.{Script};
ghost use Rattle.swan_model.specs.Lawful.{IsLawful};
ghost use Rattle.swan_model.specs.Readings.{at_start, gone_on, next_deed, reading_after_spawn, with_object};
ghost use Rattle.swan_model.specs.SerialTime.{Progress, Reading, frame_of, point, times, version};
ghost use Rattle.swan_model.specs.VersionsFollow.{ObjectsFollow, IsGiving};
ghost use Rattle.object_versions.specs.Following.{IsElsewhere, MayWrite, NextWrites, OnAccess, OnFollowing, OnLastAccess, OnMeanwhile, OnOtherGiving, WaitsForNone, access_of};
ghost use Rattle.swan_model.specs.declared.rights.Mode.TheVariants.{In};
ghost use Rattle.swan_model.specs.Rights.{allows, is_queue_mode};
ghost use Rattle.swan_model.specs.Versions.{Placed, VersionState, new_versions, placed_at, settled, owed, objects_after_create, after_access, after_write, objects_after_finish, Holds, MayGet, IsSettled, Awaits};

use crate::ObjectNumber;
use crate::ending::{forget_all, settle_all};
use crate::giving::Gift;
use crate::nodes::value_at;
use crate::store::VersionStore;
use crate::waiting::first_awaited;
use std::alloc::Global;
use std::marker::Model;
use swan_model::{Mode, NoMemory, Value};

/// The renamed objects of a run. After want of memory nothing is said of them.
///
/// In costs, n counts the places of all frames.
#[derive(Drop)]
pub struct Versions {
    store: VersionStore,
    // The number of the object that is made next.
    made: ObjectNumber,
}

impl Model for Versions {
    ghost use Rattle.swan_model.specs.Versions.{VersionState};

    ghost Value = { VersionState };

    ghost use Rattle.object_versions.specs.Store.{versions_of};
    ghost use Rattle.object_versions.specs.Whole.{IsWhole};

    ghost view = { λ kept. versions_of kept.store.places.entries kept.store.nodes kept.made };

    ghost invariant = { λ kept. IsWhole kept.store.places.entries kept.store.nodes kept.made (λ _. 0) };
}

impl Versions {
    /// No objects. It takes no memory. `O(1)`.
    pub fn new(alloc: Global) -> Versions
        ensures new { result ≡ new_versions }
        ensures follows { (s : Script) (queues : List Origin) → IsLawful s → ObjectsFollow s (at_start queues []) result }
    {
        Versions {
            store: VersionStore::new(alloc),
            made: ObjectNumber::first(),
        }
    }

    /// Makes an object: the frame then has a version with its first value at the place, and may read and
    /// write it. Err is want of memory. `O(log n)`, amortised.
    pub fn create(&mut self, frame: u64, place: u32, first: Value) -> Result<(), NoMemory>
        // where it comes to
        requires free { placed_at self.old frame place ≡ None }

        // what it leaves
        ensures ok { OnOk result (self.new ≡ objects_after_create self.old frame place first) }

        // by a script and a reading that they follow
        ensures root { OnOk result ((s : Script) (r : Reading) (root : Progress) → IsLawful s → ObjectsFollow s r self.old → frame ≡ 0
            → frame_of r 0 ≡ Some root → root.done ≡ 0 → slice_get s.objects self.old.made ≡ Some first
            → ObjectsFollow s (with_object r (Root self.old.made)) self.new) }
        ensures made { OnOk result (OnFollowing self.old frame (λ s r maker. next_deed s maker ≡ Some (deed.MakeObject first)
            → ObjectsFollow s (with_object (gone_on r frame) (Step (point s maker))) self.new)) }

        // while another frame gives a child its objects
        ensures giving { OnOk result (OnMeanwhile self.old frame (λ s r maker giver child made left. next_deed s maker ≡ Some (deed.MakeObject first)
            → IsGiving s (with_object (gone_on r frame) (Step (point s maker))) self.new giver child made left)) }
    {
        match self.store.create(&self.made, frame, place, first) {
            Ok(()) => {
                self.made = self.made.next();
                Ok(())
            }
            Err(NoMemory) => {
                self.store.clear();
                Err(NoMemory)
            }
        }
    }

    /// Gives a child the object at a parent's place, by this mode. To read it the child has the parent's
    /// version. To write it the child has one of its own, with the zero of the object's kind, and the parent
    /// has one that the child owes. To read and write it the child has what was the parent's version, and the
    /// parent has one that the child owes. A child that has the object already may be given it once more only to
    /// read, and only where it has it to read alone. Err is want of memory. `O(log n)`, amortised.
    pub fn access(
        &mut self,
        parent: u64,
        parent_place: u32,
        child: u64,
        child_place: u32,
        mode: Mode,
    ) -> Result<(), NoMemory>
        // what is given, and where it comes to
        requires differ { parent ≢ child }
        requires held { Holds self.old parent parent_place mode }
        requires of_objects { is_queue_mode mode ≡ false }
        requires free { placed_at self.old child child_place ≡ None }
        requires alone { (object : Placed) → placed_at self.old parent parent_place ≡ Some object → MayGet self.old child object.object mode }

        // what it leaves
        ensures ok { OnOk result (self.new ≡ after_access self.old parent parent_place child child_place mode) }
        ensures others { OnOk result ((frame place : ℕ) → frame ≢ parent → IsElsewhere frame place child child_place
            → placed_at self.new frame place ≡ placed_at self.old frame place) }

        // by a script and a reading: the child's accesses, one after the other, and the last of them
        ensures giving { OnOk result (OnAccess self.old parent child (access_of parent_place child_place mode) (λ s r giver made left.
            IsGiving s r self.new giver child (made ++ access_of parent_place child_place mode ∷ []) left)) }
        ensures last { OnOk result (OnLastAccess self.old parent child (access_of parent_place child_place mode) (λ s r giver made.
            ObjectsFollow s (reading_after_spawn s r giver child) self.new)) }

        // while another frame gives another child its objects
        ensures beside { OnOk result (OnAccess self.old parent child (access_of parent_place child_place mode) (λ s r own done rest.
            OnOtherGiving s r self.old parent child (λ giver other made left. IsGiving s r self.new giver other made left))) }
        ensures last_beside { OnOk result (OnLastAccess self.old parent child (access_of parent_place child_place mode) (λ s r own done.
            OnOtherGiving s r self.old parent child (λ giver other made left. IsGiving s (reading_after_spawn s r own child) self.new giver other made left))) }
    {
        let gift = Gift {
            parent,
            parent_place,
            child,
            child_place,
        };
        match self.store.give(gift, mode) {
            Ok(()) => Ok(()),
            Err(NoMemory) => {
                self.store.clear();
                Err(NoMemory)
            }
        }
    }

    /// Whether each version that the frame was given to read has its value: Ok exactly where none is owed any
    /// more, and else Err with the frame that owes the one of the lowest place. `O(k + log n)` for k objects
    /// of the frame; it takes no memory.
    pub fn ready(&self, frame: u64) -> Result<(), u64>
        // what it waits for, and where
        ensures ok { OnOk result (WaitsForNone self.now frame) }
        ensures err { IfErr result (λ owing. (place : ℕ) × (awaits : Awaits self.now frame place owing)
            × (allows awaits.object.mode In ≡ true) × ((other n : ℕ) → Awaits self.now frame other n → place ≤ other)) }

        // that the one who owes it has the object itself, to write
        ensures owes { IfErr result (λ owing. (place : ℕ) (awaits : Awaits self.now frame place owing) → MayWrite self.now owing awaits.object.object) }
    {
        match first_awaited(&self.store.places, &self.store.nodes, frame) {
            Some(awaited) => Err(awaited.owing),
            None => Ok(()),
        }
    }

    /// The value of the version that a frame has at a place, and Err with the frame that owes it exactly
    /// where it has none yet. `O(log n)`; it takes no memory.
    pub fn value(&self, frame: u64, place: u32) -> Result<&Value, u64>
        // where it stands
        requires placed { (object : Placed) × (placed_at self.now frame place ≡ Some object) }

        // what the frame has there
        ensures ok { IfOk result (λ value. (object : Placed) → placed_at self.now frame place ≡ Some object → object.present ≡ settled value.now) }
        ensures err { IfErr result (λ owing. (object : Placed) → placed_at self.now frame place ≡ Some object → object.present ≡ owed owing) }

        // by a script and a reading
        ensures follows { IfOk result (λ value. (s : Script) (r : Reading) (reader : Progress) (object : Placed) → ObjectsFollow s r self.now
            → frame_of r frame ≡ Some reader → placed_at self.now frame place ≡ Some object → version s r object.object reader ≡ Some value.now) }

        // that the one who owes it has the object itself, to write
        ensures owes { IfErr result (λ owing. (object : Placed) → placed_at self.now frame place ≡ Some object → MayWrite self.now owing object.object) }
    {
        match self.store.places.get(&(frame, place)) {
            Some(object) => value_at(&self.store.nodes, object.present),
            None => unreachable!(),
        }
    }

    /// Gives the frame a version with this value at the place, at once, whoever reads the one before: the
    /// frame's own where nobody else has that, and else a new one. Err is want of memory. `O(log n)`,
    /// amortised where it is a new one.
    pub fn write(&mut self, frame: u64, place: u32, value: Value) -> Result<(), NoMemory>
        // where it stands
        requires placed { (object : Placed) × (placed_at self.old frame place ≡ Some object) }

        // what it leaves
        ensures ok { OnOk result (self.new ≡ after_write self.old frame place value) }

        // by a script and a reading that they follow
        ensures follows { OnOk result (OnFollowing self.old frame (λ s r writer. NextWrites s r self.old frame place value writer
            → ObjectsFollow s (gone_on r frame) self.new)) }

        // while another frame gives a child its objects
        ensures giving { OnOk result (OnMeanwhile self.old frame (λ s r writer giver child made left. NextWrites s r self.old frame place value writer
            → IsGiving s (gone_on r frame) self.new giver child made left)) }
    {
        let Some(object) = self.store.places.get(&(frame, place)) else {
            unreachable!()
        };
        let object = object.again();
        match self.store.write(frame, place, object, value) {
            Ok(()) => Ok(()),
            Err(NoMemory) => {
                self.store.clear();
                Err(NoMemory)
            }
        }
    }

    /// Ends a frame: each version that it owes gets the frame's value, for all who have that version, and
    /// what the frame has is forgotten. What frame 0 has stays. It may be called where `ready` answers Ok and the
    /// frame's children have ended, for then each version of the frame has its value: the law
    /// `ended_children_leave_all_settled`. Err is want of memory for a copy of a value. For k objects of the frame,
    /// for d of which it owes a version, settling is `O(k + (d + 1) log n)`, no matter how many others have these
    /// versions, and forgetting is k removals of `O(log n)` each.
    pub fn finish(&mut self, frame: u64) -> Result<(), NoMemory>
        // what it has
        requires settled { IsSettled self.old frame }

        // what it leaves
        ensures ok { OnOk result (self.new ≡ objects_after_finish self.old frame) }

        // by a script and a reading that they follow
        ensures follows { OnOk result (OnFollowing self.old frame (λ s r ended. ended.done ≡ length (times s ended.path) → ObjectsFollow s r self.new)) }

        // while another frame gives a child its objects
        ensures giving { OnOk result (OnMeanwhile self.old frame (λ s r ended giver child made left. ended.done ≡ length (times s ended.path)
            → IsGiving s r self.new giver child made left)) }
    {
        match settle_all(&mut self.store.places, &mut self.store.nodes, frame) {
            Ok(()) => {
                let is_root = frame == 0;
                if !is_root {
                    forget_all(&mut self.store.places, &mut self.store.nodes, frame);
                }
                Ok(())
            }
            Err(NoMemory) => Err(NoMemory),
        }
    }
}
