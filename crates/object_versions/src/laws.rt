// Laws of renamed objects, and of those that follow a reading.
ghost use Rattle.std.specs.Prelude.{◌≡◌, ◌≢◌, ◌⊎◌, ℕ, ◌<◌, IsTrue, List, [], false, filter, length, Some, None};
ghost use Rattle.std.specs.Option.{option_map};
ghost use Rattle.swan_model.specs.declared.origin.Origin.{Origin};
ghost use Rattle.swan_model.specs.declared.rights.Mode.{Mode};
ghost use Rattle.swan_model.specs.declared.rights.Mode.TheVariants.{InOut};
ghost use Rattle.swan_model.specs.declared.script.Deed.{Deed};
ghost use Rattle.swan_model.specs.declared.script.Deed.TheVariants as deed;
ghost use Rattle.swan_model.specs.declared.script.OriginGive.{OriginGive};
ghost use Rattle.swan_model.specs.declared.script.Script.{Script};
ghost use Rattle.swan_model.specs.declared.value.Value.{Value};
ghost use Rattle.swan_model.specs.Granted.{is_spawn};
ghost use Rattle.swan_model.specs.Lawful.{IsLawful};
ghost use Rattle.swan_model.specs.PathOrder.{comes_before};
ghost use Rattle.swan_model.specs.Readings.{gone_on, next_deed, reading_after_spawn};
ghost use Rattle.swan_model.specs.SerialTime.{Progress, Reading, frame_of, is_earlier, times};
ghost use Rattle.swan_model.specs.Values.{kind_of};
ghost use Rattle.swan_model.specs.Versions.{settled, owed, IsSettled, Placed, VersionState, after_access, objects_after_create, objects_after_finish, after_write, got, left_with, placed_at, settle_placed};
ghost use Rattle.swan_model.specs.VersionsFollow.{Access, ObjectsFollow, IsGiving, IsNewFrame, NextSpawnGivesObjects, is_object_deed, is_object_give};
ghost use Rattle.object_versions.specs.Following.{ChildrenHaveNone, IsElsewhere, OnAwaited, WaitsForNone};

/// The law that all entries but those that make or write an object, or give one to a child, are done without
/// a call: renamed objects that follow a reading follow the one in which such an entry is done too, whatever
/// queues it has then; and what is being given to a child stays so.
pub fn other_entries_pass()
    // what is no access, and a spawn that gives no object
    ensures passes { (s : Script) (r : Reading) (state : VersionState) (frame : Progress) (does : Deed)
        → IsLawful s → ObjectsFollow s r state → frame_of r frame.number ≡ Some frame → next_deed s frame ≡ Some does
        → is_object_deed does ≡ false → is_spawn does ≡ false
        → (queues : List Origin) → ObjectsFollow s (record (gone_on r frame.number) { queues = queues }) state }
    ensures spawns { (s : Script) (r : Reading) (state : VersionState) (parent : Progress) (child : ℕ) (gives : List OriginGive)
        → IsLawful s → ObjectsFollow s r state → frame_of r parent.number ≡ Some parent → next_deed s parent ≡ Some (deed.Spawn gives)
        → filter is_object_give gives ≡ [] → IsNewFrame r state child
        → (queues : List Origin) → ObjectsFollow s (record (reading_after_spawn s r parent child) { queues = queues }) state }

    // while a child is being given its objects
    ensures meanwhile { (s : Script) (r : Reading) (state : VersionState) (frame : Progress) (does : Deed) (giver : Progress) (child : ℕ) (made left : List Access)
        → IsLawful s → IsGiving s r state giver child made left → frame_of r frame.number ≡ Some frame → next_deed s frame ≡ Some does
        → is_object_deed does ≡ false → is_spawn does ≡ false
        → (queues : List Origin) → IsGiving s (record (gone_on r frame.number) { queues = queues }) state giver child made left }
    ensures spawns_meanwhile { (s : Script) (r : Reading) (state : VersionState) (parent giver : Progress) (other child : ℕ) (gives : List OriginGive) (made left : List Access)
        → IsLawful s → frame_of r parent.number ≡ Some parent → next_deed s parent ≡ Some (deed.Spawn gives) → filter is_object_give gives ≡ []
        → IsNewFrame r state other → child ≢ other → IsGiving s r state giver child made left
        → IsGiving s (reading_after_spawn s r parent other) state giver child made left }
{}

/// The law by which a child begins to be given its objects: before the first of the accesses that its parent's next
/// entry stands for, none is made and all are left.
pub fn giving_begins()
    ensures { (s : Script) (r : Reading) (state : VersionState) (giver : Progress) (child : ℕ) (accesses : List Access) → ObjectsFollow s r state
        → IsNewFrame r state child → NextSpawnGivesObjects s r state giver accesses → IsGiving s r state giver child [] accesses }
{}

/// The law that a frame may end once its children have ended: where it waits for no version that it was given
/// to read, and no child of it has a place any more, each version that it has has its value. Each frame that
/// owes a version which this frame has is to be in the reading. For any frame but the giver this leaves out a
/// child that is being given its objects, since that owes versions to nobody else.
pub fn ended_children_leave_all_settled()
    ensures ends { (s : Script) (r : Reading) (state : VersionState) (n : ℕ) (frame : Progress) → ObjectsFollow s r state → frame_of r n ≡ Some frame
        → WaitsForNone state n → ChildrenHaveNone state r frame
        → ((place owing : ℕ) (object : Placed) → placed_at state n place ≡ Some object → object.present ≡ owed owing
        → (owner : Progress) × (frame_of r owing ≡ Some owner))
        → IsSettled state n }
    ensures meanwhile { (s : Script) (r : Reading) (state : VersionState) (n : ℕ) (frame giver : Progress) (child : ℕ) (made left : List Access)
        → IsGiving s r state giver child made left → n ≢ giver.number → frame_of r n ≡ Some frame
        → WaitsForNone state n → ChildrenHaveNone state r frame
        → ((place owing : ℕ) (object : Placed) → owing ≢ child → placed_at state n place ≡ Some object → object.present ≡ owed owing
        → (owner : Progress) × (frame_of r owing ≡ Some owner))
        → IsSettled state n }
{}

/// The law of what each call leaves at each place. The place that a call is told of gets what the call says: the
/// maker's its object, the writer's its value; where an object is given, the parent's place keeps all but its
/// version, and the child's gets the parent's object by the mode. Each other place keeps what it has. Where a
/// frame ends, the other frames keep their places, with the versions that the frame owed settled, and its own
/// are forgotten but for those of frame 0.
pub fn places_stay()
    // an object that is made
    ensures created { (state : VersionState) (frame place : ℕ) (first : Value)
        → placed_at (objects_after_create state frame place first) frame place
        ≡ Some (record { object = state.made; kind = kind_of first; mode = InOut; given = None; present = settled first }) }
    ensures create { (state : VersionState) (frame place : ℕ) (first : Value) (other at : ℕ) → IsElsewhere other at frame place
        → placed_at (objects_after_create state frame place first) other at ≡ placed_at state other at }

    // an object that is given
    ensures left { (state : VersionState) (parent place child child_place : ℕ) (mode : Mode) (object : Placed) → parent ≢ child
        → placed_at state parent place ≡ Some object
        → placed_at (after_access state parent place child child_place mode) parent place ≡ Some (record object { present = left_with object child mode }) }
    ensures got { (state : VersionState) (parent place child child_place : ℕ) (mode : Mode) (object : Placed)
        → placed_at state parent place ≡ Some object
        → placed_at (after_access state parent place child child_place mode) child child_place ≡ Some (got object mode) }
    ensures access { (state : VersionState) (parent place child child_place : ℕ) (mode : Mode) (other at : ℕ)
        → IsElsewhere other at parent place → IsElsewhere other at child child_place
        → placed_at (after_access state parent place child child_place mode) other at ≡ placed_at state other at }

    // a write
    ensures written { (state : VersionState) (frame place : ℕ) (value : Value) (object : Placed) → placed_at state frame place ≡ Some object
        → placed_at (after_write state frame place value) frame place ≡ Some (record object { present = settled value }) }
    ensures write { (state : VersionState) (frame place : ℕ) (value : Value) (other at : ℕ) → IsElsewhere other at frame place
        → placed_at (after_write state frame place value) other at ≡ placed_at state other at }

    // the end of a frame
    ensures forgotten { (state : VersionState) (ended at : ℕ) → ended ≢ 0 → placed_at (objects_after_finish state ended) ended at ≡ None }
    ensures finish { (state : VersionState) (ended other at : ℕ) → (other ≢ ended) ⊎ (ended ≡ 0)
        → placed_at (objects_after_finish state ended) other at ≡ option_map (settle_placed state ended) (placed_at state other at) }
{}

/// The law that nobody waits again: a frame that waits for nothing which it was given to read waits for nothing
/// later, whatever is made, given, written and ended by whom, as long as it isn't itself the child to which
/// an object is given.
pub fn nobody_waits_again()
    ensures create { (state : VersionState) (frame place : ℕ) (first : Value) (n : ℕ)
        → WaitsForNone state n → WaitsForNone (objects_after_create state frame place first) n }
    ensures access { (state : VersionState) (parent place child child_place : ℕ) (mode : Mode) (n : ℕ) → n ≢ child
        → WaitsForNone state n → WaitsForNone (after_access state parent place child child_place mode) n }
    ensures write { (state : VersionState) (frame place : ℕ) (value : Value) (n : ℕ)
        → WaitsForNone state n → WaitsForNone (after_write state frame place value) n }
    ensures finish { (state : VersionState) (ended n : ℕ)
        → WaitsForNone state n → WaitsForNone (objects_after_finish state ended) n }
{}

/// The law that whoever is awaited comes first. Where renamed objects follow a lawful script and a reading, and a
/// frame that has an entry left has a version that another one owes, or was given it to read, that other one
/// isn't the root, and while it has an entry left too it is earlier in serial order: its point is, and its path
/// comes before.
pub fn who_is_awaited_comes_first()
    ensures owner { OnAwaited (λ s r frame owing. (owner : Progress) → frame_of r owing ≡ Some owner → owner.done < length (times s owner.path)
        → IsTrue (is_earlier s owner frame) × IsTrue (comes_before owner.path frame.path)) }
    ensures no_root { OnAwaited (λ s r frame owing. owing ≢ 0) }
{}
