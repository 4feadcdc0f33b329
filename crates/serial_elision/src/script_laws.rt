// Laws of scripts.
ghost use Rattle.std.specs.Prelude.{◌≡◌, ◌≢◌, ℕ, ◌+◌, ◌<◌, ◌≤◌, List, [], ◌∷◌, ◌++◌, Some, IfSome, IsSomeAnd, IsTrue, drop, length, map, slice_get};
ghost use Rattle.std.specs.Option.{option_map};
ghost use Rattle.swan_model.specs.declared.origin.Origin.{Origin};
ghost use Rattle.swan_model.specs.declared.origin.Origin.TheVariants.{Root};
ghost use Rattle.swan_model.specs.declared.plan.Plan.{Plan};
ghost use Rattle.swan_model.specs.Elision.{final, most_steps, outcome, serial};
ghost use Rattle.swan_model.specs.declared.script.Deed.TheVariants.{Spawn};
ghost use Rattle.swan_model.specs.declared.script.Entry.{Entry};
ghost use Rattle.swan_model.specs.declared.script.OriginGive.{OriginGive};
ghost use Rattle.swan_model.specs.declared.script.Script.{Script};
ghost use Rattle.swan_model.specs.Granted.{child_path, children_before, holds, is_spawn, is_within};
ghost use Rattle.swan_model.specs.Lawful.{IsLawful};
ghost use Rattle.swan_model.specs.Roots.{IsWithinBounds};
ghost use Rattle.swan_model.specs.Nested.{spawn_time, IsEntryUnder, IsEndOf, IsNested, IsLeft, HasTasks};
ghost use Rattle.swan_model.specs.PathOrder.{comes_before};
ghost use Rattle.swan_model.specs.Readings.{gone_on, next_deed, one_more, reading_after_spawn};
ghost use Rattle.swan_model.specs.Ripe.{is_push_to, is_ripe, push_time};
ghost use Rattle.swan_model.specs.Script.{next_entry, script};
ghost use Rattle.swan_model.specs.SerialTime.{Progress, Reading, is_done, is_of, times, time, point, is_earlier};
ghost use Rattle.swan_model.specs.Told.{items, cell, first_items, pushes, taken};
ghost use Rattle.serial_elision.specs.Laws.{AsksToGive, AreFramesOf, HasActive};

use swan_model::Body;

/// The law that a script has one entry for each step of the elision. At its place n stands the entry of
/// the step after n steps, and none where no task is left then. So it has as many entries as the
/// elision takes steps, which are at most twice the fuel and two. It begins with the plan's lists and
/// values.
#[tactic(auto, using(crate::proofs::Entries::get_script, crate::proofs::Entries::length_script, swan_model::proofs::ScriptLength::le_script))]
pub fn each_step_has_its_entry<B: Body>()
    ensures entry { (plan : Plan B B.Local) (n : ℕ) →
        slice_get (script B.Body plan).entries n ≡ next_entry B.Body plan.body (serial B.Body plan n) }
    ensures number { (plan : Plan B B.Local) →
        length (script B.Body plan).entries ≡ (final B.Body plan).steps }
    ensures most { (plan : Plan B B.Local) → length (script B.Body plan).entries ≤ most_steps plan }
    ensures queues { (plan : Plan B B.Local) →
        (script B.Body plan).queues ≡ map (λ queue. queue.items) plan.roots.queues }
    ensures objects { (plan : Plan B B.Local) → (script B.Body plan).objects ≡ plan.roots.objects }
{}

/// The law that a script tells its queues and objects: after n steps of the elision each queue has the
/// items, and each object the value, that the script tells before its entry n. So what the elision
/// leaves of the plan's queues and objects is told by the script alone: at each index of the plan's queues
/// stand the items, and at each index of its objects the value, that the script tells after its last entry,
/// and nothing stands past them. The items are all that ever stood in the queue, but those that were taken.
#[tactic(auto, using(crate::proofs::SerialTold::items_told, crate::proofs::SerialTold::cells_told))]
pub fn a_script_tells_queues_and_objects<B: Body>()
    // after any number of steps
    ensures items { (plan : Plan B B.Local) (n i : ℕ) →
        IfSome (slice_get (serial B.Body plan n).store.queues i)
        (λ queue. queue.items ≡ items (script B.Body plan) queue.origin n) }
    ensures values { (plan : Plan B B.Local) (n i : ℕ) →
        IfSome (slice_get (serial B.Body plan n).store.cells i)
        (λ object. cell (script B.Body plan) object.origin n ≡ Some object.value) }

    // what the elision leaves of the plan's queues and objects
    ensures items_left { (plan : Plan B B.Local) (i : ℕ) → let s = script B.Body plan in
        slice_get (outcome B.Body plan).queues i
        ≡ option_map (λ first. items s (Root i) (length s.entries)) (slice_get s.queues i) }
    ensures rest_left { (plan : Plan B B.Local) (i : ℕ) → let s = script B.Body plan in
        slice_get (outcome B.Body plan).queues i
        ≡ option_map (λ first. drop (taken s (Root i) (length s.entries)) (pushes s (Root i))) (slice_get s.queues i) }
    ensures values_left { (plan : Plan B B.Local) (i : ℕ) → let s = script B.Body plan in
        slice_get (outcome B.Body plan).objects i ≡ cell s (Root i) (length s.entries) }
{}

/// The law that a task's times rise, that at each of them stands an entry of the task, and that each entry
/// of the task has its place among them.
#[tactic(auto, using(swan_model::proofs::Times::times_rise, swan_model::proofs::Times::times_are))]
pub fn times_of_a_task_rise()
    ensures rise { (s : Script) (path : List ℕ) (k m : ℕ) → k < m → m < length (times s path) →
        time s path k < time s path m }
    ensures own { (s : Script) (path : List ℕ) (k : ℕ) → k < length (times s path) →
        IsSomeAnd (slice_get s.entries (time s path k)) (λ entry. IsTrue (is_of path entry)) }
    ensures all { (s : Script) (path : List ℕ) (t : ℕ) (entry : Entry) → slice_get s.entries t ≡ Some entry
        → IsTrue (is_of path entry) → (k : ℕ) × (k < length (times s path)) × (time s path k ≡ t) }
{}

/// The law of the ends of tasks. An entry that ends its task is the last one of the task and of all
/// tasks below it. So no task ends twice. Each spawn is that of its task's next child, which ends after it;
/// and between the two stand only entries of the child and of tasks below it. The root ends at the last
/// entry of all.
pub fn each_task_ends_once<B: Body>()
    // the last entry of a task and of those below it
    ensures last { (plan : Plan B B.Local) (path : List ℕ) (end t : ℕ) → let s = script B.Body plan in
        IsEndOf s path end → IsEntryUnder s path t → t ≤ end }
    ensures once { (plan : Plan B B.Local) (path : List ℕ) (end other : ℕ) → let s = script B.Body plan in
        IsEndOf s path end → IsEndOf s path other → end ≡ other }

    // from the spawn of a child to its end
    ensures spawned { (s : Script) (n : ℕ) (entry : Entry) → slice_get s.entries n ≡ Some entry
        → IsTrue (is_spawn entry.deed) → spawn_time s entry.path (children_before s entry.path n) ≡ Some n }
    ensures ends { (plan : Plan B B.Local) (path : List ℕ) (child spawn : ℕ) → let s = script B.Body plan in
        spawn_time s path child ≡ Some spawn
        → (end : ℕ) × (spawn < end) × IsEndOf s (path ++ child ∷ []) end }
    ensures between { (plan : Plan B B.Local) (path : List ℕ) (child spawn end t : ℕ) → let s = script B.Body plan in
        spawn_time s path child ≡ Some spawn → IsEndOf s (path ++ child ∷ []) end → spawn < t → t < end
        → IsEntryUnder s (path ++ child ∷ []) t }

    // the end of all
    ensures root { (plan : Plan B B.Local) → let s = script B.Body plan in
        (end : ℕ) × (length s.entries ≡ end + 1) × IsEndOf s [] end }
{}

/// The law that scripts are nested: each child runs whole at the step that spawns it. Its entries, and
/// those of the tasks below it, come after its spawn and before the next entry of its parent.
pub fn scripts_are_nested<B: Body>()
    ensures nested { (plan : Plan B B.Local) → IsNested (script B.Body plan) }
{}

/// The law that points stand in serial order. In a reading of a nested script, whose frames are different
/// tasks and in which the spawn of each child is done, no two frames that have an entry left have the same
/// point. The earlier one comes before the other by its path: it is below it, or on the side of an older
/// sibling. And the one that comes before is the earlier one.
pub fn points_stand_in_serial_order()
    ensures different { (s : Script) (r : Reading) → IsNested s → HasTasks s r → (i j : ℕ) (frame other : Progress)
        → IsLeft s r i frame → IsLeft s r j other → i ≢ j → point s frame ≢ point s other }
    ensures before { (s : Script) (r : Reading) → IsNested s → HasTasks s r → (i j : ℕ) (frame other : Progress)
        → IsLeft s r i frame → IsLeft s r j other → IsTrue (is_earlier s frame other)
        → IsTrue (comes_before frame.path other.path) }
    ensures earlier { (s : Script) (r : Reading) → IsNested s → HasTasks s r → (i j : ℕ) (frame other : Progress)
        → IsLeft s r i frame → IsLeft s r j other → IsTrue (comes_before frame.path other.path)
        → IsTrue (is_earlier s frame other) }
{}

/// The law that rights, counted from the script alone, bind: each deed, and each give of a spawn, is
/// within what its task holds before it, where the root is counted as holding push and pop on each of the plan's queues (a
/// script doesn't tell their modes). Asked is that the plan's lists are within their bounds, as those of each plan that is made
/// are.
pub fn deeds_are_within_rights<B: Body>()
    ensures within { (plan : Plan B B.Local) → IsWithinBounds plan.roots.queues plan.roots.objects
        → (n : ℕ) → let s = script B.Body plan in
        IfSome (slice_get s.entries n) (λ entry. IsTrue (is_within (holds s entry.path n) entry.deed)) }
{}

/// The law that a spawn names each give. An entry that is a spawn is the entry of a step that asks for a
/// child. It has as many gives as the ask, in the same order and by the same modes, each named by what made
/// the object or queue that the parent gives. Asked is that the plan's lists are within their bounds, as those of each plan
/// that is made are.
pub fn a_spawn_names_each_give<B: Body>()
    ensures gives { (plan : Plan B B.Local) → IsWithinBounds plan.roots.queues plan.roots.objects
        → (n : ℕ) (entry : Entry) (gives : List OriginGive)
        → slice_get (script B.Body plan).entries n ≡ Some entry → entry.deed ≡ Spawn gives
        → AsksToGive B.Body plan.body (serial B.Body plan n) gives }
{}

/// The law that the scripts of plans are lawful. Asked is that the plan's lists are within their bounds, as those of each
/// plan that is made are.
pub fn scripts_are_lawful<B: Body>()
    ensures lawful { (plan : Plan B B.Local) → IsWithinBounds plan.roots.queues plan.roots.objects
        → IsLawful (script B.Body plan) }
{}

/// The law that a ripe item stays ripe. Where the next item of a queue is ripe for a frame that is to pop or
/// to test it, it is still so once another frame has gone on by one entry, once another one has spawned a
/// child, and once others are no longer active: no other frame can push before the item any more. The
/// active frames are frames of a reading of a lawful script, in which the spawn of each child is done.
pub fn a_ripe_item_stays()
    // as another frame goes on
    ensures goes_on { (s : Script) (r : Reading) (active : List Progress) (frame : Progress) (queue : Origin) (other : ℕ)
        → IsLawful s → HasTasks s r → AreFramesOf r active → IsTrue (is_ripe s r active frame queue)
        → IsTrue (is_ripe s (gone_on r other) (map (one_more other) active) frame queue) }

    // as another frame spawns a child
    ensures spawns { (s : Script) (r : Reading) (active : List Progress) (frame : Progress) (queue : Origin)
        (parent : Progress) (gives : List OriginGive) (number i : ℕ)
        → let child : Progress = record { number = number; path = child_path s parent.path (point s parent); done = 0 } in
        IsLawful s → HasTasks s r → AreFramesOf r active → slice_get active i ≡ Some parent
        → next_deed s parent ≡ Some (Spawn gives) → parent.number ≢ frame.number → IsTrue (is_ripe s r active frame queue)
        → IsTrue (is_ripe s (reading_after_spawn s r parent number) (map (one_more parent.number) active ++ child ∷ []) frame queue) }

    // as others are no longer active
    ensures fewer { (s : Script) (r : Reading) (active fewer : List Progress) (frame : Progress) (queue : Origin)
        → ((i : ℕ) (other : Progress) → slice_get fewer i ≡ Some other → (j : ℕ) × (slice_get active j ≡ Some other))
        → IsTrue (is_ripe s r active frame queue) → IsTrue (is_ripe s r fewer frame queue) }
{}

/// The law that nothing comes before a ripe item. Where the next item of a queue is ripe for an active frame,
/// and is none of the queue's first items, each push to the queue that comes before its own push in serial
/// order is done. The reading is one of a lawful script, with the root, with each child whose spawn is done,
/// and with its frames that have an entry left among the active ones.
pub fn nothing_comes_before_a_ripe_item()
    ensures before { (s : Script) (r : Reading) (active : List Progress) (frame : Progress) (queue : Origin)
        (i t u : ℕ) (entry : Entry) → let index = taken s queue (point s frame) in
        IsLawful s → HasTasks s r → HasActive s r active → slice_get active i ≡ Some frame
        → IsTrue (is_ripe s r active frame queue) → length (first_items s queue) ≤ index → push_time s queue index ≡ Some t
        → slice_get s.entries u ≡ Some entry → IsTrue (is_push_to queue entry.deed) → u < t → IsTrue (is_done s r u) }
{}
