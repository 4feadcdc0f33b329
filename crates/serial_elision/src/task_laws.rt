// Laws of tasks: how each goes on by its own steps, what its steps do, and what they leave.
ghost use Rattle.std.specs.Prelude.{◌≡◌, ◌⊎◌, ℕ, ◌+◌, ◌-◌, ◌<◌, ◌≤◌, true, false, List, [], ◌∷◌, ◌++◌, Some, None, IsSomeAnd, filter, length, map, max, slice_get, take};
ghost use Rattle.swan_model.specs.declared.body.Answer.TheVariants as answer;
ghost use Rattle.swan_model.specs.declared.body.Ask.{Ask};
ghost use Rattle.swan_model.specs.declared.body.Ask.TheVariants as ask;
ghost use Rattle.swan_model.specs.declared.body.Child.{Child};
ghost use Rattle.swan_model.specs.declared.fault.Fault.{Fault};
ghost use Rattle.swan_model.specs.declared.fault.FaultKind.TheVariants as kind;
ghost use Rattle.swan_model.specs.declared.fault.Trouble.{Trouble};
ghost use Rattle.swan_model.specs.declared.origin.Origin.{Origin};
ghost use Rattle.swan_model.specs.declared.origin.Origin.TheVariants.{Root};
ghost use Rattle.swan_model.specs.declared.path.TheConstants.{PATH_MOST};
ghost use Rattle.swan_model.specs.declared.plan.Plan.{Plan};
ghost use Rattle.swan_model.specs.declared.plan.RootQueue.{RootQueue};
ghost use Rattle.swan_model.specs.declared.rights.Mode.{Mode};
ghost use Rattle.swan_model.specs.declared.rights.Mode.TheVariants.{In, Out, InOut, Push, Pop, PushPop};
ghost use Rattle.swan_model.specs.declared.script.Deed.TheVariants as deed;
ghost use Rattle.swan_model.specs.declared.value.Value.{Value};
ghost use Rattle.swan_model.specs.Elision.{most_steps, outcome, root, serial};
ghost use Rattle.swan_model.specs.QueueState.{CHILDREN_MOST, OBJECTS_MOST, PLACES_MOST, QUEUES_MOST};
ghost use Rattle.swan_model.specs.Rights.{allows, is_aliased};
ghost use Rattle.swan_model.specs.Script.{give_of, is_end, script};
ghost use Rattle.swan_model.specs.SerialState.{Activation, Holding, Store};
ghost use Rattle.swan_model.specs.SerialStep.{given, goes_on, spawns};
ghost use Rattle.swan_model.specs.SerialTime.{is_queue_deed, time, times};
ghost use Rattle.swan_model.specs.Told.{cell, deed_at, pushes, taken};
ghost use Rattle.swan_model.specs.TrueFrames.{StandsAt, effect_at, gives_at};
ghost use Rattle.swan_model.specs.QueueFollows.{queue_times};
ghost use Rattle.swan_model.specs.declared.plan.TheConstants.{FUEL_MOST, ROOTS_MOST};
ghost use Rattle.swan_model.specs.declared.rights.TheConstants.{GIVES_MOST};
ghost use Rattle.swan_model.specs.declared.rights.Give.{Give};
ghost use Rattle.serial_elision.specs.Laws.{AreEachOnce, AreInOrder, IsObjectOf, IsQueueOf};
ghost use Rattle.serial_elision.specs.OnSteps.{AnswersWith, EndsBy, IsBounded, IsItemLeft, IsNoneLeft, MakesPlace, OnAsk, OnBoundedAsk, OnBoundedStep, OnSpawn, OnStep, OnUse, StandsNext, SyncsHere, does_at, names_on_step};
ghost use Rattle.serial_elision.specs.Caught.{children_by, children_by_sync, failed_children, once_ended};
ghost use Rattle.serial_elision.specs.TaskSteps.{EndsTask, IsFaultOf, LacksRight, MayUseAt, Spawns};

use swan_model::Body;

/// The law that a task goes on by its own steps. The root stands at its first step. Where a task stands at a
/// step of its own, and the step neither ends it nor spawns, it stands at its next step as this step left it;
/// after a spawn it does so once the child has ended, as the spawn left it, but for one more failed child where
/// the child ended by a fault; and the child stands at its first step as it was made. A step that ends a task
/// is its last one. A task stands at each step that it has, as one activation alone, and at a later step as the
/// one before has left it. So what a task is at a step depends on nothing but its own steps, on what they were
/// told, and on which of its children failed.
pub fn tasks_go_on<B: Body>()
    // where the root begins
    ensures root { (plan : Plan B B.Local) → StandsAt B.Body plan [] 0 (root plan) }

    // what each step leaves
    ensures goes_on { OnStep B.Body (λ at. (next : Activation B.Local) (store : Store) → does_at B.Body at ≡ goes_on next store → StandsNext B.Body at next) }
    ensures spawns { OnStep B.Body (λ at. (parent child : Activation B.Local) (store : Store) → does_at B.Body at ≡ spawns parent child store
        → StandsNext B.Body at (once_ended (outcome B.Body at.plan).faults parent child)) }
    ensures begins { OnStep B.Body (λ at. (parent child : Activation B.Local) (store : Store) → does_at B.Body at ≡ spawns parent child store → StandsAt B.Body at.plan child.path 0 child) }
    ensures ends { OnStep B.Body (λ at. is_end (does_at B.Body at) ≡ true → at.k + 1 ≡ length (times (script B.Body at.plan) at.path)) }

    // each step that a task has, as one activation alone, and what left it so
    ensures each { (plan : Plan B B.Local) (path : List ℕ) (k : ℕ) → k < length (times (script B.Body plan) path)
        → (top : Activation B.Local) × StandsAt B.Body plan path k top }
    ensures one { (plan : Plan B B.Local) (path : List ℕ) (k : ℕ) (a b : Activation B.Local)
        → StandsAt B.Body plan path k a → StandsAt B.Body plan path k b → a ≡ b }
    ensures before { (plan : Plan B B.Local) (path : List ℕ) (k : ℕ) (top : Activation B.Local)
        → StandsAt B.Body plan path (k + 1) top
        → (before : Activation B.Local) × (store : Store) × StandsAt B.Body plan path k before
        × ((effect_at B.Body plan path k before ≡ goes_on top store)
        ⊎ ((parent child : Activation B.Local) × (effect_at B.Body plan path k before ≡ spawns parent child store)
        × (top ≡ once_ended (outcome B.Body plan).faults parent child))) }
{}

/// The law of failed children. A task's children are those that the script has it spawn before its step. Its
/// failed children are those among the children since its last Sync that ended by a fault: each such child has
/// a fault in what is left, and no other one has. So what a Sync is told can be counted by faults, whatever has
/// become of the children by then.
pub fn caught_are_counted<B: Body>()
    ensures children { OnStep B.Body (λ at. at.top.children ≡ children_by (script B.Body at.plan) at.path at.k) }
    ensures failed { OnStep B.Body (λ at.
        at.top.failed ≡ failed_children (outcome B.Body at.plan).faults at.path
        (children_by_sync (script B.Body at.plan) at.path at.k) at.top.children) }
{}

/// The law that what is held keeps its name. Whatever a task holds at a step has a name, by what made it, and
/// has it at each later time of the elision; so a task that holds the same at its next step has the same names
/// for it. What it may use by a mode it holds by a name. The root begins with the plan's queues and then its objects, by
/// their names. Asked is that the plan's lists are within their bounds, as those of each plan that is made are.
pub fn names_stay<B: Body>()
    // at a step, at each later time, and at the next step
    ensures named { OnBoundedStep B.Body (λ at. (place : ℕ) (holding : Holding) → slice_get at.top.holdings place ≡ Some holding
        → (origin : Origin) × (slice_get (names_on_step B.Body at) place ≡ Some (Some (record { origin = origin; mode = holding.mode })))) }
    ensures later { OnBoundedStep B.Body (λ at. (n : ℕ) → time (script B.Body at.plan) at.path at.k ≤ n
        → map (give_of (serial B.Body at.plan n).store) at.top.holdings ≡ names_on_step B.Body at) }
    ensures next { OnBoundedStep B.Body (λ at. (next : Activation B.Local) → StandsNext B.Body at next
        → next.holdings ≡ at.top.holdings → gives_at B.Body at.plan at.path (at.k + 1) next ≡ names_on_step B.Body at) }

    // what may be used
    ensures usable { OnBoundedStep B.Body (λ at. (place : ℕ) (holding : Holding) (mode : Mode) → slice_get at.top.holdings place ≡ Some holding
        → allows holding.mode mode ≡ true → (origin : Origin) × MayUseAt B.Body at.plan at.path at.k at.top place mode origin) }

    // what the root begins with
    ensures root_queues { (plan : Plan B B.Local) → IsBounded plan → (i : ℕ) (queue : RootQueue) → slice_get plan.roots.queues i ≡ Some queue
        → slice_get (gives_at B.Body plan [] 0 (root plan)) i ≡ Some (Some (record { origin = Root i; mode = queue.mode })) }
    ensures root_objects { (plan : Plan B B.Local) → IsBounded plan → (i : ℕ) (first : Value) → slice_get plan.roots.objects i ≡ Some first
        → slice_get (gives_at B.Body plan [] 0 (root plan)) (length plan.roots.queues + i) ≡ Some (Some (record { origin = Root i; mode = InOut })) }
{}

/// The law of what each ask is answered, and of the deed that the script has for it. Work is answered with
/// nothing, and the wait for children with how many of them failed since the last one; a read with the value
/// that the script tells of the object at this time; a write and a push with nothing; a pop with the queue's
/// next item, where one is left; the test of a queue with whether none is left; and who makes a queue or an
/// object is told its new place. Whoever is answered holds the same as before, by the same names, and a maker
/// one place more, which has the name of this step. Asked is that the plan's lists are within their bounds, as
/// those of each plan that is made are.
pub fn asks_are_answered<B: Body>()
    // what changes nothing for others
    ensures work { OnBoundedAsk B.Body ask.Work (λ at. AnswersWith B.Body at answer.Nothing deed.Quiet) }
    ensures sync { OnBoundedAsk B.Body ask.Sync (λ at. SyncsHere B.Body at) }

    // objects
    ensures read { (place : ℕ) → OnUse B.Body (ask.Read place) place In (λ at object. let s = script B.Body at.of.plan in
        IsSomeAnd (cell s object (time s at.of.path at.of.k)) (λ value. AnswersWith B.Body at (answer.Item value) (deed.Read object))) }
    ensures write { (place : ℕ) (value : Value) → OnUse B.Body (ask.Write place value) place Out (λ at object.
        AnswersWith B.Body at answer.Nothing (deed.Write object value)) }

    // queues
    ensures push { (place : ℕ) (value : Value) → OnUse B.Body (ask.Push place value) place Push (λ at queue.
        AnswersWith B.Body at answer.Nothing (deed.Push queue value)) }
    ensures pop { (place : ℕ) → OnUse B.Body (ask.Pop place) place Pop (λ at queue. IsItemLeft B.Body at.of queue → let s = script B.Body at.of.plan in
        IsSomeAnd (slice_get (pushes s queue) (taken s queue (time s at.of.path at.of.k))) (λ item. AnswersWith B.Body at (answer.Item item) (deed.Pop queue))) }
    ensures test_of_some { (place : ℕ) → OnUse B.Body (ask.Empty place) place Pop (λ at queue. IsItemLeft B.Body at.of queue
        → AnswersWith B.Body at (answer.Flag false) (deed.Test queue)) }
    ensures test_of_none { (place : ℕ) → OnUse B.Body (ask.Empty place) place Pop (λ at queue. IsNoneLeft B.Body at.of queue
        → AnswersWith B.Body at (answer.Flag true) (deed.Test queue)) }

    // what makes a place
    ensures new_queue { OnBoundedAsk B.Body ask.NewQueue (λ at. MakesPlace B.Body at PushPop deed.MakeQueue) }
    ensures new_object { (first : Value) → OnBoundedAsk B.Body (ask.NewObject first) (λ at. MakesPlace B.Body at InOut (deed.MakeObject first)) }
{}

/// The law of the steps that end their task. A task without fuel ends by the fault Fuel, one that may not use a
/// place so, or not give what it is to give, by Privilege, one that pops a queue in which nothing is left by
/// PopEmpty, and one that gives up by its own trouble. One that asks to finish ends without a fault. Where a task holds all
/// that a child is to get, the spawn is refused by Alias where a place is given twice and not only to read, else by Depth where
/// the path has `PATH_MOST` parts, else by Fuel where the child is to get more than is left. In the script none of these steps does anything, but the pop of an empty queue is a pop.
pub fn some_steps_end_their_task<B: Body>()
    // whatever is asked for
    ensures dry { OnStep B.Body (λ at. at.top.fuel ≡ 0 → EndsBy B.Body at kind.Fuel deed.Quiet) }
    ensures refused { (asks : Ask B.Local) → OnAsk B.Body asks (λ at. LacksRight B.Body at.of.plan at.of.path at.of.k at.of.top asks
        → EndsBy B.Body at.of kind.Privilege deed.Quiet) }

    // the end that a task asks for
    ensures finish { OnAsk B.Body ask.Finish (λ at. EndsTask B.Body at.of.plan at.of.path at.of.k at.of.top) }
    ensures fail { (trouble : Trouble) → OnAsk B.Body (ask.Fail trouble) (λ at. EndsBy B.Body at.of (kind.Trouble trouble) deed.Quiet) }

    // an empty queue
    ensures pop_of_none { (place : ℕ) → OnUse B.Body (ask.Pop place) place Pop (λ at queue. IsNoneLeft B.Body at.of queue
        → EndsBy B.Body at.of kind.PopEmpty (deed.Pop queue)) }

    // a child that is refused
    ensures alias { (child : Child B.Local) → OnSpawn B.Body child (λ at holdings. is_aliased child.gives ≡ true
        → EndsBy B.Body at.of kind.Alias deed.Quiet) }
    ensures depth { (child : Child B.Local) → OnSpawn B.Body child (λ at holdings. is_aliased child.gives ≡ false → PATH_MOST ≤ length at.of.top.path
        → EndsBy B.Body at.of kind.Depth deed.Quiet) }
    ensures fuel { (child : Child B.Local) → OnSpawn B.Body child (λ at holdings. is_aliased child.gives ≡ false → length at.of.top.path < PATH_MOST
        → at.of.top.fuel - 1 < child.fuel → EndsBy B.Body at.of kind.Fuel deed.Quiet) }
{}

/// The law that a spawn which is no fault makes the child that was asked for. The child holds the gives, each by
/// the name of what its parent holds at the give's place, and those are the gives of the script's entry; the
/// parent holds the same as before, by the same names. Asked is that the plan's lists are within their bounds, as those of
/// each plan that is made are.
pub fn a_spawn_makes_its_child<B: Body>()
    ensures spawns { (child : Child B.Local) → OnSpawn B.Body child (λ at holdings. IsBounded at.of.plan
        → is_aliased child.gives ≡ false → length at.of.top.path < PATH_MOST → child.fuel ≤ at.of.top.fuel - 1
        → Spawns B.Body at.of.plan at.of.path at.of.k at.of.top at.local child) }
{}

/// The law of the faults that are left. A fault is of a last step where it has the path of a task whose last step
/// ends the task by a fault of this kind, and the place at which the task stood before that step. Each fault that is
/// left is of a last step, and each fault of a last step is left. They are in the order of their paths: a task's
/// fault comes after those of the tasks below it, and before those of its younger siblings. So they are one list
/// alone: any list in this order that has all faults of last steps, and no others, is the one that is left.
pub fn faults_are_those_of_last_steps<B: Body>()
    // which they are
    ensures each { (plan : Plan B B.Local) (j : ℕ) (fault : Fault) → slice_get (outcome B.Body plan).faults j ≡ Some fault → IsFaultOf B.Body plan fault }
    ensures all { (plan : Plan B B.Local) (fault : Fault) → IsFaultOf B.Body plan fault → (j : ℕ) × (slice_get (outcome B.Body plan).faults j ≡ Some fault) }

    // their order, and that no other list has them so
    ensures order { (plan : Plan B B.Local) → AreInOrder (outcome B.Body plan).faults }
    ensures alone { (plan : Plan B B.Local) (booked : List Fault) → AreInOrder booked
        → ((j : ℕ) (fault : Fault) → slice_get booked j ≡ Some fault → IsFaultOf B.Body plan fault)
        → ((fault : Fault) → IsFaultOf B.Body plan fault → (j : ℕ) × (slice_get booked j ≡ Some fault))
        → booked ≡ (outcome B.Body plan).faults }
{}

/// The law that a plan makes no more than its fuel pays for. The queues of its script are at most the plan's own
/// and one for each unit of fuel, and so are the objects. A task's children and the fuel that it has left are
/// together at most the plan's fuel; its places and the fuel that it has left are at most those with which it
/// began, which for a child are as many places as its gives. So there are fewer than 4,294,967,295 queues and
/// objects, children of a task, and places of one that begins with as many as a plan or a spawn may give. No task
/// has more steps than twice the fuel and two, nor, in all or before any of its steps, more of them that queues are told of.
/// Where a clause asks it, the plan's lists and its fuel are within their bounds, as those of each plan that is made are.
pub fn a_plan_makes_what_its_fuel_pays<B: Body>()
    // what the whole run makes, and a task
    ensures queues { (plan : Plan B B.Local) (queues : List Origin) → AreEachOnce (IsQueueOf (script B.Body plan)) queues
        → length queues ≤ length plan.roots.queues + plan.fuel }
    ensures objects { (plan : Plan B B.Local) (objects : List Origin) → AreEachOnce (IsObjectOf (script B.Body plan)) objects
        → length objects ≤ length plan.roots.objects + plan.fuel }
    ensures children { OnStep B.Body (λ at. at.top.children + at.top.fuel ≤ at.plan.fuel) }
    ensures places { OnStep B.Body (λ at. (first : Activation B.Local) → StandsAt B.Body at.plan at.path 0 first
        → length at.top.holdings + at.top.fuel ≤ length first.holdings + first.fuel) }

    // with how many places a task begins
    ensures root_places { (plan : Plan B B.Local) → length (root plan).holdings ≡ length plan.roots.queues + length plan.roots.objects }
    ensures child_places { (holdings given_so : List Holding) (gives : List Give) → given holdings gives ≡ Some given_so → length given_so ≡ length gives }

    // how few that are
    ensures few_queues { (plan : Plan B B.Local) (queues : List Origin) → IsBounded plan → plan.fuel ≤ FUEL_MOST
        → AreEachOnce (IsQueueOf (script B.Body plan)) queues → length queues < QUEUES_MOST }
    ensures few_objects { (plan : Plan B B.Local) (objects : List Origin) → IsBounded plan → plan.fuel ≤ FUEL_MOST
        → AreEachOnce (IsObjectOf (script B.Body plan)) objects → length objects < OBJECTS_MOST }
    ensures few_children { OnStep B.Body (λ at. at.plan.fuel ≤ FUEL_MOST → at.top.children < CHILDREN_MOST) }
    ensures few_places { OnStep B.Body (λ at. at.plan.fuel ≤ FUEL_MOST → (first : Activation B.Local) → StandsAt B.Body at.plan at.path 0 first
        → length first.holdings ≤ max ROOTS_MOST GIVES_MOST → length at.top.holdings < PLACES_MOST) }

    // how many steps a task has
    ensures steps { (plan : Plan B B.Local) (path : List ℕ) → length (times (script B.Body plan) path) ≤ most_steps plan }
    ensures queue_deeds { (plan : Plan B B.Local) (path : List ℕ) → length (queue_times (script B.Body plan) path) ≤ most_steps plan }
    ensures deeds_so_far { (plan : Plan B B.Local) (path : List ℕ) (k : ℕ) → let s = script B.Body plan in
        length (filter (λ t. is_queue_deed (deed_at s t)) (take k (times s path))) ≤ most_steps plan }
{}
