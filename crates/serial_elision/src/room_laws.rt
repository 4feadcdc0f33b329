// Laws of the room that a run of a plan has.
ghost use Rattle.std.specs.Prelude.{◌≡◌, ℕ, ◌<◌, ◌≤◌, [], List, Some, length, map, max};
ghost use Rattle.swan_model.specs.declared.plan.Plan.{Plan};
ghost use Rattle.swan_model.specs.declared.plan.TheConstants.{FUEL_MOST, ROOTS_MOST};
ghost use Rattle.swan_model.specs.declared.rights.TheConstants.{GIVES_MOST};
ghost use Rattle.swan_model.specs.Granted.{children_before};
ghost use Rattle.swan_model.specs.QueueFollows.{QueuesFollow, origin_in};
ghost use Rattle.swan_model.specs.QueueState.{ActiveFrame, QueueState, active, CHILDREN_MOST, PLACES_MOST, QUEUES_MOST};
ghost use Rattle.swan_model.specs.Values.{COUNT_MOST};
ghost use Rattle.swan_model.specs.Script.{script};
ghost use Rattle.swan_model.specs.SerialState.{Activation};
ghost use Rattle.swan_model.specs.SerialTime.{time};
ghost use Rattle.swan_model.specs.TrueFrames.{FrameState, IsTrueAlone, StandsAt};
ghost use Rattle.serial_elision.specs.Laws.{AreEachOnce, IsQueueOf};
ghost use Rattle.serial_elision.specs.OnSteps.{IsBounded, OnStep};

use swan_model::Body;

/// The law that a run of a plan has room. Where hyperqueues follow the plan's script, what made them are queues of the
/// script, each once. Fewer than 4,294,967,295 of them are made, and each active frame has spawned fewer than
/// 4,294,967,295 children and done fewer than 18,446,744,073,709,551,615 deeds of queues. So one queue more may be made,
/// and each frame may spawn one child more and do one deed more. A task has as many children as the script has spawns of
/// it by then. A true frame has fewer than 4,294,967,295 children, and fewer than 4,294,967,295 places where it began
/// with as many as a plan or a spawn may give. Where a clause asks it, the plan's lists and its fuel are within their bounds,
/// as those of each plan that is made are.
pub fn runs_have_room<B: Body>()
    // hyperqueues
    ensures makers { (plan : Plan B B.Local) (state : QueueState) → let s = script B.Body plan in QueuesFollow s state
        → AreEachOnce (IsQueueOf s) (map (origin_in s) state.makers) }
    ensures queues { (plan : Plan B B.Local) (state : QueueState) → IsBounded plan → plan.fuel ≤ FUEL_MOST → QueuesFollow (script B.Body plan) state
        → length state.makers < QUEUES_MOST }
    ensures children { (plan : Plan B B.Local) (state : QueueState) (number : ℕ) (frame : ActiveFrame) → plan.fuel ≤ FUEL_MOST
        → QueuesFollow (script B.Body plan) state → active state number ≡ Some frame → frame.children < CHILDREN_MOST }
    ensures deeds { (plan : Plan B B.Local) (state : QueueState) (number : ℕ) (frame : ActiveFrame) → plan.fuel ≤ FUEL_MOST
        → QueuesFollow (script B.Body plan) state → active state number ≡ Some frame → frame.deeds < COUNT_MOST }

    // true frames
    ensures spawns { OnStep B.Body (λ at. at.top.children ≡ let s = script B.Body at.plan in children_before s at.path (time s at.path at.k)) }
    ensures true_children { (plan : Plan B B.Local) (frame : FrameState B.Local) → plan.fuel ≤ FUEL_MOST → IsTrueAlone B.Body plan frame
        → frame.children < CHILDREN_MOST }
    ensures true_places { (plan : Plan B B.Local) (frame : FrameState B.Local) (first : Activation B.Local) → plan.fuel ≤ FUEL_MOST
        → IsTrueAlone B.Body plan frame → StandsAt B.Body plan frame.path 0 first → length first.holdings ≤ max ROOTS_MOST GIVES_MOST
        → length frame.holdings < PLACES_MOST }
{}
