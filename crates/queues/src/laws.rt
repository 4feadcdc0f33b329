// Laws of hyperqueues that follow a script.
ghost use Rattle.std.specs.Prelude.{◌≡◌, ◌≢◌, ℕ, List, None, Some, false, length, nat_lt, slice_get, true};
ghost use Rattle.swan_model.specs.declared.origin.Origin.{Origin};
ghost use Rattle.swan_model.specs.declared.script.Deed.{Deed};
ghost use Rattle.swan_model.specs.declared.script.Deed.TheVariants.{MakeQueue};
ghost use Rattle.swan_model.specs.declared.script.Script.{Script};
ghost use Rattle.swan_model.specs.declared.value.Value.{Value};
ghost use Rattle.swan_model.specs.Granted.{children_before, is_spawn};
ghost use Rattle.swan_model.specs.Lawful.{IsLawful};
ghost use Rattle.swan_model.specs.PathOrder.{comes_before};
ghost use Rattle.swan_model.specs.QueueFollows.{AreActive, AreByEnds, NextSpawnGivesQueues, QueuesFollow, count_at, is_done_among, is_ripe_among, next_queue_deed, queue_origin, queue_point, taken_at};
ghost use Rattle.swan_model.specs.QueueState.{ActiveFrame, IsActiveChild, IsUntouched, LentEnd, QueueRight, QueueState, active, after_back, after_create, after_create_root, after_deed, after_finish, after_lend, after_spawn, after_take_rest, new_state};
ghost use Rattle.swan_model.specs.Ripe.{is_ripe};
ghost use Rattle.swan_model.specs.SerialTime.{Progress, is_done, is_earlier, is_queue_deed, point};
ghost use Rattle.swan_model.specs.Told.{count, deed_at, taken};
ghost use Rattle.queues.specs.Reads.{OnFitting, OnFollowed, OnFollowedBy, OnRead, OnTwoRead};

/// The law that hyperqueues, which count the deeds of queues alone, say of the queues what each full reading says
/// that fits. By a frame's point as many items left a queue, and as many were pushed, as by the frame's point among
/// queues; frames stand in the same order, which is the serial order of their tasks; the same deeds of queues are
/// done; and the next item of a queue is ripe for a frame in both or in neither. And an active frame has spawned as many
/// children as the script has spawns of its task before its point, so the next one has the path that the script says.
pub fn points_of_queues_agree()
    // by a frame's point
    ensures taken { OnRead (λ s state r frame a. (queue : Origin) → taken_at s frame queue ≡ taken s queue (point s a)) }
    ensures count { OnRead (λ s state r frame a. (queue : Origin) → count_at s frame queue ≡ count s queue (point s a)) }
    ensures children { OnRead (λ s state r frame a. frame.children ≡ children_before s frame.path (point s a)) }

    // the order of two
    ensures earlier { OnTwoRead (λ s state r frame a other b.
        nat_lt (queue_point s frame.path frame.deeds) (queue_point s other.path other.deeds) ≡ is_earlier s a b) }
    ensures serial { OnTwoRead (λ s state r frame a other b. frame.number ≢ other.number
        → nat_lt (queue_point s frame.path frame.deeds) (queue_point s other.path other.deeds) ≡ comes_before frame.path other.path) }

    // what is done, and what is ripe
    ensures done { OnFitting (λ s state r. (t : ℕ) → is_queue_deed (deed_at s t) ≡ true → is_done_among s state t ≡ is_done s r t) }
    ensures ripe { OnRead (λ s state r frame a. (actives : List Progress) → AreActive state r actives
        → (queue : ℕ) (origin : Origin) → queue_origin s state queue ≡ Some origin
        → is_ripe_among s state frame queue origin ≡ is_ripe s r actives a origin) }
{}

/// The law that calls lead from hyperqueues that follow a script to such that follow it. New ones follow each
/// script. Root queues are made first, with the script's lists. After that a frame makes a queue, spawns a child,
/// or pushes, pops and tests, where that is its next deed of queues in the script; or it does several pushes, pops
/// and tests by the ends that were lent to it. A frame that has no active child may finish, and then its task
/// counts as done.
pub fn calls_follow()
    // the start, and a queue that is made
    ensures start { (s : Script) → IsLawful s → QueuesFollow s new_state }
    ensures create_root { OnFollowed (λ s state. (first : List Value) → IsUntouched state → slice_get s.queues (length state.makers) ≡ Some first
        → QueuesFollow s (after_create_root state)) }
    ensures create { OnFollowedBy (λ s state number frame. next_queue_deed s frame.path frame.deeds ≡ Some MakeQueue → QueuesFollow s (after_create state frame)) }

    // a spawn
    ensures spawn { OnFollowedBy (λ s state number parent. (child : ℕ) (gives : List QueueRight) → active state child ≡ None → NextSpawnGivesQueues s state parent gives
        → QueuesFollow s (after_spawn state parent child gives)) }

    // deeds of frames, and ends that are lent and come back
    ensures deed { OnFollowedBy (λ s state number frame. (does : Deed) → next_queue_deed s frame.path frame.deeds ≡ Some does → is_spawn does ≡ false → does ≢ MakeQueue
        → QueuesFollow s (after_deed state number)) }
    ensures lend { (s : Script) (state : QueueState) (number : ℕ) (frame : ActiveFrame) (ends : List LentEnd) → QueuesFollow s state
        → active state number ≡ Some frame → QueuesFollow s (after_lend state frame ends) }
    ensures back { OnFollowedBy (λ s state number frame. (deeds : ℕ) → AreByEnds s frame.path frame.deeds deeds → QueuesFollow s (after_back state number deeds)) }

    // the end of a frame, and of all
    ensures finish { (s : Script) (state : QueueState) (number : ℕ) → QueuesFollow s state
        → ((child : ℕ) → ¬ IsActiveChild state number child) → QueuesFollow s (after_finish state number) }
    ensures take_rest { (s : Script) (state : QueueState) (queue : ℕ) → QueuesFollow s state → QueuesFollow s (after_take_rest state queue) }
{}
