// Laws of readings that go on with the hyperqueues.
ghost use Rattle.std.specs.Prelude.{◌≡◌, ◌≢◌, ℕ, ◌+◌, List, [], None, Some, false, length, true};
ghost use Rattle.swan_model.specs.declared.origin.Origin.{Origin};
ghost use Rattle.swan_model.specs.declared.origin.Origin.TheVariants.{Root, Step};
ghost use Rattle.swan_model.specs.declared.script.Deed.TheVariants.{MakeQueue, Pop, Spawn};
ghost use Rattle.swan_model.specs.declared.script.OriginGive.{OriginGive};
ghost use Rattle.swan_model.specs.declared.script.Script.{Script};
ghost use Rattle.swan_model.specs.Granted.{is_spawn};
ghost use Rattle.swan_model.specs.Lawful.{IsLawful};
ghost use Rattle.swan_model.specs.QueueFollows.{AreByEnds, Fits, FitsFrame, next_queue_deed, queue_time};
ghost use Rattle.swan_model.specs.QueueState.{ActiveFrame, LentEnd, QueueRight, QueueState, active, after_back, after_create, after_create_root, after_deed, after_finish, after_lend, after_spawn, after_take_rest, new_state};
ghost use Rattle.swan_model.specs.Readings.{at_start, gone_on, gone_on_by, reading_after_spawn, with_queue};
ghost use Rattle.swan_model.specs.SerialTime.{Progress, Reading, frame_of, is_queue_deed, point, time};
ghost use Rattle.queues.specs.Reads.{DiffersIdly, HasMore, IsAtLast, OnActiveEntry, OnEntry, OnFitting, OnQueueStep, deeds_among};

/// The law that a reading which fits hyperqueues goes on with them. The reading of a run before its first step fits
/// new ones. A root queue is one queue more. After a deed of queues the reading fits in which the frame has done
/// that entry; a queue that the entry made has its time as origin, and a child is a new frame with nothing done. An
/// entry that is no deed of queues is done in the reading without a call, and the origins of objects may be any: so
/// a reading fits too that differs only in what queues aren't told of. A frame's last entry counts with its finish:
/// it is no deed of queues, or it is the pop of an empty queue, which the hyperqueues have counted before. Ends
/// that come back bring all entries by then, of which as many are deeds of queues as were done by them; one entry
/// is left then.
pub fn readings_go_on()
    // the start, and a queue that is made
    ensures start { (s : Script) (objects : List Origin) → IsLawful s → Fits s new_state (at_start [] objects) }
    ensures create_root { OnFitting (λ s state r. Fits s (after_create_root state) (with_queue r (Root (length state.makers)))) }
    ensures create { OnActiveEntry (λ s state r number progress does frame. does ≡ MakeQueue
        → Fits s (after_create state frame) (with_queue (gone_on r number) (Step (point s progress)))) }

    // a spawn
    ensures spawn { OnActiveEntry (λ s state r number progress does parent. (child : ℕ) (all : List OriginGive) (gives : List QueueRight)
        → does ≡ Spawn all → active state child ≡ None → frame_of r child ≡ None
        → Fits s (after_spawn state parent child gives) (reading_after_spawn s r progress child)) }

    // another deed of queues, and an entry that is none
    ensures deed { OnEntry (λ s state r number progress does. is_queue_deed does ≡ true → is_spawn does ≡ false → does ≢ MakeQueue → HasMore s progress
        → Fits s (after_deed state number) (gone_on r number)) }
    ensures others { OnEntry (λ s state r number progress does. (objects : List Origin) → is_queue_deed does ≡ false → HasMore s progress
        → Fits s state (record (gone_on r number) { objects = objects })) }

    // a reading that differs in what queues aren't told of
    ensures objects { OnFitting (λ s state r. (objects : List Origin) → Fits s state (record r { objects = objects })) }
    ensures agree { OnFitting (λ s state r. (other : Reading) → DiffersIdly s state r other → Fits s state other) }

    // ends that are lent and come back
    ensures lend { OnFitting (λ s state r. (frame : ActiveFrame) (ends : List LentEnd) → Fits s (after_lend state frame ends) r) }
    ensures back { OnFitting (λ s state r. (number deeds many : ℕ) (frame : ActiveFrame) (progress : Progress)
        → active state number ≡ Some frame → frame_of r number ≡ Some progress
        → AreByEnds s frame.path frame.deeds deeds → FitsFrame s (record frame { deeds = deeds }) (record progress { done = progress.done + many })
        → Fits s (after_back state number deeds) (gone_on_by r number many)) }

    // a frame's last entry, and the end of all
    ensures finish { OnEntry (λ s state r number progress does. is_queue_deed does ≡ false → IsAtLast s progress
        → Fits s (after_finish state number) (gone_on r number)) }
    ensures last_pop { OnEntry (λ s state r number progress does. (queue : Origin) → does ≡ Pop queue → IsAtLast s progress
        → Fits s (after_finish (after_deed state number) number) (gone_on r number)) }
    ensures take_rest { OnFitting (λ s state r. (queue : ℕ) → Fits s (after_take_rest state queue) r) }
{}

/// The law that what comes next for a frame in a reading that fits is what comes next for it among queues. Where
/// its next entry is a deed of queues, that is its next one. Where its next entry is its last and no deed of
/// queues, none is left, and where its last entry is one, none is left after it: so the frame may finish then. A
/// frame with an entry left is active. A task's own steps tell the same without a state or a reading, as a frame has
/// it that runs with its ends: where the step after the first k ones is a deed of queues, and d such deeds are among
/// those k, it is the deed of queues that comes after d others, and that one's time is the step's.
pub fn next_deeds_agree()
    // by a state and a reading that fits
    ensures next { OnActiveEntry (λ s state r number progress does frame. is_queue_deed does ≡ true → next_queue_deed s frame.path frame.deeds ≡ Some does) }
    ensures last { OnActiveEntry (λ s state r number progress does frame. is_queue_deed does ≡ false → IsAtLast s progress
        → next_queue_deed s frame.path frame.deeds ≡ None) }
    ensures after_last { OnActiveEntry (λ s state r number progress does frame. is_queue_deed does ≡ true → IsAtLast s progress
        → next_queue_deed s frame.path (frame.deeds + 1) ≡ None) }
    ensures live { OnEntry (λ s state r number progress does. (frame : ActiveFrame) × (active state number ≡ Some frame)) }

    // by a task's steps alone
    ensures step { OnQueueStep (λ s path k does. next_queue_deed s path (deeds_among s path k) ≡ Some does) }
    ensures step_time { OnQueueStep (λ s path k does. queue_time s path (deeds_among s path k) ≡ time s path k) }
{}
