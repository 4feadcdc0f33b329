// Laws of whose the chunks of a queue are, and of what is taken of it.
ghost use Rattle.std.specs.Prelude.{◌≡◌, ◌≢◌, ℕ, ◌+◌, ◌<◌, ◌≤◌, List, [], ◌∷◌, ◌++◌, None, Some, false, length, slice_get, true};
ghost use Rattle.swan_model.specs.declared.origin.Origin.{Origin};
ghost use Rattle.swan_model.specs.declared.origin.Origin.TheVariants.{Root, Step};
ghost use Rattle.swan_model.specs.declared.rights.Mode.TheVariants.{Pop, Push};
ghost use Rattle.swan_model.specs.declared.script.Deed.{Deed};
ghost use Rattle.swan_model.specs.declared.script.Deed.TheVariants as deed;
ghost use Rattle.swan_model.specs.declared.script.Script.{Script};
ghost use Rattle.swan_model.specs.declared.value.Value.{Value};
ghost use Rattle.swan_model.specs.Granted.{is_spawn};
ghost use Rattle.swan_model.specs.Lawful.{IsLawful};
ghost use Rattle.swan_model.specs.QueueFollows.{AreByEnds, NextSpawnGivesQueues, QueuesFollow, count_at, next_queue_deed, queue_origin, queue_point, queue_time, taken_at};
ghost use Rattle.swan_model.specs.QueueState.{ActiveFrame, IsUntouched, LentEnd, MayGive, QueueMaker, QueueRight, QueueState, active, after_back, after_create, after_create_root, after_deed, after_finish, after_lend, after_spawn, after_take_rest, holds_queue, with_deed};
ghost use Rattle.swan_model.specs.Readings.{end_time};
ghost use Rattle.swan_model.specs.SerialTime.{times};
ghost use Rattle.swan_model.specs.Told.{count, taken};
ghost use Rattle.queues.specs.Asks.{MayDo, MayJoin, MaySpawn};
ghost use Rattle.queues.specs.Chunks.{Chunk, Chunks, HasOwners, HasTaken, IsFirstPopper, OnOwners, OnTaken, OnTakenBy, after_close, after_hand_on, own};
ghost use Rattle.queues.specs.Tells.{FindsItem, FindsNone};
ghost use Rattle.queues.specs.Tree.{IsTree, OnQueueSpawn, has_queue, maker_path};
ghost use Rattle.queues.specs.Turned.{gives_queue};

/// The law that the chunks of a queue stay owned by those who have it, in serial order. A new queue has one chunk, its
/// maker's. At a spawn with the queue the child goes on in its parent's chunk, and the parent gets one right behind it.
/// Where a frame ends, its chunk has no owner any more; and once the queue's maker has ended nobody has it. All other
/// calls leave the owners. A chunk that has no owner may be left out. Nothing is said of items, so it is so for chunks
/// without items too.
pub fn owners_stay()
    // a new queue, and the others beside it
    ensures create_root { (state : QueueState) (first : List Value) → IsTree state → IsUntouched state
        → HasOwners (after_create_root state) (length state.makers) (own 0 first ∷ []) }
    ensures create { (state : QueueState) (n : ℕ) (first : List Value) → IsTree state → (act : MayDo state n)
        → HasOwners (after_create state act.frame) (length state.makers) (own n first ∷ []) }
    ensures root_aside { OnOwners (λ state queue chunks. queue < length state.makers → HasOwners (after_create_root state) queue chunks) }
    ensures made_aside { OnOwners (λ state queue chunks. (n : ℕ) (act : MayDo state n) → queue < length state.makers
        → HasOwners (after_create state act.frame) queue chunks) }

    // a spawn with the queue, and one without it
    ensures spawn { OnOwners (λ state queue chunks. (n child : ℕ) (gives : List QueueRight) (may : MaySpawn state n child gives) → gives_queue gives queue ≡ true
        → HasOwners (after_spawn state may.act.frame child gives) queue (after_hand_on n child chunks)) }
    ensures spawn_aside { OnOwners (λ state queue chunks. (n child : ℕ) (gives : List QueueRight) (may : MaySpawn state n child gives) → gives_queue gives queue ≡ false
        → HasOwners (after_spawn state may.act.frame child gives) queue chunks) }

    // deeds of frames, and ends that are lent and come back
    ensures deed { OnOwners (λ state queue chunks. (n : ℕ) → MayDo state n → HasOwners (after_deed state n) queue chunks) }
    ensures lend { OnOwners (λ state queue chunks. (frame : ActiveFrame) (ends : List LentEnd) → HasOwners (after_lend state frame ends) queue chunks) }
    ensures back { OnOwners (λ state queue chunks. (n deeds : ℕ) → HasOwners (after_back state n deeds) queue chunks) }

    // the end of a frame that has the queue, of one that has it not, and of the queue's maker
    ensures finish { (state : QueueState) (n queue : ℕ) (chunks : Chunks) → HasOwners state queue chunks
        → HasOwners (after_finish state n) queue (after_close n chunks) }
    ensures finish_aside { (state : QueueState) (n queue : ℕ) (frame : ActiveFrame) (chunks : Chunks) → active state n ≡ Some frame → has_queue frame queue ≡ false
        → HasOwners state queue chunks → HasOwners (after_finish state n) queue chunks }
    ensures given_up { (state : QueueState) (n queue : ℕ) (maker : QueueMaker) → IsTree state → (may : MayJoin state n)
        → slice_get state.makers queue ≡ Some maker → may.frame.path ≡ maker_path maker → HasOwners (after_finish state n) queue [] }
    ensures take_rest { OnOwners (λ state queue chunks. (emptied : ℕ) → HasOwners (after_take_rest state emptied) queue chunks) }

    // a chunk without an owner, that is left out
    ensures unowned { (state : QueueState) (queue : ℕ) (before after : Chunks) (chunk : Chunk) → chunk.owner ≡ None
        → HasOwners state queue (before ++ chunk ∷ after) → HasOwners state queue (before ++ after) }
{}

/// The law of how many items have left a queue, apart from the items themselves. It is one number, from which the script
/// goes on along the chunks (`HasTaken`): so many are taken by the point of the first owner that may pop, by the point of
/// the next such owner as many as when the first one has ended, and so on. The number of a new queue is 0. It grows by one
/// where the first such owner pops and finds an item; where that one's ends come back, it becomes what is taken by its new
/// point. It stays with a pop that finds none, with ends that come back and popped nothing of the queue, and with each
/// other call. The chunks stay too but at two calls: a spawn with the queue gives the parent a chunk behind its child's
/// (`after_hand_on`), and the end of a frame that has the queue leaves its chunk without an owner (`after_close`). There
/// the same number holds of the new chunks. So it does where a chunk without an owner is left out.
pub fn what_is_taken_goes_on()
    // where none before it may pop, the frame's point tells
    ensures point { OnTakenBy (λ s state number queue end chunks at n frame. (index : ℕ) → IsFirstPopper state number chunks index n frame → at ≡ taken_at s frame queue) }

    // a new queue, and the others beside it
    ensures create_root { (s : Script) (state : QueueState) (items : List Value) → IsLawful s → IsTree state → IsUntouched state
        → HasTaken s (after_create_root state) (length state.makers) (Root (length state.makers)) (end_time s []) (own 0 items ∷ []) 0 }
    ensures create { (s : Script) (state : QueueState) (n : ℕ) (frame : ActiveFrame) (items : List Value) → IsLawful s → active state n ≡ Some frame
        → next_queue_deed s frame.path frame.deeds ≡ Some deed.MakeQueue
        → HasTaken s (after_create state frame) (length state.makers) (Step (queue_time s frame.path frame.deeds)) (end_time s frame.path) (own n items ∷ []) 0 }
    ensures root_aside { OnTaken (λ s state number queue end chunks at. IsUntouched state → number < length state.makers
        → HasTaken s (after_create_root state) number queue end chunks at) }
    ensures made_aside { OnTakenBy (λ s state number queue end chunks at n frame. IsLawful s
        → next_queue_deed s frame.path frame.deeds ≡ Some deed.MakeQueue → number < length state.makers
        → HasTaken s (after_create state frame) number queue end chunks at) }

    // a spawn by a frame that has the queue, and one without the queue
    ensures spawn { OnTakenBy (λ s state number queue end chunks at n frame. (child : ℕ) (gives : List QueueRight) → IsLawful s → HasOwners state number chunks
        → QueuesFollow s state → IsTree state → queue_origin s state number ≡ Some queue
        → active state child ≡ None → MayGive frame gives → NextSpawnGivesQueues s state frame gives → has_queue frame number ≡ true
        → HasTaken s (after_spawn state frame child gives) number queue end (after_hand_on n child chunks) at) }
    ensures spawn_aside { OnTakenBy (λ s state number queue end chunks at n frame. (child : ℕ) (gives : List QueueRight) → IsLawful s → HasOwners state number chunks
        → QueuesFollow s state → IsTree state → queue_origin s state number ≡ Some queue
        → active state child ≡ None → MayGive frame gives → NextSpawnGivesQueues s state frame gives → gives_queue gives number ≡ false
        → HasTaken s (after_spawn state frame child gives) number queue end chunks at) }

    // deeds: a pop that finds an item, and each other one
    ensures pop { OnTakenBy (λ s state number queue end chunks at n frame. (index : ℕ) → IsLawful s → HasOwners state number chunks
        → IsFirstPopper state number chunks index n frame → next_queue_deed s frame.path frame.deeds ≡ Some (deed.Pop queue) → FindsItem frame s queue → HasTaken s (after_deed state n) number queue end chunks (at + 1)) }
    ensures deed { OnTakenBy (λ s state number queue end chunks at n frame. (does : Deed) → IsLawful s
        → next_queue_deed s frame.path frame.deeds ≡ Some does → is_spawn does ≡ false → (does ≡ deed.Pop queue → FindsNone frame s queue) → HasTaken s (after_deed state n) number queue end chunks at) }

    // ends: those of a frame before which none may pop, and those by which it pops nothing of the queue
    ensures lend { OnTakenBy (λ s state number queue end chunks at n frame. (ends : List LentEnd) → HasTaken s (after_lend state frame ends) number queue end chunks at) }
    ensures back { OnTakenBy (λ s state number queue end chunks at n frame. (index deeds : ℕ) → HasOwners state number chunks → IsFirstPopper state number chunks index n frame
        → HasTaken s (after_back state n deeds) number queue end chunks (taken s queue (queue_point s frame.path deeds))) }
    ensures back_aside { OnTakenBy (λ s state number queue end chunks at n frame. (deeds : ℕ) → IsLawful s → AreByEnds s frame.path frame.deeds deeds
        → ((k : ℕ) → frame.deeds ≤ k → k < deeds → next_queue_deed s frame.path k ≢ Some (deed.Pop queue)) → HasTaken s (after_back state n deeds) number queue end chunks at) }

    // the end of a frame that has the queue, and of one that has it not
    ensures finish { OnTakenBy (λ s state number queue end chunks at n frame. IsLawful s → HasOwners state number chunks
        → next_queue_deed s frame.path frame.deeds ≡ None → 0 < length (times s frame.path)
        → HasTaken s (after_finish state n) number queue end (after_close n chunks) at) }
    ensures finish_aside { OnTakenBy (λ s state number queue end chunks at n frame. HasOwners state number chunks → has_queue frame number ≡ false
        → HasTaken s (after_finish state n) number queue end chunks at) }
    ensures take_rest { OnTaken (λ s state number queue end chunks at. (emptied : ℕ) → HasTaken s (after_take_rest state emptied) number queue end chunks at) }

    // a chunk without an owner, that is left out
    ensures unowned { (s : Script) (state : QueueState) (number : ℕ) (queue : Origin) (end at : ℕ) (before after : Chunks) (chunk : Chunk) → chunk.owner ≡ None
        → HasTaken s state number queue end (before ++ chunk ∷ after) at → HasTaken s state number queue end (before ++ after) at }
{}

/// The law of how much was pushed to a queue, and popped of it, by the points of frames. By a child's first point it is as
/// much as by its parent's point at the spawn, and by the parent's next point as much as when the child ends. A child
/// that may not pop a queue which its parent has takes nothing of it until then, and one that may not push adds nothing. By
/// the next point after another deed it is as much as right after that deed; and where no deed is left, as much as when
/// the frame ends.
pub fn counts_go_on()
    // a spawn: the child's first point, and the parent's next one
    ensures child { (s : Script) (state : QueueState) → OnQueueSpawn s state (λ frame child number queue.
        (count_at s child queue ≡ count_at s frame queue) × (taken_at s child queue ≡ taken_at s frame queue)) }
    ensures parent { (s : Script) (state : QueueState) → OnQueueSpawn s state (λ frame child number queue.
        (count_at s (with_deed frame) queue ≡ count s queue (end_time s child.path)) × (taken_at s (with_deed frame) queue ≡ taken s queue (end_time s child.path))) }

    // a child that may not push, or not pop
    ensures no_push { (s : Script) (state : QueueState) → OnQueueSpawn s state (λ frame child number queue. has_queue frame number ≡ true → holds_queue child number Push ≡ false
        → count s queue (end_time s child.path) ≡ count_at s frame queue) }
    ensures no_pop { (s : Script) (state : QueueState) → OnQueueSpawn s state (λ frame child number queue. has_queue frame number ≡ true → holds_queue child number Pop ≡ false
        → taken s queue (end_time s child.path) ≡ taken_at s frame queue) }

    // another deed, and the end
    ensures deed { (s : Script) (frame : ActiveFrame) (does : Deed) (queue : Origin) → IsLawful s → next_queue_deed s frame.path frame.deeds ≡ Some does → is_spawn does ≡ false
        → let point = queue_point s frame.path frame.deeds in
        (count_at s (with_deed frame) queue ≡ count s queue (point + 1)) × (taken_at s (with_deed frame) queue ≡ taken s queue (point + 1)) }
    ensures end { (s : Script) (frame : ActiveFrame) (queue : Origin) → IsLawful s → next_queue_deed s frame.path frame.deeds ≡ None → 0 < length (times s frame.path)
        → (count_at s frame queue ≡ count s queue (end_time s frame.path)) × (taken_at s frame queue ≡ taken s queue (end_time s frame.path)) }
{}
