// Laws of what the frames of hyperqueues keep of each other.
ghost use Rattle.std.specs.Prelude.{◌≡◌, ◌≢◌, ℕ, ◌+◌, List, None, Some, length};
ghost use Rattle.swan_model.specs.QueueState.{ActiveFrame, HasTurn, IsUntouched, LentEnd, QueueRight, QueueState, active, after_back, after_create, after_create_root, after_deed, after_finish, after_lend, after_spawn, after_take_rest, child_of, new_state, with_deed, with_made};
ghost use Rattle.queues.specs.Asks.{MayDo, MayJoin, MaySpawn};
ghost use Rattle.queues.specs.Tree.{IsOnlyFrame, IsTree, OnFrames, OnSpawnOf, OnTree, OnTurnedTree, SpawnersHaveTurns, TurnsGoOn};

/// The law that the frames of hyperqueues are a tree, at the start and after each call, whatever the name: each was
/// spawned by an active one, whose path its own continues, siblings in the order of their numbers; and each has a
/// queue since it made it, or since its parent gave it.
pub fn frames_stay_a_tree()
    // the start, and a queue that is made
    ensures start { IsTree new_state }
    ensures create_root { OnTree (λ state. IsUntouched state → IsTree (after_create_root state)) }
    ensures create { OnTree (λ state. (n : ℕ) (act : MayDo state n) → IsTree (after_create state act.frame)) }

    // a spawn
    ensures spawn { OnTree (λ state. (n child : ℕ) (gives : List QueueRight) (may : MaySpawn state n child gives) → IsTree (after_spawn state may.act.frame child gives)) }

    // deeds of frames, and ends that are lent and come back
    ensures deed { OnTree (λ state. (n : ℕ) → MayDo state n → IsTree (after_deed state n)) }
    ensures lend { OnTree (λ state. (frame : ActiveFrame) (ends : List LentEnd) → IsTree (after_lend state frame ends)) }
    ensures back { OnTree (λ state. (n deeds : ℕ) → IsTree (after_back state n deeds)) }

    // the end of a frame, and of all
    ensures finish { OnTree (λ state. (n : ℕ) → MayJoin state n → IsTree (after_finish state n)) }
    ensures take_rest { OnTree (λ state. (queue : ℕ) → IsTree (after_take_rest state queue)) }
{}

/// The law that each active frame that has spawned has its turn to pop, at the start and after each call, where those
/// that spawn have theirs. What a frame does otherwise needs no turn of it.
pub fn spawners_have_their_turns()
    // the start, and a queue that is made
    ensures start { SpawnersHaveTurns new_state }
    ensures create_root { OnTurnedTree (λ state. SpawnersHaveTurns (after_create_root state)) }
    ensures create { OnTurnedTree (λ state. (n : ℕ) (act : MayDo state n) → SpawnersHaveTurns (after_create state act.frame)) }

    // a spawn, by a frame that has its turn
    ensures spawn { OnTurnedTree (λ state. (n child : ℕ) (gives : List QueueRight) (may : MaySpawn state n child gives) → HasTurn state may.act.frame
        → SpawnersHaveTurns (after_spawn state may.act.frame child gives)) }

    // deeds of frames, and ends that are lent and come back
    ensures deed { OnTurnedTree (λ state. (n : ℕ) → MayDo state n → SpawnersHaveTurns (after_deed state n)) }
    ensures lend { OnTurnedTree (λ state. (frame : ActiveFrame) (ends : List LentEnd) → SpawnersHaveTurns (after_lend state frame ends)) }
    ensures back { OnTurnedTree (λ state. (n deeds : ℕ) → SpawnersHaveTurns (after_back state n deeds)) }

    // the end of a frame, and of all
    ensures finish { OnTurnedTree (λ state. (n : ℕ) → MayJoin state n → SpawnersHaveTurns (after_finish state n)) }
    ensures take_rest { OnTurnedTree (λ state. (queue : ℕ) → SpawnersHaveTurns (after_take_rest state queue)) }
{}

/// The law that no call takes a turn away: an active frame that has its turn to pop has it after each call for as long
/// as it is active, whoever calls. So it is for the frame that makes the call, as at a spawn for the parent, and for all
/// others. Of a child that is spawned nothing is said, since it wasn't active before.
pub fn a_turn_stays()
    // a queue that is made, and a spawn
    ensures create_root { OnTree (λ state. TurnsGoOn state (after_create_root state)) }
    ensures create { OnTree (λ state. (n : ℕ) (act : MayDo state n) → TurnsGoOn state (after_create state act.frame)) }
    ensures spawn { OnTree (λ state. (n child : ℕ) (gives : List QueueRight) (may : MaySpawn state n child gives) → TurnsGoOn state (after_spawn state may.act.frame child gives)) }

    // deeds of frames, and ends that are lent and come back
    ensures deed { OnTree (λ state. (n : ℕ) → MayDo state n → TurnsGoOn state (after_deed state n)) }
    ensures lend { OnTree (λ state. (frame : ActiveFrame) (ends : List LentEnd) → TurnsGoOn state (after_lend state frame ends)) }
    ensures back { OnTree (λ state. (n deeds : ℕ) → TurnsGoOn state (after_back state n deeds)) }

    // the end of another frame, and of all
    ensures finish { OnTree (λ state. (n : ℕ) → MayJoin state n → TurnsGoOn state (after_finish state n)) }
    ensures take_rest { OnTree (λ state. (queue : ℕ) → TurnsGoOn state (after_take_rest state queue)) }
{}

/// The law of what each call leaves of the active frames. The one that it is about becomes what the clause says, or is
/// active no more, and each other number has the same active frame as before, or none as before. A spawn is about two:
/// its parent, which has done one deed more and has one child more, and the child. Where a rest is taken all stay.
pub fn active_frames_stay()
    // a queue that is made
    ensures create_root { (state : QueueState) (root : ActiveFrame) → active state 0 ≡ Some root
        → IsOnlyFrame state (after_create_root state) 0 (Some (with_made (length state.makers) root)) }
    ensures create { OnFrames (λ state n frame. IsOnlyFrame state (after_create state frame) n (Some (with_deed (with_made (length state.makers) frame)))) }

    // a spawn: the parent, the child, and the others
    ensures spawn_parent { OnSpawnOf (λ state n frame child gives. active (after_spawn state frame child gives) n ≡ Some (with_deed (record frame { children = frame.children + 1 }))) }
    ensures spawn_child { OnSpawnOf (λ state n frame child gives. active (after_spawn state frame child gives) child ≡ Some (child_of frame child gives)) }
    ensures spawn_others { OnSpawnOf (λ state n frame child gives. (other : ℕ) → other ≢ n → other ≢ child
        → active (after_spawn state frame child gives) other ≡ active state other) }

    // deeds of frames, and ends that are lent and come back
    ensures deed { OnFrames (λ state n frame. IsOnlyFrame state (after_deed state n) n (Some (with_deed frame))) }
    ensures lend { OnFrames (λ state n frame. (ends : List LentEnd)
        → IsOnlyFrame state (after_lend state frame ends) n (Some (record frame { lent = Some (record { deeds = frame.deeds; ends = ends }) }))) }
    ensures back { OnFrames (λ state n frame. (deeds : ℕ) → IsOnlyFrame state (after_back state n deeds) n (Some (record frame { deeds = deeds; lent = None }))) }

    // the end of a frame, and of all
    ensures finish { (state : QueueState) (n : ℕ) → IsOnlyFrame state (after_finish state n) n None }
    ensures take_rest { (state : QueueState) (queue number : ℕ) → active (after_take_rest state queue) number ≡ active state number }
{}
