// Laws of the turns of poppers beside hyperqueues.
ghost use Rattle.std.specs.Prelude.{◌≡◌, ◌↔◌, ℕ, ◌++◌, ◌∷◌, List, [], Some, false, true};
ghost use Rattle.pop_order.specs.Frames.{AreUpTo, Frames, HasNoChild, MayBeEnlisted, frames_after_enlist, frames_after_lend, without};
ghost use Rattle.pop_order.specs.Order.{ComesBefore};
ghost use Rattle.pop_order.specs.Turns.{Blocks, IsAnswer};
ghost use Rattle.pop_order.specs.declared.certain.Certain.{Certain};
ghost use Rattle.swan_model.specs.declared.rights.Mode.{Mode};
ghost use Rattle.swan_model.specs.PathOrder.{comes_before};
ghost use Rattle.swan_model.specs.QueueState.{ActiveFrame, HasTurn, IsUntouched, LentEnd, QueueRight, QueueState, active, after_back, after_create, after_create_root, after_deed, after_finish, after_lend, after_spawn, after_take_rest, holds_queue, new_state};
ghost use Rattle.queues.specs.Asks.{MayDo, MayJoin, MaySpawn};
ghost use Rattle.queues.specs.Tells.{IsBlockedBy};
ghost use Rattle.queues.specs.Tree.{has_queue};
ghost use Rattle.queues.specs.Turned.{AreApart, AreGivenTurns, AreOlder, AreTurns, IsToldBy, OnTreeTurns, OnTurns, gives_queue, holding_of};

/// The law that turns which are kept beside hyperqueues are those of their frames, at the start and after each call. A
/// spawn enlists the child once for each queue that it is given, one after the other (`first`, `newest`, `may_get`,
/// `more`), and then the turns are those of the state after it (`spawn`). A frame's turn goes with its finish. All other
/// calls leave the turns, and they may be told that queue views have moved (`moved`).
pub fn turns_stay()
    // the start, and a queue that is made
    ensures start { AreTurns new_state [] }
    ensures create_root { OnTreeTurns (λ state turns. IsUntouched state → AreTurns (after_create_root state) turns) }
    ensures create { OnTreeTurns (λ state turns. (n : ℕ) (act : MayDo state n) → AreTurns (after_create state act.frame) turns) }

    // a spawn: before it all are older than the child, which is then enlisted for one queue after the other
    ensures older { OnTreeTurns (λ state turns. (n child : ℕ) (gives : List QueueRight) → MaySpawn state n child gives → AreOlder turns child) }
    ensures first { (turns : Frames) (parent child : ℕ) → AreOlder turns child → AreGivenTurns turns turns parent child [] }
    ensures newest { (before now : Frames) (parent child : ℕ) (gives : List QueueRight) → AreOlder before child → AreApart before
        → AreGivenTurns before now parent child gives → AreUpTo now child }
    ensures may_get { (before now : Frames) (parent child queue : ℕ) (gives : List QueueRight) → AreGivenTurns before now parent child gives
        → gives_queue gives queue ≡ false → MayBeEnlisted now parent child queue }
    ensures more { (before now : Frames) (parent child : ℕ) (gives : List QueueRight) (give : QueueRight) → AreGivenTurns before now parent child gives
        → AreGivenTurns before (frames_after_enlist now parent child (holding_of give)) parent child (gives ++ give ∷ []) }
    ensures spawn { OnTreeTurns (λ state turns. (now : Frames) (n child : ℕ) (gives : List QueueRight) (may : MaySpawn state n child gives)
        → AreGivenTurns turns now n child gives → AreTurns (after_spawn state may.act.frame child gives) now) }

    // deeds of frames, and ends that are lent and come back
    ensures deed { OnTurns (λ state turns. (n : ℕ) → MayDo state n → AreTurns (after_deed state n) turns) }
    ensures lend { OnTurns (λ state turns. (n : ℕ) (frame : ActiveFrame) (ends : List LentEnd) → active state n ≡ Some frame
        → AreTurns (after_lend state frame ends) turns) }
    ensures back { OnTurns (λ state turns. (n deeds : ℕ) (frame : ActiveFrame) → active state n ≡ Some frame → AreTurns (after_back state n deeds) turns) }
    ensures moved { OnTurns (λ state turns. (child : ℕ) → AreTurns state (frames_after_lend turns child)) }

    // the end of a frame, and of all
    ensures childless { OnTurns (λ state turns. (n : ℕ) → MayJoin state n → HasNoChild turns n) }
    ensures finish { OnTurns (λ state turns. (n : ℕ) → AreTurns (after_finish state n) (without turns n)) }
    ensures take_rest { OnTurns (λ state turns. (queue : ℕ) → AreTurns (after_take_rest state queue) turns) }
{}

/// The law that turns which are those of a state tell what its frames are. Where no frame keeps another one
/// from starting, that one has its turn; and who does is active, and comes first in serial order. By the turns
/// a frame keeps another one from starting exactly where it does so by the state, as an older sibling that pops
/// what that one pops. Who comes first by the turns comes first by its path, and, of two frames that may use
/// one queue, the other way round. So `certain` answers whom a wait would name, or that there is none to wait
/// for; whether the next item is ripe all the same, turns don't tell.
pub fn turns_tell_who_may_pop()
    // who may start, and who keeps another one from it
    ensures start { OnTreeTurns (λ state turns. (n : ℕ) (frame : ActiveFrame) → active state n ≡ Some frame
        → ((older : ℕ) → ¬ Blocks turns n older) → HasTurn state frame) }
    ensures blocker { OnTreeTurns (λ state turns. (n older : ℕ) (frame : ActiveFrame) → active state n ≡ Some frame → Blocks turns n older
        → (blocker : ActiveFrame) × (active state older ≡ Some blocker) × (comes_before blocker.path frame.path ≡ true)) }
    ensures blocks { OnTreeTurns (λ state turns. (n older : ℕ) → Blocks turns n older ↔ IsBlockedBy state n older) }

    // who comes first, by the turns and by the paths
    ensures earlier { OnTreeTurns (λ state turns. (n m : ℕ) (earlier later : ActiveFrame) → active state n ≡ Some earlier → active state m ≡ Some later
        → ComesBefore turns n m → comes_before earlier.path later.path ≡ true) }
    ensures before { OnTreeTurns (λ state turns. (queue n m : ℕ) (earlier_mode later_mode : Mode) (earlier later : ActiveFrame)
        → active state n ≡ Some earlier → active state m ≡ Some later → holds_queue earlier queue earlier_mode ≡ true → holds_queue later queue later_mode ≡ true
        → comes_before earlier.path later.path ≡ true → ComesBefore turns n m) }

    // whom a wait names
    ensures answer { OnTreeTurns (λ state turns. (n queue : ℕ) (frame : ActiveFrame) (answer : Certain) → active state n ≡ Some frame
        → has_queue frame queue ≡ true → IsAnswer turns n queue answer → IsToldBy state frame queue answer) }
{}
