// Turns of workers.
ghost use Rattle.std.specs.Prelude.{◌≡◌, ◌≢◌, ◌==◌, ◌+◌, ◌<◌, ◌≤◌, false, true, Some, None, All, IfSome, IfNone, option_to_list, if◌then◌else◌};
ghost use Rattle.named_lock.specs.Seats.{IsHeldBy, IsSameSeat, IsSeatOf, knows, lock_name};
ghost use Rattle.named_lock.specs.declared.sign.Sign.TheVariants.{Stopped};
ghost use Rattle.task_frames.specs.Resumes.{ends_of};
ghost use Rattle.swan_runtime.specs.Shared.{IsOfRun};
ghost use Rattle.swan_runtime.specs.Turned.{HasGoneOn, IsShownBySeat, MayBeAnswered, MayBeAnsweredWith, IsWorkersTurn, is_last};
ghost use Rattle.swan_runtime.specs.declared.turn.Turn.TheVariants as turn;
ghost use Rattle.swan_runtime.specs.declared.worker_turns.TheConstants.{STEPS_A_TURN};

use crate::Turn;
use crate::shared::SharedRun;
use crate::trying::Tried;
use named_lock::{Held, LockSeat, NamedLock};
use queues::Queues;
use std::alloc::Global;
use swan_model::Body;
use swan_outside::Gate;
use task_frames::{Frame, Paused, Steps};

/// How many steps a worker takes of one frame before it looks at the run's sign again.
const STEPS_A_TURN: u64 = 256;

/// Takes a ready frame, where the lock is free. What the turn answers comes back where none was taken.
fn find<B: Body, Q: Queues>(
    lock: &NamedLock<SharedRun<B, Q>>,
    seat: &mut LockSeat<SharedRun<B, Q>>,
    slot: &mut Option<Frame<B, Q>>,
) -> Option<Turn>
    // whose seat it is
    requires seat { IsSeatOf lock.now false seat.old }
    ensures seat { IsSeatOf lock.now false seat.new × IsSameSeat seat.old seat.new }

    // what is in the slot, and what is answered
    ensures frame { IfSome slot.new (IsOfRun (ends_of Q.Ends.LocalEnds) (lock_name lock.now).plan (lock_name lock.now).run) }
    ensures turn { IfSome result (λ turn. IsShownBySeat (knows seat.old) (knows seat.new) turn × (is_last turn ≡ false)) }
    ensures found { IfNone result (slot.new ≢ None) }
    ensures gone_on { HasGoneOn (knows seat.old) (knows seat.new) }
{
    *slot = None;
    let Some(mut held) = lock.try_take(seat) else {
        return Some(Turn::Busy);
    };
    *slot = held.state().take();
    lock.give(seat, held);
    match slot {
        Some(_) => None,
        None => Some(Turn::Idle),
    }
}

/// Tries a frame that has taken these steps by itself, where the lock is free. The frame that the worker goes on with is in the slot then.
fn try_under_lock<B: Body, Q: Queues>(
    alloc: Global,
    lock: &NamedLock<SharedRun<B, Q>>,
    seat: &mut LockSeat<SharedRun<B, Q>>,
    body: &B,
    slot: &mut Option<Frame<B, Q>>,
    frame: Frame<B, Q>,
    local: Steps,
) -> Turn
    // what the seat knows, and how the frame stands
    requires seat { IsSeatOf lock.now false seat.old }
    requires runs { (knows seat.old).saw_stopped ≡ false }
    requires frame { IsOfRun (ends_of Q.Ends.LocalEnds) (lock_name lock.now).plan (lock_name lock.now).run frame }
    requires mark { frame.mark ≡ true }
    requires body { body.now ≡ (lock_name lock.now).plan.body }
    requires few { local.count < STEPS_A_TURN }

    // what is answered, and what it leaves
    ensures seat { IsSeatOf lock.now false seat.new × IsSameSeat seat.old seat.new }
    ensures frame { IfSome slot.new (IsOfRun (ends_of Q.Ends.LocalEnds) (lock_name lock.now).plan (lock_name lock.now).run) }
    ensures turn { IsWorkersTurn (knows seat.old) (knows seat.new) result }
{
    *slot = None;
    let Some(mut held) = lock.try_take(seat) else {
        *slot = Some(frame);
        return lost(local);
    };
    let Ok(Tried { turn, frame }) = held.state().try_frame(alloc, body, frame) else {
        lock.give(seat, held);
        return stopped(lock, seat);
    };
    *slot = frame;
    let goes_on = settle(lock, seat, &mut held);
    lock.give(seat, held);
    if goes_on {
        told(local, turn)
    } else {
        Turn::NoMemory
    }
}

/// Sets the sign to Done where the run that is held is done. False comes exactly where that was to be done, and the run was stopped.
fn settle<B: Body, Q: Queues>(
    lock: &NamedLock<SharedRun<B, Q>>,
    seat: &mut LockSeat<SharedRun<B, Q>>,
    held: &mut Held<SharedRun<B, Q>>,
) -> bool
    // whose seat it is, and what is held
    requires seat { IsSeatOf lock.now true seat.old × IsHeldBy seat.old held.old }
    requires plan { held.old.state.core.plan ≡ (lock_name lock.now).plan }
    requires run { held.old.state.core.run ≡ (lock_name lock.now).run }
    requires owes { (knows seat.old).owes_done ≡ true → held.old.state.core.is_done ≡ true }

    // what stays
    ensures seat { IsSeatOf lock.now true seat.new × IsSameSeat seat.old seat.new × IsHeldBy seat.new held.new }
    ensures held { held.new ≡ held.old }
    ensures counts { ((knows seat.new).holds ≡ (knows seat.old).holds) × ((knows seat.new).lost ≡ (knows seat.old).lost) }

    // what the seat knows by the answer, and what it owes
    ensures yes { result ≡ true → (knows seat.new).saw_stopped ≡ (knows seat.old).saw_stopped }
    ensures lasts { (knows seat.old).saw_done ≡ true → (knows seat.new).saw_done ≡ true }
    ensures done { result ≡ true → held.old.state.core.is_done ≡ true → (knows seat.new).saw_done ≡ true }
    ensures no { result ≡ false → ((knows seat.new).sign ≡ Stopped) × ((knows seat.new).saw_stopped ≡ true) }
    ensures owes { (knows seat.new).owes_done ≡ true → held.old.state.core.is_done ≡ true }
{
    if held.state().is_done() {
        lock.finish(seat, held)
    } else {
        true
    }
}

/// What a turn answers whose memory ran out: the run is stopped, where it wasn't done before.
fn stopped<B: Body, Q: Queues>(
    lock: &NamedLock<SharedRun<B, Q>>,
    seat: &mut LockSeat<SharedRun<B, Q>>,
) -> Turn
    requires seat { IsSeatOf lock.now false seat.old }
    requires runs { (knows seat.old).saw_stopped ≡ false }
    ensures seat { IsSeatOf lock.now false seat.new × IsSameSeat seat.old seat.new }
    ensures turn { IsWorkersTurn (knows seat.old) (knows seat.new) result }
    ensures last { is_last result ≡ true }
{
    lock.stop(seat);
    if lock.is_done(seat) {
        Turn::Done
    } else {
        Turn::NoMemory
    }
}

/// What a turn answers that took these steps by itself, and then found the lock taken.
fn lost(local: Steps) -> Turn
    ensures { result ≡ (if local.count == 0 then turn.Busy else turn.Stepped local) }
{
    if local.count() == 0 {
        Turn::Busy
    } else {
        Turn::Stepped(local)
    }
}

/// What a turn answers that took these steps by itself, and then tried the frame by the core, which answered so.
fn told(local: Steps, tried: Turn) -> Turn
    requires few { local.count < STEPS_A_TURN }
    requires one { MayBeAnswered tried }
    ensures { MayBeAnsweredWith local tried result }
{
    match tried {
        Turn::Stepped(steps) => Turn::Stepped(local.add(steps)),
        Turn::Done => Turn::Done,
        other => {
            if local.count() == 0 {
                other
            } else {
                Turn::Stepped(local)
            }
        }
    }
}

/// Goes on with a frame: takes steps that need no core, and then one that needs it, where the lock is free.
fn go_on<B: Body, Q: Queues>(
    alloc: Global,
    lock: &NamedLock<SharedRun<B, Q>>,
    seat: &mut LockSeat<SharedRun<B, Q>>,
    body: &B,
    slot: &mut Option<Frame<B, Q>>,
    frame: Frame<B, Q>,
) -> Turn
    // what the seat knows, and how the frame stands
    requires seat { IsSeatOf lock.now false seat.old }
    requires runs { (knows seat.old).saw_stopped ≡ false }
    requires frame { IsOfRun (ends_of Q.Ends.LocalEnds) (lock_name lock.now).plan (lock_name lock.now).run frame }
    requires body { body.now ≡ (lock_name lock.now).plan.body }

    // what is answered, and what it leaves
    ensures seat { IsSeatOf lock.now false seat.new × IsSameSeat seat.old seat.new }
    ensures frame { IfSome slot.new (IsOfRun (ends_of Q.Ends.LocalEnds) (lock_name lock.now).plan (lock_name lock.now).run) }
    ensures turn { IsWorkersTurn (knows seat.old) (knows seat.new) result }
{
    let mut frame = frame;
    *slot = None;
    match frame.run_local(alloc, body, STEPS_A_TURN) {
        Paused::AtCore(local) => try_under_lock(alloc, lock, seat, body, slot, frame, local),
        Paused::Budget(local) => {
            *slot = Some(frame);
            Turn::Stepped(local)
        }
        Paused::NoMemory => stopped(lock, seat),
    }
}

/// Takes a turn with the frame in the slot, or with one that is ready. What it answers, and when, `Worker::turn` says. It costs what its steps
/// cost.
pub(crate) fn take_turn<B: Body, Q: Queues, G: Gate>(
    alloc: Global,
    lock: &NamedLock<SharedRun<B, Q>>,
    seat: &mut LockSeat<SharedRun<B, Q>>,
    body: &B,
    slot: &mut Option<Frame<B, Q>>,
    number: u32,
    gate: &G,
) -> Turn
    // whose seat it is, and how the frame stands
    requires seat { IsSeatOf lock.now false seat.old }
    requires frame { IfSome slot.old (IsOfRun (ends_of Q.Ends.LocalEnds) (lock_name lock.now).plan (lock_name lock.now).run) }
    requires body { body.now ≡ (lock_name lock.now).plan.body }

    // what is answered, and what it leaves
    ensures seat { IsSeatOf lock.now false seat.new × IsSameSeat seat.old seat.new }
    ensures frame { IfSome slot.new (IsOfRun (ends_of Q.Ends.LocalEnds) (lock_name lock.now).plan (lock_name lock.now).run) }
    ensures turn { IsWorkersTurn (knows seat.old) (knows seat.new) result }
{
    if lock.is_done(seat) {
        return Turn::Done;
    }
    if lock.is_stopped(seat) {
        return Turn::NoMemory;
    }
    if slot.is_none() {
        if let Some(turn) = find(lock, seat, slot) {
            return turn;
        }
    }
    let Some(frame) = slot.take() else {
        unreachable!()
    };
    gate.enter(number, frame.path());
    go_on(alloc, lock, seat, body, slot, frame)
}
