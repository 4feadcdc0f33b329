// Tries of frames by the core.
ghost use Rattle.std.specs.Prelude.{◌≡◌, ◌≢◌, ◌+◌, ◌++◌, ◌∷◌, [], ℕ, List, Some, None, IfOk, IfSome, OnOk, length, option_to_list, false, true};
ghost use Rattle.swan_model.specs.declared.plan.Plan.{Plan};
ghost use Rattle.task_frames.specs.Resumes.{ends_of};
ghost use Rattle.swan_runtime.specs.Beds.{AreOnlySleepers, HasEntered, HasGoneToBed, NoneAwaits, OnlyWoke, bed_of};
ghost use Rattle.swan_runtime.specs.Shared.{AreOfRun, AsleepIsOfRun, IsOfRun, IsOnTop, KeepsOfRun, sleeper_count, sleepers_at};
ghost use Rattle.swan_runtime.specs.Turned.{IsOneTry};
ghost use Rattle.swan_runtime.specs.Woken.{IsWokenBy};

use crate::Turn;
use crate::asleep::Asleep;
use queues::Queues;
use std::alloc::Global;
use swan_model::{Body, NoMemory};
use task_frames::{Core, Frame, Resumed, Steps, Waited};

/// What came of a frame that was tried.
#[derive(Drop)]
pub(crate) struct Tried<B: Body, Q: Queues> {
    /// What the core answered.
    pub turn: Turn,
    /// The frame that the worker goes on with, where there is one.
    pub frame: Option<Frame<B, Q>>,
}

/// After a step of a frame that asked about this queue, those are ready that waited for a push to it; after its first step all are that waited
/// for a push of it. Err is want of memory.
fn has_run<B: Body, Q: Queues>(
    asleep: &mut Asleep<B, Q>,
    ready: &mut Vec<Frame<B, Q>>,
    frame: Frame<B, Q>,
    had_begun: bool,
    asked: Option<u32>,
    steps: Steps,
) -> Result<Tried<B, Q>, NoMemory>
    // that one step was taken
    requires one { steps.count ≡ 1 }

    // what is answered, and that all frames stay of their run
    ensures tried { IfOk result (λ tried. IsOneTry tried.turn) }
    ensures frame { IfOk result (λ tried. tried.frame ≡ Some frame) }
    ensures kept { KeepsOfRun (ends_of Q.Ends.LocalEnds) [] asleep.old asleep.new ready.old.items ready.new.items }

    // whom the step wakes, and that none is lost
    ensures woken { OnOk result (IfSome asked (λ queue. NoneAwaits queue (sleepers_at asleep.new frame.task.number))) }
    ensures first { OnOk result (had_begun ≡ false → (queue : ℕ) → NoneAwaits queue (sleepers_at asleep.new frame.task.number)) }
    ensures sleepers { OnlyWoke frame.task.number asleep.old asleep.new }
    ensures none_lost { OnOk result (length ready.new.items + sleeper_count (sleepers_at asleep.new frame.task.number)
        ≡ length ready.old.items + sleeper_count (sleepers_at asleep.old frame.task.number)) }
{
    asleep.wake_by_step(ready, frame.number(), had_begun, asked)?;
    Ok(Tried {
        turn: Turn::Stepped(steps),
        frame: Some(frame),
    })
}

/// After a spawn the parent is ready, and the worker goes on with the child. Err is want of memory.
fn has_spawned<B: Body, Q: Queues>(
    alloc: Global,
    asleep: &mut Asleep<B, Q>,
    ready: &mut Vec<Frame<B, Q>>,
    parent: Frame<B, Q>,
    child: Frame<B, Q>,
    steps: Steps,
) -> Result<Tried<B, Q>, NoMemory>
    // that one step was taken
    requires one { steps.count ≡ 1 }

    // what is answered, and that all frames stay of their run
    ensures tried { IfOk result (λ tried. IsOneTry tried.turn) }
    ensures frame { IfOk result (λ tried. tried.frame ≡ Some child) }
    ensures kept { KeepsOfRun (ends_of Q.Ends.LocalEnds) (parent ∷ []) asleep.old asleep.new ready.old.items ready.new.items }

    // who has come in, that the parent is the first of those that are ready, and that none is lost
    ensures entered { OnOk result (HasEntered asleep.old asleep.new parent.task.number child.task.number child.task.holdings) }
    ensures ready { OnOk result (IsOnTop parent ready.new.items) }
    ensures none_lost { OnOk result (parent.task.number ≢ child.task.number → length ready.new.items + sleeper_count (sleepers_at asleep.new parent.task.number)
        ≡ length ready.old.items + sleeper_count (sleepers_at asleep.old parent.task.number) + 1) }
{
    asleep.enter(
        alloc,
        ready,
        parent.number(),
        child.number(),
        child.holdings(),
    )?;
    ready.push(parent)?;
    Ok(Tried {
        turn: Turn::Stepped(steps),
        frame: Some(child),
    })
}

/// After the end of a frame all are ready that waited for it, and the worker goes on with one that is ready. Err is want of memory.
fn has_ended<B: Body, Q: Queues>(
    asleep: &mut Asleep<B, Q>,
    ready: &mut Vec<Frame<B, Q>>,
    number: u64,
    steps: Steps,
) -> Result<Tried<B, Q>, NoMemory>
    // that one step was taken
    requires one { steps.count ≡ 1 }

    // what is answered, and that all frames stay of their run
    ensures tried { IfOk result (λ tried. IsOneTry tried.turn) }
    ensures frame { (plan : Plan B B.Local) (run : List ℕ) → AsleepIsOfRun (ends_of Q.Ends.LocalEnds) plan run asleep.old
        → AreOfRun (ends_of Q.Ends.LocalEnds) plan run ready.old.items → IfOk result (λ tried. IfSome tried.frame (IsOfRun (ends_of Q.Ends.LocalEnds) plan run)) }
    ensures kept { KeepsOfRun (ends_of Q.Ends.LocalEnds) [] asleep.old asleep.new ready.old.items ready.new.items }

    // whom the end wakes, and what stays
    ensures none_lost { IfOk result (λ tried. length (ready.new.items ++ option_to_list tried.frame) ≡ length ready.old.items + sleeper_count (sleepers_at asleep.old number)) }
    ensures gone { AreOnlySleepers asleep.old asleep.new number None }
{
    asleep.wake_all(ready, number)?;
    let frame = ready.pop();
    Ok(Tried {
        turn: Turn::Stepped(steps),
        frame,
    })
}

/// A frame that has to wait sleeps, and the worker goes on with one that is ready. Err is want of memory.
fn has_to_wait<B: Body, Q: Queues>(
    asleep: &mut Asleep<B, Q>,
    ready: &mut Vec<Frame<B, Q>>,
    frame: Frame<B, Q>,
    waited: Waited,
) -> Result<Tried<B, Q>, NoMemory>
    // what is answered, and that all frames stay of their run
    ensures tried { IfOk result (λ tried. IsOneTry tried.turn) }
    ensures frame { (plan : Plan B B.Local) (run : List ℕ) → IsOfRun (ends_of Q.Ends.LocalEnds) plan run frame → AsleepIsOfRun (ends_of Q.Ends.LocalEnds) plan run asleep.old
        → AreOfRun (ends_of Q.Ends.LocalEnds) plan run ready.old.items → IfOk result (λ tried. IfSome tried.frame (IsOfRun (ends_of Q.Ends.LocalEnds) plan run)) }
    ensures kept { KeepsOfRun (ends_of Q.Ends.LocalEnds) (frame ∷ []) asleep.old asleep.new ready.old.items ready.new.items }

    // where the frame sleeps, or that it is ready
    ensures bed { IfOk result (λ tried. HasGoneToBed (bed_of asleep.old frame.task.number waited.wait) asleep.old asleep.new ready.old.items
        (ready.new.items ++ option_to_list tried.frame) frame waited.wait) }
{
    asleep.sleep(ready, frame, waited.wait())?;
    let next = ready.pop();
    Ok(Tried {
        turn: Turn::NotYet(waited),
        frame: next,
    })
}

/// Tries a frame by the core, which takes its next step or tells why not, and lets those be ready whose wait that may end. The worker goes on
/// with the frame; or after a spawn with the child, and the parent is ready; or after an end or a wait with one that is ready. A frame that has
/// to wait sleeps.
///
/// Err is want of memory. It costs what the core's step costs, and `O(k log n)` for k places of the frame and its child, and `O(1)` amortised
/// for each frame that wakes.
pub(crate) fn try_by_core<B: Body, Q: Queues>(
    alloc: Global,
    core: &mut Core<B, Q>,
    asleep: &mut Asleep<B, Q>,
    ready: &mut Vec<Frame<B, Q>>,
    body: &B,
    frame: Frame<B, Q>,
) -> Result<Tried<B, Q>, NoMemory>
    // how the frame stands, and that all frames are of the run of the core
    requires frame { IsOfRun (ends_of Q.Ends.LocalEnds) core.old.plan core.old.run frame }
    requires mark { frame.mark ≡ true }
    requires body { body.now ≡ core.old.plan.body }
    requires asleep { AsleepIsOfRun (ends_of Q.Ends.LocalEnds) core.old.plan core.old.run asleep.old }
    requires ready { AreOfRun (ends_of Q.Ends.LocalEnds) core.old.plan core.old.run ready.old.items }

    // what is answered
    ensures tried { IfOk result (λ tried. IsOneTry tried.turn) }
    ensures frame { IfOk result (λ tried. IfSome tried.frame (IsOfRun (ends_of Q.Ends.LocalEnds) core.old.plan core.old.run)) }

    // whom the core's answer wakes, and where the frame goes
    ensures woken { IfOk result (λ tried. IsWokenBy frame asleep.old asleep.new ready.old.items ready.new.items tried.frame B.Body (ends_of Q.Ends.LocalEnds)
        core.old core.new) }

    // what it leaves
    ensures asleep { AsleepIsOfRun (ends_of Q.Ends.LocalEnds) core.old.plan core.old.run asleep.new }
    ensures ready { AreOfRun (ends_of Q.Ends.LocalEnds) core.old.plan core.old.run ready.new.items }
    ensures plan { core.new.plan ≡ core.old.plan }
    ensures run { core.new.run ≡ core.old.run }
{
    let number = frame.number();
    let had_begun = frame.has_begun();
    let asked = frame.asked_queue();
    match core.resume(alloc, body, frame) {
        Resumed::Runs(frame, steps) => has_run(asleep, ready, frame, had_begun, asked, steps),
        Resumed::Spawned(parent, child, steps) => {
            has_spawned(alloc, asleep, ready, parent, child, steps)
        }
        Resumed::Ended(steps) => has_ended(asleep, ready, number, steps),
        Resumed::Waits(frame, waited) => has_to_wait(asleep, ready, frame, waited),
        Resumed::Strange(frame, foreign) => Ok(Tried {
            turn: Turn::Strange(foreign),
            frame: Some(frame),
        }),
        Resumed::NoMemory => Err(NoMemory),
    }
}
