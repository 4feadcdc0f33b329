// A run on one thread.
ghost use Rattle.std.specs.Prelude.{◌≡◌, ◌<◌, ◌∷◌, ◌++◌, [], None, IfOk, length, option_to_list};
ghost use Rattle.swan_model.specs.Elision.{outcome};
ghost use Rattle.swan_model.specs.Script.{script};
ghost use Rattle.task_frames.specs.Resumes.{IsOpened, ends_of};
ghost use Rattle.swan_runtime.specs.Stacks.{IsStack, turns_left};

use queues::Queues;
use std::alloc::Global;
use swan_model::{Body, NoMemory};
use task_frames::{Core, Frame, Opened, Paused, Resumed, RunOutcome};

/// Takes the turn of a frame that is the top of the stack: the steps that it can take by itself, and the one that needs
/// the core. The frame that is the top then is handed out, and None comes where none is left. Err is want of memory.
fn turn<B: Body, Q: Queues>(
    alloc: Global,
    core: &mut Core<B, Q>,
    body: &B,
    below: &mut Vec<Frame<B, Q>>,
    mut frame: Frame<B, Q>,
) -> Result<Option<Frame<B, Q>>, NoMemory>
    // how the stack stands
    requires stack { IsStack (ends_of Q.Ends.LocalEnds) core.old (below.old.items ++ frame ∷ []) }
    requires body { body.now ≡ core.old.plan.body }

    // how it stands then, and that less is left to do
    ensures stack { IfOk result (λ top. IsStack (ends_of Q.Ends.LocalEnds) core.new (below.new.items ++ option_to_list top)) }
    ensures empty { IfOk result (λ top. top ≡ None → below.new.items ≡ []) }
    ensures fewer { IfOk result (λ top. turns_left (below.new.items ++ option_to_list top) < turns_left (below.old.items ++ frame ∷ [])) }
    ensures plan { core.new.plan ≡ core.old.plan }
{
    // Each `number` is there for what a frame's type says of it: it is true for its plan, so its fuel is the elision's.
    frame.number();
    match frame.run_local(alloc, body, u64::MAX) {
        Paused::AtCore(_) => {
            frame.number();
        }
        Paused::Budget(_) => {
            frame.number();
            unreachable!()
        }
        Paused::NoMemory => return Err(NoMemory),
    }
    match core.resume(alloc, body, frame) {
        Resumed::Runs(next, _) => {
            next.number();
            Ok(Some(next))
        }
        Resumed::Spawned(parent, child, _) => {
            parent.number();
            child.number();
            below.push(parent)?;
            Ok(Some(child))
        }
        Resumed::Ended(_) => Ok(below.pop()),
        Resumed::Waits(_, _) => unreachable!(),
        Resumed::Strange(_, _) => unreachable!(),
        Resumed::NoMemory => Err(NoMemory),
    }
}

/// Runs an opened core to its end, on this thread alone, and answers the outcome of the plan that the core names. NoMemory
/// is want of memory.
///
/// Its live frames stand on a stack, each child above its parent. The top is the earliest in serial order, so no frame
/// ever waits, and the run takes the elision's steps. Each turn takes one at least. It costs what the steps cost.
pub fn run_alone<B: Body, Q: Queues>(
    alloc: Global,
    opened: Opened<B, Q>,
) -> Result<RunOutcome, NoMemory>
    // what is opened
    requires opened { IsOpened (ends_of Q.Ends.LocalEnds) opened.core opened.root }
    requires body { opened.body.value ≡ opened.core.plan.body }

    // what the run leaves
    ensures outcome { IfOk result (λ ran. ran.outcome ≡ outcome B.Body opened.core.plan) }
    ensures queues { IfOk result (λ ran. length ran.outcome.queues ≡ length opened.core.plan.roots.queues) }
    ensures objects { IfOk result (λ ran. length ran.outcome.objects ≡ length opened.core.plan.roots.objects) }
    ensures script { IfOk result (λ ran. ran.script.means ≡ script B.Body opened.core.plan) }
{
    let Opened {
        mut core,
        body,
        root,
    } = opened;
    let mut below = Vec::new(alloc);
    let mut top = Some(root);
    while let Some(frame) = top {
        let Ok(next) = turn(alloc, &mut core, &body, &mut below, frame) else {
            // by calls, since what ends with its block is checked part by part
            drop(below);
            drop(core);
            return Err(NoMemory);
        };
        top = next;
    }
    if !core.is_done() {
        unreachable!();
    }
    core.take_outcome(alloc)
}
