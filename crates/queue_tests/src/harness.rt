// Tables are run.
ghost use Rattle.std.specs.Prelude.{◌≡◌, true, None, OnOk};
ghost use Rattle.swan_model.specs.QueueState.{new_state};
ghost use Rattle.queue_tests.specs.Steps.{after_step, after_steps, after_use, allows_step, allows_steps, allows_use};

use crate::{Step, Use, Wrong, WrongStep, calls};
use queues::Queues;
use std::alloc::Global;

/// Uses a queue in this way, which has to give its answer.
fn make_use<Q: Queues>(queues: &mut Q, frame: u64, queue: u32, way: Use) -> Result<(), Wrong>
    requires free { Q.name queues.old ≡ None }
    requires may { allows_use (Q.state queues.old) frame queue way ≡ true }
    ensures free { Q.name queues.new ≡ None }
    ensures after { OnOk result (Q.state queues.new ≡ after_use (Q.state queues.old) frame way) }
{
    match way {
        Use::Push(item) => calls::push(queues, frame, queue, item),
        Use::Pop(item) => calls::pop(queues, frame, queue, item),
        Use::PopNone => calls::pop_none(queues, frame, queue),
        Use::PopWait(cause) => calls::pop_wait(queues, frame, queue, cause),
        Use::Test(answer) => calls::test(queues, frame, queue, answer),
        Use::Look(answer) => calls::look(queues, frame, queue, answer),
    }
}

/// Makes one call, which has to give its answer.
fn make<Q: Queues>(queues: &mut Q, alloc: Global, step: Step) -> Result<(), Wrong>
    requires free { Q.name queues.old ≡ None }
    requires may { allows_step (Q.state queues.old) step ≡ true }
    ensures free { Q.name queues.new ≡ None }
    ensures after { OnOk result (Q.state queues.new ≡ after_step (Q.state queues.old) step.entry) }
{
    match step {
        Step::CreateRoot(number, item) => calls::create_root(queues, alloc, number, item),
        Step::Create(frame, number) => calls::create(queues, frame, number),
        Step::Spawn(parent, child, queue, mode) => calls::spawn(queues, parent, child, queue, mode),
        Step::MayStart(child, blocker) => calls::may_start(queues, child, blocker),
        Step::Use(frame, queue, way) => make_use(queues, frame, queue, way),
        Step::Finish(frame) => {
            calls::finish(queues, frame);
            Ok(())
        }
        Step::TakeRest(queue, items) => calls::take_rest(queues, queue, items),
    }
}

/// Makes the calls of a table on new hyperqueues of the free name. Err is the first one that gives another answer, or
/// for which there is no memory.
pub fn run<Q: Queues>(queues: &mut Q, alloc: Global, steps: &[Step]) -> Result<(), WrongStep>
    requires free { Q.name queues.old ≡ None }
    requires new { Q.state queues.old ≡ new_state }
    requires may { allows_steps new_state steps.now ≡ true }
    ensures free { Q.name queues.new ≡ None }
    ensures after { OnOk result (Q.state queues.new ≡ after_steps new_state steps.now) }
{
    for index in 0..steps.len() {
        match make(queues, alloc, steps[index]) {
            Ok(()) => {}
            Err(wrong) => return Err(WrongStep { step: index, wrong }),
        }
    }
    Ok(())
}
