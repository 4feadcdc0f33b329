// What takes the steps of a test.
ghost use Rattle.std.specs.Prelude.{◌≡◌, true, [], IfOk};
ghost use Rattle.turn_tests.specs.declared.step.Step.TheVariants as step;
ghost use Rattle.turn_tests.specs.Steps.{allows_step, allows_steps, after_step};

use crate::Step;
use pop_order::{Certain, PopTurns};
use std::alloc::Global;
use std::test::Fail;
use swan_model::NoMemory;

/// Lends to a child, and answers whether it may start: where it may not, nothing is done.
fn lends(turns: &mut PopTurns, child: u64) -> bool
    ensures { result ≡ true → turns.new ≡ after_step turns.old (step.Lend child) }
{
    match turns.may_start(child) {
        Ok(()) => {
            turns.lend(child);
            true
        }
        Err(_) => false,
    }
}

/// Whether `may_start` of this child answers so.
fn may_start_is(turns: &PopTurns, child: u64, answer: Result<(), u64>) -> bool {
    turns.may_start(child) == answer
}

/// Whether `popping_child` of this frame and queue answers so.
fn popping_child_is(turns: &PopTurns, frame: u64, queue: u32, answer: Option<u64>) -> bool {
    turns.popping_child(frame, queue) == answer
}

/// Whether `certain` of this frame and queue answers so.
fn certain_is(turns: &PopTurns, frame: u64, queue: u32, answer: Certain) -> bool {
    turns.certain(frame, queue) == answer
}

/// Makes a step's call, and answers whether that had the step's answer. Err is want of memory.
fn does(turns: &mut PopTurns, step: Step) -> Result<bool, NoMemory>
    requires { allows_step turns.old step ≡ true }
    ensures { IfOk result (λ right. right ≡ true → turns.new ≡ after_step turns.old step) }
{
    match step {
        Step::Enlist(parent, child, queue, mode) => {
            turns.enlist(parent, child, queue, mode)?;
            Ok(true)
        }
        Step::MayStart(child, answer) => Ok(may_start_is(turns, child, answer)),
        Step::Lend(child) => Ok(lends(turns, child)),
        Step::Back(child) => {
            turns.back(child);
            Ok(true)
        }
        Step::PoppingChild(frame, queue, answer) => {
            Ok(popping_child_is(turns, frame, queue, answer))
        }
        Step::Finds(frame, queue, answer) => Ok(certain_is(turns, frame, queue, answer)),
    }
}

/// Takes these steps. Ok holds the first one that is answered otherwise, if one is, counted from 0. Err is want of memory.
fn takes(turns: &mut PopTurns, steps: &[Step]) -> Result<Option<usize>, NoMemory>
    requires { allows_steps turns.old steps.now ≡ true }
{
    for (index, step) in steps.iter().enumerate() {
        if !does(turns, *step)? {
            return Ok(Some(index));
        }
    }
    Ok(None)
}

/// Takes these steps on turns with no frames. Err names the first step that is answered
/// otherwise, counted from 0.
pub fn run(alloc: Global, steps: &[Step]) -> Result<(), Fail>
    requires { allows_steps [] steps.now ≡ true }
{
    let mut turns = PopTurns::new(alloc);
    let taken = takes(&mut turns, steps);
    drop(turns);
    match taken? {
        Some(index) => Err(Fail::new(format_args!("another answer at step {index}"))),
        None => Ok(()),
    }
}
