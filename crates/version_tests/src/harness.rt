// What takes the steps of a test.
ghost use Rattle.std.specs.Prelude.{◌≡◌, true, IfOk, OnOk};
ghost use Rattle.swan_model.specs.Versions.{new_versions};
ghost use Rattle.version_tests.specs.declared.step.Step.TheVariants as step;
ghost use Rattle.version_tests.specs.Steps.{allows_step, allows_steps, after_step};

use crate::Step;
use object_versions::Versions;
use std::alloc::Global;
use std::test::Fail;
use swan_model::{Mode, NoMemory, Record, Value};

/// Makes an object with a number.
fn creates(versions: &mut Versions, frame: u64, place: u32, first: i64) -> Result<(), NoMemory>
    requires { allows_step versions.old (step.Create frame place first) ≡ true }
    ensures { OnOk result (versions.new ≡ after_step versions.old (step.Create frame place first)) }
{
    versions.create(frame, place, Value::Int(first))
}

/// Makes an object with a record.
fn creates_record(
    versions: &mut Versions,
    alloc: Global,
    frame: u64,
    place: u32,
    bytes: [u8; 2],
) -> Result<(), NoMemory>
    requires { allows_step versions.old (step.CreateRecord frame place bytes) ≡ true }
    ensures { OnOk result (versions.new ≡ after_step versions.old (step.CreateRecord frame place bytes)) }
{
    match Record::of(alloc, &bytes) {
        Ok(record) => versions.create(frame, place, Value::Bytes(record)),
        Err(_) => Err(NoMemory),
    }
}

/// Gives a child an object.
fn gives(
    versions: &mut Versions,
    parent: u64,
    place: u32,
    child: u64,
    child_place: u32,
    mode: Mode,
) -> Result<(), NoMemory>
    requires { allows_step versions.old (step.Access parent place child child_place mode) ≡ true }
    ensures { OnOk result (versions.new ≡ after_step versions.old (step.Access parent place child child_place mode)) }
{
    versions.access(parent, place, child, child_place, mode)
}

/// Whether a frame reads this number, or waits for this frame.
fn reads(versions: &Versions, frame: u64, place: u32, answer: Result<i64, u64>) -> bool
    requires { allows_step versions.now (step.Reads frame place answer) ≡ true }
{
    match versions.value(frame, place) {
        Ok(Value::Int(number)) => answer == Ok(*number),
        Ok(Value::Bytes(_)) => false,
        Err(owing) => answer == Err(owing),
    }
}

/// Whether a frame reads a record of so many bytes.
fn reads_record(versions: &Versions, frame: u64, place: u32, size: usize) -> bool
    requires { allows_step versions.now (step.ReadsRecord frame place size) ≡ true }
{
    match versions.value(frame, place) {
        Ok(Value::Bytes(record)) => record.as_slice().len() == size,
        _ => false,
    }
}

/// Writes a number.
fn writes(versions: &mut Versions, frame: u64, place: u32, number: i64) -> Result<(), NoMemory>
    requires { allows_step versions.old (step.Write frame place number) ≡ true }
    ensures { OnOk result (versions.new ≡ after_step versions.old (step.Write frame place number)) }
{
    versions.write(frame, place, Value::Int(number))
}

/// Ends a frame.
fn ends(versions: &mut Versions, frame: u64) -> Result<(), NoMemory>
    requires { allows_step versions.old (step.Finish frame) ≡ true }
    ensures { OnOk result (versions.new ≡ after_step versions.old (step.Finish frame)) }
{
    versions.finish(frame)
}

/// Whether the objects answer a step as they have to. A step that only changes them has no answer.
fn answers(versions: &Versions, step: Step) -> bool
    requires { allows_step versions.now step ≡ true }
{
    match step {
        Step::Ready(frame, answer) => versions.ready(frame) == answer,
        Step::Reads(frame, place, answer) => reads(versions, frame, place, answer),
        Step::ReadsRecord(frame, place, size) => reads_record(versions, frame, place, size),
        Step::Create(_, _, _) => true,
        Step::CreateRecord(_, _, _) => true,
        Step::Access(_, _, _, _, _) => true,
        Step::Write(_, _, _) => true,
        Step::Finish(_) => true,
    }
}

/// Makes a step's change. A step that only asks for an answer has none.
fn changes(versions: &mut Versions, alloc: Global, step: Step) -> Result<(), NoMemory>
    requires { allows_step versions.old step ≡ true }
    ensures { OnOk result (versions.new ≡ after_step versions.old step) }
{
    match step {
        Step::Create(frame, place, first) => creates(versions, frame, place, first),
        Step::CreateRecord(frame, place, bytes) => {
            creates_record(versions, alloc, frame, place, bytes)
        }
        Step::Access(parent, place, child, child_place, mode) => {
            gives(versions, parent, place, child, child_place, mode)
        }
        Step::Ready(_, _) => Ok(()),
        Step::Reads(_, _, _) => Ok(()),
        Step::ReadsRecord(_, _, _) => Ok(()),
        Step::Write(frame, place, number) => writes(versions, frame, place, number),
        Step::Finish(frame) => ends(versions, frame),
    }
}

/// Makes a step's call, and answers whether that had the step's answer. Err is want of memory.
fn does(versions: &mut Versions, alloc: Global, step: Step) -> Result<bool, NoMemory>
    requires { allows_step versions.old step ≡ true }
    ensures { IfOk result (λ right. right ≡ true → versions.new ≡ after_step versions.old step) }
{
    if !answers(versions, step) {
        return Ok(false);
    }
    changes(versions, alloc, step)?;
    Ok(true)
}

/// That the step of this index is answered otherwise.
fn another_answer(index: usize) -> Fail {
    Fail::new(format_args!("another answer at step {index}"))
}

/// Takes these steps. Err names the first step that is answered otherwise, counted from 0.
fn follow(versions: &mut Versions, alloc: Global, steps: &[Step]) -> Result<(), Fail>
    requires { allows_steps versions.old steps.now ≡ true }
{
    for (index, step) in steps.iter().enumerate() {
        if !does(versions, alloc, *step)? {
            return Err(another_answer(index));
        }
    }
    Ok(())
}

/// Takes these steps on no objects, and answers the objects that they leave. Err names the first step that
/// is answered otherwise, counted from 0.
pub fn run(alloc: Global, steps: &[Step]) -> Result<Versions, Fail>
    requires { allows_steps new_versions steps.now ≡ true }
{
    let mut versions = Versions::new(alloc);
    follow(&mut versions, alloc, steps)?;
    Ok(versions)
}
