// The body of the conversion.
ghost use Rattle.std.specs.Prelude.{◌≡◌, ◌≤◌, [], ◌∷◌, length, IfOk};
ghost use Rattle.swan_model.specs.declared.rights.Mode.TheVariants.{Push};
ghost use Rattle.record_pipeline.specs.Conversion.{trouble_of};
ghost use Rattle.record_pipeline.specs.Steps.{block_task, converted, reads, spawns_lines};

use crate::RecordLocal;
use crate::fields::{field_count, netstrings};
use line_blocks::{INPUT, LineBlock, LineStep, OUTPUT, bytes_of, gives_of, read_lines};
use std::alloc::Global;
use swan_model::{
    Answer, Ask, Body, Child, Give, Mode, NoMemory, RECORD_MOST, Record, RecordAnswer, Trouble,
    Value,
};

/// The program of the conversion of a text. Only `record_plan` makes one.
#[derive(Drop)]
pub struct RecordBody {
    // how many fields a line has that isn't left out
    width: u64,
}

/// What a step leaves as the local, and what it asks for.
type Step = (RecordLocal, Ask<RecordLocal>);

/// A child that may push to one place of its parent.
fn pusher(
    alloc: Global,
    local: RecordLocal,
    place: u32,
    fuel: u64,
) -> Result<Child<RecordLocal>, NoMemory>
    ensures { IfOk result (λ child. child ≡ record { local = local; gives = (record { place = place; mode = Push }) ∷ []; fuel = fuel }) }
{
    let give = Give {
        place,
        mode: Mode::Push,
    };
    Ok(Child {
        local,
        gives: gives_of(alloc, &[give])?,
        fuel,
    })
}

/// A block task: it spawns a task for each of its lines.
fn block_task(alloc: Global, block: LineBlock) -> Result<Child<RecordLocal>, NoMemory>
    ensures { IfOk result (λ child. child ≡ block_task block) }
{
    let fuel = 3 * block.len() as u64 + 1;
    pusher(alloc, RecordLocal::Lines(block), OUTPUT, fuel)
}

/// The root's step as it reads: each block is given to a task.
fn reads(alloc: Global, step: LineStep) -> Result<Step, NoMemory>
    ensures { IfOk result (λ next. next ≡ reads step) }
{
    let next = match step {
        LineStep::Tests(reader) => (RecordLocal::Reads(reader), Ask::Empty(INPUT)),
        LineStep::Pops(reader) => (RecordLocal::Reads(reader), Ask::Pop(INPUT)),
        LineStep::Hands(block, reader) => {
            (
                RecordLocal::Reads(reader),
                Ask::Spawn(block_task(alloc, block)?),
            )
        }
        LineStep::HandsLast(block) => (RecordLocal::Ends, Ask::Spawn(block_task(alloc, block)?)),
        LineStep::Ends => (RecordLocal::Ends, Ask::Finish),
    };
    Ok(next)
}

/// The spawn of the next line's task of a block, or the block task's end.
fn spawns_lines(alloc: Global, mut block: LineBlock) -> Result<Step, NoMemory>
    ensures { IfOk result (λ step. step ≡ spawns_lines block.number block.lines) }
{
    let number = block.number();
    match block.take() {
        Some(line) => {
            let child = pusher(alloc, RecordLocal::Line(number, line), 0, 2)?;
            Ok((RecordLocal::Lines(block), Ask::Spawn(child)))
        }
        None => Ok((RecordLocal::Ends, Ask::Finish)),
    }
}

/// What the task of a line asks for: the push of its record, or the fault of a line that is left out.
fn converted(alloc: Global, width: u64, line: &[u8]) -> Result<Ask<RecordLocal>, NoMemory>
    requires { length line.now ≤ RECORD_MOST }
    ensures { IfOk result (λ asked. asked ≡ converted (trouble_of width line.now) line.now) }
{
    let count = field_count(line);
    if count != width {
        return Ok(Ask::Fail(Trouble::User(1)));
    }
    match Record::from_vec(netstrings(alloc, line, count)?) {
        Ok(record) => Ok(Ask::Push(0, Value::Bytes(record))),
        Err(RecordAnswer::TooLong) => Ok(Ask::Fail(Trouble::TooLong)),
        Err(RecordAnswer::NoMemory) => Err(NoMemory),
    }
}

impl RecordBody {
    // The program for lines of this many fields.
    pub(crate) fn new(width: u64) -> RecordBody
        ensures { result ≡ record { width = width } }
    {
        RecordBody { width }
    }
}

impl Body for RecordBody {
    ghost use Rattle.record_pipeline.specs.Steps.{next, place_of};

    type Local = RecordLocal;

    ghost next = { next };

    ghost place_of = { place_of };

    /// Takes one step. `O(1)`, but for the step that makes the netstrings of a line, which is linear in it, and for lists that
    /// grow now and then.
    fn advance(
        &self,
        alloc: Global,
        local: RecordLocal,
        answer: Answer,
        _fuel: u64,
    ) -> Result<(RecordLocal, Ask<RecordLocal>), NoMemory> {
        match local {
            RecordLocal::Reads(reader) => reads(alloc, read_lines(alloc, reader, answer)?),
            RecordLocal::Lines(block) => spawns_lines(alloc, block),
            RecordLocal::Line(number, line) => {
                let asked = converted(alloc, self.width, bytes_of(&line))?;
                Ok((RecordLocal::Done(number), asked))
            }
            RecordLocal::Done(number) => Ok((RecordLocal::Done(number), Ask::Finish)),
            RecordLocal::Ends => Ok((RecordLocal::Ends, Ask::Finish)),
        }
    }

    fn place(&self, local: &RecordLocal) -> u64 {
        match local {
            RecordLocal::Line(number, _) => *number,
            RecordLocal::Done(number) => *number,
            _ => 0,
        }
    }
}
