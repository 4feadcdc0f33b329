// The body of a fold.
ghost use Rattle.std.specs.Prelude.{◌≡◌, true, IfOk};
ghost use Rattle.swan_reducers.specs.Steps.{as_part, block_task, collector, collects, item_part, pushed_end, pushes_part, reads, told};

use crate::{EndAnswer, FoldLocal, Reducer};
use line_blocks::{
    HeldLines, INPUT, LineBlock, LineStep, OUTPUT, QueueReader, ReaderStep, gives_of, read_lines,
};
use std::alloc::Global;
use std::marker::{Send, Sync};
use swan_model::{Answer, Ask, Body, Child, Give, Mode, NoMemory, Record, Trouble, Value};

/// The root's place of the queue of parts, which it makes.
const PARTS: u32 = 2;

/// The program of a fold by a reducer. Only `fold_plan` makes one.
#[derive(Drop)]
pub struct FoldBody<R> {
    reducer: R,
    collector_fuel: u64,
}

/// What a step leaves as the local, and what it asks for.
type Step = (FoldLocal, Ask<FoldLocal>);

/// A block task: it pushes the part of its lines.
fn block_task(alloc: Global, block: LineBlock) -> Result<Child<FoldLocal>, NoMemory>
    ensures { IfOk result (λ child. child ≡ block_task block) }
{
    let parts = Give {
        place: PARTS,
        mode: Mode::Push,
    };
    Ok(Child {
        local: FoldLocal::Lines(block),
        gives: gives_of(alloc, &[parts])?,
        fuel: 2,
    })
}

/// What a block task does once it has pushed its part.
fn told(bad: Option<u64>) -> Step
    ensures { result ≡ told bad }
{
    match bad {
        Some(_) => (FoldLocal::Ends, Ask::Fail(Trouble::BadNumber)),
        None => (FoldLocal::Ends, Ask::Finish),
    }
}

impl<R: Reducer> FoldBody<R> {
    // The program, whose collector gets this fuel.
    pub(crate) fn new(reducer: R, collector_fuel: u64) -> FoldBody<R>
        ensures { result ≡ record { reducer = reducer; collector_fuel = collector_fuel } }
    {
        FoldBody {
            reducer,
            collector_fuel,
        }
    }

    /// A block task's step: it pushes the fold of its lines.
    fn pushes_part(&self, alloc: Global, block: LineBlock) -> Result<Step, NoMemory>
        ensures { IfOk result (λ step. step ≡ pushes_part R.Reducer self.now.reducer block) }
    {
        let fold = self.reducer.fold_block(alloc, block)?;
        Ok((
            FoldLocal::Told(fold.bad),
            Ask::Push(0, Value::Bytes(fold.part)),
        ))
    }

    /// A record as a part: the zero stands for one that is none.
    fn as_part(&self, alloc: Global, item: Record) -> Result<Record, NoMemory>
        ensures value { IfOk result (λ part. part ≡ as_part R.Reducer self.now.reducer item) }
        ensures part { IfOk result (λ part. R.is_part self.now.reducer part ≡ true) }
    {
        if self.reducer.is_part(&item) {
            Ok(item)
        } else {
            self.reducer.zero(alloc)
        }
    }

    /// An item of the queue of parts as a part.
    fn item_part(&self, alloc: Global, item: Value) -> Result<Record, NoMemory>
        ensures value { IfOk result (λ part. part ≡ item_part R.Reducer self.now.reducer item) }
        ensures part { IfOk result (λ part. R.is_part self.now.reducer part ≡ true) }
    {
        match item {
            Value::Bytes(record) => self.as_part(alloc, record),
            Value::Int(_) => self.reducer.zero(alloc),
        }
    }

    /// What the collector asks for at last: the push of the end, or a fault.
    fn pushed_end(&self, alloc: Global, whole: Record) -> Result<Ask<FoldLocal>, NoMemory>
        ensures { IfOk result (λ asked. asked ≡ pushed_end (R.end_of self.now.reducer (as_part R.Reducer self.now.reducer whole))) }
    {
        let part = self.as_part(alloc, whole)?;
        match self.reducer.end(alloc, &part) {
            Ok(end) => Ok(Ask::Push(1, Value::Bytes(end))),
            Err(EndAnswer::Trouble(trouble)) => Ok(Ask::Fail(trouble)),
            Err(EndAnswer::NoMemory) => Err(NoMemory),
        }
    }

    /// The join of what the collector has so far with one more item.
    fn joined(&self, alloc: Global, whole: Record, item: Value) -> Result<Record, NoMemory>
        ensures { IfOk result (λ part. part ≡ R.joined self.now.reducer (as_part R.Reducer self.now.reducer whole) (item_part R.Reducer self.now.reducer item)) }
    {
        let left = self.as_part(alloc, whole)?;
        let right = self.item_part(alloc, item)?;
        self.reducer.join(alloc, &left, &right)
    }

    /// The collector's step: it joins parts, and pushes the end once it has them all.
    fn collects(&self, alloc: Global, step: ReaderStep<Record>) -> Result<Step, NoMemory>
        ensures { IfOk result (λ next. next ≡ collects R.Reducer self.now.reducer step) }
    {
        match step {
            ReaderStep::Tests(whole) => Ok((
                FoldLocal::Collects(QueueReader::Tested(whole)),
                Ask::Empty(0),
            )),
            ReaderStep::Pops(whole) => Ok((
                FoldLocal::Collects(QueueReader::Popped(whole)),
                Ask::Pop(0),
            )),
            ReaderStep::Takes(whole, item) => Ok((
                FoldLocal::Collects(QueueReader::Tested(self.joined(alloc, whole, item)?)),
                Ask::Empty(0),
            )),
            ReaderStep::Ends(whole) => Ok((FoldLocal::Ends, self.pushed_end(alloc, whole)?)),
        }
    }

    /// The collector: it reads the parts of all blocks, and pushes the end of their join.
    fn collector(&self, alloc: Global) -> Result<Child<FoldLocal>, NoMemory>
        ensures { IfOk result (λ child. child ≡ collector R.Reducer self.now) }
    {
        let parts = Give {
            place: PARTS,
            mode: Mode::Pop,
        };
        let output = Give {
            place: OUTPUT,
            mode: Mode::Push,
        };
        Ok(Child {
            local: FoldLocal::Collects(QueueReader::Looks(self.reducer.zero(alloc)?)),
            gives: gives_of(alloc, &[parts, output])?,
            fuel: self.collector_fuel,
        })
    }

    /// The root's step as it reads: each block is given to a task, and then the collector begins.
    fn reads(&self, alloc: Global, step: LineStep) -> Result<Step, NoMemory>
        ensures { IfOk result (λ next. next ≡ reads R.Reducer self.now step) }
    {
        let next = match step {
            LineStep::Tests(reader) => (FoldLocal::Reads(reader), Ask::Empty(INPUT)),
            LineStep::Pops(reader) => (FoldLocal::Reads(reader), Ask::Pop(INPUT)),
            LineStep::Hands(block, reader) => {
                (
                    FoldLocal::Reads(reader),
                    Ask::Spawn(block_task(alloc, block)?),
                )
            }
            LineStep::HandsLast(block) => {
                (
                    FoldLocal::SpawnsCollector,
                    Ask::Spawn(block_task(alloc, block)?),
                )
            }
            LineStep::Ends => (FoldLocal::Ends, Ask::Spawn(self.collector(alloc)?)),
        };
        Ok(next)
    }
}

impl<R: Reducer + Send + Sync> Body for FoldBody<R> {
    ghost use Rattle.swan_reducers.specs.Steps.{next, place_of};

    type Local = FoldLocal;

    ghost next = { next R.Reducer };

    ghost place_of = { place_of R.Reducer };

    /// Takes one step. It costs what the reducer's call costs that it makes: `fold_block` once in a block's task, and in the
    /// collector `join` for each part and `end` once; else `O(1)`, but for lists that grow now and then.
    fn advance(
        &self,
        alloc: Global,
        local: FoldLocal,
        answer: Answer,
        _fuel: u64,
    ) -> Result<(FoldLocal, Ask<FoldLocal>), NoMemory> {
        match local {
            FoldLocal::Begins => Ok((
                FoldLocal::Reads(QueueReader::Looks(HeldLines::new(alloc))),
                Ask::NewQueue,
            )),
            FoldLocal::Reads(reader) => self.reads(alloc, read_lines(alloc, reader, answer)?),
            FoldLocal::SpawnsCollector => Ok((FoldLocal::Ends, Ask::Spawn(self.collector(alloc)?))),
            FoldLocal::Lines(block) => self.pushes_part(alloc, block),
            FoldLocal::Told(bad) => Ok(told(bad)),
            FoldLocal::Collects(reader) => self.collects(alloc, reader.step(answer)),
            FoldLocal::Ends => Ok((FoldLocal::Ends, Ask::Finish)),
        }
    }

    fn place(&self, local: &FoldLocal) -> u64 {
        match local {
            FoldLocal::Told(Some(number)) => *number,
            _ => 0,
        }
    }
}
