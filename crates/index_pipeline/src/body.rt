// The body of the index.
ghost use Rattle.std.specs.Prelude.{◌≡◌, ◌+◌, ◌*◌, ◌≤◌, ◌^◌, IfOk};
ghost use Rattle.index_pipeline.specs.Steps.{block_task, collector, collects, pairs_left, reads, words_left};

use crate::IndexLocal;
use crate::pairs::Pairs;
use crate::pairs_left::PairsLeft;
use crate::words_left::{WordsLeft, words_of};
use line_blocks::{
    HeldLines, INPUT, LineBlock, LineStep, OUTPUT, QueueReader, ReaderStep, bytes_of, gives_of,
    read_lines,
};
use std::alloc::Global;
use swan_model::{Answer, Ask, Body, Child, Give, Mode, NoMemory};

/// The root's place of the queue of words, which it makes.
const WORDS: u32 = 2;

/// The program of the index. Only `index_plan` makes one.
#[derive(Drop)]
pub struct IndexBody {
    collector_fuel: u64,
}

/// What a step leaves as the local, and what it asks for.
type Step = (IndexLocal, Ask<IndexLocal>);

/// A block task: it pushes the words of its lines.
fn block_task(alloc: Global, block: LineBlock) -> Result<Child<IndexLocal>, NoMemory>
    ensures { IfOk result (λ child. child ≡ block_task block) }
{
    let words = Give {
        place: WORDS,
        mode: Mode::Push,
    };
    let fuel = 2 * block.byte_count() + 2;
    Ok(Child {
        local: IndexLocal::Words(words_of(alloc, block)?),
        gives: gives_of(alloc, &[words])?,
        fuel,
    })
}

/// The collector's step: it keeps the pairs, and pushes them once it has them all.
fn collects(alloc: Global, step: ReaderStep<Pairs>) -> Result<Step, NoMemory>
    ensures { IfOk result (λ next. next ≡ collects step) }
{
    match step {
        ReaderStep::Tests(pairs) => Ok((
            IndexLocal::Collects(QueueReader::Tested(pairs)),
            Ask::Empty(0),
        )),
        ReaderStep::Pops(pairs) => Ok((
            IndexLocal::Collects(QueueReader::Popped(pairs)),
            Ask::Pop(0),
        )),
        ReaderStep::Takes(mut pairs, item) => {
            pairs.add(alloc, bytes_of(&item))?;
            Ok((
                IndexLocal::Collects(QueueReader::Tested(pairs)),
                Ask::Empty(0),
            ))
        }
        ReaderStep::Ends(pairs) => pairs_left(alloc, pairs.into_left(alloc)?),
    }
}

/// The push of the next word of a block, or the task's end.
fn words_left(alloc: Global, mut words: WordsLeft) -> Result<Step, NoMemory>
    ensures { IfOk result (λ step. step ≡ words_left words) }
{
    match words.take(alloc)? {
        Some(record) => Ok((IndexLocal::Words(words), Ask::Push(0, record))),
        None => Ok((IndexLocal::Ends, Ask::Finish)),
    }
}

/// The push of the next pair, or the collector's end.
fn pairs_left(alloc: Global, mut pairs: PairsLeft) -> Result<Step, NoMemory>
    ensures { IfOk result (λ step. step ≡ pairs_left pairs) }
{
    match pairs.take(alloc)? {
        Some(record) => Ok((IndexLocal::Prints(pairs), Ask::Push(1, record))),
        None => Ok((IndexLocal::Ends, Ask::Finish)),
    }
}

impl IndexBody {
    /// The program, whose collector gets this fuel. `O(1)`.
    pub(crate) fn new(collector_fuel: u64) -> IndexBody
        ensures { result ≡ record { collector_fuel = collector_fuel } }
    {
        IndexBody { collector_fuel }
    }

    /// The collector: it reads the words of all blocks, and pushes the index.
    fn collector(&self, alloc: Global) -> Result<Child<IndexLocal>, NoMemory>
        ensures { IfOk result (λ child. child ≡ collector self.now) }
    {
        let words = Give {
            place: WORDS,
            mode: Mode::Pop,
        };
        let output = Give {
            place: OUTPUT,
            mode: Mode::Push,
        };
        Ok(Child {
            local: IndexLocal::Collects(QueueReader::Looks(Pairs::new(alloc)?)),
            gives: gives_of(alloc, &[words, output])?,
            fuel: self.collector_fuel,
        })
    }

    /// The root's step as it reads: each block is given to a task, and then the collector begins.
    fn reads(&self, alloc: Global, step: LineStep) -> Result<Step, NoMemory>
        ensures { IfOk result (λ next. next ≡ reads self.now step) }
    {
        let next = match step {
            LineStep::Tests(reader) => (IndexLocal::Reads(reader), Ask::Empty(INPUT)),
            LineStep::Pops(reader) => (IndexLocal::Reads(reader), Ask::Pop(INPUT)),
            LineStep::Hands(block, reader) => {
                (
                    IndexLocal::Reads(reader),
                    Ask::Spawn(block_task(alloc, block)?),
                )
            }
            LineStep::HandsLast(block) => {
                (
                    IndexLocal::SpawnsCollector,
                    Ask::Spawn(block_task(alloc, block)?),
                )
            }
            LineStep::Ends => (IndexLocal::Ends, Ask::Spawn(self.collector(alloc)?)),
        };
        Ok(next)
    }
}

impl Body for IndexBody {
    ghost use Rattle.index_pipeline.specs.Steps.{next};

    type Local = IndexLocal;

    ghost next = { next };

    ghost place_of = { λ body local. 0 };

    /// Takes one step. Over all steps of a task it costs `O(1)` for each byte of its lines, but for the collector, which looks up
    /// each word in `O(length + log words)`.
    fn advance(
        &self,
        alloc: Global,
        local: IndexLocal,
        answer: Answer,
        _fuel: u64,
    ) -> Result<(IndexLocal, Ask<IndexLocal>), NoMemory> {
        match local {
            IndexLocal::Begins => Ok((
                IndexLocal::Reads(QueueReader::Looks(HeldLines::new(alloc))),
                Ask::NewQueue,
            )),
            IndexLocal::Reads(reader) => self.reads(alloc, read_lines(alloc, reader, answer)?),
            IndexLocal::SpawnsCollector => Ok((
                IndexLocal::Ends,
                Ask::Spawn(self.collector(alloc)?),
            )),
            IndexLocal::Words(words) => words_left(alloc, words),
            IndexLocal::Collects(reader) => collects(alloc, reader.step(answer)),
            IndexLocal::Prints(pairs) => pairs_left(alloc, pairs),
            IndexLocal::Ends => Ok((IndexLocal::Ends, Ask::Finish)),
        }
    }

    fn place(&self, _local: &IndexLocal) -> u64 {
        0
    }
}
