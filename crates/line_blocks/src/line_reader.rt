// The loop of a task that reads lines in blocks.
ghost use Rattle.std.specs.Prelude.{◌≡◌, IfOk};
ghost use Rattle.line_blocks.specs.LineReading.{held_step, last_step, line_step};
ghost use Rattle.line_blocks.specs.Readers.{step_of};

use crate::{AfterLine, HeldLines, LineBlock, QueueReader, ReaderStep};
use std::alloc::Global;
use swan_model::{Answer, NoMemory};

/// Where a task stands that reads the lines of a text and hands them out in blocks: it holds those of which there
/// is no block yet.
pub type LineReader = QueueReader<HeldLines>;

/// What a task that reads lines in blocks does next, and where it stands then.
#[derive(Drop)]
pub enum LineStep {
    /// It asks whether a line is left.
    Tests(LineReader),
    /// It asks for a line.
    Pops(LineReader),
    /// It hands out a full block, and reads on.
    Hands(LineBlock, LineReader),
    /// It hands out the last lines, of which there is at least one, and is through.
    HandsLast(LineBlock),
    /// It is through, and holds no line.
    Ends,
}

/// What the task does with held lines: it hands out a block, or reads on.
fn held_step(held: AfterLine) -> LineStep
    ensures { result ≡ held_step held }
{
    match held {
        AfterLine::Fewer(lines) => LineStep::Tests(QueueReader::Tested(lines)),
        AfterLine::Block(block, lines) => LineStep::Hands(block, QueueReader::Looks(lines)),
    }
}

/// What the task does once no line is left: lines that are held are a last block.
fn last_step(block: LineBlock) -> LineStep
    ensures { result ≡ last_step block.number block.lines }
{
    if block.is_empty() {
        return LineStep::Ends;
    }
    LineStep::HandsLast(block)
}

/// What a task that reads lines in blocks does once it is told this. What it doesn't ask for it takes as no
/// answer, and is through. `O(1)` amortised.
pub fn read_lines(alloc: Global, reader: LineReader, answer: Answer) -> Result<LineStep, NoMemory>
    ensures { IfOk result (λ step. step ≡ line_step (step_of reader answer)) }
{
    match reader.step(answer) {
        ReaderStep::Tests(lines) => Ok(LineStep::Tests(QueueReader::Tested(lines))),
        ReaderStep::Pops(lines) => Ok(LineStep::Pops(QueueReader::Popped(lines))),
        ReaderStep::Takes(lines, line) => Ok(held_step(lines.hold(alloc, line)?)),
        ReaderStep::Ends(lines) => Ok(last_step(lines.into_block())),
    }
}
