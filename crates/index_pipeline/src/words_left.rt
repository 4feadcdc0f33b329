// The words of a block that are left.
ghost use Rattle.std.specs.Prelude.{◌≡◌, ◌∷◌, ◌++◌, [], IfOk, MatchOption};
ghost use Rattle.index_pipeline.specs.Records.{block_records};
ghost use Rattle.index_pipeline.specs.declared.word.TheConstants.{WORD_MOST};

use crate::batch::BatchWriter;
use crate::batches::{Batches, RecordSource};
use crate::line_left::LineLeft;
use crate::word::WORD_MOST;
use line_blocks::LineBlock;
use std::alloc::Global;
use swan_model::NoMemory;

/// The lines of a block, of which some words are taken already.
#[derive(Drop)]
pub struct LinesLeft {
    // the line from which words are taken
    line: LineLeft,
    // the lines after it
    block: LineBlock,
}

impl RecordSource for LinesLeft {
    ghost left = { λ lines. lines.line ++ block_records lines.block };

    ghost word_len = { λ _. WORD_MOST };

    /// Writes the record of the next word of the line or of those after it. `O(1)` amortised over the bytes of the
    /// lines.
    fn write_next(&mut self, batch: &mut BatchWriter) -> Result<bool, NoMemory> {
        if !batch.has_room(WORD_MOST) {
            return Ok(false);
        }
        loop {
            let more = self.line.write_next(batch)?;
            if more {
                return Ok(true);
            }
            let number = self.block.number();
            match self.block.take() {
                Some(next) => self.line = LineLeft::of(number, next),
                None => return Ok(false),
            }
        }
    }
}

/// The words of a block that are left, as their records.
pub type WordsLeft = Batches<LinesLeft>;

/// All words of a block. It allocates once. `O(1)`.
pub fn words_of(alloc: Global, block: LineBlock) -> Result<WordsLeft, NoMemory>
    ensures { IfOk result (λ left. left ≡ block_records block) }
{
    let line = LineLeft::none();
    Batches::of(alloc, LinesLeft { line, block })
}
