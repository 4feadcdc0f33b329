// Lines that are held until they are a block.
ghost use Rattle.std.specs.Prelude.{◌≡◌, IfOk};
ghost use Rattle.line_blocks.specs.HeldLines.{held_with};
ghost use Rattle.line_blocks.specs.LineBlocks.{no_lines};

use crate::{BLOCK_LINES, LineBlock};
use std::alloc::Global;
use std::collections::VecDeque;
use std::marker::Model;
use std::mem;
use swan_model::{NoMemory, Value};

/// Fewer than `BLOCK_LINES` lines of an input in a row, and the number of the first one, or where none is
/// held that of the next one.
#[derive(Drop)]
pub struct HeldLines {
    number: u64,
    lines: VecDeque<Value>,
}

impl Model for HeldLines {
    ghost use Rattle.std.specs.Prelude.{◌<◌, length};
    ghost use Rattle.line_blocks.specs.LineBlocks.{Lines};
    ghost use Rattle.line_blocks.specs.declared.line_block.TheConstants.{BLOCK_LINES};

    ghost Value = { Lines };

    ghost view = { λ held. record { number = held.number; lines = held.lines.items } };

    ghost invariant = { λ held. length held.lines.items < BLOCK_LINES };
}

/// What one more line makes of held lines.
#[derive(Drop)]
pub enum AfterLine {
    /// There are fewer than a block has.
    Fewer(HeldLines),
    /// They are a block, and none is held.
    Block(LineBlock, HeldLines),
}

impl HeldLines {
    /// No line, before the first one of the input. It takes no memory. `O(1)`.
    pub fn new(alloc: Global) -> HeldLines
        ensures { result ≡ no_lines }
    {
        HeldLines {
            number: 1,
            lines: VecDeque::new(alloc),
        }
    }

    /// Holds one more line, and hands the lines out as a block once there are `BLOCK_LINES`. `O(1)` amortised.
    pub fn hold(self, alloc: Global, line: Value) -> Result<AfterLine, NoMemory>
        ensures { IfOk result (λ held. held ≡ held_with self line) }
    {
        let HeldLines { number, mut lines } = self;
        lines.push_back(line)?;
        if lines.len() == BLOCK_LINES {
            let next = HeldLines {
                number: number.saturating_add(BLOCK_LINES as u64),
                lines: VecDeque::new(alloc),
            };
            return Ok(AfterLine::Block(LineBlock::of(number, lines), next));
        }
        Ok(AfterLine::Fewer(HeldLines { number, lines }))
    }

    /// The held lines as a block, which may have none. `O(1)`.
    pub fn into_block(self) -> LineBlock
        ensures { result ≡ self }
    {
        LineBlock::of(self.number, self.lines)
    }
}
