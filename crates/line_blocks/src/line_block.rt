// Blocks of lines.
ghost use Rattle.std.specs.Prelude.{◌≡◌, ◌<◌, ◌≤◌, ◌∷◌, [], length, MatchOption, IsTrue, ◌↔◌, ◌*◌, slice_get};
ghost use Rattle.swan_model.specs.Values.{bytes_of};
ghost use Rattle.line_blocks.specs.LineBlocks.{byte_count, later, line_len};

use std::collections::VecDeque;
use std::marker::Model;
use swan_model::{RECORD_MOST, Value};

/// The largest number of lines of a block.
pub const BLOCK_LINES: usize = 64;

/// Lines of an input in a row, at most `BLOCK_LINES` of them, and the number of the first one. Lines are
/// numbered from 1 on, and no number passes the largest `u64`.
#[derive(Drop)]
pub struct LineBlock {
    number: u64,
    lines: VecDeque<Value>,
}

impl Model for LineBlock {
    ghost use Rattle.std.specs.Prelude.{◌≤◌, length};
    ghost use Rattle.line_blocks.specs.LineBlocks.{Lines};
    ghost use Rattle.line_blocks.specs.declared.line_block.TheConstants.{BLOCK_LINES};

    ghost Value = { Lines };

    ghost view = { λ block. record { number = block.number; lines = block.lines.items } };

    ghost invariant = { λ block. length block.lines.items ≤ BLOCK_LINES };
}

/// The bytes of a line; a number has none. `O(1)`.
pub fn bytes_of(line: &Value) -> &[u8]
    ensures bytes { result.now ≡ bytes_of line.now }
    ensures most { length (bytes_of line.now) ≤ RECORD_MOST }
{
    match line {
        Value::Bytes(record) => record.as_slice(),
        Value::Int(_) => &[],
    }
}

/// How many bytes the line at an index has, and 0 past the end.
fn line_len(lines: &VecDeque<Value>, index: usize) -> u64
    ensures len { result ≡ line_len (slice_get lines.now.items index) }
    ensures most { result ≤ RECORD_MOST }
{
    match lines.get(index) {
        Some(line) => bytes_of(line).len() as u64,
        None => 0,
    }
}

impl LineBlock {
    // These lines, the first of which has this number.
    pub(crate) fn of(number: u64, lines: VecDeque<Value>) -> LineBlock
        requires { length lines.items ≤ BLOCK_LINES }
        ensures { result ≡ record { number = number; lines = lines.items } }
    {
        LineBlock { number, lines }
    }

    /// How many lines there are. `O(1)`.
    pub fn len(&self) -> usize
        ensures len { result ≡ length self.now.lines }
        ensures most { length self.now.lines ≤ BLOCK_LINES }
    {
        self.lines.len()
    }

    /// The number of the first line. `O(1)`.
    pub fn number(&self) -> u64
        ensures { result ≡ self.now.number }
    {
        self.number
    }

    /// Whether there is no line. `O(1)`.
    pub fn is_empty(&self) -> bool
        ensures { IsTrue result ↔ (self.now.lines ≡ []) }
    {
        self.lines.is_empty()
    }

    /// How many bytes the lines have. `O(lines)`.
    #[tactic(auto, using(crate::proofs::Counting::count_next))]
    pub fn byte_count(&self) -> u64
        ensures bytes { result ≡ byte_count self.now.lines }
        ensures most { byte_count self.now.lines ≤ BLOCK_LINES * RECORD_MOST }
    {
        let mut bytes = 0;
        for index in 0..self.lines.len() {
            bytes += line_len(&self.lines, index);
        }
        bytes
    }

    /// Takes the first line off, and None exactly where there is none. The block's number is that of the next line then; it
    /// stops at the largest one of 64 bits. `O(1)`.
    pub fn take(&mut self) -> Option<Value>
        ensures line { MatchOption result (self.old.lines ≡ []) (λ line. self.old ≡ record { number = self.old.number; lines = line ∷ self.new.lines }) }
        ensures number { MatchOption result (self.new ≡ self.old) (λ line. self.new.number ≡ later self.old.number 1) }
    {
        let line = self.lines.pop_front()?;
        self.number = self.number.saturating_add(1);
        Some(line)
    }
}
