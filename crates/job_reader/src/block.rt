// Open blocks.
ghost use Rattle.std.specs.Prelude.{◌≡◌, ◌∷◌, ◌<◌, ◌^◌, [], length, MatchOption, OnOk};
ghost use Rattle.job_reader.specs.Positions.{takes_else};

use std::alloc::Global;
use std::marker::Model;
use swan_model::NoMemory;

/// An open block of statements.
#[derive(Clone, Copy, Debug, PartialEq, Eq)]
pub enum Block {
    /// An `if` without its `else`.
    If,
    /// An `if` after its `else`.
    Else,
    /// A `while`.
    While,
}

/// The open blocks. Contracts see them as a list, the innermost first.
#[derive(Drop)]
pub struct OpenBlocks {
    from_outside: Vec<Block>,
}

impl Model for OpenBlocks {
    ghost use Rattle.std.specs.Prelude.{List, reverse};
    ghost use Rattle.job_reader.specs.declared.block.Block.{Block};

    ghost Value = { List Block };

    ghost view = { λ it. reverse it.from_outside.items };
}

impl OpenBlocks {
    /// No open block. It takes no memory. `O(1)`.
    pub fn new(alloc: Global) -> OpenBlocks
        ensures { result ≡ [] }
    {
        OpenBlocks {
            from_outside: Vec::new(alloc),
        }
    }

    /// How many blocks are open. `O(1)`.
    pub fn len(&self) -> usize
        ensures len { result ≡ length self.now }
        ensures small { result < 2 ^ 63 }
    {
        self.from_outside.len()
    }

    /// Whether an `else` may stand here. `O(1)`.
    pub fn takes_else(&self) -> bool
        ensures { result ≡ takes_else self.now }
    {
        matches!(self.from_outside.last(), Some(Block::If))
    }

    /// Opens a block inside the others. `O(1)` amortised.
    pub fn open(&mut self, block: Block) -> Result<(), NoMemory>
        ensures { OnOk result (self.new ≡ block ∷ self.old) }
    {
        self.from_outside.push(block)?;
        Ok(())
    }

    /// Closes the innermost block. None where no block is open. `O(1)`.
    pub fn close(&mut self) -> Option<Block>
        ensures { MatchOption result ((self.old ≡ []) × (self.new ≡ [])) (λ block. self.old ≡ block ∷ self.new) }
    {
        self.from_outside.pop()
    }
}
