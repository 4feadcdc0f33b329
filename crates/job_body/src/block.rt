// Open blocks.
ghost use Rattle.std.specs.Prelude.{◌≡◌};
ghost use Rattle.job_body.specs.Blocks.{blocks_after_end, innermost};

use swan_model::Stack;

/// An open block of statements.
#[derive(Clone, Copy, Debug, PartialEq, Eq)]
pub enum BlockWithLine {
    /// An `if`.
    If,
    /// A `while` at the line with this index.
    While(u32),
}

/// The innermost of these open blocks. `O(1)`.
pub fn innermost(blocks: &Stack<BlockWithLine>) -> Option<BlockWithLine>
    ensures { result ≡ innermost blocks.now }
{
    blocks.top().copied()
}

/// Closes the innermost of these open blocks, where there is one. `O(1)`.
pub fn close(blocks: &mut Stack<BlockWithLine>)
    ensures { blocks.new ≡ blocks_after_end blocks.old }
{
    let _block = blocks.pop();
}
