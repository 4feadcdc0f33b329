// Positions in a job.
ghost use Rattle.std.specs.Prelude.{◌≡◌, ◌∷◌, ◌<◌, ◌^◌, IfOk};
ghost use Rattle.job_reader.specs.CanonicalText.{depth, statement_depth};
ghost use Rattle.job_reader.specs.FirstFault.{is_stray_else};
ghost use Rattle.job_reader.specs.LineShape.{is_first};
ghost use Rattle.job_reader.specs.Positions.{after, after_declaration, after_else, after_end, after_outside, after_statement, after_top, is_open};

use crate::Line;
use crate::block::{Block, OpenBlocks};
use std::alloc::Global;
use swan_model::NoMemory;

/// The largest number of inputs of a job.
pub(crate) const INPUTS_MOST: usize = 16;

/// The largest number of blocks that are open at once.
pub(crate) const BLOCKS_MOST: usize = 32;

/// A position between two lines of a job: what the lines before it say of which lines may come.
#[derive(Drop)]
pub enum Position {
    /// Before the first line.
    First,
    /// At the top level before the first task, and so many inputs may still come.
    Top(usize),
    /// In a task before its `do`.
    InTask,
    /// After the `do` of a task, with these blocks open.
    InDo(OpenBlocks),
    /// After the `end` of a task.
    Outside,
}

impl Position {
    /// The position after a line. `O(1)` amortised.
    pub fn after(self, alloc: Global, line: &Line) -> Result<Position, NoMemory>
        ensures { IfOk result (λ position. position ≡ after self line.now) }
    {
        match self {
            Position::First => Ok(Position::Top(INPUTS_MOST)),
            Position::Top(inputs_left) => Ok(after_top(inputs_left, line)),
            Position::InTask => Ok(after_declaration(alloc, line)),
            Position::InDo(blocks) => after_statement(blocks, line),
            Position::Outside => Ok(after_outside(line)),
        }
    }

    /// Whether it is before the first line. `O(1)`.
    pub fn is_first(&self) -> bool
        ensures { result ≡ is_first self.now }
    {
        matches!(self, Position::First)
    }

    /// Whether a task is open. `O(1)`.
    pub fn is_open(&self) -> bool
        ensures { result ≡ is_open self.now }
    {
        matches!(self, Position::InTask | Position::InDo(_))
    }

    /// How many steps of indentation a line has here. `O(1)`.
    pub fn depth(&self, line: &Line) -> usize
        ensures { result ≡ depth self.now line.now }
    {
        match self {
            Position::InTask => 1,
            Position::InDo(blocks) => statement_depth(blocks.len(), line),
            _ => 0,
        }
    }

    /// Whether a line is an `else` that belongs to no `if`. `O(1)`.
    pub fn is_stray_else(&self, line: &Line) -> bool
        ensures { result ≡ is_stray_else self.now line.now }
    {
        match self {
            Position::InDo(blocks) => matches!(line, Line::Else) && !blocks.takes_else(),
            _ => false,
        }
    }
}

/// How many steps of indentation a statement has where so many blocks are open.
fn statement_depth(blocks: usize, line: &Line) -> usize
    requires { blocks < 2 ^ 63 }
    ensures { result ≡ statement_depth blocks line.now }
{
    match line {
        Line::Else | Line::End => blocks,
        _ => blocks + 1,
    }
}

/// The position after a line at the top level.
fn after_top(inputs_left: usize, line: &Line) -> Position
    ensures { result ≡ after_top inputs_left line.now }
{
    match line {
        Line::Input(_) => Position::Top(inputs_left.saturating_sub(1)),
        Line::Task(_) => Position::InTask,
        _ => Position::Top(inputs_left),
    }
}

/// The position after a line of a task before its statements.
fn after_declaration(alloc: Global, line: &Line) -> Position
    ensures { result ≡ after_declaration line.now }
{
    match line {
        Line::Do => Position::InDo(OpenBlocks::new(alloc)),
        _ => Position::InTask,
    }
}

/// The position after a line that follows a task.
fn after_outside(line: &Line) -> Position
    ensures { result ≡ after_outside line.now }
{
    match line {
        Line::Task(_) => Position::InTask,
        _ => Position::Outside,
    }
}

/// The position after a statement where these blocks are open.
fn after_statement(blocks: OpenBlocks, line: &Line) -> Result<Position, NoMemory>
    ensures { IfOk result (λ position. position ≡ after_statement blocks line.now) }
{
    match line {
        Line::If(_) => inside(blocks, Block::If),
        Line::While(_) => inside(blocks, Block::While),
        Line::Else => after_else(blocks),
        Line::End => Ok(after_end(blocks)),
        _ => Ok(Position::InDo(blocks)),
    }
}

/// The position inside a block that is opened where these are open.
fn inside(mut blocks: OpenBlocks, block: Block) -> Result<Position, NoMemory>
    ensures { IfOk result (λ position. position ≡ Position.InDo (block ∷ blocks)) }
{
    blocks.open(block)?;
    Ok(Position::InDo(blocks))
}

/// The position after an `else` where these blocks are open.
fn after_else(mut blocks: OpenBlocks) -> Result<Position, NoMemory>
    ensures { IfOk result (λ position. position ≡ after_else blocks) }
{
    match blocks.close() {
        Some(_) => inside(blocks, Block::Else),
        None => Ok(Position::InDo(blocks)),
    }
}

/// The position after an `end` where these blocks are open.
fn after_end(mut blocks: OpenBlocks) -> Position
    ensures { result ≡ after_end blocks }
{
    match blocks.close() {
        Some(_) => Position::InDo(blocks),
        None => Position::Outside,
    }
}
