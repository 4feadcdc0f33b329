// What the tasks of the conversion keep.
use line_blocks::{LineBlock, LineReader};
use swan_model::Value;

/// What a task of the conversion keeps between its steps: where it stands, and what it holds.
#[derive(Drop)]
pub enum RecordLocal {
    /// The root as it reads lines.
    Reads(LineReader),
    /// A block task, with the lines that are left.
    Lines(LineBlock),
    /// A line's task, with the line's number and the line.
    Line(u64, Value),
    /// A line's task that has taken its step, with the line's number.
    Done(u64),
    /// Each other task, before it ends.
    Ends,
}
