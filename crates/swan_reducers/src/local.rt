// What the tasks of a fold keep.
use line_blocks::{LineBlock, LineReader, QueueReader};
use swan_model::Record;

/// What a task of a fold keeps between its steps: where it stands, and what it holds.
#[derive(Drop)]
pub enum FoldLocal {
    /// The root, before it makes the queue of parts.
    Begins,
    /// The root as it reads lines.
    Reads(LineReader),
    /// The root, once all lines are with block tasks.
    SpawnsCollector,
    /// A block task, before it folds its lines.
    Lines(LineBlock),
    /// A block task that has pushed its part, with the number of its first bad line.
    Told(Option<u64>),
    /// The collector as it reads parts, with their join so far.
    Collects(QueueReader<Record>),
    /// Each task, before it ends.
    Ends,
}
