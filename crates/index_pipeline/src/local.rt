// What the tasks of the index keep.
use crate::pairs::Pairs;
use crate::pairs_left::PairsLeft;
use crate::words_left::WordsLeft;
use line_blocks::{LineReader, QueueReader};

/// What a task of the index keeps between its steps: where it stands, and what it holds.
#[derive(Drop)]
pub enum IndexLocal {
    /// The root, before it makes the queue of words.
    Begins,
    /// The root as it reads lines.
    Reads(LineReader),
    /// The root, once all lines are with block tasks: it spawns the collector.
    SpawnsCollector,
    /// A block task, with the words that are left to push.
    Words(WordsLeft),
    /// The collector as it reads pairs.
    Collects(QueueReader<Pairs>),
    /// The collector, with the pairs that are left to push.
    Prints(PairsLeft),
    /// Each task, before it ends.
    Ends,
}
