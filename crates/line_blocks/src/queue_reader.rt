// The loop of a task that reads a queue.
ghost use Rattle.std.specs.Prelude.{◌≡◌};
ghost use Rattle.line_blocks.specs.Readers.{step_of};

use swan_model::{Answer, Value};

/// Where a task stands that reads a queue to its end: it asks whether an item is left, and pops it, again
/// and again. Between its steps it keeps a `K`.
#[derive(Drop)]
pub enum QueueReader<K> {
    /// It hasn't asked yet.
    Looks(K),
    /// It has asked whether the queue is empty.
    Tested(K),
    /// It has asked for an item.
    Popped(K),
}

/// What a task that reads a queue does next.
#[derive(Drop)]
pub enum ReaderStep<K> {
    /// It asks whether the queue is empty.
    Tests(K),
    /// It asks for an item.
    Pops(K),
    /// It has got this item.
    Takes(K, Value),
    /// It is through: no item is left, or it wasn't told what it had asked for.
    Ends(K),
}

impl<K: Drop> QueueReader<K> {
    /// What the task does once it is told this. It takes no memory. `O(1)`.
    pub fn step(self, answer: Answer) -> ReaderStep<K>
        ensures { result ≡ step_of self answer }
    {
        match self {
            QueueReader::Looks(kept) => ReaderStep::Tests(kept),
            QueueReader::Tested(kept) => match answer {
                Answer::Flag(false) => ReaderStep::Pops(kept),
                _ => ReaderStep::Ends(kept),
            },
            QueueReader::Popped(kept) => match answer {
                Answer::Item(item) => ReaderStep::Takes(kept, item),
                _ => ReaderStep::Ends(kept),
            },
        }
    }
}
