// Ends of queues that serve nothing.
ghost use Rattle.std.specs.Prelude.{◌≡◌};

use crate::LocalEnds;
use crate::stated::Pathed;
use swan_model::{Meaning, RunName, Value};

/// Ends that push and pop nothing and find no item, so that their frame asks the queues each time.
#[derive(Drop)]
pub struct NoEnds {
    name: RunName,
    frame: u64,
    deeds: u64,
    path: Meaning<Pathed>,
}

impl NoEnds {
    /// The ends of a frame that has done so many queue deeds. `O(1)`.
    pub(crate) fn new(name: RunName, frame: u64, deeds: u64, path: Meaning<Pathed>) -> NoEnds
        ensures { result ≡ record { name = name; frame = frame; deeds = deeds; path = path } }
    {
        NoEnds {
            name,
            frame,
            deeds,
            path,
        }
    }

    /// The frame that they were lent to. `O(1)`.
    pub(crate) fn frame(&self) -> u64
        ensures { result ≡ self.now.frame }
    {
        self.frame
    }

    /// How many queue deeds it had done. `O(1)`.
    pub(crate) fn deeds(&self) -> u64
        ensures { result ≡ self.now.deeds }
    {
        self.deeds
    }
}

impl LocalEnds for NoEnds {
    ghost use Rattle.std.specs.Prelude.{[]};
    ghost use Rattle.queue_book.specs.NoEnds.{no_counts, no_ends};

    ghost name = { λ ends. ends.name };

    ghost run = { λ ends. [] };

    ghost ends = { λ ends. no_ends ends.frame ends.deeds ends.path.means };

    ghost counts = { λ ends queue is_producer. no_counts };

    /// Gives the value back. `O(1)`.
    fn push(&mut self, _queue: u32, value: Value) -> Result<(), Value> {
        Err(value)
    }

    /// None. `O(1)`.
    fn pop(&mut self, _queue: u32) -> Option<Value> {
        None
    }

    /// False. `O(1)`.
    fn test(&mut self, _queue: u32) -> bool {
        false
    }

    /// False. `O(1)`.
    fn finds(&mut self, _queue: u32) -> bool {
        false
    }
}
