// What is kept of an active frame.
ghost use Rattle.std.specs.Prelude.{◌≡◌, ◌<◌, [], OnOk, true, false};
ghost use Rattle.queue_book.specs.KeptFrames.{own_chunk_in};
ghost use Rattle.queue_book.specs.Live.{with_own_chunk};

use std::alloc::Global;
use std::collections::BTreeMap;
use std::marker::Model;
use swan_model::NoMemory;

/// A frame's own chunk of a queue.
#[derive(Clone, Copy)]
pub struct OwnChunk {
    /// The key of its node.
    pub key: usize,
    /// Whether the frame made the queue.
    pub is_maker: bool,
    /// Whether the frame may push to the queue.
    pub pushes: bool,
}

/// An active frame: how many queue deeds it has done, whether its ends are lent, and its queues.
#[derive(Drop)]
pub struct QueueFrame {
    /// How many queue deeds it has done.
    pub deeds: u64,
    /// Whether its ends are lent.
    pub is_lent: bool,
    /// Its own chunk of each queue that it has.
    pub own_chunks: BTreeMap<u32, OwnChunk>,
}

impl Model for QueueFrame {
    ghost use Rattle.queue_book.specs.KeptFrames.{KeptFrame};

    ghost Value = { KeptFrame };

    ghost view = { λ frame. record { deeds = frame.deeds; is_lent = frame.is_lent; own_chunks = frame.own_chunks.entries } };
}

impl QueueFrame {
    /// A frame that has done nothing and has no queue. It takes no memory. `O(1)`.
    pub fn new(alloc: Global) -> QueueFrame
        ensures { result ≡ record { deeds = 0; is_lent = false; own_chunks = [] } }
    {
        QueueFrame {
            deeds: 0,
            is_lent: false,
            own_chunks: BTreeMap::new(alloc),
        }
    }

    /// Notes the frame's own chunk of a queue. `O(log n)`. Err is want of memory.
    pub fn put(&mut self, queue: u32, own_chunk: OwnChunk) -> Result<(), NoMemory>
        ensures { OnOk result (self.new ≡ with_own_chunk queue own_chunk self.old) }
    {
        self.own_chunks.insert(queue, own_chunk)?;
        Ok(())
    }

    /// The frame's own chunk of a queue. `O(log n)`.
    pub fn own_chunk(&self, queue: u32) -> Option<OwnChunk>
        ensures { result ≡ own_chunk_in self.now.own_chunks queue }
    {
        self.own_chunks.get(&queue).copied()
    }

    /// Notes that its ends are lent, and answers how many queue deeds it has done. `O(1)`.
    pub fn lend(&mut self) -> u64
        ensures deeds { result ≡ self.old.deeds }
        ensures lent { self.new ≡ record self.old { is_lent = true } }
    {
        self.is_lent = true;
        self.deeds
    }

    /// Its own chunk of each queue that it has. `O(1)`.
    pub fn into_own_chunks(self) -> BTreeMap<u32, OwnChunk>
        ensures { result.entries ≡ self.own_chunks }
    {
        let QueueFrame {
            deeds: _,
            is_lent: _,
            own_chunks,
        } = self;
        own_chunks
    }
}
