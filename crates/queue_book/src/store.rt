// What hyperqueues are kept in.
ghost use Rattle.std.specs.Prelude.{◌≡◌, ◌+◌, ◌<◌, Option, IsSome, length, IfOk, OnOk};
ghost use Rattle.swan_model.specs.declared.script.Script.{Script};
ghost use Rattle.swan_model.specs.QueueState.{new_state, QUEUES_MOST};
ghost use Rattle.queue_book.specs.Live.{kept_of};
ghost use Rattle.queue_book.specs.Made.{IsMadeIn};
ghost use Rattle.queue_book.specs.Whole.{IsBook};

use crate::OwnChunk;
use crate::chains::Chains;
use crate::live_frames::LiveFrames;
use crate::stated::{Nothing, Stated};
use pop_order::PopTurns;
use std::alloc::Global;
use swan_model::{Meaning, NoMemory, Values};

/// The active frames, the chunks of all queues, and the turns of the frames that pop.
///
/// In costs, n counts the active frames and the queues that each of them has.
#[derive(Drop)]
pub struct QueueStore {
    /// Where memory comes from.
    pub alloc: Global,
    /// The active frames.
    pub frames: LiveFrames,
    /// The chunks of all queues.
    pub chains: Chains,
    /// Which frames may pop.
    pub turns: PopTurns,
}

impl QueueStore {
    /// The root alone, and no queues. It takes no memory. `O(1)`.
    pub fn new(alloc: Global) -> QueueStore
        ensures { (name : Option Script) → IsBook name new_state result.frames result.chains.heads.items result.chains.nodes result.turns }
    {
        QueueStore {
            alloc,
            frames: LiveFrames::new(alloc),
            chains: Chains::new(alloc),
            turns: PopTurns::new(alloc),
        }
    }

    /// Gives all up, after want of memory, and answers the state that is left. `O(1)` for each frame, queue, chunk
    /// and item that is given up; it takes no memory.
    pub fn clear(&mut self) -> Meaning<Stated>
        ensures { (name : Option Script) → IsBook name result.means self.new.frames self.new.chains.heads.items self.new.chains.nodes self.new.turns }
    {
        self.frames.clear();
        self.chains.clear();
        self.turns = PopTurns::new(self.alloc);
        Meaning::of(&Nothing)
    }

    /// Makes a queue that an active frame owns, with these first items, and answers its number. `O(log n)` amortised.
    /// Err is want of memory.
    pub fn make(&mut self, frame: u64, first: Values) -> Result<u32, NoMemory>
        // the frame, and room for one more queue
        requires active { IsSome (kept_of self.old.frames frame) }
        requires room { length self.old.chains.heads.items < QUEUES_MOST }

        // the queue that is made
        ensures number { IfOk result (λ queue. queue ≡ length self.old.chains.heads.items) }
        ensures more { OnOk result (length self.new.chains.heads.items ≡ length self.old.chains.heads.items + 1) }
        ensures made { IfOk result (λ queue. IsMadeIn self.old.frames self.new.frames frame queue first self.old.chains.heads.items self.old.chains.nodes self.new.chains.heads.items self.new.chains.nodes) }

        // the turns, which stay as they are
        ensures turns { self.new.turns ≡ self.old.turns }
    {
        let queue = self.chains.heads.len() as u32;
        let key = self.chains.make(queue, frame, first)?;
        let own_chunk = OwnChunk {
            key,
            is_maker: true,
            pushes: true,
        };
        self.frames.put(frame, queue, own_chunk)?;
        Ok(queue)
    }
}
