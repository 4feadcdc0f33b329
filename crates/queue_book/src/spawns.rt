// Spawns, with the queues that a child is given.
ghost use Rattle.std.specs.Prelude.{◌≡◌, ℕ, ◌<◌, Some, None, OnOk, IsTrue};
ghost use Rattle.slab.specs.Slab.{ContainsKey};
ghost use Rattle.swan_model.specs.declared.rights.Mode.TheVariants.{Push};
ghost use Rattle.swan_model.specs.Rights.{allows, is_queue_mode};
ghost use Rattle.pop_order.specs.Frames.{frames_after_enlist, AreUpTo, MayBeEnlisted};
ghost use Rattle.queues.specs.Chunks.{Chunks};
ghost use Rattle.queues.specs.Turned.{holding_of};
ghost use Rattle.queue_book.specs.Chains.{AreChained};
ghost use Rattle.queue_book.specs.Handed.{IsHandedIn};
ghost use Rattle.queue_book.specs.Live.{key_at, kept_of, own_chunk_at};
ghost use Rattle.queue_book.specs.Spawned.{MayHandOn, IsSpawnedIn};
ghost use Rattle.queue_book.specs.declared.live_frame.OwnChunk.{OwnChunk as TheOwnChunk};

use crate::store::QueueStore;
use crate::{OwnChunk, QueueFrame, QueueGive};
use std::collections::BTreeMap;
use swan_model::{Mode, NoMemory};

impl QueueStore {
    /// Makes a child, which is given queues. `O(log n)`, and as much amortised for each give. Err is want of memory.
    pub fn spawn(&mut self, parent: u64, child: u64, gives: &[QueueGive]) -> Result<(), NoMemory>
        // what is given, and by whom
        requires may { MayHandOn self.old.frames self.old.turns parent child gives.now }

        // where chunks stand
        requires stand { (lines : ℕ → Chunks) × AreChained (key_at self.old.frames) self.old.chains.heads.items self.old.chains.nodes lines }
        requires free { kept_of self.old.frames child ≡ None }

        // what it leaves
        ensures heads { OnOk result (self.new.chains.heads.items ≡ self.old.chains.heads.items) }
        ensures spawned { OnOk result (IsSpawnedIn self.old.frames self.new.frames parent child gives.now self.old.chains.heads.items self.old.chains.nodes self.new.chains.nodes self.old.turns self.new.turns) }
    {
        let mut frame = QueueFrame::new(self.alloc);
        for one in gives {
            self.give(parent, child, *one, &mut frame.own_chunks)?;
        }
        self.frames.count_deed(parent);
        self.frames.add(child, frame)?;
        Ok(())
    }

    /// Gives a child one more queue of its parent's. `O(log n)` amortised. Err is want of memory.
    fn give(
        &mut self,
        parent: u64,
        child: u64,
        one: QueueGive,
        own_chunks: &mut BTreeMap<u32, OwnChunk>,
    ) -> Result<(), NoMemory>
        // what is given
        requires has { (own_chunk : TheOwnChunk) × (own_chunk_at self.old.frames parent one.queue ≡ Some own_chunk) }
        requires stands { (own_chunk : TheOwnChunk) → own_chunk_at self.old.frames parent one.queue ≡ Some own_chunk → ContainsKey self.old.chains.nodes own_chunk.key }
        requires of_queues { IsTrue (is_queue_mode one.mode) }

        // who gets it
        requires rising { parent < child }
        requires newest { AreUpTo self.old.turns child }
        requires fits { MayBeEnlisted self.old.turns parent child one.queue }

        // what it leaves
        ensures heads { OnOk result (self.new.chains.heads.items ≡ self.old.chains.heads.items) }
        ensures given { OnOk result (IsHandedIn self.old.frames self.new.frames parent child one.queue (allows one.mode Push) own_chunks.old.entries own_chunks.new.entries self.old.chains.heads.items self.old.chains.nodes self.new.chains.nodes) }
        ensures turns { OnOk result (self.new.turns ≡ frames_after_enlist self.old.turns parent child (holding_of one)) }
    {
        let Some(own) = self.frames.own_chunk(parent, one.queue) else {
            unreachable!()
        };
        let new = self.chains.hand_on(self.alloc, own.key, parent, child)?;
        let given = OwnChunk {
            key: own.key,
            is_maker: false,
            pushes: one.mode.allows(Mode::Push),
        };
        own_chunks.insert(one.queue, given)?;
        let kept = OwnChunk {
            key: new,
            is_maker: own.is_maker,
            pushes: own.pushes,
        };
        self.frames.put(parent, one.queue, kept)?;
        self.turns.enlist(parent, child, one.queue, one.mode)?;
        Ok(())
    }
}
