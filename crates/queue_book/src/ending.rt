// The end of a frame.
ghost use Rattle.std.specs.Prelude.{◌≡◌, ℕ, ◌<◌, [], Option, Some, None, IsSome, length};
ghost use Rattle.pop_order.specs.Frames.{without, HasNoChild};
ghost use Rattle.queues.specs.Chunks.{Chunks};
ghost use Rattle.queue_book.specs.Chains.{in_line, put_at, AreChained};
ghost use Rattle.queue_book.specs.Ended.{line_after_end, lines_after_end, own_keys, HaveOwn, IsAlone, IsAloneIn};
ghost use Rattle.queue_book.specs.KeptFrames.{own_chunk_in};
ghost use Rattle.queue_book.specs.Lines.{HaveLines};
ghost use Rattle.queue_book.specs.Live.{kept_of, OnKept};
ghost use Rattle.pop_order.specs.OneChange.{IsOnlyChange};
ghost use Rattle.queue_book.specs.declared.live_frame.OwnChunk.{OwnChunk as TheOwnChunk};

use crate::OwnChunk;
use crate::chains::Chains;
use crate::store::QueueStore;
use std::collections::BTreeMap;

impl QueueStore {
    /// Takes out a frame that has ended: its chunks are closed, the queues that it made are given up where it
    /// isn't the root, and its turn is over. `O(log n)`, and as much for each of its queues, and `O(1)` for each
    /// chunk and item that is given up. It takes no memory.
    pub fn end(&mut self, number: u64)
        // the frame
        requires active { IsSome (kept_of self.old.frames number) }
        requires childless { HasNoChild self.old.turns number }

        // where its chunks stand
        requires known { OnKept self.old.frames number (λ kept. (queue : ℕ) (own_chunk : TheOwnChunk) → own_chunk_in kept.own_chunks queue ≡ Some own_chunk
            → queue < length self.old.chains.heads.items) }
        requires owned { OnKept self.old.frames number (λ kept. HaveOwn self.old.chains.heads.items self.old.chains.nodes number kept.own_chunks) }

        // the frames and the turns without it
        ensures gone { IsOnlyChange (kept_of self.old.frames) (kept_of self.new.frames) number None }
        ensures turns { self.new.turns ≡ without self.old.turns number }

        // the chunks of the queues
        ensures same { length self.new.chains.heads.items ≡ length self.old.chains.heads.items }
        ensures ended { OnKept self.old.frames number (λ kept. (at : ℕ → ℕ → Option ℕ) (lines : ℕ → Chunks)
            → HaveLines self.old.chains (own_keys number kept.own_chunks at) lines → IsAlone number kept.own_chunks at
            → HaveLines self.new.chains (own_keys number [] at) (lines_after_end number kept.own_chunks lines)) }
    {
        let Some(kept) = self.frames.remove(number) else {
            unreachable!()
        };
        end_chunks(&mut self.chains, number, kept.into_own_chunks());
        self.turns.back(number);
    }
}

/// Closes the chunks of a frame that has ended, and gives up the queues that it made where it isn't the root.
/// `O(log n)` for each of its queues, and `O(1)` for each chunk and item that is given up.
fn end_chunks(chains: &mut Chains, number: u64, mut own_chunks: BTreeMap<u32, OwnChunk>)
    requires known { (queue : ℕ) (own_chunk : TheOwnChunk) → own_chunk_in own_chunks.entries queue ≡ Some own_chunk → queue < length chains.old.heads.items }
    requires owned { HaveOwn chains.old.heads.items chains.old.nodes number own_chunks.entries }
    ensures same { length chains.new.heads.items ≡ length chains.old.heads.items }
    ensures ended { (at : ℕ → ℕ → Option ℕ) (lines : ℕ → Chunks)
        → AreChained (own_keys number own_chunks.entries at) chains.old.heads.items chains.old.nodes lines → IsAlone number own_chunks.entries at
        → AreChained (own_keys number [] at) chains.new.heads.items chains.new.nodes (lines_after_end number own_chunks.entries lines) }
{
    while let Some((queue, own_chunk)) = own_chunks.pop_first() {
        end_chunk(chains, number, queue, own_chunk);
    }
}

/// Closes one chunk of a frame that has ended, and gives up the queue where the frame made it and isn't the root.
/// `O(1)`, and as much for each chunk and item that is given up.
fn end_chunk(chains: &mut Chains, number: u64, queue: u32, own_chunk: OwnChunk)
    requires known { queue < length chains.old.heads.items }
    requires owned { (at : ℕ → ℕ → Option ℕ) × (lines : ℕ → Chunks) × AreChained at chains.old.heads.items chains.old.nodes lines × (at number queue ≡ Some own_chunk.key)
        × IsAloneIn queue number own_chunk at }
    ensures same { length chains.new.heads.items ≡ length chains.old.heads.items }
    ensures ended { (at : ℕ → ℕ → Option ℕ) (lines : ℕ → Chunks) → AreChained at chains.old.heads.items chains.old.nodes lines → at number queue ≡ Some own_chunk.key
        → IsAloneIn queue number own_chunk at
        → AreChained (put_at number queue None at) chains.new.heads.items chains.new.nodes (in_line queue (line_after_end number (Some own_chunk)) lines) }
{
    chains.close(own_chunk.key);
    if !own_chunk.is_maker {
        return;
    }
    if number == 0 {
        return;
    }
    chains.give_up(queue);
}
