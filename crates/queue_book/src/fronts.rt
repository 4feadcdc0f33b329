// What stands at the front of a queue for a frame that pops it.
ghost use Rattle.std.specs.Prelude.{◌≡◌, ℕ, ◌<◌, Option, length};
ghost use Rattle.queues.specs.Chunks.{Chunks};
ghost use Rattle.queue_book.specs.Chains.{AreChained};
ghost use Rattle.queue_book.specs.Fronts.{IsFrontTold, IsTurnTold, first_open, met_or, open_or};
ghost use Rattle.queue_book.specs.Lines.{HaveSomeLines};
ghost use Rattle.queue_book.specs.Live.{is_pusher};

use crate::chains::{Chains, Front};
use crate::live_frames::LiveFrames;
use crate::store::QueueStore;
use crate::{Tested, WaitFor};

/// Whom a walk along the chunks of a queue meets at one of them.
#[derive(Clone, Copy)]
pub enum Met {
    /// The frame that walks.
    Own,
    /// Another one, which may push.
    Pusher(u64),
    /// Nobody who may push.
    Nobody,
}

impl QueueStore {
    /// What stands at the front of a queue for a frame that pops it. `O(log n)` amortised. With the free name also a
    /// walk over the chunks before the frame's own, with a look-up for each that is owned, up to the first frame that
    /// may push. It takes no memory.
    pub fn front(&mut self, frame: u64, queue: u32) -> Tested
        // the queue, and where chunks stand
        requires known { queue < length self.old.chains.heads.items }
        requires kept { HaveSomeLines self.old.chains }

        // what stays as it is
        ensures frames { self.new.frames ≡ self.old.frames }
        ensures turns { self.new.turns ≡ self.old.turns }
        ensures same { length self.new.chains.heads.items ≡ length self.old.chains.heads.items }

        // what it answers, by the turns and then by the chunks
        ensures turn { IsTurnTold self.old.turns frame queue result }
        ensures told { (at : ℕ → ℕ → Option ℕ) (lines : ℕ → Chunks) → AreChained at self.old.chains.heads.items self.old.chains.nodes lines
            → IsFrontTold self.old.frames at self.new.chains.heads.items self.new.chains.nodes lines frame queue result }
    {
        if let Some(child) = self.turns.popping_child(frame, queue) {
            return Tested::NotYet(WaitFor::PopTurn(child));
        }
        if let Front::Item = self.chains.trim(queue) {
            return Tested::Holds;
        }
        match first_pusher(&self.frames, &self.chains, frame, queue) {
            Some(owner) => Tested::NotYet(WaitFor::Pusher(owner)),
            None => Tested::Empty,
        }
    }
}

/// The first owner of a chunk before the frame's own one that may push to the queue. A step for each chunk up to it,
/// and a look-up for each that is owned.
fn first_pusher(frames: &LiveFrames, chains: &Chains, frame: u64, queue: u32) -> Option<u64>
    requires known { queue < length chains.now.heads.items }
    requires kept { HaveSomeLines chains.now }
    ensures { (at : ℕ → ℕ → Option ℕ) (lines : ℕ → Chunks) → AreChained at chains.now.heads.items chains.now.nodes lines
        → result ≡ first_open frames.now frame queue (lines queue) }
{
    let mut next = chains.heads[queue as usize];
    // A chain has each node once, so it ends within this many.
    for _turn in 0..chains.nodes.len() {
        let Some(key) = next else {
            return None;
        };
        let Some(node) = chains.nodes.get(key) else {
            unreachable!()
        };
        match meet(frames, node.owner(), frame, queue) {
            Met::Own => return None,
            Met::Pusher(owner) => return Some(owner),
            Met::Nobody => next = node.next(),
        }
    }
    None
}

/// Whom a walk meets at a chunk of this owner. A look-up.
fn meet(frames: &LiveFrames, owner: Option<u64>, frame: u64, queue: u32) -> Met
    ensures { (rest : Option ℕ) → open_or frames.now frame queue owner rest ≡ met_or result rest }
{
    let Some(owner) = owner else {
        return Met::Nobody;
    };
    if owner == frame {
        return Met::Own;
    }
    if may_push(frames, owner, queue) {
        return Met::Pusher(owner);
    }
    Met::Nobody
}

/// Whether a frame may push to a queue. `O(log n)`.
fn may_push(frames: &LiveFrames, number: u64, queue: u32) -> bool
    ensures { result ≡ is_pusher frames.now number queue }
{
    match frames.own_chunk(number, queue) {
        Some(own_chunk) => own_chunk.pushes,
        None => false,
    }
}
