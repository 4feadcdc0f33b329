// The turns of poppers.
ghost use Rattle.std.specs.Prelude.{◌≡◌, ℕ, ◌<◌, ◌≤◌, [], IfErr, IfSome, IfNone, OnOk, OnErr, IsTrue};
ghost use Rattle.swan_model.specs.Rights.{is_queue_mode};
ghost use Rattle.pop_order.specs.Frames.{frames_after_enlist, frames_after_lend, without, AreUpTo, HasNoChild, MayBeEnlisted};
ghost use Rattle.pop_order.specs.Turns.{Blocks, IsPoppingChild, IsAnswer};

use crate::frames::{add, lend, take_out};
use crate::poppers::oldest_popper;
use crate::walk::first_earlier;
use crate::{Certain, QueueHolding, Sets, TurnFrame};
use std::alloc::Global;
use std::collections::BTreeMap;
use std::marker::Model;
use swan_model::{Mode, NoMemory};

/// Who may pop now, and what an earlier frame can still push.
#[derive(Drop)]
pub struct PopTurns {
    alloc: Global,
    frames: BTreeMap<u64, TurnFrame>,
    sets: Sets,
}

impl Model for PopTurns {
    ghost use Rattle.pop_order.specs.Frames.{Frames};

    ghost Value = { Frames };

    ghost use Rattle.pop_order.specs.Kept.{IsKept};

    ghost view = { λ turns. turns.frames.entries };

    ghost invariant = { λ turns.
        IsKept turns.frames.entries turns.sets.poppers turns.sets.pushers turns.sets.givers };
}

impl PopTurns {
    /// No frames. It takes no memory. `O(1)`.
    pub fn new(alloc: Global) -> PopTurns
        ensures { result ≡ [] }
    {
        PopTurns {
            alloc,
            frames: BTreeMap::new(alloc),
            sets: Sets::new(alloc),
        }
    }

    /// Gives a child one more queue, which it may use by this mode, and makes it active where it wasn't.
    /// Err is want of memory, and nothing is said of the frames after it. `O(log n)` amortised, and it makes the
    /// room that the other calls need; an Err lets all frames go, `O(n)`.
    pub fn enlist(
        &mut self,
        parent: u64,
        child: u64,
        queue: u32,
        mode: Mode,
    ) -> Result<(), NoMemory>
        requires rising { parent < child }
        requires newest { AreUpTo self.old child }
        requires fits { MayBeEnlisted self.old parent child queue }
        requires of_queues { IsTrue (is_queue_mode mode) }
        ensures ok { OnOk result (self.new ≡ frames_after_enlist self.old parent child (record { mode = mode; number = queue })) }
    {
        let holding = QueueHolding { mode, queue };
        match add(
            self.alloc,
            &mut self.frames,
            &mut self.sets,
            parent,
            child,
            holding,
        ) {
            Ok(()) => Ok(()),
            Err(NoMemory) => {
                self.frames.clear();
                self.sets.clear();
                Err(NoMemory)
            }
        }
    }

    /// Moves the queue views of a child's popped queues from its parent to it, where `may_start` answers Ok. It
    /// changes nothing for a frame that was not enlisted, or was given back. `O(log n)`; it takes no memory.
    pub fn lend(&mut self, child: u64)
        requires { (number : ℕ) → ¬ Blocks self.old child number }
        ensures { self.new ≡ frames_after_lend self.old child }
    {
        lend(&mut self.frames, child);
    }

    /// Takes a child out, which isn't active any more; its queue views return to its parent. It changes
    /// nothing for a frame that was not enlisted, or was given back. `O(k log n)` for the child's k queues;
    /// it takes no memory.
    pub fn back(&mut self, child: u64)
        requires { HasNoChild self.old child }
        ensures { self.new ≡ without self.old child }
    {
        if let Some(frame) = self.frames.remove(&child) {
            take_out(&mut self.sets, frame.parent, child, &frame.holdings);
        }
    }

    /// Whether a child may begin to pop: Ok exactly where no older
    /// sibling that pops one of the child's popped queues is active, and else Err with the oldest of
    /// those. It is Ok for a frame that was not enlisted, or was given back. `O(k log n)` for the
    /// child's k queues; it takes no memory.
    pub fn may_start(&self, child: u64) -> Result<(), u64>
        ensures ok { OnOk result ((number : ℕ) → ¬ Blocks self.now child number) }
        ensures blocks { IfErr result (λ number. Blocks self.now child number) }
        ensures oldest { IfErr result (λ number. (other : ℕ) → Blocks self.now child other → number ≤ other) }
    {
        let Some(frame) = self.frames.get(&child) else {
            return Ok(());
        };
        let oldest = oldest_popper(&self.sets.poppers, frame.parent, &frame.holdings, child);
        if oldest < child { Err(oldest) } else { Ok(()) }
    }

    /// The oldest active child of a frame that pops a queue; None exactly where no active child of it does.
    /// `O(log n)`; it takes no memory.
    pub fn popping_child(&self, frame: u64, queue: u32) -> Option<u64>
        ensures pops { IfSome result (IsPoppingChild self.now frame queue) }
        ensures oldest { IfSome result (λ number. (other : ℕ) → IsPoppingChild self.now frame queue other → number ≤ other) }
        ensures none { IfNone result ((number : ℕ) → ¬ IsPoppingChild self.now frame queue number) }
    {
        self.sets.poppers.oldest(frame, queue)
    }

    /// Whether the items of a queue are certain for a frame: PoppingChild exactly where a child of the
    /// frame that pops it is active, and then the oldest; otherwise EarlierPusher exactly where an
    /// active frame that pushes to it comes before the frame's next step in serial order, and then the
    /// first of those; otherwise Yes. `O(d log n)` for a tree of depth d, however many siblings push, as
    /// long as all that push to the queue are below one frame that made it, as in each run; where several
    /// frames gave it to children and may not push to it themselves, as much for each of them. It takes
    /// no memory.
    pub fn certain(&self, frame: u64, queue: u32) -> Certain
        ensures { IsAnswer self.now frame queue result }
    {
        if let Some(child) = self.popping_child(frame, queue) {
            return Certain::PoppingChild(child);
        }
        match first_earlier(
            &self.frames,
            &self.sets.pushers,
            &self.sets.givers,
            frame,
            queue,
        ) {
            Some(pusher) => Certain::EarlierPusher(pusher),
            None => Certain::Yes,
        }
    }
}
