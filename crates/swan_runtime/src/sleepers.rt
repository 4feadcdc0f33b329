// What sleeps under one live frame.
ghost use Rattle.std.specs.Prelude.{◌≡◌, ◌+◌, ℕ, List, Some, IfOk, OnOk, OnErr, vec_len};
ghost use Rattle.swan_model.specs.declared.plan.Plan.{Plan};
ghost use Rattle.task_frames.specs.Resumes.{ends_of};
ghost use Rattle.swan_runtime.specs.Beds.{AreNewSleepers, HasNoted, HasSameNotes, HasSameSleepers, NoneAwaits, popper_at, poppers_of};
ghost use Rattle.swan_runtime.specs.Shared.{AreOfRun, AreSleepersOfRun, HasTakenIn, sleeper_count};

use queues::{Queues, WaitFor};
use std::alloc::Global;
use std::collections::BTreeMap;
use swan_model::{Body, Mode, NoMemory};
use task_frames::{Frame, Holding};

/// A frame that sleeps until an item is pushed to a queue.
#[derive(Drop)]
pub struct Popper<B: Body, Q: Queues> {
    /// The queue.
    pub queue: u32,
    /// The frame.
    pub frame: Frame<B, Q>,
}

/// What sleeps under one live frame, and what tells under whom others may sleep.
#[derive(Drop)]
pub struct Sleepers<B: Body, Q: Queues> {
    /// Who sleeps until it ends.
    pub at_end: Vec<Frame<B, Q>>,
    /// Who sleeps until it pushes, or ends.
    pub at_push: Vec<Popper<B, Q>>,
    /// Its child that was spawned last.
    pub newest: Option<u64>,
    /// For each queue that a child of it was given to pop, the last such child.
    pub poppers: BTreeMap<u32, u64>,
    /// For each queue that it was given to pop, who was given it before, in the order of places.
    pub before: Vec<u64>,
}

impl<B: Body, Q: Queues> Sleepers<B, Q> {
    /// Nothing, for a frame before which these were given what it pops. It takes no memory. `O(1)`.
    pub fn new(alloc: Global, before: Vec<u64>) -> Sleepers<B, Q>
        ensures { AreNewSleepers result before.items }
    {
        Sleepers {
            at_end: Vec::new(alloc),
            at_push: Vec::new(alloc),
            newest: None,
            poppers: BTreeMap::new(alloc),
            before,
        }
    }

    /// The last child that was given what this is of, where that may be popped. It takes no memory. `O(log n)` for n queues that children
    /// were given to pop.
    fn popper_at(&self, holding: Holding) -> Option<u64>
        ensures { result ≡ popper_at self.now holding }
    {
        if holding.mode.allows(Mode::Pop) {
            self.poppers.get(&holding.number).copied()
        } else {
            None
        }
    }

    /// Who was given last, as yet, what each of these may pop, in the order of places. Err is want of memory. `O(k log n)` for k places and
    /// n queues that children were given to pop.
    fn poppers_of(&self, alloc: Global, holdings: &[Holding]) -> Result<Vec<u64>, NoMemory>
        ensures poppers { IfOk result (λ poppers. poppers.items ≡ poppers_of self.now holdings.now) }
    {
        let mut poppers = Vec::new(alloc);
        for holding in holdings {
            if let Some(popper) = self.popper_at(*holding) {
                poppers.push(popper)?;
            }
        }
        Ok(poppers)
    }

    /// Notes a child that was given these. Err is want of memory. `O(k log n)` for k places and n queues that children were given to pop.
    fn notes(&mut self, child: u64, holdings: &[Holding]) -> Result<(), NoMemory>
        ensures noted { OnOk result (HasNoted self.old self.new child holdings.now) }
        ensures sleepers { HasSameSleepers self.old self.new }
    {
        self.newest = Some(child);
        for holding in holdings {
            if holding.mode.allows(Mode::Pop) {
                self.poppers.insert(holding.number, child)?;
            }
        }
        Ok(())
    }

    /// Notes a child that was given these. The answer is who was given before it what it may pop, in the order of places. Err is want of
    /// memory. `O(k log n)` for k places and n queues that children were given to pop.
    pub fn spawns(
        &mut self,
        alloc: Global,
        child: u64,
        holdings: &[Holding],
    ) -> Result<Vec<u64>, NoMemory>
        ensures before { IfOk result (λ before. before.items ≡ poppers_of self.old holdings.now) }
        ensures noted { OnOk result (HasNoted self.old self.new child holdings.now) }
        ensures sleepers { HasSameSleepers self.old self.new }
    {
        let before = self.poppers_of(alloc, holdings)?;
        self.notes(child, holdings)?;
        Ok(before)
    }

    /// Lets a frame sleep here that has to wait for this, and asks about this queue. Err is want of memory. `O(1)`, amortised.
    pub fn takes_in(
        &mut self,
        frame: Frame<B, Q>,
        wait: WaitFor,
        queue: Option<u32>,
    ) -> Result<(), NoMemory>
        ensures ok { OnOk result (HasTakenIn self.old self.new frame wait queue) }
        ensures err { OnErr result ((self.new.at_end.items ≡ self.old.at_end.items) × (self.new.at_push.items ≡ self.old.at_push.items)) }
        ensures notes { HasSameNotes self.old self.new }
    {
        match (wait, queue) {
            (WaitFor::Pusher(_), Some(queue)) => self.at_push.push(Popper { queue, frame })?,
            _ => self.at_end.push(frame)?,
        }
        Ok(())
    }

    /// Lets those be ready that sleep here until this queue is pushed to. Err is want of memory. `O(1)` for each frame that sleeps here until
    /// a queue is pushed to.
    pub fn wakes(&mut self, ready: &mut Vec<Frame<B, Q>>, queue: u32) -> Result<(), NoMemory>
        // that all frames stay of their run
        ensures own { (plan : Plan B B.Local) (run : List ℕ) → AreSleepersOfRun (ends_of Q.Ends.LocalEnds) plan run self.old
            → AreSleepersOfRun (ends_of Q.Ends.LocalEnds) plan run self.new }
        ensures ready { (plan : Plan B B.Local) (run : List ℕ) → AreSleepersOfRun (ends_of Q.Ends.LocalEnds) plan run self.old
            → AreOfRun (ends_of Q.Ends.LocalEnds) plan run ready.old.items → AreOfRun (ends_of Q.Ends.LocalEnds) plan run ready.new.items }

        // who wakes, and that none is lost
        ensures woken { OnOk result (NoneAwaits queue (Some self.new)) }
        ensures none_more { (other : ℕ) → NoneAwaits other (Some self.old) → NoneAwaits other (Some self.new) }
        ensures none_lost { OnOk result (vec_len ready.new + vec_len self.new.at_push ≡ vec_len ready.old + vec_len self.old.at_push) }

        // what stays
        ensures others { self.new.at_end ≡ self.old.at_end }
        ensures notes { HasSameNotes self.old self.new }
    {
        let mut place = 0;
        while place < self.at_push.len() {
            if self.at_push[place].queue == queue {
                let popper = self.at_push.swap_remove(place);
                ready.push(popper.frame)?;
            } else {
                place += 1;
            }
        }
        Ok(())
    }

    /// Lets all be ready that sleep here until a queue is pushed to. Err is want of memory. `O(1)`, amortised, for each of them.
    pub fn wakes_poppers(&mut self, ready: &mut Vec<Frame<B, Q>>) -> Result<(), NoMemory>
        // that all frames stay of their run
        ensures own { (plan : Plan B B.Local) (run : List ℕ) → AreSleepersOfRun (ends_of Q.Ends.LocalEnds) plan run self.old
            → AreSleepersOfRun (ends_of Q.Ends.LocalEnds) plan run self.new }
        ensures ready { (plan : Plan B B.Local) (run : List ℕ) → AreSleepersOfRun (ends_of Q.Ends.LocalEnds) plan run self.old
            → AreOfRun (ends_of Q.Ends.LocalEnds) plan run ready.old.items → AreOfRun (ends_of Q.Ends.LocalEnds) plan run ready.new.items }

        // who wakes, and that none is lost
        ensures woken { OnOk result ((queue : ℕ) → NoneAwaits queue (Some self.new)) }
        ensures none_left { OnOk result (vec_len self.new.at_push ≡ 0) }
        ensures none_more { (other : ℕ) → NoneAwaits other (Some self.old) → NoneAwaits other (Some self.new) }
        ensures none_lost { OnOk result (vec_len ready.new ≡ vec_len ready.old + vec_len self.old.at_push) }

        // what stays
        ensures others { self.new.at_end ≡ self.old.at_end }
        ensures notes { HasSameNotes self.old self.new }
    {
        while let Some(popper) = self.at_push.pop() {
            ready.push(popper.frame)?;
        }
        Ok(())
    }

    /// Lets all that sleep here be ready. Err is want of memory. `O(1)`, amortised, for each of them.
    pub fn wakes_all(self, ready: &mut Vec<Frame<B, Q>>) -> Result<(), NoMemory>
        ensures ready { (plan : Plan B B.Local) (run : List ℕ) → AreSleepersOfRun (ends_of Q.Ends.LocalEnds) plan run self
            → AreOfRun (ends_of Q.Ends.LocalEnds) plan run ready.old.items → AreOfRun (ends_of Q.Ends.LocalEnds) plan run ready.new.items }
        ensures none_lost { OnOk result (vec_len ready.new ≡ vec_len ready.old + sleeper_count (Some self)) }
    {
        let mut sleepers = self;
        sleepers.wakes_poppers(ready)?;
        ready.append(&mut sleepers.at_end)?;
        Ok(())
    }
}
