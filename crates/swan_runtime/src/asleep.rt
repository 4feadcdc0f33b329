// The frames of a run that sleep.
ghost use Rattle.std.specs.Prelude.{◌≡◌, ◌≢◌, ◌+◌, ◌∷◌, [], ℕ, List, None, IfOk, IfSome, IsSomeAnd, OnOk, false, true, vec_len};
ghost use Rattle.std.specs.List.{find};
ghost use Rattle.pop_order.specs.Frames.{lets_use};
ghost use Rattle.swan_model.specs.Rights.{allows};
ghost use Rattle.swan_model.specs.declared.plan.Plan.{Plan};
ghost use Rattle.swan_model.specs.declared.rights.Mode.TheVariants.{Push};
ghost use Rattle.task_frames.specs.Resumes.{ends_of};
ghost use Rattle.swan_runtime.specs.Beds.{AreNewSleepers, AreOnlySleepers, HasEntered, HasGoneToBed, HasNotedAt, NoneAwaits, OnlyWoke, OtherSleepersStay, bed_of, before_child, is_live, newest_child, popper_before};
ghost use Rattle.swan_runtime.specs.Shared.{AsleepIsOfRun, KeepsOfRun, sleeper_count, sleepers_at};

use crate::sleepers::Sleepers;
use queues::{Queues, WaitFor};
use std::alloc::Global;
use std::collections::BTreeMap;
use swan_model::{Body, Mode, NoMemory};
use task_frames::{Frame, Holding};

/// What sleeps under each live frame, by its number.
///
/// A frame that has to wait sleeps under a live one, and is ready again once that one has ended; or, where it waits for a push, once that one
/// has taken a step about the queue, has taken its first step, or has spawned a child that may push to the queue. In costs, n counts the live
/// frames.
#[derive(Drop)]
pub(crate) struct Asleep<B: Body, Q: Queues> {
    pub sleepers: BTreeMap<u64, Sleepers<B, Q>>,
}

impl<B: Body, Q: Queues> Asleep<B, Q> {
    /// Nobody, under a root of this number. Err is want of memory. It allocates once.
    pub fn new(alloc: Global, root: u64) -> Result<Asleep<B, Q>, NoMemory>
        ensures own { (plan : Plan B B.Local) (run : List ℕ) → IfOk result (AsleepIsOfRun (ends_of Q.Ends.LocalEnds) plan run) }
        ensures root { IfOk result (λ asleep. IsSomeAnd (sleepers_at asleep root) (λ sleepers. AreNewSleepers sleepers [])) }
        ensures others { IfOk result (λ asleep. (other : ℕ) → other ≢ root → sleepers_at asleep other ≡ None) }
    {
        let mut sleepers = BTreeMap::new(alloc);
        sleepers.insert(root, Sleepers::new(alloc, Vec::new(alloc)))?;
        Ok(Asleep { sleepers })
    }

    /// Lets all that sleep under a frame be ready, which has ended. Err is want of memory. `O(log n)`, and `O(1)` amortised for each of them.
    pub fn wake_all(&mut self, ready: &mut Vec<Frame<B, Q>>, number: u64) -> Result<(), NoMemory>
        ensures kept { KeepsOfRun (ends_of Q.Ends.LocalEnds) [] self.old self.new ready.old.items ready.new.items }
        ensures none_lost { OnOk result (vec_len ready.new ≡ vec_len ready.old + sleeper_count (sleepers_at self.old number)) }
        ensures gone { AreOnlySleepers self.old self.new number None }
    {
        match self.sleepers.remove(&number) {
            Some(sleepers) => sleepers.wakes_all(ready),
            None => Ok(()),
        }
    }

    /// Lets those be ready that sleep under a frame until it pushes to this queue. Err is want of memory. `O(log n)`, and `O(1)` for each frame
    /// that sleeps there until it pushes.
    fn wake_poppers(
        &mut self,
        ready: &mut Vec<Frame<B, Q>>,
        number: u64,
        queue: u32,
    ) -> Result<(), NoMemory>
        ensures kept { KeepsOfRun (ends_of Q.Ends.LocalEnds) [] self.old self.new ready.old.items ready.new.items }
        ensures none_lost { OnOk result (vec_len ready.new + sleeper_count (sleepers_at self.new number) ≡ vec_len ready.old + sleeper_count (sleepers_at self.old number)) }
        ensures woken { OnOk result (NoneAwaits queue (sleepers_at self.new number)) }
        ensures sleepers { OnlyWoke number self.old self.new }
    {
        match self.sleepers.get_mut(&number) {
            Some(sleepers) => sleepers.wakes(ready, queue),
            None => Ok(()),
        }
    }

    /// Lets all be ready that sleep under a frame until it pushes. Err is want of memory. `O(log n)`, and `O(1)` amortised for each of them.
    fn wake_all_poppers(
        &mut self,
        ready: &mut Vec<Frame<B, Q>>,
        number: u64,
    ) -> Result<(), NoMemory>
        ensures kept { KeepsOfRun (ends_of Q.Ends.LocalEnds) [] self.old self.new ready.old.items ready.new.items }
        ensures none_lost { OnOk result (vec_len ready.new + sleeper_count (sleepers_at self.new number) ≡ vec_len ready.old + sleeper_count (sleepers_at self.old number)) }
        ensures woken { OnOk result ((queue : ℕ) → NoneAwaits queue (sleepers_at self.new number)) }
        ensures sleepers { OnlyWoke number self.old self.new }
    {
        match self.sleepers.get_mut(&number) {
            Some(sleepers) => sleepers.wakes_poppers(ready),
            None => Ok(()),
        }
    }

    /// Lets those be ready that sleep under a frame until it pushes to the queue about which it asked, where there is one. Err is want of
    /// memory. It costs what `wake_poppers` costs.
    fn wake_asked(
        &mut self,
        ready: &mut Vec<Frame<B, Q>>,
        number: u64,
        asked: Option<u32>,
    ) -> Result<(), NoMemory>
        ensures kept { KeepsOfRun (ends_of Q.Ends.LocalEnds) [] self.old self.new ready.old.items ready.new.items }
        ensures none_lost { OnOk result (vec_len ready.new + sleeper_count (sleepers_at self.new number) ≡ vec_len ready.old + sleeper_count (sleepers_at self.old number)) }
        ensures woken { OnOk result (IfSome asked (λ queue. NoneAwaits queue (sleepers_at self.new number))) }
        ensures sleepers { OnlyWoke number self.old self.new }
    {
        match asked {
            Some(queue) => self.wake_poppers(ready, number, queue),
            None => Ok(()),
        }
    }

    /// Lets those be ready that a step of a frame may wake: those that sleep under it until it pushes to the queue about which it asked; or
    /// until it pushes at all, where it was its first step, of which nobody knows before it is taken what it asks for. Err is want of memory. It
    /// costs what `wake_poppers` costs.
    pub fn wake_by_step(
        &mut self,
        ready: &mut Vec<Frame<B, Q>>,
        number: u64,
        had_begun: bool,
        asked: Option<u32>,
    ) -> Result<(), NoMemory>
        ensures kept { KeepsOfRun (ends_of Q.Ends.LocalEnds) [] self.old self.new ready.old.items ready.new.items }
        ensures none_lost { OnOk result (vec_len ready.new + sleeper_count (sleepers_at self.new number) ≡ vec_len ready.old + sleeper_count (sleepers_at self.old number)) }
        ensures woken { OnOk result (IfSome asked (λ queue. NoneAwaits queue (sleepers_at self.new number))) }
        ensures first { OnOk result (had_begun ≡ false → (queue : ℕ) → NoneAwaits queue (sleepers_at self.new number)) }
        ensures sleepers { OnlyWoke number self.old self.new }
    {
        if had_begun {
            self.wake_asked(ready, number, asked)
        } else {
            self.wake_all_poppers(ready, number)
        }
    }

    /// Notes a child of this parent that was given this. The answer is who was given to pop before what it pops, in the order of places. Err is
    /// want of memory. `O(log n + k log q)` for k places of the child and q queues that children of the parent were given to pop.
    fn spawns(
        &mut self,
        alloc: Global,
        parent: u64,
        child: u64,
        holdings: &[Holding],
    ) -> Result<Vec<u64>, NoMemory>
        ensures own { (plan : Plan B B.Local) (run : List ℕ) → AsleepIsOfRun (ends_of Q.Ends.LocalEnds) plan run self.old → AsleepIsOfRun (ends_of Q.Ends.LocalEnds) plan run self.new }
        ensures before { IfOk result (λ before. before.items ≡ before_child (sleepers_at self.old parent) holdings.now) }
        ensures noted { OnOk result (HasNotedAt (sleepers_at self.old parent) (sleepers_at self.new parent) child holdings.now) }
        ensures others { OtherSleepersStay self.old self.new parent }
    {
        match self.sleepers.get_mut(&parent) {
            Some(sleepers) => sleepers.spawns(alloc, child, holdings),
            None => Ok(Vec::new(alloc)),
        }
    }

    /// Lets those be ready that sleep under a frame until it pushes to the queue at a place, where that may be pushed to. Err is want of
    /// memory. It costs what `wake_poppers` costs.
    fn wake_at(
        &mut self,
        ready: &mut Vec<Frame<B, Q>>,
        number: u64,
        holding: Holding,
    ) -> Result<(), NoMemory>
        ensures kept { KeepsOfRun (ends_of Q.Ends.LocalEnds) [] self.old self.new ready.old.items ready.new.items }
        ensures none_lost { OnOk result (vec_len ready.new + sleeper_count (sleepers_at self.new number) ≡ vec_len ready.old + sleeper_count (sleepers_at self.old number)) }
        ensures woken { OnOk result (allows holding.mode Push ≡ true → NoneAwaits holding.number (sleepers_at self.new number)) }
        ensures sleepers { OnlyWoke number self.old self.new }
    {
        if holding.mode.allows(Mode::Push) {
            self.wake_poppers(ready, number, holding.number)
        } else {
            Ok(())
        }
    }

    /// Lets those be ready that sleep under a frame until it pushes to one of the queues that may be pushed to by one who holds this. Err is
    /// want of memory. It costs what `wake_poppers` costs for each place.
    fn wake_given(
        &mut self,
        ready: &mut Vec<Frame<B, Q>>,
        number: u64,
        holdings: &[Holding],
    ) -> Result<(), NoMemory>
        ensures kept { KeepsOfRun (ends_of Q.Ends.LocalEnds) [] self.old self.new ready.old.items ready.new.items }
        ensures none_lost { OnOk result (vec_len ready.new + sleeper_count (sleepers_at self.new number) ≡ vec_len ready.old + sleeper_count (sleepers_at self.old number)) }
        ensures woken { OnOk result ((queue : ℕ) → lets_use holdings.now queue Push ≡ true → NoneAwaits queue (sleepers_at self.new number)) }
        ensures sleepers { OnlyWoke number self.old self.new }
    {
        for holding in holdings {
            self.wake_at(ready, number, *holding)?;
        }
        Ok(())
    }

    /// Enters a child of this parent that was given this. Who sleeps until the parent pushes to a queue that the child may push to is ready,
    /// since the child may be whom it has to wait for. Err is want of memory. `O(log n + k (log n + log q))` for k places of the child and q
    /// queues that children of the parent were given to pop, and for each place to push to `O(1)` for each frame that sleeps under the parent
    /// until it pushes.
    pub fn enter(
        &mut self,
        alloc: Global,
        ready: &mut Vec<Frame<B, Q>>,
        parent: u64,
        child: u64,
        holdings: &[Holding],
    ) -> Result<(), NoMemory>
        ensures kept { KeepsOfRun (ends_of Q.Ends.LocalEnds) [] self.old self.new ready.old.items ready.new.items }
        ensures none_lost { OnOk result (parent ≢ child
            → vec_len ready.new + sleeper_count (sleepers_at self.new parent) ≡ vec_len ready.old + sleeper_count (sleepers_at self.old parent)) }
        ensures entered { OnOk result (HasEntered self.old self.new parent child holdings.now) }
    {
        self.wake_given(ready, parent, holdings)?;
        let before = self.spawns(alloc, parent, child, holdings)?;
        self.sleepers.insert(child, Sleepers::new(alloc, before))?;
        Ok(())
    }

    /// Under which frame one sleeps that has to wait for this.
    ///
    /// Who waits for its children sleeps under the one spawned last, which mostly ends last. Who waits for its turn to pop sleeps under
    /// the first live one of those that were given before it what it may pop: so of many that pop one queue each wakes once. Where such a
    /// frame has ended, it is the one that the wait names. `O(k log n)` for k places; it takes no memory.
    fn bed(&self, number: u64, wait: WaitFor) -> u64
        ensures { result ≡ bed_of self.now number wait }
    {
        match wait {
            WaitFor::Child(child) => self.newest_child(number).unwrap_or(child),
            WaitFor::PopTurn(popper) => self.popper_before(number).unwrap_or(popper),
            WaitFor::Version(owing) => owing,
            WaitFor::Pusher(pusher) => pusher,
        }
    }

    /// The child of a frame that was spawned last, where it is live. `O(log n)`; it takes no memory.
    fn newest_child(&self, number: u64) -> Option<u64>
        ensures { result ≡ newest_child self.now number }
    {
        let newest = self.sleepers.get(&number)?.newest?;
        if self.sleepers.contains_key(&newest) {
            Some(newest)
        } else {
            None
        }
    }

    /// The first live frame of those that were given before it what this one may pop; None where there is none. `O(k log n)` for k places; it
    /// takes no memory.
    fn popper_before(&self, number: u64) -> Option<u64>
        ensures { result ≡ popper_before self.now number }
    {
        let sleepers = self.sleepers.get(&number)?;
        self.first_live(&sleepers.before)
    }

    /// The first of these that is live; None where none is. `O(k log n)` for k of them; it takes no memory.
    fn first_live(&self, numbers: &[u64]) -> Option<u64>
        ensures { result ≡ find (is_live self.now) numbers.now }
    {
        for number in numbers {
            if self.sleepers.contains_key(number) {
                return Some(*number);
            }
        }
        None
    }

    /// Lets a frame sleep that has to wait for this; where the frame isn't live under which it would sleep, it is ready. Err is want of memory.
    /// `O(k log n)` for k places.
    pub fn sleep(
        &mut self,
        ready: &mut Vec<Frame<B, Q>>,
        frame: Frame<B, Q>,
        wait: WaitFor,
    ) -> Result<(), NoMemory>
        ensures kept { KeepsOfRun (ends_of Q.Ends.LocalEnds) (frame ∷ []) self.old self.new ready.old.items ready.new.items }
        ensures bed { OnOk result (HasGoneToBed (bed_of self.old frame.task.number wait) self.old self.new ready.old.items ready.new.items frame wait) }
    {
        let queue = frame.asked_queue();
        let bed = self.bed(frame.number(), wait);
        match self.sleepers.get_mut(&bed) {
            Some(sleepers) => sleepers.takes_in(frame, wait, queue),
            None => Ok(ready.push(frame)?),
        }
    }
}
