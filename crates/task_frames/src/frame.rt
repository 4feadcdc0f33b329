// Frames.
ghost use Rattle.std.specs.Prelude.{◌≡◌, ◌≢◌, ◌+◌, ◌<◌, ◌≤◌, ◌↔◌, IsTrue, true, false, None, Some, IfOk, IfErr, OnOk, OnErr, if◌then◌else◌};
ghost use Rattle.task_frames.specs.declared.paused.Paused.TheVariants as paused;
ghost use Rattle.task_frames.specs.declared.stage.Stage.TheVariants.{Ready};
ghost use Rattle.swan_model.specs.Lawful.{IsLawful};
ghost use Rattle.swan_model.specs.QueueFollows.{AreByEnds};
ghost use Rattle.swan_model.specs.QueueState.{after_back};
ghost use Rattle.queues.specs.Asks.{IsRecorded, IsSameRun, OnNext};
ghost use Rattle.task_frames.specs.Asked.{asked_queue, queue_of};
ghost use Rattle.task_frames.specs.Frames.{IsAnyFrame, IsFrame, is_whole};
ghost use Rattle.task_frames.specs.Going.{IsSameFrame, NeedsCore, OnAtCore, OnBudget, OnNoMemory, OnSteps, is_at_core};
ghost use Rattle.swan_model.specs.Values.{COUNT_MOST};

use crate::holding::{hold_same, number_at};
use crate::serving::serve;
use crate::{FrameAtCore, Holding, LiveFrame, Paused, PlanRun, Stage, StagedTask, Steps};
use named_lock::Named;
use queues::Queues;
use std::alloc::Global;
use std::marker::Model;
use swan_model::{Answer, Ask, Body, Meaning, Mode, NoMemory, Path, Plan, Stop, Worked};

/// A frame.
#[derive(Drop)]
pub struct Frame<B: Body, Q: Queues> {
    // in a box, since frames are moved about
    staged: Box<StagedTask<B>>,
    // how many steps were done when it was given
    since: u64,
    mark: bool,
    ends: Q::Ends,
}

impl<B: Body, Q: Queues> Model for Frame<B, Q> {
    ghost use Rattle.std.specs.Prelude.{◌≡◌, true, is_some};
    ghost use Rattle.task_frames.specs.Frames.{FrameView, IsAnyFrame};

    ghost Value = { FrameView B B.Local Q.Ends };

    ghost view = { λ f. record {
      task = record f.staged.value.task { since = f.since };
      stage = f.staged.value.stage;
      mark = f.mark;
      ends = f.ends;
    } };

    ghost invariant = { λ f. IsAnyFrame B.Body Q.Ends.name Q.Ends.ends (record {
      task = record f.staged.value.task { since = f.since };
      stage = f.staged.value.stage;
      mark = f.mark;
      ends = f.ends;
    })
        × (f.mark ≡ true → is_some f.staged.value.stage ≡ true) };
}

impl<B: Body, Q: Queues> Frame<B, Q> {
    /// A frame as the core gives it, wherever it stands to its next step, with its ends. It takes no memory. `O(1)`.
    pub(crate) fn given(at: FrameAtCore<B>, ends: Q::Ends) -> Frame<B, Q>
        requires frame { IsFrame B.Body at.task (Q.Ends.name ends) (Q.Ends.ends ends) at.stage }
        ensures { result ≡ record { task = at.task; stage = Some at.stage; mark = false; ends = ends } }
    {
        let FrameAtCore { staged } = at;
        let since = staged.task.done;
        Frame {
            staged,
            since,
            mark: false,
            ends,
        }
    }

    /// Whether it stands as the record has it: with this path, this number of steps when it was given, and these holdings.
    /// `O(d + k)` for a path of d parts and k places; it takes no memory.
    pub(crate) fn stands_as(&self, live: &LiveFrame) -> bool
        ensures yes { result ≡ true → (live.now.path ≡ self.now.task.path) × (live.now.done ≡ self.now.task.since) × (live.now.holdings ≡ self.now.task.holdings) }
        ensures no { result ≡ false → ¬ ((live.now.path ≡ self.now.task.path) × (live.now.done ≡ self.now.task.since) × (live.now.holdings ≡ self.now.task.holdings)) }
    {
        if live.done != self.since {
            return false;
        }
        if !same_path(&live.path, &self.staged.task.path) {
            return false;
        }
        hold_same(
            live.holdings.as_slice(),
            self.staged.task.holdings.as_slice(),
        )
    }

    /// The frame without its ends, which go back to the queues of its run. Err gives it back as it was, with its ends and
    /// its mark, and comes exactly where the queues refuse the ends. It takes no memory. It costs what `Queues::back` costs.
    pub(crate) fn come_back(self, queues: &mut Q) -> Result<FrameAtCore<B>, Frame<B, Q>>
        // whose it is
        requires mark { self.mark ≡ true }
        requires own { (Q.Ends.name self.ends ≡ Q.name queues.old) × (Q.Ends.run self.ends ≡ Q.run queues.old) }

        // where there is a script
        requires path { OnNext (Q.name queues.old) (Q.state queues.old) self.task.number (λ s f. self.task.path ≡ f.path) }

        // the frame
        ensures is { IfOk result (λ at. IsFrame B.Body self.task (Q.Ends.name self.ends) (Q.Ends.ends self.ends) at.stage) }
        ensures task { IfOk result (λ at. at.task ≡ record self.task { since = self.task.done }) }
        ensures stage { IfOk result (λ at. self.stage ≡ Some at.stage) }
        ensures handed_back { IfErr result (λ frame. frame ≡ self) }

        // the queues
        ensures recorded { OnOk result (IsRecorded (Q.state queues.old) self.task.number (Q.Ends.ends self.ends)) }

        // where there is a script
        ensures by_ends { OnOk result (OnNext (Q.name queues.old) (Q.state queues.old) self.task.number
            (λ s f. IsLawful s → AreByEnds s f.path f.deeds (Q.Ends.ends self.ends).deeds)) }

        // what the queues keep
        ensures ok { OnOk result (Q.state queues.new ≡ after_back (Q.state queues.old) self.task.number (Q.Ends.ends self.ends).deeds) }
        ensures err { OnErr result ((¬ IsRecorded (Q.state queues.old) self.task.number (Q.Ends.ends self.ends)) × (Q.state queues.new ≡ Q.state queues.old)) }
        ensures same { IsSameRun Q.name Q.run queues.old queues.new }
    {
        let number = self.staged.task.number();
        let Frame {
            staged,
            since,
            mark,
            ends,
        } = self;
        match queues.back(number, ends) {
            Ok(()) => Ok(FrameAtCore { staged }),
            Err(ends) => Err(Frame {
                staged,
                since,
                mark,
                ends,
            }),
        }
    }

    /// The task's path. It takes no memory. `O(1)`.
    pub fn path(&self) -> &Path
        ensures { result.now ≡ self.now.task.path }
    {
        &self.staged.task.path
    }

    /// What it holds, by place. It takes no memory. `O(1)`.
    pub fn holdings(&self) -> &[Holding]
        ensures { result.now ≡ self.now.task.holdings }
    {
        self.staged.task.holdings()
    }

    /// The queue that the step is about in whose middle the frame is, where that is a push, a pop or a test for emptiness
    /// of what it may use so. It takes no memory. `O(1)`.
    pub fn asked_queue(&self) -> Option<u32>
        ensures { result ≡ asked_queue self.now }
    {
        match &self.staged.stage {
            Some(Stage::Asking(_, ask, _)) => queue_of(self.staged.task.holdings(), ask),
            Some(Stage::Ready(_, _)) => None,
            None => None,
        }
    }

    /// Whether it has taken a step. It takes no memory. `O(1)`.
    pub fn has_begun(&self) -> bool
        ensures { IsTrue result ↔ (0 < self.now.task.done) }
    {
        self.staged.task.done > 0
    }

    /// Its number. Whatever frame it is, it is true for its plan where no want of memory was met; and where its mark stands,
    /// none was. It takes no memory. `O(1)`.
    pub fn number(&self) -> u64
        ensures number { result ≡ self.now.task.number }
        ensures frame { IsAnyFrame B.Body Q.Ends.name Q.Ends.ends self.now }
        ensures marked { self.now.mark ≡ true → is_whole self.now ≡ true }
    {
        self.staged.task.number
    }

    /// Takes steps as `run_local` does, of a frame that has taken some already, and leaves its mark as it is.
    fn run_on(&mut self, alloc: Global, body: &B, budget: u64) -> Paused
        // how the frame stands
        requires body { body.now ≡ self.old.task.plan.body }
        requires whole { is_whole self.old ≡ true }
        requires unmarked { self.old.mark ≡ false }
        requires begun { 0 < self.old.task.done }
        requires budget { 0 < budget }

        // what it leaves
        ensures same { IsSameFrame Q.Ends.name Q.Ends.run Q.Ends.ends Q.Ends.counts self.old self.new }
        ensures mark { self.new.mark ≡ self.old.mark }
        ensures whole { OnSteps result (λ k. is_whole self.new ≡ true) }
        ensures done { OnSteps result (λ k. self.new.task.done ≡ self.old.task.done + k) }

        // when each answer comes, and what want of memory leaves
        ensures at_core { OnAtCore result (λ k. k < budget) }
        ensures cause { OnAtCore result (λ k. NeedsCore Q.Ends.ends Q.Ends.counts self.old self.new) }
        ensures budget { OnBudget result (λ k. k ≡ budget) }
        ensures torn { OnNoMemory result (self.new.stage ≡ None) }
    {
        let staged = &mut *self.staged;
        match staged.stage.take() {
            None => unreachable!(),
            Some(Stage::Ready(local, answer)) => {
                self.take_rounds(alloc, body, local, answer, budget, budget)
            }
            Some(Stage::Asking(local, ask, place)) => {
                let mut ask = ask;
                match serve(&mut self.ends, staged.task.holdings(), &mut ask) {
                    Some(said) => {
                        drop(ask);
                        staged.task.takes_step();
                        self.take_rounds(alloc, body, local, said, budget - 1, budget)
                    }
                    None => {
                        staged.stands(Stage::Asking(local, ask, place));
                        Paused::AtCore(Steps::of(0))
                    }
                }
            }
        }
    }

    /// Takes steps of a frame with this local and this answer, whose stage is out of its box: up to so many as are left of a
    /// budget. A round is a row of steps of work by the body's own call, and then the step that is asked for, where the
    /// frame's ends serve it. The stage is made again where the frame stops, and not before. The answer counts the steps of the budget
    /// that were taken earlier too.
    fn take_rounds(
        &mut self,
        alloc: Global,
        body: &B,
        local: B::Local,
        answer: Answer,
        most: u64,
        budget: u64,
    ) -> Paused
        // how the frame stands
        requires body { body.now ≡ self.old.task.plan.body }
        requires frame { IsFrame B.Body self.old.task (Q.Ends.name self.old.ends) (Q.Ends.ends self.old.ends) (Ready local answer) }
        requires out { self.old.stage ≡ None }
        requires unmarked { self.old.mark ≡ false }
        requires begun { 0 < self.old.task.done }
        requires most { most ≤ budget }

        // what it leaves
        ensures same { IsSameFrame Q.Ends.name Q.Ends.run Q.Ends.ends Q.Ends.counts self.old self.new }
        ensures mark { self.new.mark ≡ self.old.mark }
        ensures whole { OnSteps result (λ k. is_whole self.new ≡ true) }
        ensures done { OnSteps result (λ k. self.new.task.done + budget ≡ self.old.task.done + most + k) }

        // when each answer comes, and what want of memory leaves
        ensures at_core { OnAtCore result (λ k. k < budget) }
        ensures cause { OnAtCore result (λ k. NeedsCore Q.Ends.ends Q.Ends.counts self.old self.new) }
        ensures budget { OnBudget result (λ k. k ≡ budget) }
        ensures torn { OnNoMemory result (self.new.stage ≡ None) }
    {
        let staged = &mut *self.staged;
        let mut left = most;
        let mut fuel = staged.task.fuel();
        let mut local = local;
        let mut answer = answer;
        while left > 0 && fuel > 0 {
            let row = match body.work(alloc, local, answer, fuel, left) {
                Ok(row) => row,
                Err(NoMemory) => return Paused::NoMemory,
            };
            let Worked {
                local: after,
                works,
                stop,
            } = row;
            local = after;
            left -= works;
            fuel -= works;
            match stop {
                None => answer = Answer::Nothing,
                Some(Stop { ask, place }) => {
                    let mut ask = ask;
                    fuel -= 1;
                    match serve(&mut self.ends, staged.task.holdings(), &mut ask) {
                        Some(said) => {
                            drop(ask);
                            answer = said;
                            left -= 1;
                        }
                        None => {
                            comes_to(staged, most - left, fuel, Stage::Asking(local, ask, place));
                            return Paused::AtCore(Steps::of(budget - left));
                        }
                    }
                }
            }
        }
        comes_to(staged, most - left, fuel, Stage::Ready(local, answer));
        if left == 0 {
            Paused::Budget(Steps::of(budget))
        } else {
            Paused::AtCore(Steps::of(budget - left))
        }
    }

    /// Takes steps of the frame's task without the core: its own work, pushes and pops that the frame's ends serve, and tests
    /// for emptiness by which one of them finds an item; one that finds none needs the core.
    /// The first step of a frame always needs the core.
    ///
    /// - AtCore comes before the budget is reached, where the next step needs the core: it is the frame's first one, or
    ///   the frame has no fuel for it, or it asks for something else than work, a push, a pop or a test, or for one of
    ///   these that the frame may not do or that its ends didn't serve, as they found in this call. The frame's mark stands
    ///   then, and after each other answer it doesn't.
    /// - Budget comes once as many steps as the budget were taken, at budget 0 too.
    /// - NoMemory is want of memory of the body. The frame has no local then, and each later call answers so too.
    ///
    /// The body is that of the plan that the frame's name has. It costs what the steps cost, and `O(1)` for each step that
    /// isn't work.
    pub fn run_local(&mut self, alloc: Global, body: &B, budget: u64) -> Paused
        // what the frame may do
        requires body { body.now ≡ self.old.task.plan.body }

        // what is answered
        ensures at_core { OnAtCore result (λ k. k < budget) }
        ensures cause { OnAtCore result (λ k. NeedsCore Q.Ends.ends Q.Ends.counts self.old self.new) }
        ensures budget { OnBudget result (λ k. k ≡ budget) }
        ensures dead { self.old.stage ≡ None → result ≡ paused.NoMemory }

        // what it leaves
        ensures done { OnSteps result (λ k. self.new.task.done ≡ self.old.task.done + k) }
        ensures first { self.old.task.done ≡ 0 → self.new ≡ record self.old { mark = is_at_core result } }
        ensures mark { self.new.mark ≡ is_at_core result }
        ensures whole { OnSteps result (λ k. is_whole self.new ≡ true) }
        ensures torn { OnNoMemory result (self.new.stage ≡ None) }
        ensures same { IsSameFrame Q.Ends.name Q.Ends.run Q.Ends.ends Q.Ends.counts self.old self.new }
    {
        self.mark = false;
        if self.staged.stage.is_none() {
            return Paused::NoMemory;
        }
        if budget == 0 {
            return Paused::Budget(Steps::of(0));
        }
        if self.staged.task.done == 0 {
            self.mark = true;
            return Paused::AtCore(Steps::of(0));
        }
        match self.run_on(alloc, body, budget) {
            Paused::AtCore(steps) => {
                self.mark = true;
                Paused::AtCore(steps)
            }
            Paused::Budget(steps) => Paused::Budget(steps),
            Paused::NoMemory => Paused::NoMemory,
        }
    }

    /// Lets the frame go. It takes no memory.
    pub fn tear(self) {}
}

/// The queue that an ask is about, where that is a push, a pop or a test for emptiness of what one who holds this may use
/// so. It takes no memory. `O(1)`.
fn queue_of<L>(holdings: &[Holding], ask: &Ask<L>) -> Option<u32>
    ensures { result ≡ queue_of holdings.now ask.now }
{
    match ask {
        Ask::Push(place, _) => number_at(holdings, *place, Mode::Push),
        Ask::Pop(place) => number_at(holdings, *place, Mode::Pop),
        Ask::Empty(place) => number_at(holdings, *place, Mode::Pop),
        _ => None,
    }
}

/// Whether two paths are the same. `O(d)` for d parts; it takes no memory.
fn same_path(path: &Path, other: &Path) -> bool
    ensures yes { result ≡ true → path.now ≡ other.now }
    ensures no { result ≡ false → path.now ≢ other.now }
{
    same_parts(path.parts(), other.parts())
}

/// Whether two lists of parts are the same. `O(d)` for d parts; it takes no memory.
fn same_parts(parts: &[u32], others: &[u32]) -> bool
    ensures yes { result ≡ true → parts.now ≡ others.now }
    ensures no { result ≡ false → parts.now ≢ others.now }
{
    if parts.len() != others.len() {
        return false;
    }
    for at in 0..parts.len() {
        if parts[at] != others[at] {
            return false;
        }
    }
    true
}

/// Leaves a task so many steps further on, with this fuel, and so to its next step. It takes no memory. `O(1)`.
fn comes_to<B: Body>(staged: &mut StagedTask<B>, steps: u64, fuel: u64, stage: Stage<B::Local>)
    requires few { staged.old.task.done + steps ≤ COUNT_MOST }
    ensures { staged.new ≡ record {
      task = record staged.old.task { done = staged.old.task.done + steps; since = staged.old.task.done + steps; fuel = fuel };
      stage = Some stage;
    } }
{
    staged.task.goes_on(steps, fuel);
    staged.stands(stage);
}

impl<B: Body, Q: Queues> Named for Frame<B, Q> {
    ghost use Rattle.std.specs.Prelude.{false};

    type Name = PlanRun<B>;

    ghost name = { λ frame. record { plan = frame.task.plan; run = Q.Ends.run frame.ends } };

    ghost done = { λ _. false };
}
