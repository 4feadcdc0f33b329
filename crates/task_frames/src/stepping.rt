// A frame's next step at the core.
ghost use Rattle.std.specs.Prelude.{◌≡◌, IfOk, IfSome, OnOk, IfNone};
ghost use Rattle.task_frames.specs.declared.stage.Stage.TheVariants.{Ready};
ghost use Rattle.task_frames.specs.Cores.{HasIt, MayBegin, asking};
ghost use Rattle.task_frames.specs.Resumes.{IsLiveBefore, IsShown, IsStep, waited_for};

use crate::{FrameAtCore, Kept, MidStep, Stage, StagedTask, Step};
use queues::{Queues, WaitFor};
use std::alloc::Global;
use swan_model::{Answer, Ask, Body, FaultKind, NoMemory};

impl<Q: Queues> Kept<Q> {
    /// Takes the next step of a frame, or tells what it has to wait for. Err is want of memory. It costs what the step costs.
    pub fn step<B: Body>(
        &mut self,
        alloc: Global,
        body: &B,
        frame: FrameAtCore<B>,
    ) -> Result<Step<B>, NoMemory>
        requires has { HasIt B.Body self.old frame }
        requires body { body.now ≡ frame.task.plan.body }
        ensures step { IfOk result (IsStep B.Body self.old self.new frame.task) }
        ensures run { OnOk result (self.new.run ≡ self.old.run) }
    {
        if let Some(wait) = self.first_wait(&frame) {
            return Ok(Step::Waits(frame, wait));
        }
        let (staged, stage) = frame.apart();
        match stage {
            Stage::Asking(local, ask, at) => self.take(alloc, MidStep { staged, local, at }, ask),
            Stage::Ready(local, answer) => self.ask(alloc, body, staged, local, answer),
        }
    }

    /// Asks the body for the next step of a task that stands so, and takes it. A task without fuel ends by that. Err is want of
    /// memory. It costs what the step costs. It is never inlined: its stack has room for what the body says, which a frame that has
    /// asked already doesn't need.
    #[inline(never)]
    fn ask<B: Body>(
        &mut self,
        alloc: Global,
        body: &B,
        staged: Box<StagedTask<B>>,
        local: B::Local,
        answer: Answer,
    ) -> Result<Step<B>, NoMemory>
        requires has { HasIt B.Body self.old (record { task = staged.value.task; stage = Ready local answer }) }
        requires begun { MayBegin self.old staged.value.task.number }
        requires body { body.now ≡ staged.value.task.plan.body }
        ensures step { IfOk result (IsStep B.Body self.old self.new staged.value.task) }
        ensures run { OnOk result (self.new.run ≡ self.old.run) }
    {
        let at = body.place(&local);
        let fuel = staged.task.fuel();
        if fuel == 0 {
            let stage = Stage::Ready(local, answer);
            return self.fault(FrameAtCore::of(staged, stage), at, FaultKind::Fuel);
        }
        let mut staged = staged;
        let left = staged.task.pays();
        let (local, ask) = body.advance(alloc, local, answer, left)?;
        self.take(alloc, MidStep { staged, local, at }, ask)
    }

    /// What a frame has to wait for before its first step: a version that it was given to read and that is owed, or
    /// else an older sibling that pops what it pops. None where it has taken a step. `O(k log n)` for k places, and what
    /// `Queues::may_start` costs; it takes no memory.
    fn first_wait<B: Body>(&self, frame: &FrameAtCore<B>) -> Option<WaitFor>
        requires has { HasIt B.Body self.now frame.now }
        ensures shown { IfSome result (IsShown B.Body self.now frame.now) }
        ensures earlier { IfSome result (λ wait. IsLiveBefore self.now.live frame.now.task.path (waited_for wait)) }
        ensures begun { IfNone result (MayBegin self.now frame.now.task.number) }
    {
        let done = frame.done();
        if done > 0 {
            return None;
        }
        let number = frame.number();
        if let Err(owing) = self.versions.ready(number) {
            return Some(WaitFor::Version(owing));
        }
        match self.queues.may_start(number) {
            Ok(()) => None,
            Err(older) => Some(WaitFor::PopTurn(older)),
        }
    }

    /// Takes the step of a frame that asks for this. Err is want of memory. It costs what the step costs.
    fn take<B: Body>(
        &mut self,
        alloc: Global,
        mid: MidStep<B>,
        ask: Ask<B::Local>,
    ) -> Result<Step<B>, NoMemory>
        requires has { HasIt B.Body self.old (asking mid ask) }
        requires begun { MayBegin self.old mid.task.number }
        ensures step { IfOk result (IsStep B.Body self.old self.new mid.task) }
        ensures run { OnOk result (self.new.run ≡ self.old.run) }
    {
        match ask {
            Ask::Work => Ok(self.work(mid)),
            Ask::Read(place) => self.read(mid, place),
            Ask::Write(place, value) => self.write(mid, place, value),
            Ask::Push(place, value) => self.push(mid, place, value),
            Ask::Pop(place) => self.pop(mid, place),
            Ask::Empty(place) => self.test(mid, place),
            Ask::NewQueue => self.new_queue(mid),
            Ask::NewObject(first) => self.new_object(mid, first),
            Ask::Spawn(child) => self.spawn(alloc, mid, child),
            Ask::Sync => Ok(self.sync(mid)),
            Ask::Finish => self.finish(mid),
            Ask::Fail(trouble) => {
                let at = mid.at();
                self.fault(
                    mid.asks(Ask::Fail(trouble)),
                    at,
                    FaultKind::Trouble(trouble),
                )
            }
        }
    }
}
