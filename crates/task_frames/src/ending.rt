// Steps that end their frame.
ghost use Rattle.std.specs.Prelude.{◌≡◌, ◌∷◌, ◌++◌, [], None, Some, IsSome, IfOk, OnOk};
ghost use Rattle.swan_model.specs.declared.body.Ask.TheVariants as ask;
ghost use Rattle.swan_model.specs.QueueFollows.{next_queue_deed};
ghost use Rattle.swan_model.specs.QueueState.{after_finish};
ghost use Rattle.swan_model.specs.Versions.{IsSettled, objects_after_finish};
ghost use Rattle.queues.specs.Asks.{IsOnTurn, MayJoin, OnNext};
ghost use Rattle.swan_model.specs.Readings.{gone_on};
ghost use Rattle.task_frames.specs.Cores.{HasIt, MayBegin, asking};
ghost use Rattle.task_frames.specs.Records.{HasOneFailed, HasRoomForOne, IsOnlyLive, LiveFrame, live_at};
ghost use Rattle.task_frames.specs.Resumes.{EndsTaskByFault, IsStep, MayNotUse};

use crate::{FrameAtCore, Kept, MidStep, Step};
use queues::{Queues, WaitFor};
use swan_model::{Ask, Body, Fault, FaultKind, NoMemory};

impl<Q: Queues> Kept<Q> {
    /// The end that a task asks for. It isn't taken while a child is active. Err is want of memory. `O(k log n)` for k
    /// places, and what `Queues::finish` costs.
    pub fn finish<B: Body>(&mut self, mid: MidStep<B>) -> Result<Step<B>, NoMemory>
        requires has { HasIt B.Body self.old (asking mid ask.Finish) }
        requires begun { MayBegin self.old mid.task.number }
        ensures step { IfOk result (IsStep B.Body self.old self.new mid.task) }
        ensures run { OnOk result (self.new.run ≡ self.old.run) }
    {
        let number = mid.number();
        if let Some(child) = self.live.oldest_child(number) {
            return Ok(Step::Waits(mid.asks(Ask::Finish), WaitFor::Child(child)));
        }
        self.leave(number)?;
        Ok(Step::Ended)
    }

    /// The end of a frame whose next step is this fault, at this place of its program. It isn't taken while a child is
    /// active. Err is want of memory. `O(k log n)` for k places, and what `Queues::finish` costs.
    pub fn fault<B: Body>(
        &mut self,
        frame: FrameAtCore<B>,
        at: u64,
        kind: FaultKind,
    ) -> Result<Step<B>, NoMemory>
        requires has { HasIt B.Body self.old frame }
        requires begun { MayBegin self.old frame.task.number }
        requires faults { EndsTaskByFault B.Body frame.task at kind }
        ensures step { IfOk result (IsStep B.Body self.old self.new frame.task) }
        ensures run { OnOk result (self.new.run ≡ self.old.run) }
    {
        let number = frame.number();
        if let Some(child) = self.live.oldest_child(number) {
            return Ok(Step::Waits(frame, WaitFor::Child(child)));
        }
        let path = frame.into_path();
        self.book(
            number,
            Fault {
                path,
                place: at,
                kind,
            },
        )?;
        self.leave(number)?;
        Ok(Step::Ended)
    }

    /// The end of a frame that asks to use a place which it may not use so. Else as `fault`.
    pub fn refuse<B: Body>(
        &mut self,
        mid: MidStep<B>,
        ask: Ask<B::Local>,
    ) -> Result<Step<B>, NoMemory>
        requires has { HasIt B.Body self.old (asking mid ask) }
        requires begun { MayBegin self.old mid.task.number }
        requires refused { MayNotUse mid.task.holdings ask }
        ensures step { IfOk result (IsStep B.Body self.old self.new mid.task) }
        ensures run { OnOk result (self.new.run ≡ self.old.run) }
    {
        let at = mid.at();
        self.fault(mid.asks(ask), at, FaultKind::Privilege)
    }

    /// Books a fault of a live frame, which ends it: the frame above it, where it has one, has one more failed child. Err is want of
    /// memory. `O(log n)`, amortised.
    pub fn book(&mut self, number: u64, fault: Fault) -> Result<(), NoMemory>
        requires live { IsSome (live_at self.old.live number) }
        requires room { (frame : LiveFrame) → live_at self.old.live number ≡ Some frame → HasRoomForOne self.old.live frame.parent }
        ensures live { OnOk result ((frame : LiveFrame) → live_at self.old.live number ≡ Some frame → HasOneFailed self.old.live self.new.live frame.parent) }
        ensures booked { OnOk result (self.new ≡ record self.old { live = self.new.live; faults = self.old.faults ++ fault ∷ [] }) }
    {
        self.faults.push(fault)?;
        self.live.fail(number);
        Ok(())
    }

    /// Gives up what is kept of a frame that has taken its last step: first its versions get their values, then the queues
    /// hear of its end, and then it leaves the record. Err is want of memory. `O(k log n)` for k places, and what
    /// `Queues::finish` costs.
    pub fn leave(&mut self, number: u64) -> Result<(), NoMemory>
        // what may end
        requires live { IsSome (live_at self.old.live number) }
        requires settled { IsSettled self.old.versions number }
        requires may { MayJoin self.old.state number }

        // where there is a script
        requires turn { IsOnTurn self.old.name self.old.state number }
        requires over { OnNext self.old.name self.old.state number (λ s own. next_queue_deed s own.path own.deeds ≡ None) }

        // what it leaves
        ensures live { OnOk result (IsOnlyLive self.old.live self.new.live number None) }
        ensures name { OnOk result (self.new.name ≡ self.old.name) }
        ensures run { OnOk result (self.new.run ≡ self.old.run) }
        ensures after { OnOk result (self.new ≡ record self.old {
          name = self.new.name;
          run = self.new.run;
          state = after_finish self.old.state number;
          versions = objects_after_finish self.old.versions number;
          reading = gone_on self.old.reading number;
          live = self.new.live;
        }) }
    {
        self.versions.finish(number)?;
        self.queues.finish(number);
        self.live.leave(number);
        self.reading = self.reading.gone_on_by(number, 1);
        Ok(())
    }
}
