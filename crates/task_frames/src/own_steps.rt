// Steps of which neither queues nor objects hear.
ghost use Rattle.std.specs.Prelude.{◌≡◌};
ghost use Rattle.swan_model.specs.declared.body.Ask.TheVariants as ask;
ghost use Rattle.task_frames.specs.Cores.{HasIt, MayBegin, asking};
ghost use Rattle.task_frames.specs.Resumes.{IsStep};

use crate::{Kept, MidStep, Step};
use queues::{Queues, WaitFor};
use swan_model::{Answer, Ask, Body};

impl<Q: Queues> Kept<Q> {
    /// A step of work of the task's own. `O(log n)`; it takes no memory.
    pub fn work<B: Body>(&mut self, mid: MidStep<B>) -> Step<B>
        requires has { HasIt B.Body self.old (asking mid ask.Work) }
        requires begun { MayBegin self.old mid.task.number }
        ensures step { IsStep B.Body self.old self.new mid.task result }
        ensures run { self.new.run ≡ self.old.run }
    {
        self.note_step(mid.number(), mid.done());
        let frame = mid.is_told(Answer::Nothing);
        Step::Runs(frame)
    }

    /// The wait for all children, which isn't taken while one is active. The frame is told how many of them ended by a fault since
    /// its last one. `O(log n)`; it takes no memory.
    pub fn sync<B: Body>(&mut self, mid: MidStep<B>) -> Step<B>
        requires has { HasIt B.Body self.old (asking mid ask.Sync) }
        requires begun { MayBegin self.old mid.task.number }
        ensures step { IsStep B.Body self.old self.new mid.task result }
        ensures run { self.new.run ≡ self.old.run }
    {
        let number = mid.number();
        if let Some(child) = self.live.oldest_child(number) {
            return Step::Waits(mid.asks(Ask::Sync), WaitFor::Child(child));
        }
        self.queues.sync(number);
        let failed = self.note_sync(number, mid.done());
        let frame = mid.is_told(Answer::Caught(failed));
        Step::Runs(frame)
    }
}
