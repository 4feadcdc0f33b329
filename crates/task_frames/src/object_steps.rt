// Steps that read and write objects.
ghost use Rattle.std.specs.Prelude.{◌≡◌, IfOk, OnOk};
ghost use Rattle.swan_model.specs.declared.body.Ask.TheVariants as ask;
ghost use Rattle.task_frames.specs.Cores.{HasIt, MayBegin, asking};
ghost use Rattle.task_frames.specs.Resumes.{IsStep};

use crate::{Kept, MidStep, Step};
use queues::{Queues, WaitFor};
use swan_model::{Answer, Ask, Body, FaultKind, Mode, NoMemory, Value};

impl<Q: Queues> Kept<Q> {
    /// A read of the object at a place, which waits until the version there has its value. Err is want of memory. `O(log n)`.
    pub fn read<B: Body>(&mut self, mid: MidStep<B>, place: u32) -> Result<Step<B>, NoMemory>
        requires has { HasIt B.Body self.old (asking mid (ask.Read place)) }
        requires begun { MayBegin self.old mid.task.number }
        ensures step { IfOk result (IsStep B.Body self.old self.new mid.task) }
        ensures run { OnOk result (self.new.run ≡ self.old.run) }
    {
        if mid.number_at(place, Mode::In).is_none() {
            return self.refuse(mid, Ask::Read(place));
        }
        let number = mid.number();
        match self.versions.value(number, place) {
            Ok(value) => {
                let item = value.copy()?;
                self.note_step(number, mid.done());
                let frame = mid.is_told(Answer::Item(item));
                Ok(Step::Runs(frame))
            }
            Err(owing) => Ok(Step::Waits(mid.asks(Ask::Read(place)), WaitFor::Version(owing))),
        }
    }

    /// A write of the object at a place. Err is want of memory. `O(log n)`, amortised.
    pub fn write<B: Body>(
        &mut self,
        mid: MidStep<B>,
        place: u32,
        value: Value,
    ) -> Result<Step<B>, NoMemory>
        requires has { HasIt B.Body self.old (asking mid (ask.Write place value)) }
        requires begun { MayBegin self.old mid.task.number }
        ensures step { IfOk result (IsStep B.Body self.old self.new mid.task) }
        ensures run { OnOk result (self.new.run ≡ self.old.run) }
    {
        if mid.number_at(place, Mode::Out).is_none() {
            return self.refuse(mid, Ask::Write(place, value));
        }
        let number = mid.number();
        self.versions.write(number, place, value)?;
        self.note_step(number, mid.done());
        let frame = mid.is_told(Answer::Nothing);
        Ok(Step::Runs(frame))
    }
}
