// Steps that push to queues, pop from them and test them.
ghost use Rattle.std.specs.Prelude.{◌≡◌, Some, IfOk, OnOk};
ghost use Rattle.swan_model.specs.declared.body.Ask.TheVariants as ask;
ghost use Rattle.swan_model.specs.declared.rights.Mode.TheVariants.{Pop};
ghost use Rattle.swan_model.specs.SerialStep.{number_at};
ghost use Rattle.queues.specs.Asks.{OnActive};
ghost use Rattle.queues.specs.Tells.{FindsItem, FindsNone, OnQueue};
ghost use Rattle.task_frames.specs.Cores.{HasIt, MayBegin, asking};
ghost use Rattle.task_frames.specs.Resumes.{IsStep};

use crate::{Kept, MidStep, Step};
use queues::{Popped, Queues, Tested, WaitFor};
use swan_model::{Answer, Ask, Body, Fault, FaultKind, Mode, NoMemory, Value};

impl<Q: Queues> Kept<Q> {
    /// A push to the queue at a place. Err is want of memory. `O(log n)` and what `Queues::push` costs.
    pub fn push<B: Body>(
        &mut self,
        mid: MidStep<B>,
        place: u32,
        value: Value,
    ) -> Result<Step<B>, NoMemory>
        requires has { HasIt B.Body self.old (asking mid (ask.Push place value)) }
        requires begun { MayBegin self.old mid.task.number }
        ensures step { IfOk result (IsStep B.Body self.old self.new mid.task) }
        ensures run { OnOk result (self.new.run ≡ self.old.run) }
    {
        let Some(queue) = mid.number_at(place, Mode::Push) else {
            return self.refuse(mid, Ask::Push(place, value));
        };
        let number = mid.number();
        self.queues.push(number, queue, value)?;
        self.note_step(number, mid.done());
        let frame = mid.is_told(Answer::Nothing);
        Ok(Step::Runs(frame))
    }

    /// A pop from the queue at a place. It may be the step that ends the frame, so the queue is looked at first: where it
    /// is empty, the pop isn't taken while a child is active. Err is want of memory. `O(log n)` and what `Queues::look` and
    /// `Queues::pop` cost.
    pub fn pop<B: Body>(&mut self, mid: MidStep<B>, place: u32) -> Result<Step<B>, NoMemory>
        requires has { HasIt B.Body self.old (asking mid (ask.Pop place)) }
        requires begun { MayBegin self.old mid.task.number }
        ensures step { IfOk result (IsStep B.Body self.old self.new mid.task) }
        ensures run { OnOk result (self.new.run ≡ self.old.run) }
    {
        let Some(queue) = mid.number_at(place, Mode::Pop) else {
            return self.refuse(mid, Ask::Pop(place));
        };
        match self.queues.look(mid.number(), queue) {
            Tested::Holds => self.pop_item(mid, place, queue),
            Tested::Empty => self.pop_none(mid, place, queue),
            Tested::NotYet(wait) => Ok(Step::Waits(mid.asks(Ask::Pop(place)), wait)),
        }
    }

    /// The pop of a queue in which an item was found. Err is want of memory. `O(log n)` and what `Queues::pop` costs.
    fn pop_item<B: Body>(
        &mut self,
        mid: MidStep<B>,
        place: u32,
        queue: u32,
    ) -> Result<Step<B>, NoMemory>
        // how the core and the frame stand
        requires has { HasIt B.Body self.old (asking mid (ask.Pop place)) }
        requires begun { MayBegin self.old mid.task.number }
        requires at { number_at mid.task.holdings place Pop ≡ Some queue }
        requires some { OnActive self.old.state mid.task.number (λ own. OnQueue self.old.name self.old.state queue (FindsItem own)) }

        // what the step comes to
        ensures step { IfOk result (IsStep B.Body self.old self.new mid.task) }
        ensures run { OnOk result (self.new.run ≡ self.old.run) }
    {
        let number = mid.number();
        match self.queues.pop(number, queue) {
            Popped::Item(item) => {
                self.note_step(number, mid.done());
                let frame = mid.is_told(Answer::Item(item));
                Ok(Step::Runs(frame))
            }
            Popped::Empty => unreachable!(),
            Popped::NotYet(wait) => Ok(Step::Waits(mid.asks(Ask::Pop(place)), wait)),
        }
    }

    /// The pop of a queue in which no item was found: it ends the frame. Err is want of memory. `O(k log n)` for k places,
    /// and what `Queues::pop` and `Queues::finish` cost.
    fn pop_none<B: Body>(
        &mut self,
        mid: MidStep<B>,
        place: u32,
        queue: u32,
    ) -> Result<Step<B>, NoMemory>
        // how the core and the frame stand
        requires has { HasIt B.Body self.old (asking mid (ask.Pop place)) }
        requires begun { MayBegin self.old mid.task.number }
        requires at { number_at mid.task.holdings place Pop ≡ Some queue }
        requires none { OnActive self.old.state mid.task.number (λ own. OnQueue self.old.name self.old.state queue (FindsNone own)) }

        // what the step comes to
        ensures step { IfOk result (IsStep B.Body self.old self.new mid.task) }
        ensures run { OnOk result (self.new.run ≡ self.old.run) }
    {
        let number = mid.number();
        if let Some(child) = self.live.oldest_child(number) {
            return Ok(Step::Waits(mid.asks(Ask::Pop(place)), WaitFor::Child(child)));
        }
        match self.queues.pop(number, queue) {
            Popped::Item(_) => unreachable!(),
            Popped::Empty => {
                let at = mid.at();
                let path = mid.into_path();
                self.book(
                    number,
                    Fault {
                        path,
                        place: at,
                        kind: FaultKind::PopEmpty,
                    },
                )?;
                self.leave(number)?;
                Ok(Step::Ended)
            }
            Popped::NotYet(wait) => Ok(Step::Waits(mid.asks(Ask::Pop(place)), wait)),
        }
    }

    /// A test of the queue at a place. Err is want of memory. `O(log n)` and what `Queues::test` costs.
    pub fn test<B: Body>(&mut self, mid: MidStep<B>, place: u32) -> Result<Step<B>, NoMemory>
        requires has { HasIt B.Body self.old (asking mid (ask.Empty place)) }
        requires begun { MayBegin self.old mid.task.number }
        ensures step { IfOk result (IsStep B.Body self.old self.new mid.task) }
        ensures run { OnOk result (self.new.run ≡ self.old.run) }
    {
        let Some(queue) = mid.number_at(place, Mode::Pop) else {
            return self.refuse(mid, Ask::Empty(place));
        };
        let number = mid.number();
        let is_empty = match self.queues.test(number, queue) {
            Tested::Holds => false,
            Tested::Empty => true,
            Tested::NotYet(wait) => {
                return Ok(Step::Waits(mid.asks(Ask::Empty(place)), wait));
            }
        };
        self.note_step(number, mid.done());
        let frame = mid.is_told(Answer::Flag(is_empty));
        Ok(Step::Runs(frame))
    }
}
