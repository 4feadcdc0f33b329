// Steps that make a queue or an object.
ghost use Rattle.std.specs.Prelude.{◌≡◌, ◌+◌, ◌<◌, ◌≤◌, ◌∷◌, ◌++◌, [], length, IsSome, IfOk, OnOk};
ghost use Rattle.std.specs.Option.{option_map};
ghost use Rattle.swan_model.specs.declared.body.Ask.TheVariants as ask;
ghost use Rattle.swan_model.specs.declared.origin.Origin.TheVariants as origin;
ghost use Rattle.swan_model.specs.Readings.{with_object, with_queue, gone_on};
ghost use Rattle.swan_model.specs.Script.{script};
ghost use Rattle.swan_model.specs.SerialTime.{time};
ghost use Rattle.swan_model.specs.QueueState.{PLACES_MOST};
ghost use Rattle.swan_model.specs.Values.{COUNT_MOST};
ghost use Rattle.task_frames.specs.Cores.{HasIt, MayBegin, asking};
ghost use Rattle.task_frames.specs.Records.{IsOnlyLive, come_to, holding_too, live_at};
ghost use Rattle.task_frames.specs.Resumes.{IsStep};

use crate::{Holding, Kept, KeptReading, MidStep, Step};
use queues::Queues;
use swan_model::{Answer, Body, Mode, NoMemory, Value};

impl<B: Body> MidStep<B> {
    /// How many places it has. `O(1)`.
    fn places(&self) -> u32
        requires { length self.now.task.holdings ≤ PLACES_MOST }
        ensures { result ≡ length self.now.task.holdings }
    {
        self.staged.task.holdings.len() as u32
    }

    /// The same, with one place more. Err is want of memory. `O(1)`, amortised.
    fn with_place(self, holding: Holding) -> Result<MidStep<B>, NoMemory>
        ensures { IfOk result (λ next. next ≡ record self { task = record self.task { holdings = self.task.holdings ++ holding ∷ [] } }) }
    {
        let MidStep { staged, local, at } = self;
        let mut staged = staged;
        staged.task.holdings.push(holding)?;
        Ok(MidStep { staged, local, at })
    }

    /// The reading after its step, which makes a queue. `O(1)`.
    fn makes_queue(&self, reading: &KeptReading) -> KeptReading
        ensures { result ≡ with_queue (gone_on reading.now self.now.task.number)
            (origin.Step (time (script B.Body self.now.task.plan) self.now.task.path self.now.task.done)) }
    {
        reading.gone_on_by(self.staged.task.number, 1).with_queue(
            &self.staged.task.plan,
            &self.staged.task.path,
            self.staged.task.done,
        )
    }

    /// The reading after its step, which makes an object. `O(1)`.
    fn makes_object(&self, reading: &KeptReading) -> KeptReading
        ensures { result ≡ with_object (gone_on reading.now self.now.task.number)
            (origin.Step (time (script B.Body self.now.task.plan) self.now.task.path self.now.task.done)) }
    {
        reading.gone_on_by(self.staged.task.number, 1).with_object(
            &self.staged.task.plan,
            &self.staged.task.path,
            self.staged.task.done,
        )
    }
}

impl<Q: Queues> Kept<Q> {
    /// A new queue, which the frame may push to and pop from at a new place. Err is want of memory. `O(log n)`, amortised, and
    /// what `Queues::create` costs.
    pub fn new_queue<B: Body>(&mut self, mid: MidStep<B>) -> Result<Step<B>, NoMemory>
        requires has { HasIt B.Body self.old (asking mid ask.NewQueue) }
        requires begun { MayBegin self.old mid.task.number }
        ensures step { IfOk result (IsStep B.Body self.old self.new mid.task) }
        ensures run { OnOk result (self.new.run ≡ self.old.run) }
    {
        let number = mid.number();
        let done = mid.done();
        let place = mid.places();
        let queue = self.queues.create(number)?;
        let holding = Holding {
            mode: Mode::PushPop,
            number: queue,
        };
        let reading = mid.makes_queue(&self.reading);
        self.note_place(number, done, holding, reading)?;
        let next = mid.with_place(holding)?;
        let frame = next.is_told(Answer::Place(place));
        Ok(Step::Runs(frame))
    }

    /// A new object with this first value, which the frame may read and write at a new place. Err is want of memory.
    /// `O(log n)`, amortised.
    pub fn new_object<B: Body>(
        &mut self,
        mid: MidStep<B>,
        first: Value,
    ) -> Result<Step<B>, NoMemory>
        requires has { HasIt B.Body self.old (asking mid (ask.NewObject first)) }
        requires begun { MayBegin self.old mid.task.number }
        ensures step { IfOk result (IsStep B.Body self.old self.new mid.task) }
        ensures run { OnOk result (self.new.run ≡ self.old.run) }
    {
        let number = mid.number();
        let done = mid.done();
        let place = mid.places();
        self.versions.create(number, place, first)?;
        let holding = Holding {
            mode: Mode::InOut,
            number: self.objects,
        };
        self.objects += 1;
        let reading = mid.makes_object(&self.reading);
        self.note_place(number, done, holding, reading)?;
        let next = mid.with_place(holding)?;
        let frame = next.is_told(Answer::Place(place));
        Ok(Step::Runs(frame))
    }

    /// Notes that a live frame has taken a step, after so many others, which gave it one place more. Err is want of memory.
    /// `O(log n)`, amortised.
    fn note_place(
        &mut self,
        number: u64,
        done: u64,
        holding: Holding,
        reading: KeptReading,
    ) -> Result<(), NoMemory>
        requires few { done < COUNT_MOST }
        requires live { IsSome (live_at self.old.live number) }
        ensures same { OnOk result (self.new ≡ record self.old { reading = reading; live = self.new.live }) }
        ensures live { OnOk result (IsOnlyLive self.old.live self.new.live number
            (option_map (come_to (done + 1)) (option_map (holding_too holding) (live_at self.old.live number)))) }
    {
        self.live.hold(number, holding)?;
        self.live.come_to(number, done + 1);
        self.reading = reading;
        Ok(())
    }
}
