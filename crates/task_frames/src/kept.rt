// What a core keeps until want of memory.
ghost use Rattle.std.specs.Prelude.{◌≡◌, ◌≢◌, true, Some, IfOk, IfErr, OnOk, OnErr};
ghost use Rattle.task_frames.specs.Cores.{HasIt, IsCore, IsGiven, after_coming_in, is_over};
ghost use Rattle.task_frames.specs.Resumes.{AreOfPlan, HasLent, HaveCome, IsAnswered, IsGivenAs, OthersStay, ends_of};

use crate::{Frame, FrameAtCore, KeptReading, LiveRecord, Resumed, Step, Steps, Waited};
use object_versions::Versions;
use queues::Queues;
use std::marker::Model;
use swan_model::{Body, Fault, Meaning, Plan};

/// What a core keeps until want of memory.
#[derive(Drop)]
pub struct Kept<Q: Queues> {
    /// The queues of the run.
    pub queues: Q,
    /// Its objects.
    pub versions: Versions,
    /// What its numbers are, and how far its frames have come.
    pub reading: KeptReading,
    /// Its live frames, each as it was last given.
    pub live: LiveRecord,
    /// How many frames there were so far.
    pub frames: u64,
    /// How many objects were made so far.
    pub objects: u32,
    /// The faults of the frames that have ended, in the order in which they ended.
    pub faults: Vec<Fault>,
}

impl<Q: Queues> Model for Kept<Q> {
    ghost use Rattle.task_frames.specs.Cores.{KeptView};

    ghost Value = { KeptView };

    ghost view = { λ k. record {
      name = Q.name k.queues;
      run = Q.run k.queues;
      state = Q.state k.queues;
      versions = k.versions;
      reading = k.reading;
      live = k.live;
      frames = k.frames;
      objects = k.objects;
      faults = k.faults.items;
    } };
}

impl<Q: Queues> Kept<Q> {
    /// Takes in a frame that was given before: its ends go back to the queues, and what it did by them and by itself
    /// counts as done. Err gives it back and changes nothing: it comes exactly where this isn't the frame that was given
    /// last under its number. It takes no memory. `O(d + k)` for a path of d parts and k places, `O(log n)` for n live
    /// frames, and what `Queues::back` costs.
    pub fn take_in<B: Body>(&mut self, frame: Frame<B, Q>) -> Result<FrameAtCore<B>, Frame<B, Q>>
        // whose it is
        requires core { IsCore B.Body frame.task.plan self.old }
        requires mark { frame.mark ≡ true }
        requires run { Q.Ends.run frame.ends ≡ self.old.run }

        // the frame
        ensures has { IfOk result (λ at. HasIt B.Body self.new at) }
        ensures task { IfOk result (λ at. at.task ≡ record frame.task { since = frame.task.done }) }
        ensures stage { IfOk result (λ at. frame.stage ≡ Some at.stage) }
        ensures given { OnOk result (IsGiven self.old frame.task (Q.Ends.ends frame.ends)) }
        ensures strange { OnErr result (¬ IsGiven self.old frame.task (Q.Ends.ends frame.ends)) }
        ensures handed_back { IfErr result (λ back. back ≡ frame) }

        // what is kept
        ensures come { OnOk result (self.new ≡ after_coming_in self.old frame.task (Q.Ends.ends frame.ends)) }
        ensures others { OthersStay self.old self.new (λ other. other ≢ frame.task.number) }
        ensures run { self.new.run ≡ self.old.run }
        ensures err { OnErr result (self.new ≡ self.old) }
    {
        let number = frame.number();
        let Some(live) = self.live.get(number) else {
            return Err(frame);
        };
        if !frame.stands_as(live) {
            return Err(frame);
        }
        let since = live.done;
        match frame.come_back(&mut self.queues) {
            Ok(at) => {
                let done = at.done();
                self.reading = self.reading.gone_on_by(number, done - since);
                self.live.come_on(number, since, done);
                Ok(at)
            }
            Err(frame) => Err(frame),
        }
    }

    /// Gives a frame that is at the core, with its ends. It takes no memory. `O(1)`, and what `Queues::lend` costs.
    pub fn give<B: Body>(&mut self, at: FrameAtCore<B>) -> Frame<B, Q>
        requires has { HasIt B.Body self.old at }

        // the frame
        ensures given { IsGivenAs (ends_of Q.Ends.LocalEnds) self.new at result }

        // what is kept
        ensures core { IsCore B.Body at.task.plan self.new }
        ensures lent { HasLent self.old self.new at.task.number }
    {
        let ends = self.queues.lend(at.number());
        Frame::given(at, ends)
    }

    /// Gives the frames that came of a step. It takes no memory. `O(1)`, and what `Queues::lend` costs for each. The plan is
    /// there for contracts alone.
    pub fn answer<B: Body>(&mut self, plan: &Meaning<Plan<B>>, step: Step<B>) -> Resumed<B, Q>
        // what is kept, and which step came
        requires core { IsCore B.Body plan.now.means self.old }
        requires come { HaveCome B.Body self.old step }
        requires plan { AreOfPlan plan.now.means step }

        // the frames
        ensures answered { IsAnswered (ends_of Q.Ends.LocalEnds) self.old self.new step result }

        // what is kept
        ensures core { IsCore B.Body plan.now.means self.new }
        ensures live { self.new.live ≡ self.old.live }
        ensures run { self.new.run ≡ self.old.run }
    {
        let _ = plan;
        match step {
            Step::Runs(next) => Resumed::Runs(self.give(next), Steps::of(1)),
            Step::Spawned(parent, child) => {
                let frame = self.give(parent);
                let spawned = self.give(child);
                Resumed::Spawned(frame, spawned, Steps::of(1))
            }
            Step::Waits(same, wait) => Resumed::Waits(self.give(same), Waited::of(wait)),
            Step::Ended => Resumed::Ended(Steps::of(1)),
        }
    }

    /// Whether the root has ended. `O(log n)` for n live frames; it takes no memory.
    pub fn is_over(&self) -> bool
        ensures { result ≡ is_over self.now }
    {
        self.live.get(0).is_none()
    }
}
