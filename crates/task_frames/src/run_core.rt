// The core of a run.
ghost use Rattle.std.specs.Prelude.{◌≡◌, None, Some, true};
ghost use Rattle.std.specs.Option.{ForSome};
ghost use Rattle.task_frames.specs.Cores.{IsCoreView, IsGiven};
ghost use Rattle.task_frames.specs.Resumes.{IsLast, IsResumed, OnGoneOn, OnTried, WaitsForEarlier, ends_of};
ghost use Rattle.task_frames.specs.declared.resumed.Resumed.TheVariants as resumed;

use crate::{Foreign, Frame, Kept, PlanRun, Resumed, Run, Step, Steps, Waited};
use named_lock::Named;
use queues::Queues;
use std::alloc::Global;
use std::marker::Model;
use swan_model::{Body, Meaning, NoMemory, Plan};

/// The core of a run: the queues and the objects of its tasks, and a record of its live frames.
///
/// In costs, n counts the live frames and the places of all frames.
#[derive(Drop)]
pub struct Core<B: Body, Q: Queues> {
    pub(crate) plan: Meaning<Plan<B>>,
    pub(crate) run: Meaning<Run>,
    pub(crate) is_done: bool,
    pub(crate) kept: Option<Kept<Q>>,
    // how many queues and objects the plan begins with
    pub(crate) root_queues: u32,
    pub(crate) root_objects: u32,
}

impl<B: Body, Q: Queues> Model for Core<B, Q> {
    ghost use Rattle.std.specs.Prelude.{◌≡◌, length};
    ghost use Rattle.task_frames.specs.Cores.{CoreView, IsCoreView};

    ghost Value = { CoreView B B.Local };

    ghost view = { λ core. record {
      plan = core.plan.means;
      run = core.run.means;
      is_done = core.is_done;
      kept = core.kept;
    } };

    ghost invariant = { λ core. IsCoreView B.Body (record {
      plan = core.plan.means;
      run = core.run.means;
      is_done = core.is_done;
      kept = core.kept;
    })
        × (core.root_queues ≡ length core.plan.means.roots.queues) × (core.root_objects ≡ length core.plan.means.roots.objects) };
}

impl<B: Body, Q: Queues> Core<B, Q> {
    /// Takes the frame's next step, which needs the core, or tells why not.
    ///
    /// - Runs comes exactly with each step that is no spawn and not the frame's last, and gives the frame. The wait for all
    ///   children isn't taken while one is active.
    /// - Spawned comes with each spawn, and gives the frame and its child.
    /// - Ended comes with each step that ends the frame: the end that it asks for, its own trouble, a step without fuel, or
    ///   any other fault, which is booked then. Such a step isn't taken while a child is active.
    /// - Waits comes where what the core keeps shows that the step has to wait, and gives the frame back. No step is taken. The
    ///   frame that it names is live, and earlier in serial order.
    /// - Strange comes only where this isn't the frame that this core gave last under its number, and of such a frame nothing but
    ///   Strange and NoMemory. Nothing is changed, and the frame comes back as it was, with its mark.
    /// - NoMemory is want of memory. The frame is torn, and each later call answers so too.
    ///
    /// The mark stands in no frame that is given but that of Strange. The frame and the body are those of the plan that the core's
    /// name has, and the frame's mark stands: its last `run_local` answered AtCore. It costs `O(k log n)` for k places that the step is about,
    /// which at the frame's first and last step are all of its own; `O(d + p)` at each call for a path of d parts and all p places of the
    /// frame, which are compared with the record; and what the queues and the body take.
    pub fn resume(&mut self, alloc: Global, body: &B, frame: Frame<B, Q>) -> Resumed<B, Q>
        // which frames
        requires name { (frame.task.plan ≡ self.old.plan) × (Q.Ends.run frame.ends ≡ self.old.run) }
        requires mark { frame.mark ≡ true }
        requires body { body.now ≡ self.old.plan.body }

        // what is answered, and what it leaves
        ensures resumed { IsResumed B.Body (ends_of Q.Ends.LocalEnds) self.old self.new frame result }
        ensures earlier { WaitsForEarlier self.new result }
        ensures gone_on { OnGoneOn result (¬ IsLast B.Body frame.task) }
        ensures given { OnTried result (ForSome self.old.kept (λ kept. IsGiven kept frame.task (Q.Ends.ends frame.ends))) }
        ensures dead { self.old.kept ≡ None → result ≡ resumed.NoMemory }
        ensures plan { self.new.plan ≡ self.old.plan }
        ensures run { self.new.run ≡ self.old.run }
    {
        let Some(kept) = &mut self.kept else {
            return Resumed::NoMemory;
        };
        match kept.take_in(frame) {
            Err(frame) => {
                let foreign = Foreign::of(frame.number());
                Resumed::Strange(frame, foreign)
            }
            Ok(at) => match kept.step(alloc, body, at) {
                Ok(step) => {
                    let resumed = kept.answer(&self.plan, step);
                    self.is_done = kept.is_over();
                    resumed
                }
                Err(NoMemory) => {
                    // by a call, since what an assignment ends is checked part by part
                    drop(self.kept.take());
                    Resumed::NoMemory
                }
            },
        }
    }

    /// Whether the root has ended. It takes no memory. `O(1)`.
    pub fn is_done(&self) -> bool
        ensures done { result ≡ self.now.is_done }
        ensures core { IsCoreView B.Body self.now }
    {
        self.is_done
    }
}

impl<B: Body, Q: Queues> Named for Core<B, Q> {
    type Name = PlanRun<B>;

    ghost name = { λ core. record { plan = core.plan; run = core.run } };

    ghost done = { λ core. core.is_done };
}
