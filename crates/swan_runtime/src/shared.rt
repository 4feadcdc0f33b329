// What the workers of a run share.
ghost use Rattle.std.specs.Prelude.{◌≡◌, ◌++◌, ◌∷◌, [], ℕ, List, IfOk, IfSome, IfNone, option_to_list, true};
ghost use Rattle.task_frames.specs.Resumes.{ends_of};
ghost use Rattle.swan_model.specs.declared.plan.Plan.{Plan};
ghost use Rattle.swan_runtime.specs.Shared.{AsleepIsOfRun, IsOfRun};
ghost use Rattle.swan_runtime.specs.Turned.{MayBeAnswered};
ghost use Rattle.swan_runtime.specs.declared.turn.Turn.TheVariants as turn;

use crate::Turn;
use crate::asleep::Asleep;
use crate::trying::{Tried, try_by_core};
use named_lock::Named;
use queues::Queues;
use std::alloc::Global;
use std::marker::Model;
use swan_model::{Body, NoMemory};
use task_frames::{Core, Frame, PlanRun};

/// What the workers of a run share: its core, the frames that nobody runs, and those that sleep.
#[derive(Drop)]
pub(crate) struct Parts<B: Body, Q: Queues> {
    core: Core<B, Q>,
    ready: Vec<Frame<B, Q>>,
    asleep: Asleep<B, Q>,
}

/// What the workers of a run share, in one box, so that who takes the lock and gives it back moves a pointer. In costs, n counts the live
/// frames.
#[derive(Drop)]
pub(crate) struct SharedRun<B: Body, Q: Queues> {
    parts: Box<Parts<B, Q>>,
}

impl<B: Body, Q: Queues> Model for SharedRun<B, Q> {
    ghost use Rattle.task_frames.specs.Resumes.{ends_of};
    ghost use Rattle.swan_runtime.specs.Shared.{IsShared, SharedView};

    ghost Value = { SharedView B B.Local Q.Ends };

    ghost view = { λ shared. record { core = shared.parts.value.core; ready = shared.parts.value.ready.items } };

    ghost invariant = { λ shared. IsShared (ends_of Q.Ends.LocalEnds) (record { core = shared.parts.value.core; ready = shared.parts.value.ready.items }) shared.parts.value.asleep };
}

impl<B: Body, Q: Queues> Named for SharedRun<B, Q> {
    type Name = PlanRun<B>;

    ghost name = { λ shared. record { plan = shared.core.plan; run = shared.core.run } };

    ghost done = { λ shared. shared.core.is_done };
}

/// The root as the frame that is ready, and nobody that sleeps. Err is want of memory. It allocates twice.
fn at_first<B: Body, Q: Queues>(
    alloc: Global,
    root: Frame<B, Q>,
) -> Result<(Vec<Frame<B, Q>>, Asleep<B, Q>), NoMemory>
    ensures ready { IfOk result (λ both. both.0.items ≡ root ∷ []) }
    ensures asleep { (plan : Plan B B.Local) (run : List ℕ) → IfOk result (λ both. AsleepIsOfRun (ends_of Q.Ends.LocalEnds) plan run both.1) }
{
    let asleep = Asleep::new(alloc, root.number())?;
    let mut ready = Vec::new(alloc);
    ready.push(root)?;
    Ok((ready, asleep))
}

impl<B: Body, Q: Queues> SharedRun<B, Q> {
    /// What is shared at first: the root is ready. Err is want of memory. It allocates three times.
    pub fn new(
        alloc: Global,
        core: Core<B, Q>,
        root: Frame<B, Q>,
    ) -> Result<SharedRun<B, Q>, NoMemory>
        requires root { IsOfRun (ends_of Q.Ends.LocalEnds) core.plan core.run root }
        ensures core { IfOk result (λ shared. shared.core ≡ core) }
        ensures ready { IfOk result (λ shared. shared.ready ≡ root ∷ []) }
    {
        let Ok((ready, asleep)) = at_first(alloc, root) else {
            // a call: a value that ends with its block is checked part by part in each place where it may end
            drop(core);
            return Err(NoMemory);
        };
        let parts = Box::new(
            alloc,
            Parts {
                core,
                ready,
                asleep,
            },
        )?;
        Ok(SharedRun { parts })
    }

    /// Whether the root has ended. It takes no memory. `O(1)`.
    pub fn is_done(&self) -> bool
        ensures done { result ≡ self.now.core.is_done }
    {
        self.parts.core.is_done()
    }

    /// The core, for its outcome. It takes no memory.
    pub fn into_core(self) -> Core<B, Q>
        ensures { result ≡ self.core }
    {
        let Parts { core, .. } = Box::into_inner(self.parts);
        core
    }

    /// Takes the ready frame that goes on first; None comes exactly where none is ready. It takes no memory. `O(1)`.
    pub fn take(&mut self) -> Option<Frame<B, Q>>
        ensures frame { self.old.ready ≡ self.new.ready ++ option_to_list result }
        ensures none { IfNone result (self.old.ready ≡ []) }
        ensures own { IfSome result (IsOfRun (ends_of Q.Ends.LocalEnds) self.old.core.plan self.old.core.run) }
        ensures core { self.new.core ≡ self.old.core }
    {
        self.parts.ready.pop()
    }

    /// Tries a frame by the core, where the run isn't done.
    ///
    /// Done comes only where the run is done: by the code, exactly where it was so before, and then the frame comes back. Else it is what
    /// `try_by_core` answers. Err is want of memory, and the run has to be stopped then. It costs what `try_by_core` costs.
    pub fn try_frame(
        &mut self,
        alloc: Global,
        body: &B,
        frame: Frame<B, Q>,
    ) -> Result<Tried<B, Q>, NoMemory>
        // how the frame stands
        requires own { IsOfRun (ends_of Q.Ends.LocalEnds) self.old.core.plan self.old.core.run frame }
        requires mark { frame.mark ≡ true }
        requires body { body.now ≡ self.old.core.plan.body }

        // what is answered
        ensures told { IfOk result (λ tried. MayBeAnswered tried.turn) }
        ensures finished { IfOk result (λ tried. tried.turn ≡ turn.Done → self.new.core.is_done ≡ true) }
        ensures own { IfOk result (λ tried. IfSome tried.frame (IsOfRun (ends_of Q.Ends.LocalEnds) self.old.core.plan self.old.core.run)) }

        // what it leaves
        ensures done { self.old.core.is_done ≡ true → self.new.core.is_done ≡ true }
        ensures plan { self.new.core.plan ≡ self.old.core.plan }
        ensures run { self.new.core.run ≡ self.old.core.run }
    {
        let parts = &mut *self.parts;
        if parts.core.is_done() {
            return Ok(Tried {
                turn: Turn::Done,
                frame: Some(frame),
            });
        }
        try_by_core(
            alloc,
            &mut parts.core,
            &mut parts.asleep,
            &mut parts.ready,
            body,
            frame,
        )
    }
}
