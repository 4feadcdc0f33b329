// Workers.
ghost use Rattle.std.specs.Prelude.{◌≡◌, ◌||◌};
ghost use Rattle.named_lock.specs.Seats.{knows};
ghost use Rattle.task_frames.specs.Resumes.{ends_of};
ghost use Rattle.swan_runtime.specs.Turned.{IsWorkersTurn, is_last};
ghost use Rattle.swan_runtime.specs.Workers.{IsOwn, IsSameOwn, IsSameWorker, IsWorker, has_met, seat_of};

use crate::Turn;
use crate::shared::SharedRun;
use crate::worker_turns::take_turn;
use crossbeam_utils::CachePadded;
use named_lock::{LockSeat, NamedLock};
use queues::Queues;
use std::alloc::Global;
use std::sync::Arc;
use swan_model::Body;
use swan_outside::Gate;
use task_frames::Frame;

/// What one worker has for itself.
#[derive(Drop)]
pub(crate) struct Own<B: Body, Q: Queues> {
    pub lock: Arc<NamedLock<SharedRun<B, Q>>>,
    pub seat: LockSeat<SharedRun<B, Q>>,
    pub body: Arc<B>,
    pub number: u32,
    /// The frame that it runs.
    pub frame: Option<Frame<B, Q>>,
    /// Whether a turn of its own answered that the run is done or stopped.
    pub met: bool,
}

impl<B: Body, Q: Queues> Own<B, Q> {
    /// Takes a turn, as a worker does.
    fn turn<G: Gate>(&mut self, alloc: Global, gate: &G) -> Turn
        requires own { IsOwn (ends_of Q.Ends.LocalEnds) self.old }
        ensures own { IsOwn (ends_of Q.Ends.LocalEnds) self.new }
        ensures same { IsSameOwn self.old self.new }
        ensures turn { IsWorkersTurn (knows self.old.seat) (knows self.new.seat) result }
        ensures met { self.new.met ≡ (self.old.met || is_last result) }
    {
        let turn = take_turn(
            alloc,
            &self.lock,
            &mut self.seat,
            &self.body,
            &mut self.frame,
            self.number,
            gate,
        );
        self.met = self.met || turn.is_last();
        turn
    }
}

/// A worker of a run. It may move to another thread.
#[derive(Drop)]
pub struct Worker<B: Body, Q: Queues> {
    // apart from the data of other workers
    pub(crate) own: CachePadded<Own<B, Q>>,
}

impl<B: Body, Q: Queues> Worker<B, Q> {
    /// Takes a turn: some steps of one frame that it can take by itself, and then at most one that needs the core, where the lock is free.
    ///
    /// - Stepped counts the steps that it took, one at least. The next four come only where it took none.
    /// - NotYet comes where the frame has to wait, with what shows that; another one will be taken.
    /// - Busy comes where the lock was taken at this call's try.
    /// - Idle comes where it had no frame, took the lock, and no frame was ready.
    /// - Strange comes where the core doesn't know the frame as one that it gave.
    /// - Done comes where the run is done, even if memory ran out in this turn.
    /// - NoMemory comes where memory ran out, of this worker or of another one: the run is stopped for good, and each later turn of this worker
    ///   answers so too.
    ///
    /// The gate is asked before the frame goes on, while nothing is locked. It never waits for another worker. By its code a worker keeps its
    /// frame after Busy and Strange, and takes at most 256 steps (`STEPS_A_TURN`), which is what a turn costs.
    pub fn turn<G: Gate>(&mut self, alloc: Global, gate: &G) -> Turn
        // the worker before and after
        requires worker { IsWorker (ends_of Q.Ends.LocalEnds) self.old }
        ensures worker { IsWorker (ends_of Q.Ends.LocalEnds) self.new }
        ensures same { IsSameWorker self.old self.new }

        // what the answer shows
        ensures turn { IsWorkersTurn (seat_of self.old) (seat_of self.new) result }
        ensures met { has_met self.new ≡ (has_met self.old || is_last result) }
    {
        let own = &mut *self.own;
        own.turn(alloc, gate)
    }
}
