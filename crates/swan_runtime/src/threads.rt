// Workers in threads.
ghost use Rattle.std.specs.Prelude.{◌≡◌, ◌<◌, All, IfOk, length};
ghost use Rattle.swan_model.specs.Elision.{outcome};
ghost use Rattle.swan_model.specs.Script.{script};
ghost use Rattle.task_frames.specs.Resumes.{ends_of};
ghost use Rattle.swan_runtime.specs.Workers.{AreDriven, IsDriven, IsWorker};

use crate::backoff::Backoff;
use crate::{Shape, Turn, Worker, close, open};
use queues::Queues;
use std::alloc::Global;
use std::rt::Clock;
use std::sync::Wait;
use std::thread::{self, Threads};
use std::time::Duration;
use swan_model::{Body, NoMemory, Plan};
use swan_outside::Gate;
use task_frames::RunOutcome;

/// Runs a plan by as many workers as the shape says, each in a thread of its own where one can be made, and answers the outcome of the plan:
/// that of the serial elision, for every number of workers and every interleaving. Err is want of memory.
///
/// The gate is asked before each turn of a frame. How long it holds a worker isn't promised, nor that the call returns. It costs what the
/// steps cost, and a hold of the run's lock for each step that a task can't take by itself.
pub fn run<T: Threads + Wait + Clock + Sync, B: Body, G: Gate>(
    rt: &T,
    alloc: Global,
    plan: Plan<B>,
    shape: &Shape,
    gate: &G,
) -> Result<RunOutcome, NoMemory>
    ensures outcome { IfOk result (λ ran. ran.outcome ≡ outcome B.Body plan) }
    ensures queues { IfOk result (λ ran. length ran.outcome.queues ≡ length plan.roots.queues) }
    ensures objects { IfOk result (λ ran. length ran.outcome.objects ≡ length plan.roots.objects) }
    ensures script { IfOk result (λ ran. ran.script.means ≡ script B.Body plan) }
{
    let mut workers = open(alloc, plan, shape)?;
    drive_all(rt, alloc, workers.as_mut_slice(), gate);
    close(alloc, workers)
}

/// Lets all workers take turns until the run is done or stopped, each in a thread of its own where one can be made.
fn drive_all<T: Threads + Wait + Clock + Sync, B: Body, Q: Queues, G: Gate>(
    rt: &T,
    alloc: Global,
    workers: &mut [Worker<B, Q>],
    gate: &G,
)
    requires each { All (IsWorker (ends_of Q.Ends.LocalEnds)) workers.old }
    requires some { 0 < length workers.old }
    ensures driven { AreDriven (ends_of Q.Ends.LocalEnds) workers.old workers.new }
    ensures count { length workers.new ≡ length workers.old }
{
    let count = workers.len();
    let one = |_index: usize, worker: &mut Worker<B, Q>|
        requires { IsWorker (ends_of Q.Ends.LocalEnds) worker.now }
        ensures { IsDriven (ends_of Q.Ends.LocalEnds) worker.entry.now worker.exit.now }
    { drive(rt, alloc, worker, gate) };
    thread::for_each_mut(rt, workers, count, &one);
}

/// Takes turns until the run is done or stopped. After `FRUITLESS_MOST` turns in a row that took no step it sleeps for `SLEEP_LEAST` microseconds,
/// and twice as long each further time in a row, up to `SLEEP_MOST`. After a step it begins anew.
fn drive<T: Wait + Clock, B: Body, Q: Queues, G: Gate>(
    rt: &T,
    alloc: Global,
    worker: &mut Worker<B, Q>,
    gate: &G,
)
    requires worker { IsWorker (ends_of Q.Ends.LocalEnds) worker.old }
    ensures { IsDriven (ends_of Q.Ends.LocalEnds) worker.old worker.new }
{
    let mut backoff = Backoff::new();
    for _ in rt.forever() {
        match worker.turn(alloc, gate) {
            Turn::Done => return,
            Turn::NoMemory => return,
            Turn::Stepped(_) => backoff = Backoff::new(),
            _ => {
                if let Some(micros) = backoff.notes() {
                    thread::sleep(rt, Duration::from_micros(micros));
                }
            }
        }
    }
    unreachable!()
}
