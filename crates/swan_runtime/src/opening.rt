// Opening and closing runs of workers.
ghost use Rattle.std.specs.Prelude.{◌≡◌, ◌^◌, ◌<◌, ◌≤◌, false, All, IfOk, OnOk, length, vec_len};
ghost use Rattle.std.specs.Arc.{arc_value};
ghost use Rattle.swan_model.specs.declared.plan.Plan.{Plan as ThePlan};
ghost use Rattle.swan_model.specs.Elision.{outcome};
ghost use Rattle.swan_model.specs.Script.{script};
ghost use Rattle.named_lock.specs.declared.lock.NamedLock.{NamedLock as TheNamedLock};
ghost use Rattle.task_frames.specs.declared.run.PlanRun.{PlanRun};
ghost use Rattle.swan_runtime.specs.Shared.{SharedView};
ghost use Rattle.named_lock.specs.Seats.{IsNewSeatOf, IsSeatOf, any_saw_done, lock_name};
ghost use Rattle.task_frames.specs.Resumes.{IsOpened, ends_of};
ghost use Rattle.swan_runtime.specs.Workers.{AreNumbered, AreWorkers, IsWorkerOf, OneHasMet, AreWorkersOfPlan, has_met, number_of, saw_done, saw_stopped};

use crate::shared::SharedRun;
use crate::worker::Own;
use crate::{Shape, Worker};
use crossbeam_utils::CachePadded;
use named_lock::{LockSeat, NamedLock};
use queue_book::{BookQueues, NoEnds};
use queues::{LocalEnds, Queues};
use std::alloc::Global;
use std::sync::Arc;
use swan_model::{Body, NoMemory, Plan, RunName};
use task_frames::{Core, Opened, RunOutcome};

/// Opens a run of a plan, over hyperqueues in the plainest form, with as many workers as the shape says. They are numbered from 0 on, by their
/// places, and none of them has met the end of the run. Err is want of memory. `O(workers)`, and `O(r log r)` for r queues and objects that the plan begins with.
pub fn open<B: Body>(
    alloc: Global,
    plan: Plan<B>,
    shape: &Shape,
) -> Result<Vec<Worker<B, BookQueues>>, NoMemory>
    ensures count { IfOk result (λ workers. vec_len workers ≡ shape.now.workers) }
    ensures workers { IfOk result (λ workers. AreWorkers (ends_of ⟦<NoEnds as LocalEnds>⟧) workers.items) }
    ensures numbers { IfOk result (λ workers. AreNumbered workers.items) }
    ensures plan { IfOk result (λ workers. AreWorkersOfPlan plan workers.items) }
    ensures met { IfOk result (λ workers. All (λ worker. has_met worker ≡ false) workers.items) }
{
    let queues = BookQueues::new(alloc, RunName::of(&plan));
    let opened = Core::open(alloc, plan, queues)?;
    workers_of(alloc, opened, shape.workers())
}

/// A worker of this number, with a seat of the lock, that has met nothing. `O(1)`.
fn worker_of<B: Body, Q: Queues>(
    lock: Arc<NamedLock<SharedRun<B, Q>>>,
    body: Arc<B>,
    seat: LockSeat<SharedRun<B, Q>>,
    number: u32,
) -> Worker<B, Q>
    requires seat { IsNewSeatOf (arc_value lock) seat }
    requires body { arc_value body ≡ (lock_name (arc_value lock)).plan.body }
    ensures worker { IsWorkerOf (ends_of Q.Ends.LocalEnds) (arc_value lock) result }
    ensures number { number_of result ≡ number }
    ensures met { has_met result ≡ false }
{
    Worker {
        own: CachePadded::new(Own {
            lock,
            seat,
            body,
            number,
            frame: None,
            met: false,
        }),
    }
}

/// A worker for each seat of the lock, numbered from 0 on as far as there are numbers. Err is want of memory. `O(seats)`, amortised.
fn workers_at<B: Body, Q: Queues>(
    alloc: Global,
    lock: &Arc<NamedLock<SharedRun<B, Q>>>,
    body: &Arc<B>,
    seats: Vec<LockSeat<SharedRun<B, Q>>>,
) -> Result<Vec<Worker<B, Q>>, NoMemory>
    requires seats { All (IsNewSeatOf (arc_value lock.now)) seats.items }
    requires body { arc_value body.now ≡ (lock_name (arc_value lock.now)).plan.body }
    ensures count { IfOk result (λ workers. length workers.items ≡ vec_len seats) }
    ensures workers { IfOk result (λ workers. All (IsWorkerOf (ends_of Q.Ends.LocalEnds) (arc_value lock.now)) workers.items) }
    ensures numbers { vec_len seats ≤ 2 ^ 32 → IfOk result (λ workers. AreNumbered workers.items) }
    ensures met { IfOk result (λ workers. All (λ worker. has_met worker ≡ false) workers.items) }
{
    let mut seats = seats;
    let mut workers = Vec::new(alloc);
    let mut number = 0u32;
    while let Some(seat) = seats.pop() {
        let own_lock = Arc::try_clone(lock)?;
        let own_body = Arc::try_clone(body)?;
        workers.push(worker_of(own_lock, own_body, seat, number))?;
        number = number.saturating_add(1);
    }
    Ok(workers)
}

/// So many workers, one at least, over an opened core. Err is want of memory. `O(workers)`.
fn workers_of<B: Body, Q: Queues>(
    alloc: Global,
    opened: Opened<B, Q>,
    count: u32,
) -> Result<Vec<Worker<B, Q>>, NoMemory>
    // what is opened, and how many they are to be
    requires opened { IsOpened (ends_of Q.Ends.LocalEnds) opened.core opened.root }
    requires body { opened.body.value ≡ opened.core.plan.body }
    requires some { 0 < count }

    // how many there are, which numbers they have, and that they are of one run
    ensures count { IfOk result (λ workers. vec_len workers ≡ count) }
    ensures workers { IfOk result (λ workers. AreWorkers (ends_of Q.Ends.LocalEnds) workers.items) }
    ensures numbers { IfOk result (λ workers. AreNumbered workers.items) }
    ensures plan { IfOk result (λ workers. AreWorkersOfPlan opened.core.plan workers.items) }
    ensures met { IfOk result (λ workers. All (λ worker. has_met worker ≡ false) workers.items) }
{
    let Opened { core, body, root } = opened;
    let shared = SharedRun::new(alloc, core, root)?;
    let (lock, seats) = NamedLock::open(alloc, shared, count)?;
    let lock = Arc::new(alloc, lock)?;
    workers_at(alloc, &lock, &body, seats)
}

/// The lock of workers. Err is want of memory. `O(1)`.
fn lock_of<B: Body, Q: Queues>(
    workers: &Vec<Worker<B, Q>>,
) -> Result<Arc<NamedLock<SharedRun<B, Q>>>, NoMemory>
    requires some { 0 < vec_len workers.now }
    ensures lock { (lock : TheNamedLock (SharedView B B.Local Q.Ends) (PlanRun B B.Local)) → All (IsWorkerOf (ends_of Q.Ends.LocalEnds) lock) workers.now.items
        → IfOk result (λ own. arc_value own ≡ lock) }
    ensures plan { (plan : ThePlan B B.Local) → AreWorkersOfPlan plan workers.now.items → IfOk result (λ own. (lock_name (arc_value own)).plan ≡ plan) }
{
    let first = &workers[0];
    Ok(Arc::try_clone(&first.own.lock)?)
}

/// The seats of workers, of which none finds the run stopped; else Err, which is want of memory too.
fn seats_of<B: Body, Q: Queues>(
    alloc: Global,
    lock: &Arc<NamedLock<SharedRun<B, Q>>>,
    workers: Vec<Worker<B, Q>>,
) -> Result<Vec<LockSeat<SharedRun<B, Q>>>, NoMemory>
    requires workers { All (IsWorkerOf (ends_of Q.Ends.LocalEnds) (arc_value lock.now)) workers.items }
    ensures count { IfOk result (λ seats. vec_len seats ≡ vec_len workers) }
    ensures seats { IfOk result (λ seats. All (IsSeatOf (arc_value lock.now) false) seats.items) }
    ensures stopped { OnOk result (All (λ worker. saw_stopped worker ≡ false) workers.items) }
    ensures done { IfOk result (λ seats. any_saw_done seats.items ≡ false → All (λ worker. saw_done worker ≡ false) workers.items) }
{
    let mut workers = workers;
    let mut seats = Vec::new(alloc);
    while let Some(worker) = workers.pop() {
        let Own { mut seat, .. } = worker.own.into_inner();
        if lock.is_stopped(&mut seat) {
            return Err(NoMemory);
        }
        seats.push(seat)?;
    }
    Ok(seats)
}

/// Closes a run, by all its workers, of which one has met its end, so that it is done or stopped: the outcome of the plan. Err is want of
/// memory: of this call, or of the run, which was stopped then; it comes where one of the workers has seen the run stopped. `O(workers)`, and
/// what the outcome takes.
pub fn close<B: Body, Q: Queues>(
    alloc: Global,
    workers: Vec<Worker<B, Q>>,
) -> Result<RunOutcome, NoMemory>
    requires workers { AreWorkers (ends_of Q.Ends.LocalEnds) workers.items }
    requires met { OneHasMet workers.items }

    // the outcome of the plan that the workers ran
    ensures outcome { (plan : ThePlan B B.Local) → AreWorkersOfPlan plan workers.items → IfOk result (λ ran. ran.outcome ≡ outcome B.Body plan) }
    ensures script { (plan : ThePlan B B.Local) → AreWorkersOfPlan plan workers.items → IfOk result (λ ran. ran.script.means ≡ script B.Body plan) }

    // and of none that was stopped
    ensures stopped { OnOk result (All (λ worker. saw_stopped worker ≡ false) workers.items) }
{
    let lock = lock_of(&workers)?;
    let seats = seats_of(alloc, &lock, workers)?;
    lock.close(seats).into_core().take_outcome(alloc)
}
