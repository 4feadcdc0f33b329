// Runs of plans, and what they leave.
ghost use Rattle.std.specs.Prelude.{◌≡◌, ◌∷◌, [], IfOk, OnOk, true};
ghost use Rattle.task_frames.specs.Resumes.{IsOpened, ends_of};
ghost use Rattle.core_tests.specs.Pools.{MayAllCome, MayCome};

use crate::orders::take_turns_by_chance;
use crate::plans::{asks, failing_plan, plan};
use crate::tables::Tasks;
use crate::turn::FrameTurn;
use crate::turns::take_turns;
use elision_tests::{AskList, printed};
use queue_book::{BookQueues, NoEnds};
use queues::{LocalEnds, Queues};
use serial_elision::{Printed, elide};
use std::alloc::Global;
use std::rt::Clock;
use std::sync::Wait;
use std::test::Fail;
use std::thread::Threads;
use swan_model::{Body, NoMemory, Outcome, Plan, RunName};
use swan_outside::OpenGate;
use swan_runtime::{Shape, run, run_alone};
use task_frames::{Core, Frame, Opened, RunOutcome};

/// How the frames of a run are tried.
#[derive(Clone, Copy)]
pub enum Order<'a> {
    /// By these turns.
    Turns(&'a [FrameTurn]),
    /// By chance, from this seed.
    Chance(u64),
    /// From a stack.
    Stack,
}

/// An opened run of this plan, over hyperqueues in the plainest form.
pub fn opened<B: Body>(alloc: Global, plan: Plan<B>) -> Result<Opened<B, BookQueues>, NoMemory>
    ensures opened { IfOk result (λ it. IsOpened (ends_of ⟦<NoEnds as LocalEnds>⟧) it.core it.root) }
    ensures plan { IfOk result (λ it. it.core.plan ≡ plan) }
    ensures run { IfOk result (λ it. it.core.run ≡ []) }
    ensures body { IfOk result (λ it. it.body.value ≡ plan.body) }
{
    let queues = BookQueues::new(alloc, RunName::of(&plan));
    Core::open(alloc, plan, queues)
}

/// The list of a root alone.
pub fn alone<B: Body, Q: Queues>(
    alloc: Global,
    root: Frame<B, Q>,
) -> Result<Vec<Frame<B, Q>>, NoMemory>
    ensures { IfOk result (λ frames. frames.items ≡ root ∷ []) }
{
    let mut frames = Vec::new(alloc);
    frames.push(root)?;
    Ok(frames)
}

/// Frames that may come to the core, if their turns came to what was said. Else they are given up, and Err is what the turns came to.
fn frames_if<B: Body, Q: Queues>(
    core: &Core<B, Q>,
    frames: Vec<Frame<B, Q>>,
    came: Result<(), Fail>,
) -> Result<Vec<Frame<B, Q>>, Fail>
    requires { OnOk came (MayAllCome Q.Ends.run core.now frames.items) }
    ensures { IfOk result (λ it. MayAllCome Q.Ends.run core.now it.items) }
{
    match came {
        Ok(()) => Ok(frames),
        Err(fail) => {
            drop(frames);
            Err(fail)
        }
    }
}

/// Takes these turns, with this frame at first. What is answered are the frames that come of it.
pub fn frames_from<B: Body, Q: Queues>(
    alloc: Global,
    core: &mut Core<B, Q>,
    body: &B,
    root: Frame<B, Q>,
    turns: &[FrameTurn],
) -> Result<Vec<Frame<B, Q>>, Fail>
    requires body { body.now ≡ core.old.plan.body }
    requires root { MayCome Q.Ends.run core.old root }
    ensures frames { IfOk result (λ frames. MayAllCome Q.Ends.run core.new frames.items) }
    ensures plan { core.new.plan ≡ core.old.plan }
    ensures run { core.new.run ≡ core.old.run }
{
    let mut frames = alone(alloc, root)?;
    let came = take_turns(alloc, core, body, &mut frames, turns);
    frames_if(core, frames, came)
}

/// Takes these turns, with this frame at first.
fn take_by_turns<B: Body, Q: Queues>(
    alloc: Global,
    core: &mut Core<B, Q>,
    body: &B,
    root: Frame<B, Q>,
    turns: &[FrameTurn],
) -> Result<(), Fail>
    requires body { body.now ≡ core.old.plan.body }
    requires root { MayCome Q.Ends.run core.old root }
{
    drop(frames_from(alloc, core, body, root, turns)?);
    Ok(())
}

/// Takes turns by chance, with this frame at first.
fn take_by_chance<B: Body, Q: Queues>(
    alloc: Global,
    core: &mut Core<B, Q>,
    body: &B,
    root: Frame<B, Q>,
    seed: u64,
) -> Result<(), Fail>
    requires body { body.now ≡ core.old.plan.body }
    requires root { MayCome Q.Ends.run core.old root }
{
    let mut frames = alone(alloc, root)?;
    let came = take_turns_by_chance(alloc, core, body, &mut frames, seed);
    drop(frames);
    came
}

/// The outcome of a run.
pub fn outcome_of(ran: RunOutcome) -> Outcome {
    let (outcome, ran) = ran.outcome();
    drop(ran);
    outcome
}

/// The two texts of what a run leaves that has ended.
pub fn texts_of(alloc: Global, ran: RunOutcome) -> Result<Printed, Fail> {
    let outcome = outcome_of(ran);
    let texts = printed(alloc, &outcome);
    drop(outcome);
    texts
}

/// What a run leaves whose root has ended.
fn taken<B: Body, Q: Queues>(alloc: Global, core: Core<B, Q>) -> Result<Outcome, NoMemory>
    requires { core.is_done ≡ true }
{
    Ok(outcome_of(core.take_outcome(alloc)?))
}

/// What a run leaves, and None where its root hasn't ended.
fn left<B: Body, Q: Queues>(alloc: Global, core: Core<B, Q>) -> Result<Option<Outcome>, Fail> {
    if !core.is_done() {
        drop(core);
        return Ok(None);
    }
    Ok(Some(taken(alloc, core)?))
}

/// What a run leaves, if its turns came to what was said, and None where its root hasn't ended. Else it is given up. Err is what the turns came
/// to, or want of memory to take the outcome.
fn left_if<B: Body, Q: Queues>(
    alloc: Global,
    core: Core<B, Q>,
    came: Result<(), Fail>,
) -> Result<Option<Outcome>, Fail> {
    match came {
        Ok(()) => left(alloc, core),
        Err(fail) => {
            drop(core);
            Err(fail)
        }
    }
}

/// What an opened run leaves by turns, and None where the root hasn't ended.
fn left_by_turns<B: Body, Q: Queues>(
    alloc: Global,
    opened: Opened<B, Q>,
    turns: &[FrameTurn],
) -> Result<Option<Outcome>, Fail>
    requires opened { IsOpened (ends_of Q.Ends.LocalEnds) opened.core opened.root }
    requires body { opened.body.value ≡ opened.core.plan.body }
{
    let Opened {
        mut core,
        body,
        root,
    } = opened;
    let came = take_by_turns(alloc, &mut core, &body, root, turns);
    left_if(alloc, core, came)
}

/// What an opened run leaves in an order by chance.
fn left_by_chance<B: Body, Q: Queues>(
    alloc: Global,
    opened: Opened<B, Q>,
    seed: u64,
) -> Result<Option<Outcome>, Fail>
    requires opened { IsOpened (ends_of Q.Ends.LocalEnds) opened.core opened.root }
    requires body { opened.body.value ≡ opened.core.plan.body }
{
    let Opened {
        mut core,
        body,
        root,
    } = opened;
    let came = take_by_chance(alloc, &mut core, &body, root, seed);
    left_if(alloc, core, came)
}

/// What an opened run leaves on a stack, and None where it has met want of memory.
fn left_alone<B: Body, Q: Queues>(alloc: Global, opened: Opened<B, Q>) -> Option<Outcome>
    requires opened { IsOpened (ends_of Q.Ends.LocalEnds) opened.core opened.root }
    requires body { opened.body.value ≡ opened.core.plan.body }
{
    match run_alone(alloc, opened) {
        Ok(ran) => Some(outcome_of(ran)),
        Err(NoMemory) => None,
    }
}

/// What an opened run leaves in this order, and None where its root hasn't ended.
fn left_in<B: Body, Q: Queues>(
    alloc: Global,
    opened: Opened<B, Q>,
    order: Order<'_>,
) -> Result<Option<Outcome>, Fail>
    requires opened { IsOpened (ends_of Q.Ends.LocalEnds) opened.core opened.root }
    requires body { opened.body.value ≡ opened.core.plan.body }
{
    match order {
        Order::Turns(turns) => left_by_turns(alloc, opened, turns),
        Order::Chance(seed) => left_by_chance(alloc, opened, seed),
        Order::Stack => Ok(left_alone(alloc, opened)),
    }
}

/// What a run of a plan leaves, and None where its root hasn't ended.
fn left_of<B: Body>(
    alloc: Global,
    plan: Plan<B>,
    order: Order<'_>,
) -> Result<Option<Outcome>, Fail> {
    left_in(alloc, opened(alloc, plan)?, order)
}

/// The two texts of what a run of a plan leaves.
fn texts<B: Body>(alloc: Global, plan: Plan<B>, order: Order<'_>) -> Result<Printed, Fail> {
    match left_of(alloc, plan, order)? {
        Some(outcome) => printed(alloc, &outcome),
        None => Err("the root hasn't ended".into()),
    }
}

/// The two texts of what the elision of these tasks leaves.
fn elided(alloc: Global, tasks: &[&str], fuel: u64) -> Result<Printed, Fail> {
    printed(alloc, &elide(alloc, plan(alloc, tasks, fuel)?)?)
}

/// A plan, and what it leaves: the output, and the end of the report.
#[derive(Clone, Copy)]
pub struct Row<'a> {
    /// Its tasks.
    pub tasks: &'a [&'a str],
    /// The root's fuel.
    pub fuel: u64,
    /// The output.
    pub out: &'a str,
    /// The end of the report.
    pub report: &'a str,
}

/// A run of the row's plan leaves what the row says, and what the elision leaves.
pub fn leaves(alloc: Global, row: &Row<'_>, order: Order<'_>) -> Result<(), Fail> {
    leaves_past(alloc, row, usize::MAX, order)
}

/// The two texts of what a run of these tasks leaves, in which no memory is found at one index of the list of all asks.
fn texts_past(
    alloc: Global,
    tasks: &[&str],
    fuel: u64,
    fails: usize,
    order: Order<'_>,
) -> Result<Printed, Fail> {
    texts(alloc, failing_plan(alloc, tasks, fuel, fails)?, order)
}

/// These two texts are what the row says, and what the elision of its tasks leaves.
pub fn is_said_and_elided(alloc: Global, row: &Row<'_>, left: &Printed) -> Result<(), Fail> {
    is_said(row, left)?;
    let tasks = Tasks {
        name: "a row",
        tasks: row.tasks,
        fuel: row.fuel,
    };
    is_elided(alloc, &tasks, left)
}

/// These two texts are what the row says.
fn is_said(row: &Row<'_>, left: &Printed) -> Result<(), Fail> {
    if left.out.as_slice() != row.out.as_bytes()
        || !left.report.as_slice().ends_with(row.report.as_bytes())
    {
        return Err("something else is left".into());
    }
    Ok(())
}

/// A run of the row's plan leaves what the row says, and what the elision leaves, since no ask stands at the index where no memory is found.
fn leaves_past(alloc: Global, row: &Row<'_>, fails: usize, order: Order<'_>) -> Result<(), Fail> {
    let left = texts_past(alloc, row.tasks, row.fuel, fails, order)?;
    is_said_and_elided(alloc, row, &left)
}

/// Whether two texts are the same as two others.
fn are_same(left: &Printed, other: &Printed) -> bool {
    left.out.as_slice() == other.out.as_slice() && left.report.as_slice() == other.report.as_slice()
}

/// The elision leaves something else of the tasks of this name.
fn another(name: &str) -> Fail {
    Fail::new(format_args!("the elision leaves something else of {name}"))
}

/// These two texts are what the elision of these tasks leaves.
pub fn is_elided(alloc: Global, tasks: &Tasks<'_>, left: &Printed) -> Result<(), Fail> {
    let elided = elided(alloc, tasks.tasks, tasks.fuel)?;
    if are_same(left, &elided) {
        Ok(())
    } else {
        Err(another(tasks.name))
    }
}

/// A run of these tasks in this order leaves what the elision leaves.
fn leaves_the_same(alloc: Global, tasks: &Tasks<'_>, order: Order<'_>) -> Result<(), Fail> {
    let left = texts(alloc, plan(alloc, tasks.tasks, tasks.fuel)?, order)?;
    is_elided(alloc, tasks, &left)
}

/// Runs of these tasks leave what the elision leaves, from a stack and in ten orders.
pub fn leave_the_same(alloc: Global, tasks: &Tasks<'_>) -> Result<(), Fail> {
    leaves_the_same(alloc, tasks, Order::Stack)?;
    for seed in 0..10 {
        leaves_the_same(alloc, tasks, Order::Chance(seed))?;
    }
    Ok(())
}

/// A run of these tasks, in which no memory is found at one index of the list of all asks, leaves nothing: its root hasn't ended.
pub fn stops(
    alloc: Global,
    tasks: &[&str],
    fuel: u64,
    fails: usize,
    order: Order<'_>,
) -> Result<(), Fail> {
    let plan = failing_plan(alloc, tasks, fuel, fails)?;
    match left_of(alloc, plan, order)? {
        Some(outcome) => {
            drop(outcome);
            Err(Fail::new(format_args!("the root has ended past {fails}")))
        }
        None => Ok(()),
    }
}

/// How long the list of all asks of these tasks is.
fn asks_count(alloc: Global, tasks: &[&str]) -> Result<usize, Fail> {
    Ok(asks(alloc, tasks, usize::MAX)?.asks.len())
}

/// Runs of the row's plan leave nothing where no memory is found at one of the asks, whichever it is. Where that is behind them all, the run
/// leaves what the row says.
pub fn stops_at_each_ask(alloc: Global, row: &Row<'_>, order: Order<'_>) -> Result<(), Fail> {
    let count = asks_count(alloc, row.tasks)?;
    for fails in 0..count {
        stops(alloc, row.tasks, row.fuel, fails, order)?;
    }
    leaves_past(alloc, row, count, order)
}

/// Whether the elision of these tasks is stopped where no memory is found at one index of the list of all asks.
fn stops_the_elision(alloc: Global, tasks: &Tasks<'_>, fails: usize) -> Result<bool, Fail> {
    match elide(alloc, failing_plan(alloc, tasks.tasks, tasks.fuel, fails)?) {
        Ok(outcome) => {
            drop(outcome);
            Ok(false)
        }
        Err(NoMemory) => Ok(true),
    }
}

/// A run of these tasks, in which no memory is found at one index of the list of all asks, leaves nothing where that stops the elision, and
/// else what the elision leaves.
fn stops_where_the_elision_stops(
    alloc: Global,
    tasks: &Tasks<'_>,
    fails: usize,
    order: Order<'_>,
) -> Result<(), Fail> {
    if stops_the_elision(alloc, tasks, fails)? {
        return stops(alloc, tasks.tasks, tasks.fuel, fails, order);
    }
    let left = texts_past(alloc, tasks.tasks, tasks.fuel, fails, order)?;
    is_elided(alloc, tasks, &left)
}

/// So do runs of these tasks from a stack and in ten orders.
fn stop_at(alloc: Global, tasks: &Tasks<'_>, fails: usize) -> Result<(), Fail> {
    stops_where_the_elision_stops(alloc, tasks, fails, Order::Stack)?;
    for seed in 0..10 {
        stops_where_the_elision_stops(alloc, tasks, fails, Order::Chance(seed))?;
    }
    Ok(())
}

/// So do they for each index of the list of all asks.
pub fn stop_where_the_elision_stops(alloc: Global, tasks: &Tasks<'_>) -> Result<(), Fail> {
    for fails in 0..asks_count(alloc, tasks.tasks)? {
        stop_at(alloc, tasks, fails)?;
    }
    Ok(())
}

/// The shape of a run by so many workers.
pub fn shape_of(workers: u32) -> Result<Shape, Fail> {
    Ok(Shape::new(workers, 16).ok_or("no shape")?)
}

/// The two texts of what a run of this plan in this shape leaves.
fn texts_by_workers<T: Threads + Wait + Clock + Sync>(
    rt: &T,
    alloc: Global,
    plan: Plan<AskList>,
    shape: &Shape,
) -> Result<Printed, Fail> {
    match run(rt, alloc, plan, shape, &OpenGate) {
        Ok(ran) => texts_of(alloc, ran),
        Err(none) => Err(none.into()),
    }
}

/// The two texts of what a run of these tasks by so many workers leaves.
fn left_by_workers<T: Threads + Wait + Clock + Sync>(
    rt: &T,
    alloc: Global,
    tasks: &Tasks<'_>,
    workers: u32,
) -> Result<Printed, Fail> {
    let shape = shape_of(workers)?;
    texts_by_workers(rt, alloc, plan(alloc, tasks.tasks, tasks.fuel)?, &shape)
}

/// A run of these tasks by so many workers leaves what the elision leaves.
fn leaves_the_same_by_workers<T: Threads + Wait + Clock + Sync>(
    rt: &T,
    alloc: Global,
    tasks: &Tasks<'_>,
    workers: u32,
) -> Result<(), Fail> {
    let left = left_by_workers(rt, alloc, tasks, workers)?;
    is_elided(alloc, tasks, &left)
}

/// Runs of these tasks by several workers leave what the elision leaves.
pub fn workers_leave_the_same<T: Threads + Wait + Clock + Sync>(
    rt: &T,
    alloc: Global,
    tasks: &Tasks<'_>,
) -> Result<(), Fail> {
    for workers in [1, 2, 3, 4, 64] {
        leaves_the_same_by_workers(rt, alloc, tasks, workers)?;
    }
    Ok(())
}

/// A run of the row's plan by so many workers leaves what the row says, and what the elision leaves.
pub fn leaves_by_workers<T: Threads + Wait + Clock + Sync>(
    rt: &T,
    alloc: Global,
    row: &Row<'_>,
    workers: u32,
) -> Result<(), Fail> {
    let tasks = Tasks {
        name: "a row",
        tasks: row.tasks,
        fuel: row.fuel,
    };
    let left = left_by_workers(rt, alloc, &tasks, workers)?;
    is_said_and_elided(alloc, row, &left)
}

/// Runs of the row's plan by several workers do.
pub fn workers_leave<T: Threads + Wait + Clock + Sync>(
    rt: &T,
    alloc: Global,
    row: &Row<'_>,
) -> Result<(), Fail> {
    for workers in [1, 2, 3, 4, 64] {
        leaves_by_workers(rt, alloc, row, workers)?;
    }
    Ok(())
}

/// A run that came to this was stopped by want of memory.
pub fn is_stopped(came: Result<RunOutcome, NoMemory>) -> Result<(), Fail> {
    match came {
        Ok(ran) => {
            drop(ran);
            Err("the run has an outcome".into())
        }
        Err(NoMemory) => Ok(()),
    }
}

/// A run of these tasks by so many workers is stopped by want of memory, which is met at one index of the list of all asks.
fn stops_by<T: Threads + Wait + Clock + Sync>(
    rt: &T,
    alloc: Global,
    tasks: &[&str],
    fuel: u64,
    fails: usize,
    workers: u32,
) -> Result<(), Fail> {
    let shape = shape_of(workers)?;
    let plan = failing_plan(alloc, tasks, fuel, fails)?;
    is_stopped(run(rt, alloc, plan, &shape, &OpenGate))
}

/// Runs of these tasks by several workers are stopped by want of memory, which is met at one index of the list of all asks.
pub fn stops_by_workers<T: Threads + Wait + Clock + Sync>(
    rt: &T,
    alloc: Global,
    tasks: &[&str],
    fuel: u64,
    fails: usize,
) -> Result<(), Fail> {
    for workers in [1, 2, 4, 64] {
        stops_by(rt, alloc, tasks, fuel, fails, workers)?;
    }
    Ok(())
}
