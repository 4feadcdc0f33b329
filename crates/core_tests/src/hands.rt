// Turns of workers by hand.
ghost use Rattle.std.specs.Prelude.{◌≡◌, ◌<◌, IfOk, length, true};
ghost use Rattle.task_frames.specs.Resumes.{ends_of};
ghost use Rattle.swan_runtime.specs.Turned.{is_last};
ghost use Rattle.swan_runtime.specs.Workers.{AreWorkers, OneHasMet};

use crate::noting::NotingGate;
use crate::plans::{failing_plan, plan};
use crate::runs::{Row, is_elided, is_said_and_elided, is_stopped, shape_of, texts_of};
use crate::tables::Tasks;
use elision_tests::AskList;
use queue_book::{BookQueues, NoEnds};
use queues::{LocalEnds, Queues, WaitFor};
use serial_elision::Printed;
use std::alloc::Global;
use std::test::Fail;
use swan_model::{Body, NoMemory, Plan};
use swan_outside::{Gate, OpenGate};
use swan_runtime::{Shape, Turn, Worker, close, open};
use task_frames::RunOutcome;

/// What a worker's turn tells.
#[derive(Clone, Copy, Debug, PartialEq, Eq)]
pub enum Told {
    /// So many steps were taken.
    Stepped(u64),
    /// The frame has to wait for this.
    NotYet(WaitFor),
    /// Another worker has the run.
    Busy,
    /// No frame is ready.
    Idle,
    /// The frame is none that the core knows.
    Strange,
    /// The run is done.
    Done,
    /// The run is stopped.
    NoMemory,
}

impl Told {
    /// What this turn tells.
    fn of(turn: &Turn) -> Told {
        match turn {
            Turn::Stepped(steps) => Told::Stepped(steps.count()),
            Turn::NotYet(waited) => Told::NotYet(waited.wait()),
            Turn::Busy => Told::Busy,
            Turn::Idle => Told::Idle,
            Turn::Strange(_) => Told::Strange,
            Turn::Done => Told::Done,
            Turn::NoMemory => Told::NoMemory,
        }
    }
}

/// A turn of the worker at this place, and what it tells.
#[derive(Clone, Copy)]
pub struct Hand {
    at: usize,
    told: Told,
}

impl Hand {
    /// The turn of the worker at this place tells this.
    pub fn of(at: usize, told: Told) -> Hand {
        Hand { at, told }
    }
}

/// A turn of the worker at this place, with a frame of a task so deep, which has so many older siblings.
#[derive(Clone, Copy)]
pub struct Entry {
    at: usize,
    depth: u64,
    child: u64,
}

impl Entry {
    /// The worker at this place goes on with the root.
    pub fn of_root(at: usize) -> Entry {
        Entry {
            at,
            depth: 0,
            child: 0,
        }
    }

    /// The worker at this place goes on with this child of the root.
    pub fn of_child(at: usize, child: u64) -> Entry {
        Entry {
            at,
            depth: 1,
            child,
        }
    }
}

/// Lets the worker at this place take a turn, through this gate.
fn turn_of<B: Body, Q: Queues, G: Gate>(
    alloc: Global,
    workers: &mut Vec<Worker<B, Q>>,
    at: usize,
    gate: &G,
) -> Turn
    requires workers { AreWorkers (ends_of Q.Ends.LocalEnds) workers.old.items }
    requires within { at < length workers.old.items }
    ensures workers { AreWorkers (ends_of Q.Ends.LocalEnds) workers.new.items }
    ensures met { is_last result ≡ true → OneHasMet workers.new.items }
{
    workers[at].turn(alloc, gate)
}

/// The turn of this index told this. Err names it where it told something else.
fn is_told(came: Told, told: Told, index: usize) -> Result<(), Fail> {
    if came != told {
        return Err(Fail::new(format_args!("turn {index} told {came:?}")));
    }
    Ok(())
}

/// A turn of the worker at this place that told this has entered the gate so: by its own number where it came to a frame, and not at all where it had
/// none. Err names the turn, by its index, where that isn't so.
fn has_entered(gate: &NotingGate, came: Told, at: usize, index: usize) -> Result<(), Fail> {
    let is_right = match came {
        Told::Stepped(_) => gate.is_entered_by(at),
        Told::NotYet(_) => gate.is_entered_by(at),
        Told::Strange => gate.is_entered_by(at),
        Told::Idle => gate.is_fresh(),
        Told::Done => gate.is_fresh(),
        Told::Busy => true,
        Told::NoMemory => true,
    };
    if !is_right {
        return Err(Fail::new(format_args!("turn {index} entered the gate otherwise")));
    }
    Ok(())
}

/// Takes this turn, which is the one of this index. Err names it where it tells something else, or enters the gate otherwise.
fn take_one<B: Body, Q: Queues>(
    alloc: Global,
    workers: &mut Vec<Worker<B, Q>>,
    turn: Hand,
    index: usize,
) -> Result<(), Fail>
    requires workers { AreWorkers (ends_of Q.Ends.LocalEnds) workers.old.items }
    ensures workers { AreWorkers (ends_of Q.Ends.LocalEnds) workers.new.items }
{
    if turn.at >= workers.len() {
        return Err(Fail::new(format_args!("no worker at turn {index}")));
    }
    let gate = NotingGate::new();
    let came = Told::of(&turn_of(alloc, workers, turn.at, &gate));
    is_told(came, turn.told, index)?;
    has_entered(&gate, came, turn.at, index)
}

/// Takes these turns. Err names the first one that tells something else.
fn take_turns<B: Body, Q: Queues>(
    alloc: Global,
    workers: &mut Vec<Worker<B, Q>>,
    turns: &[Hand],
) -> Result<(), Fail>
    requires workers { AreWorkers (ends_of Q.Ends.LocalEnds) workers.old.items }
    ensures workers { AreWorkers (ends_of Q.Ends.LocalEnds) workers.new.items }
{
    for index in 0..turns.len() {
        take_one(alloc, workers, turns[index], index)?;
    }
    Ok(())
}

/// The gate was entered so. Err names the turn of this index where it was entered otherwise.
fn is_entered_so(gate: &NotingGate, entry: Entry, index: usize) -> Result<(), Fail> {
    if !gate.is_entered_by(entry.at) || !gate.is_entered_for(entry.depth, entry.child) {
        return Err(Fail::new(format_args!("turn {index} entered the gate otherwise")));
    }
    Ok(())
}

/// Takes the turn of this index, which enters the gate so. Err names it where it enters the gate otherwise.
fn enter_one<B: Body, Q: Queues>(
    alloc: Global,
    workers: &mut Vec<Worker<B, Q>>,
    entry: Entry,
    index: usize,
) -> Result<(), Fail>
    requires workers { AreWorkers (ends_of Q.Ends.LocalEnds) workers.old.items }
    ensures workers { AreWorkers (ends_of Q.Ends.LocalEnds) workers.new.items }
{
    if entry.at >= workers.len() {
        return Err(Fail::new(format_args!("no worker at turn {index}")));
    }
    let gate = NotingGate::new();
    drop(turn_of(alloc, workers, entry.at, &gate));
    is_entered_so(&gate, entry, index)
}

/// Takes turns that enter the gate so. Err names the first one that enters it otherwise.
fn enter_all<B: Body, Q: Queues>(
    alloc: Global,
    workers: &mut Vec<Worker<B, Q>>,
    entries: &[Entry],
) -> Result<(), Fail>
    requires workers { AreWorkers (ends_of Q.Ends.LocalEnds) workers.old.items }
    ensures workers { AreWorkers (ends_of Q.Ends.LocalEnds) workers.new.items }
{
    for index in 0..entries.len() {
        enter_one(alloc, workers, entries[index], index)?;
    }
    Ok(())
}

/// Whether the next turn of the first worker meets the end.
fn meets_end<B: Body, Q: Queues>(alloc: Global, workers: &mut Vec<Worker<B, Q>>) -> bool
    requires workers { AreWorkers (ends_of Q.Ends.LocalEnds) workers.old.items }
    ensures workers { AreWorkers (ends_of Q.Ends.LocalEnds) workers.new.items }
    ensures met { result ≡ true → OneHasMet workers.new.items }
{
    turn_of(alloc, workers, 0, &OpenGate).is_last()
}

/// Gives up the workers of a run that goes on, and says so.
fn given_up<B: Body, Q: Queues>(workers: Vec<Worker<B, Q>>) -> Fail {
    drop(workers);
    "the run goes on".into()
}

/// What closing a run answers, of which the first worker meets the end in its next turn. Err says that it doesn't.
fn closed<B: Body, Q: Queues>(
    alloc: Global,
    workers: Vec<Worker<B, Q>>,
) -> Result<Result<RunOutcome, NoMemory>, Fail>
    requires workers { AreWorkers (ends_of Q.Ends.LocalEnds) workers.items }
{
    let mut workers = workers;
    if meets_end(alloc, &mut workers) {
        Ok(close(alloc, workers))
    } else {
        Err(given_up(workers))
    }
}

/// These workers, if their turns came to what was said. Else they are given up, and Err is what the turns came to.
fn workers_if<B: Body, Q: Queues>(
    workers: Vec<Worker<B, Q>>,
    came: Result<(), Fail>,
) -> Result<Vec<Worker<B, Q>>, Fail>
    ensures { IfOk result (λ it. it ≡ workers) }
{
    match came {
        Ok(()) => Ok(workers),
        Err(fail) => {
            drop(workers);
            Err(fail)
        }
    }
}

/// The workers of a run of this plan in this shape, after these turns.
fn workers_after<B: Body>(
    alloc: Global,
    plan: Plan<B>,
    shape: &Shape,
    turns: &[Hand],
) -> Result<Vec<Worker<B, BookQueues>>, Fail>
    ensures { IfOk result (λ workers. AreWorkers (ends_of ⟦<NoEnds as LocalEnds>⟧) workers.items) }
{
    let mut workers = open(alloc, plan, shape)?;
    let came = take_turns(alloc, &mut workers, turns);
    workers_if(workers, came)
}

/// The two texts of what a run of this plan in this shape leaves, by these turns.
fn texts_by_hands(
    alloc: Global,
    plan: Plan<AskList>,
    shape: &Shape,
    turns: &[Hand],
) -> Result<Printed, Fail> {
    let workers = workers_after(alloc, plan, shape, turns)?;
    match closed(alloc, workers)? {
        Ok(ran) => texts_of(alloc, ran),
        Err(none) => Err(none.into()),
    }
}

/// The two texts of what a run of these tasks by so many workers leaves, by these turns.
fn left_by_hands(
    alloc: Global,
    tasks: &[&str],
    fuel: u64,
    workers: u32,
    turns: &[Hand],
) -> Result<Printed, Fail> {
    let shape = shape_of(workers)?;
    texts_by_hands(alloc, plan(alloc, tasks, fuel)?, &shape, turns)
}

/// A run of these tasks by so many workers, in these turns, leaves what the elision leaves.
pub fn leave_by_hands(
    alloc: Global,
    tasks: &Tasks<'_>,
    workers: u32,
    turns: &[Hand],
) -> Result<(), Fail> {
    let left = left_by_hands(alloc, tasks.tasks, tasks.fuel, workers, turns)?;
    is_elided(alloc, tasks, &left)
}

/// A run of the row's plan by so many workers, in these turns, leaves what the row says, and what the elision leaves.
pub fn leave_row_by_hands(
    alloc: Global,
    row: &Row<'_>,
    workers: u32,
    turns: &[Hand],
) -> Result<(), Fail> {
    let left = left_by_hands(alloc, row.tasks, row.fuel, workers, turns)?;
    is_said_and_elided(alloc, row, &left)
}

/// In a run of these tasks by so many workers these turns enter the gate so. The run goes no further.
pub fn enter_by_hands(
    alloc: Global,
    tasks: &Tasks<'_>,
    workers: u32,
    entries: &[Entry],
) -> Result<(), Fail> {
    let shape = shape_of(workers)?;
    let mut workers = open(alloc, plan(alloc, tasks.tasks, tasks.fuel)?, &shape)?;
    let came = enter_all(alloc, &mut workers, entries);
    drop(workers);
    came
}

/// By these turns of so many workers a run of these tasks, in which no memory is found at one index of the list of all asks, is stopped. The
/// next turn of the first worker tells so too, and the run has no outcome.
pub fn stop_by_hands(
    alloc: Global,
    tasks: &Tasks<'_>,
    fails: usize,
    workers: u32,
    turns: &[Hand],
) -> Result<(), Fail> {
    let shape = shape_of(workers)?;
    let plan = failing_plan(alloc, tasks.tasks, tasks.fuel, fails)?;
    is_stopped(closed(alloc, workers_after(alloc, plan, &shape, turns)?)?)
}
