// Running plans.
ghost use Rattle.std.specs.Prelude.{◌≡◌, ◌≢◌, ◌<◌, ◌≤◌, IfOk, IfErr, IfSome, IfNone, length};
ghost use Rattle.job_body.specs.NamesOfJob.{IsNaming};
ghost use Rattle.job_body.specs.PlanOfJob.{of_input};
ghost use Rattle.swan_top.specs.Elisions.{elisions, end_by};
ghost use Rattle.swan_top.specs.Decision.{input_line, printed, ran, refuses, status_of};
ghost use Rattle.swan_top.specs.declared.status.Status.TheVariants as status;
ghost use Rattle.swan_top.specs.declared.way.Way.TheVariants as way;
ghost use Rattle.swan_top.specs.Settled.{Is, RanOrRefused, Stops};
ghost use Rattle.swan_runtime.specs.Workers.{IsShape};
ghost use Rattle.swan_top.specs.declared.run.TheConstants.{RING};
ghost use Rattle.swan_model.specs.Elision.{outcome};
ghost use Rattle.swan_model.specs.Script.{script};
ghost use Rattle.swan_model.specs.declared.plan.TheConstants.{FUEL_MOST};
ghost use Rattle.job_body.specs.declared.answer.PlanAnswer.TheVariants as plan;

use crate::engine::Engine;
use crate::run_end::RunEnd;
use crate::verdict::{Settled, WhyStopped};
use crate::way::Way;
use crate::{How, Status};
use job_body::{PlanAnswer, names_of, plan_of};
use privilege_check::CheckedJob;
use queue_book::BookQueues;
use serial_elision::{Printed, elide, print};
use std::alloc::{AllocError, Global};
use std::marker::Sync;
use std::sync::Wait;
use std::thread::Threads;
use std::time::Clock;
use swan_model::{Blob, Body, LinesAnswer, Names, NoMemory, Plan, RunName};
use swan_outside::Gate;
use swan_runtime::{Shape, run, run_alone};
use task_frames::{Core, RunOutcome};

/// The length of rings that a shape is asked for. The hyperqueues of a run have no rings as yet, so it changes nothing.
const RING: u32 = 16;

// The line of a refusal of inputs.
fn input_line(alloc: Global, why: PlanAnswer) -> Result<Blob, AllocError>
    requires { why ≢ plan.NoMemory }
    ensures { IfOk result (λ line. line ≡ input_line why) }
{
    let text = match why {
        PlanAnswer::Inputs { wanted, given } => format!(in alloc; "inputs {wanted} {given}\n")?,
        PlanAnswer::RecordTooLong { input, line } => format!(in alloc;
            "long line {input} {line}\n"
        )?,
        PlanAnswer::TooManyRecords { input } => format!(in alloc; "too many lines {input}\n")?,
        PlanAnswer::NoMemory => unreachable!(),
    };
    Ok(Blob::new(text.into_bytes()))
}

// The shape of a run by several workers. None comes exactly where there is at most one, which runs alone, or more than a run may have.
fn shape_of(workers: u32) -> Option<Shape>
    ensures some { IfSome result (λ shape. (1 < workers) × (shape.workers ≡ workers) × (shape.ring ≡ RING)) }
    ensures none { IfNone result (1 < workers → ¬ IsShape workers RING) }
{
    if workers > 1 {
        Shape::new(workers, RING)
    } else {
        None
    }
}

// Runs a plan on this thread alone, over hyperqueues in the plainest form.
fn run_here<B: Body>(alloc: Global, plan: Plan<B>) -> Result<RunOutcome, NoMemory>
    ensures outcome { IfOk result (λ ran. ran.outcome ≡ outcome B.Body plan) }
    ensures queues { IfOk result (λ ran. length ran.outcome.queues ≡ length plan.roots.queues) }
    ensures objects { IfOk result (λ ran. length ran.outcome.objects ≡ length plan.roots.objects) }
    ensures script { IfOk result (λ ran. ran.script.means ≡ script B.Body plan) }
{
    let queues = BookQueues::new(alloc, RunName::of(&plan));
    let opened = Core::open(alloc, plan, queues)?;
    run_alone(alloc, opened)
}

// Runs a plan by the runtime. With one worker it returns.
fn run_by_workers<T: Threads + Wait + Clock + Sync, G: Gate, B: Body>(
    engine: &Engine<'_, T, G>,
    workers: u32,
    plan: Plan<B>,
) -> Result<RunEnd, NoMemory>
    ensures end { IfOk result (λ end. end ≡ end_by B.Body (way.Run workers) plan) }
    ensures queues { IfOk result (λ end. length end.outcome.queues ≡ length plan.roots.queues) }
    ensures objects { IfOk result (λ end. length end.outcome.objects ≡ length plan.roots.objects) }
{
    let ran = match shape_of(workers) {
        Some(shape) => run(engine.rt, engine.alloc, plan, &shape, engine.gate)?,
        None => run_here(engine.alloc, plan)?,
    };
    let (outcome, ran) = ran.outcome();
    Ok(RunEnd {
        outcome,
        how: How::Ran(ran),
    })
}

// Runs a plan by the elision.
fn run_by_elision<B: Body>(alloc: Global, plan: Plan<B>) -> Result<RunEnd, NoMemory>
    ensures end { IfOk result (λ end. end ≡ end_by B.Body way.Elide plan) }
    ensures queues { IfOk result (λ end. length end.outcome.queues ≡ length plan.roots.queues) }
    ensures objects { IfOk result (λ end. length end.outcome.objects ≡ length plan.roots.objects) }
{
    Ok(RunEnd {
        outcome: elide(alloc, plan)?,
        how: How::Plain,
    })
}

// Runs a plan this way.
fn end_by<T: Threads + Wait + Clock + Sync, G: Gate, B: Body>(
    engine: &Engine<'_, T, G>,
    way: Way,
    plan: Plan<B>,
) -> Result<RunEnd, NoMemory>
    ensures end { IfOk result (λ end. end ≡ end_by B.Body way plan) }
    ensures queues { IfOk result (λ end. length end.outcome.queues ≡ length plan.roots.queues) }
    ensures objects { IfOk result (λ end. length end.outcome.objects ≡ length plan.roots.objects) }
{
    match way {
        Way::Elide => run_by_elision(engine.alloc, plan),
        Way::Run { workers } => run_by_workers(engine, workers, plan),
    }
}

// How a call ends after a run that ended so.
fn status_of(end: RunEnd) -> Status
    ensures { result ≡ status_of end }
{
    if end.outcome.faults.len() == 0 {
        Status::Done(end.how)
    } else {
        Status::Faulted(end.how)
    }
}

// Runs a plan this way, and settles its two texts. This is the one way in which a command runs anything.
fn run_plan<T: Threads + Wait + Clock + Sync, G: Gate, B: Body>(
    engine: &Engine<'_, T, G>,
    way: Way,
    plan: Plan<B>,
    names: &Names,
) -> Result<Settled, NoMemory>
    requires { IsNaming names.now plan.roots }
    ensures { IfOk result (Is (λ verdict. verdict ≡ printed names.now (end_by B.Body way plan))) }
{
    let end = end_by(engine, way, plan)?;
    let Printed { out, report } = print(engine.alloc, names, &end.outcome)?;
    let ends = status_of(end);
    Ok(Settled::Prints { out, report, ends })
}

// Runs the plan of a text this way, or refuses the text as an input.
pub(crate) fn run_text<T: Threads + Wait + Clock + Sync, G: Gate, B: Body>(
    engine: &Engine<'_, T, G>,
    way: Way,
    plan: Result<Plan<B>, LinesAnswer>,
    names: &Names,
) -> Result<Settled, WhyStopped>
    requires { IfOk plan (λ plan'. IsNaming names.now plan'.roots) }
    ensures ran { IfOk result (Is (RanOrRefused (end_by B.Body way) names.now plan)) }
    ensures refused { IfErr result (Stops (RanOrRefused (end_by B.Body way) names.now plan)) }
{
    match plan {
        Ok(plan) => Ok(run_plan(engine, way, plan, names)?),
        Err(LinesAnswer::NoMemory) => Err(WhyStopped::NoMemory),
        Err(why) => Err(refuse_inputs(engine.alloc, PlanAnswer::of_input(1, why))),
    }
}

// Runs an accepted job over its inputs this way.
pub(crate) fn run_job<T: Threads + Wait + Clock + Sync, G: Gate>(
    engine: &Engine<'_, T, G>,
    way: Way,
    fuel: u64,
    job: CheckedJob,
    inputs: Vec<Blob>,
) -> Result<Settled, WhyStopped>
    requires { fuel ≤ FUEL_MOST }
    ensures ran { IfOk result (Is (λ verdict. verdict ≡ ran (elisions.of_job way) job inputs.items fuel)) }
    ensures refused { IfErr result (Stops (λ verdict. verdict ≡ ran (elisions.of_job way) job inputs.items fuel)) }
{
    let names = names_of(engine.alloc, &job)?;
    let plan = match plan_of(engine.alloc, job, inputs, fuel) {
        Ok(plan) => plan,
        Err(PlanAnswer::NoMemory) => return Err(WhyStopped::NoMemory),
        Err(why) => return Err(refuse_inputs(engine.alloc, why)),
    };
    Ok(run_plan(engine, way, plan, &names)?)
}

// A refusal of inputs.
fn refuse_inputs(alloc: Global, why: PlanAnswer) -> WhyStopped
    requires { why ≢ plan.NoMemory }
    ensures { Stops (λ verdict. verdict ≡ refuses (input_line why) status.InputRefused) result }
{
    match input_line(alloc, why) {
        Ok(line) => WhyStopped::refused(line, Status::InputRefused),
        Err(_) => WhyStopped::NoMemory,
    }
}
