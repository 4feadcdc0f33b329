// Runs of a plan by workers and rings of several numbers.
use crate::helpers::{Machine, assert_lines, cut, number_of};
use crate::scripts::{line_of_values, lines_of_queues, plan_of_files};
use job_body::JobBody;
use std::alloc::Global;
use std::test::Fail;
use swan_model::{NoMemory, Outcome, Plan};
use swan_outside::OpenGate;
use swan_runtime::{Shape, run};

/// Workers, rings, fuel and job; then what each root queue has, what the objects have, and how many faults there are.
const SHAPES: &str = "\
2 1 2003 c|queue 10 11 20 21~objects~faults 0~
1 1 2003 c|queue 10 11 20 21~objects~faults 0~
2 4096 2003 c|queue 10 11 20 21~objects~faults 0~
64 1 2003 c|queue 10 11 20 21~objects~faults 0~
2 1 22 f|queue 'before' 'after'~objects~faults 1~
3 2 15 g|queue 1 5~objects~faults 0~
64 4096 20 i|queue 4 9~objects 9~faults 0~";

// How many faults an outcome has, in a line.
fn line_of_faults(alloc: Global, outcome: &Outcome) -> Result<String, NoMemory> {
    let faults = outcome.faults.len();
    Ok(format!(in alloc; "faults {faults}\n")?)
}

// What an outcome has.
fn shown(alloc: Global, outcome: &Outcome) -> Result<String, NoMemory> {
    let queues = lines_of_queues(alloc, &outcome.queues)?;
    let objects = line_of_values(alloc, "objects", outcome.objects.as_slice())?;
    let faults = line_of_faults(alloc, outcome)?;
    Ok(format!(in alloc; "{queues}{objects}{faults}")?)
}

// What a run of a plan in this shape leaves.
fn left_of(
    rt: &impl Machine,
    alloc: Global,
    plan: Plan<JobBody>,
    shape: &Shape,
) -> Result<String, Fail> {
    let (outcome, ran) = run(rt, alloc, plan, shape, &OpenGate)?.outcome();
    drop(ran);
    let left = shown(alloc, &outcome);
    drop(outcome);
    Ok(left?)
}

// The shape of so many workers, with so many places in a ring.
fn shape_of(workers: Option<&str>, ring: Option<&str>) -> Result<Shape, Fail> {
    let workers = number_of(workers)?;
    Ok(Shape::new(workers, number_of(ring)?).ok_or("no shape")?)
}

// The plan of this job with so much fuel.
fn plan_by(alloc: Global, fuel: Option<&str>, job: Option<&str>) -> Result<Plan<JobBody>, Fail> {
    let fuel = number_of(fuel)?;
    plan_of_files(alloc, fuel, job.ok_or("no job")?, "")
}

// What a run leaves by these words: workers, rings, fuel and job.
fn left_by(rt: &impl Machine, alloc: Global, words: &str) -> Result<String, Fail> {
    let mut words = words.split_whitespace();
    let shape = shape_of(words.next(), words.next())?;
    let plan = plan_by(alloc, words.next(), words.next())?;
    left_of(rt, alloc, plan, &shape)
}

// Asserts a row of the shapes.
fn hold_shape(rt: &impl Machine, alloc: Global, row: &str) -> Result<(), Fail> {
    let (words, wanted) = cut(row)?;
    let left = left_by(rt, alloc, words)?;
    assert_lines(rt, alloc, left.as_str(), wanted, "what is left", row)?;
    Ok(())
}

#[test]
fn a_run_has_the_outcome_of_its_plan_in_each_shape(rt: HostRuntime) -> Result<(), Fail> {
    for row in SHAPES.lines() {
        hold_shape(&rt, rt.alloc(), row)?;
    }
    Ok(())
}
