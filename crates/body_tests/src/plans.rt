// Plans and names.
use crate::asserts::assert_text;
use crate::jobs::{job_of, main_of};
use job_body::{JobBody, JobLocal, PlanAnswer, names_of, plan_of};
use privilege_check::CheckedJob;
use std::alloc::Global;
use std::process::Abort;
use std::test::Fail;
use swan_model::{Blob, Body, Names, NoMemory, QueueName, Shown, Word};

/// Why a job has no plan over these inputs, if it has none.
fn refusal_of_job(alloc: Global, job: CheckedJob, inputs: Vec<Blob>) -> Option<PlanAnswer> {
    match plan_of(alloc, job, inputs, 1) {
        Ok(_) => None,
        Err(why) => Some(why),
    }
}

/// Why a job with two inputs has no plan over these inputs, if it has none.
fn refusal_of(alloc: Global, inputs: Vec<Blob>) -> Result<Option<PlanAnswer>, NoMemory> {
    let job = job_of(alloc, "swan 1\ninput one\ninput two\ntask main\ndo\nend\n")?;
    Ok(refusal_of_job(alloc, job, inputs))
}

/// Two inputs, each of so many times a byte.
fn inputs_of(alloc: Global, byte: u8, first: usize, second: usize) -> Result<Vec<Blob>, NoMemory> {
    let mut inputs = Vec::new(alloc);
    inputs.push(Blob::new(vec![in alloc; byte; first]?))?;
    inputs.push(Blob::new(vec![in alloc; byte; second]?))?;
    Ok(inputs)
}

/// Whether this is why that job has no plan over two inputs, each of so many times a byte; None is that it has one.
fn is_refusal_of_two(
    alloc: Global,
    byte: u8,
    first: usize,
    second: usize,
    why: Option<PlanAnswer>,
) -> Result<bool, NoMemory> {
    let inputs = inputs_of(alloc, byte, first, second)?;
    Ok(refusal_of(alloc, inputs)? == why)
}

/// Asserts this refusal, or None that there is a plan.
fn hold_refusal(
    rt: &impl Abort,
    alloc: Global,
    byte: u8,
    first: usize,
    second: usize,
    why: Option<PlanAnswer>,
) -> Result<(), Fail> {
    assert!(rt;
        is_refusal_of_two(alloc, byte, first, second, why)?,
        "{first} and {second}"
    );
    Ok(())
}

#[test]
fn inputs_are_counted(rt: HostRuntime) -> Result<(), Fail> {
    let none = PlanAnswer::Inputs {
        wanted: 2,
        given: 0,
    };
    assert!(rt; refusal_of(rt.alloc(), Vec::new(rt.alloc()))? == Some(none));
    Ok(())
}

/// The refusal of an input whose first line is too long.
fn too_long_in(input: u64) -> Option<PlanAnswer> {
    Some(PlanAnswer::RecordTooLong { input, line: 1 })
}

#[test]
fn the_first_input_with_a_long_line_is_named(rt: HostRuntime) -> Result<(), Fail> {
    hold_refusal(&rt, rt.alloc(), b'x', 1_048_576, 1_048_576, None)?;
    hold_refusal(&rt, rt.alloc(), b'x', 1_048_577, 1_048_577, too_long_in(1))?;
    hold_refusal(&rt, rt.alloc(), b'x', 1_048_576, 1_048_577, too_long_in(2))
}

#[test]
fn an_input_has_at_most_a_million_lines(rt: HostRuntime) -> Result<(), Fail> {
    hold_refusal(&rt, rt.alloc(), b'\n', 1_000_000, 0, None)?;
    let second = Some(PlanAnswer::TooManyRecords { input: 2 });
    hold_refusal(&rt, rt.alloc(), b'\n', 0, 1_000_001, second)
}

/// A body may be shared by threads, and a local may go from one to another.
fn run_in_threads<B: Drop + Send + Sync, L: Drop + Send>(_body: &B, _local: &L) {}

/// The line at which a local stands. It goes to threads, and so does its body.
fn line_of(body: &JobBody, local: &JobLocal) -> u64 {
    run_in_threads(body, local);
    body.place(local)
}

/// The line at which the `main` of the job that a text is begins.
fn first_line(alloc: Global, text: &str) -> Result<u64, NoMemory> {
    let (body, local) = main_of(alloc, text)?;
    Ok(line_of(&body, &local))
}

#[test]
fn bodies_and_locals_go_to_threads(rt: HostRuntime) -> Result<(), Fail> {
    let line = first_line(rt.alloc(), "swan 1\ntask main\ndo\nend\n")?;
    assert_eq!(rt; line, 4);
    Ok(())
}

/// How a queue is shown.
fn words_of_shown(shown: Shown) -> &'static str {
    match shown {
        Shown::Left => " Left; ",
        Shown::Out => " Out; ",
    }
}

/// Adds each queue's name and how it is shown.
fn push_queue_names(all: &mut String, queues: &[QueueName]) -> Result<(), NoMemory> {
    for queue in queues {
        all.push_str(queue.name.as_str())?;
        all.push_str(words_of_shown(queue.shown))?;
    }
    Ok(())
}

/// Adds each object's name.
fn push_object_names(all: &mut String, objects: &[Word]) -> Result<(), NoMemory> {
    for name in objects {
        all.push_str(name.as_str())?;
        all.push_str("; ")?;
    }
    Ok(())
}

/// Each queue's name and how it is shown, and then each object's name.
fn listed(alloc: Global, names: &Names) -> Result<String, NoMemory> {
    let mut all = String::new(alloc);
    push_queue_names(&mut all, names.queues.as_slice())?;
    push_object_names(&mut all, names.objects.as_slice())?;
    Ok(all)
}

/// The like of a job.
fn listed_of_job(alloc: Global, job: &CheckedJob) -> Result<String, NoMemory> {
    let names = names_of(alloc, job)?;
    listed(alloc, &names)
}

/// The like of the job that a text is.
fn listed_of_text(alloc: Global, text: &str) -> Result<String, NoMemory> {
    let job = job_of(alloc, text)?;
    listed_of_job(alloc, &job)
}

#[test]
fn queues_and_objects_have_names(rt: HostRuntime) -> Result<(), Fail> {
    let text =
        "swan 1\nobject y int\noutput out bytes\ninput in\nobject x int\noutput more int\ntask main\ndo\nend\n";
    let listed = listed_of_text(rt.alloc(), text)?;
    assert_text(&rt, listed.as_str(), "out Out; in Left; more Out; y; x; ");
    Ok(())
}
