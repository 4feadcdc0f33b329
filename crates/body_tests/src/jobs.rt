// Jobs of tests, and what their first task does.
use crate::asserts::{are_same, assert_none, parts_of};
use job_body::{JobBody, JobLocal, plan_of};
use job_reader::{Job, read_job};
use privilege_check::{CheckedJob, check};
use std::alloc::Global;
use std::process::Abort;
use swan_model::{Answer, Ask, Blob, Body, NoMemory, Plan, Record, Trouble, Value};

/// The job that a text is, which is not refused.
fn read(alloc: Global, text: &str) -> Result<Job, NoMemory> {
    match read_job(alloc, text.as_bytes()) {
        Ok(job) => Ok(job),
        Err(_) => Err(NoMemory),
    }
}

/// The same job, checked, which has no fault.
fn checked(alloc: Global, job: Job) -> Result<CheckedJob, NoMemory> {
    match check(alloc, job) {
        Ok(job) => Ok(job),
        Err(_) => Err(NoMemory),
    }
}

/// The checked job of a text, which has no fault.
pub fn job_of(alloc: Global, text: &str) -> Result<CheckedJob, NoMemory> {
    checked(alloc, read(alloc, text)?)
}

/// The plan of a job with no inputs.
fn plan_of_job(alloc: Global, job: CheckedJob) -> Result<Plan<JobBody>, NoMemory> {
    match plan_of(alloc, job, Vec::<Blob>::new(alloc), 1000) {
        Ok(plan) => Ok(plan),
        Err(_) => Err(NoMemory),
    }
}

/// The plan of the job that a text is, with no inputs.
pub fn plan_of_text(alloc: Global, text: &str) -> Result<Plan<JobBody>, NoMemory> {
    plan_of_job(alloc, job_of(alloc, text)?)
}

/// The body of the job that a text is, and the local with which its `main` begins.
pub fn main_of(alloc: Global, text: &str) -> Result<(JobBody, JobLocal), NoMemory> {
    let Plan {
        body,
        root_local,
        roots: _,
        fuel: _,
    } = plan_of_text(alloc, text)?;
    Ok((body, root_local))
}

/// The text of a job with these lines first, then these statements, and `push out v` after them.
pub fn text_of(alloc: Global, head: &str, statements: &str) -> Result<String, NoMemory> {
    let lines = statements.replace(alloc, "; ", "\n")?;
    Ok(format!(in alloc; "{head}{lines}\npush out v\nend\n")?)
}

/// The body of the job with these lines first, then these statements, and `push out v` after them, and the local with which its `main`
/// begins.
pub fn main_with(
    alloc: Global,
    head: &str,
    statements: &str,
) -> Result<(JobBody, JobLocal), NoMemory> {
    let text = text_of(alloc, head, statements)?;
    main_of(alloc, text.as_str())
}

/// What an ask is answered in tests: 7 to a read, the bytes `ab` to a pop, to a test that the queue is
/// empty in the first statement and isn't in a later one, and to a sync that as many children failed as steps were taken
/// before it. A write is told of failed children too, of which it didn't ask.
fn answer_to(alloc: Global, ask: &Ask<JobLocal>, steps: u64) -> Result<Answer, NoMemory> {
    match ask {
        Ask::Read(_) => Ok(Answer::Item(Value::Int(7))),
        Ask::Pop(_) => match Record::of(alloc, b"ab") {
            Ok(record) => Ok(Answer::Item(Value::Bytes(record))),
            Err(_) => Err(NoMemory),
        },
        Ask::Empty(_) => Ok(Answer::Flag(steps < 2)),
        Ask::Sync => Ok(Answer::Caught(steps)),
        Ask::Write(_, _) => Ok(Answer::Caught(9)),
        _ => Ok(Answer::Nothing),
    }
}

/// A number, as text.
pub fn text_of_number(alloc: Global, number: i64) -> Result<String, NoMemory> {
    Ok(format!(in alloc; "{number}")?)
}

/// A trouble and the line of its step, as text.
fn text_of_trouble(alloc: Global, trouble: Trouble, line: u64) -> Result<String, NoMemory> {
    Ok(format!(in alloc; "{trouble:?} at {line}")?)
}

/// What number an ask pushes, or the trouble by which it ends its task and the line of that step, as text; nothing of
/// another ask.
fn told_by(alloc: Global, ask: &Ask<JobLocal>, line: u64) -> Result<Option<String>, NoMemory> {
    match ask {
        Ask::Push(_, Value::Int(number)) => Ok(Some(text_of_number(alloc, *number)?)),
        Ask::Fail(trouble) => Ok(Some(text_of_trouble(alloc, *trouble, line)?)),
        _ => Ok(None),
    }
}

/// Takes a step of a task.
pub fn step(
    alloc: Global,
    body: &JobBody,
    local: JobLocal,
    answer: Answer,
    fuel: u64,
) -> Result<(JobLocal, Ask<JobLocal>), NoMemory> {
    body.advance(alloc, local, answer, fuel)
}

/// What a step of a task comes to.
#[derive(Drop)]
pub enum Stepped {
    /// This is told of it.
    Told(String),
    /// The task goes on here, and is answered this.
    GoesOn(JobLocal, Answer),
}

/// What an ask of this line comes to, after so many steps.
pub fn after_ask(
    alloc: Global,
    moved: JobLocal,
    ask: &Ask<JobLocal>,
    line: u64,
    steps: u64,
) -> Result<Stepped, NoMemory> {
    match told_by(alloc, ask, line)? {
        Some(told) => Ok(Stepped::Told(told)),
        None => Ok(Stepped::GoesOn(moved, answer_to(alloc, ask, steps)?)),
    }
}

/// What a step of this line comes to, after so many steps.
fn after_step(
    alloc: Global,
    stepped: (JobLocal, Ask<JobLocal>),
    line: u64,
    steps: u64,
) -> Result<Stepped, NoMemory> {
    let (moved, ask) = stepped;
    after_ask(alloc, moved, &ask, line, steps)
}

/// Takes a step of a task after so many.
fn next_step(
    alloc: Global,
    body: &JobBody,
    local: JobLocal,
    answer: Answer,
    steps: u64,
) -> Result<Stepped, NoMemory> {
    let line = body.place(&local);
    let stepped = step(alloc, body, local, answer, 199u64.saturating_sub(steps))?;
    after_step(alloc, stepped, line, steps)
}

/// What number a task pushes first, or the trouble by which it ends and the line of that step, as text.
fn first_push(alloc: Global, body: &JobBody, root: JobLocal) -> Result<String, NoMemory> {
    let mut local = root;
    let mut answer = Answer::Start;
    for steps in 0..200u64 {
        match next_step(alloc, body, local, answer, steps)? {
            Stepped::Told(told) => return Ok(told),
            Stepped::GoesOn(after, next_answer) => {
                local = after;
                answer = next_answer;
            }
        }
    }
    Err(NoMemory)
}

/// What `main` pushes first with these statements, one a line from line 12 on, and `push out v` after them; or its
/// trouble. It has a number `v`, bytes `b` and a queue `q`, and the job begins with this line.
fn told_in_edition(alloc: Global, header: &str, statements: &str) -> Result<String, NoMemory> {
    let head = format!(in alloc;
        "{header}\nobject x int\noutput out int\ntask idle\ndo\nend\ntask main\nvar v int\nvar b bytes\nqueue q bytes\ndo\n"
    )?;
    let (body, local) = main_with(alloc, head.as_str(), statements)?;
    first_push(alloc, &body, local)
}

/// The same in a job of the first edition.
pub fn told_one_by_one(alloc: Global, statements: &str) -> Result<String, NoMemory> {
    told_in_edition(alloc, "swan 1", statements)
}

/// What is told of statements that come after `prefix`.
fn told_with(
    alloc: Global,
    header: &str,
    prefix: &str,
    statements: &str,
) -> Result<String, NoMemory> {
    let statements = format!(in alloc; "{prefix}{statements}")?;
    told_in_edition(alloc, header, statements.as_str())
}

/// Whether this is told of statements that come after `prefix`.
fn is_told(alloc: Global, header: &str, prefix: &str, statements: &str, want: &str) -> bool {
    match told_with(alloc, header, prefix, statements) {
        Ok(told) => are_same(told.as_str(), want),
        Err(_) => false,
    }
}

/// Whether a row of a table is so. It has statements, which come after `prefix`, ` => `, and what is told of them.
fn is_so_one_by_one(alloc: Global, header: &str, row: &str, prefix: &str) -> bool {
    match parts_of(row) {
        Some((statements, want)) => is_told(alloc, header, prefix, statements, want),
        None => false,
    }
}

/// The first row of a table that isn't so, if there is one.
fn first_wrong_one_by_one<'a>(
    alloc: Global,
    header: &str,
    table: &'a str,
    prefix: &str,
) -> Option<&'a str> {
    for row in table.lines() {
        if !is_so_one_by_one(alloc, header, row, prefix) {
            return Some(row);
        }
    }
    None
}

/// Asserts the rows of such a table, in jobs that begin with this line.
pub fn hold_in_edition(rt: &impl Abort, alloc: Global, header: &str, table: &str, prefix: &str) {
    assert_none(rt, first_wrong_one_by_one(alloc, header, table, prefix));
}

/// Asserts the rows of such a table, in jobs of the first edition.
pub fn hold_one_by_one(rt: &impl Abort, alloc: Global, table: &str, prefix: &str) {
    hold_in_edition(rt, alloc, "swan 1", table, prefix);
}
