// What is said of jobs, from tables of which each row is a text and what is wrong with it.
use crate::texts::{joined, made, number_of_word, parts_of, three_parts_of, with_line_feeds};
use job_reader::{Job, JobFault, JobKind, ReadJob, read_job};
use privilege_check::{CheckJob, check};
use std::alloc::Global;
use std::process::Abort;
use std::test::Fail;

mod declarations;
mod editions;
mod gifts;
mod jobs;
mod language;
mod operations;
mod order;
mod rights;
mod spawns;
mod statements;

/// The first fault of a job that was read, if it has one.
fn fault_of_job(alloc: Global, job: Job) -> Result<Option<JobFault>, Fail> {
    match check(alloc, job) {
        Ok(_) => Ok(None),
        Err(CheckJob::Refused(fault)) => Ok(Some(fault)),
        Err(CheckJob::NoMemory) => Err("no memory".into()),
    }
}

/// The first fault of a text, if it has one.
fn fault_of(alloc: Global, text: &str) -> Result<Option<JobFault>, Fail> {
    match read_job(alloc, text.as_bytes()) {
        Ok(job) => fault_of_job(alloc, job),
        Err(ReadJob::Refused(fault)) => Ok(Some(fault)),
        Err(ReadJob::NoMemory) => Err("no memory".into()),
    }
}

/// A line and a kind.
fn text_of_fault(alloc: Global, line: u64, kind: JobKind) -> Result<String, Fail> {
    Ok(format!(in alloc; "{line} {kind:?}")?)
}

/// The line and kind of the first fault of a text, or `accepted`.
fn said_of(alloc: Global, text: &str) -> Result<String, Fail> {
    match fault_of(alloc, text)? {
        None => Ok(String::from_str(alloc, "accepted")?),
        Some(JobFault { line, kind }) => text_of_fault(alloc, line, kind),
    }
}

/// Asserts that what is said is what is wanted.
fn hold_said(rt: &impl Abort, said: &str, wanted: &str, row: &str) {
    assert_eq!(rt; said, wanted, "at {row}");
}

/// Asserts what is said of a text.
fn hold(rt: &impl Abort, alloc: Global, text: &str, wanted: &str, row: &str) {
    match said_of(alloc, text) {
        Ok(said) => hold_said(rt, said.as_str(), wanted, row),
        Err(_) => panic!(rt; "no memory"),
    }
}

/// What is wanted of a line with this number.
fn wanted_of(rt: &impl Abort, alloc: Global, line: &str, said: &str) -> String {
    match said {
        "accepted" => joined(rt, alloc, &[said]),
        _ => joined(rt, alloc, &[line, " ", said]),
    }
}

/// Asserts that a text is `accepted`, or is refused at this line with what is said.
fn hold_at(rt: &impl Abort, alloc: Global, text: &str, line: &str, said: &str, row: &str) {
    let wanted = wanted_of(rt, alloc, line, said);
    hold(rt, alloc, text, wanted.as_str(), row);
}

/// A whole text, from what stands after its first line, in which / stands for a line feed.
fn text_after_first(rt: &impl Abort, alloc: Global, text: &str) -> String {
    let lines = with_line_feeds(rt, alloc, text);
    joined(rt, alloc, &["swan 1\n", lines.as_str()])
}

/// Asserts a row of what is said of a whole text after its first line.
fn hold_text(rt: &impl Abort, alloc: Global, row: &str) {
    let (said, text) = parts_of(rt, row);
    let wanted = made(rt, said.replace(alloc, ".", " "));
    let text = text_after_first(rt, alloc, text);
    hold(rt, alloc, text.as_str(), wanted.as_str(), row);
}

/// Asserts rows of what is said of whole texts after their first line: `accepted`, or the line and the
/// kind, with a dot between them.
fn hold_texts(rt: &impl Abort, alloc: Global, table: &str) {
    for row in table.lines() {
        hold_text(rt, alloc, row);
    }
}

/// Tasks that take one thing, or several. 51 lines.
const CHILDREN: &str = "task nothing
  do
end
task number
  param n int
  do
end
task record
  param b bytes
  do
end
task reader
  in a int
  do
end
task writer
  out a int
  do
end
task owner
  inout a int
  do
end
task pusher
  push q int
  do
end
task popper
  pop q int
  do
end
task both
  pushpop q int
  do
end
task note
  inout a bytes
  do
end
task page
  pushpop q bytes
  do
end
task several
  param n int
  in a int
  push q int
  pop p int
  param b bytes
  do
end
";

/// A task with a name of every sort, kind and right, up to a statement in line 72.
const HOLDER: &str = "task holder
  param param_int int
  in in_int int
  out out_int int
  inout inout_int int
  push push_int int
  pop pop_int int
  pushpop pushpop_int int
  in in_bytes bytes
  out out_bytes bytes
  push push_bytes bytes
  pop pop_bytes bytes
  var var_int int
  var var_bytes bytes
  queue queue_int int
  queue queue_bytes bytes
  object object_int int
  object object_bytes bytes
  do
";

/// What follows the statement.
const MAIN: &str = "end
task main
  do
end
";

/// A job with this first line and a statement of the holder, in which / stands for a line feed.
fn text_of_statement(rt: &impl Abort, alloc: Global, header: &str, statement: &str) -> String {
    let lines = with_line_feeds(rt, alloc, statement);
    let texts = [header, "\n", CHILDREN, HOLDER, lines.as_str(), "\n", MAIN];
    joined(rt, alloc, &texts)
}

/// Asserts a row of what is said of a statement in a job with this first line.
fn hold_statement(rt: &impl Abort, alloc: Global, header: &str, row: &str) {
    let (said, statement) = parts_of(rt, row);
    let text = text_of_statement(rt, alloc, header, statement);
    hold_at(rt, alloc, text.as_str(), "72", said, row);
}

/// Asserts rows of what is said of statements, and of the lines after them up to the end of their block.
fn hold_statements(rt: &impl Abort, alloc: Global, table: &str) {
    for row in table.lines() {
        hold_statement(rt, alloc, "swan 1", row);
    }
}
