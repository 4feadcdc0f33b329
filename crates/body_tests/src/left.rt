// What jobs leave in the queue `out`, by the elision.
use crate::asserts::{are_same, assert_none, parts_of};
use crate::jobs::{plan_of_text, text_of};
use serial_elision::elide;
use std::alloc::Global;
use std::process::Abort;
use std::str;
use swan_model::{NoMemory, Record, Value, Values};

/// The bytes of a record as text. They are ASCII.
fn text_of_record(record: &Record) -> &str {
    match str::from_utf8(record.as_slice()) {
        Ok(text) => text,
        Err(_) => "?",
    }
}

/// The bytes of a value as text. A number is none.
fn text_of_bytes(value: &Value) -> &str {
    match value {
        Value::Int(_) => "?",
        Value::Bytes(record) => text_of_record(record),
    }
}

/// The texts of values, with a space between.
fn text_of_values(alloc: Global, values: &[Value]) -> Result<String, NoMemory> {
    let mut all = String::new(alloc);
    for value in values {
        if !all.is_empty() {
            all.push_str(" ")?;
        }
        all.push_str(text_of_bytes(value))?;
    }
    Ok(all)
}

/// The texts of what is left of the first queue.
fn text_of_first(alloc: Global, queues: &[Values]) -> Result<String, NoMemory> {
    match queues {
        [first, ..] => text_of_values(alloc, first.as_slice()),
        [] => Err(NoMemory),
    }
}

/// What a job leaves in `out` with these lines first, then these statements, and `push out v` after them.
fn left_in_out(alloc: Global, head: &str, statements: &str) -> Result<String, NoMemory> {
    let text = text_of(alloc, head, statements)?;
    let plan = plan_of_text(alloc, text.as_str())?;
    let outcome = elide(alloc, plan)?;
    text_of_first(alloc, outcome.queues.as_slice())
}

/// Whether a row of a table is so. It has statements, ` => `, and what is left.
fn is_so(alloc: Global, head: &str, row: &str) -> bool {
    let Some((statements, want)) = parts_of(row) else {
        return false;
    };
    match left_in_out(alloc, head, statements) {
        Ok(left) => are_same(left.as_str(), want),
        Err(_) => false,
    }
}

/// The first row of a table that isn't so, if there is one.
fn first_wrong<'a>(alloc: Global, head: &str, table: &'a str) -> Option<&'a str> {
    for row in table.lines() {
        if !is_so(alloc, head, row) {
            return Some(row);
        }
    }
    None
}

/// Asserts the rows of a table, whose statements come after these lines. The job's one output is `out`, and `v` has bytes.
pub fn hold_left(rt: &impl Abort, alloc: Global, head: &str, table: &str) {
    assert_none(rt, first_wrong(alloc, head, table));
}
