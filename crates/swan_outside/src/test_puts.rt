// What tests of sinks share.
ghost use Rattle.std.specs.Prelude.{◌≤◌};

use crate::{Failed, MemorySink};
use std::alloc::Global;
use std::process::Abort;

/// A list of one number.
fn number_alone(rt: &impl Abort, alloc: Global, number: u64) -> Vec<u64> {
    match vec![in alloc; number] {
        Ok(numbers) => numbers,
        Err(_) => panic!(rt; "no memory"),
    }
}

/// A sink in memory that takes at most `most` bytes at once and has room for so many, of which the put of this number fails: puts count from 1, so
/// none does with 0. The test ends where there is no memory for it.
pub(crate) fn memory_sink(
    rt: &impl Abort,
    alloc: Global,
    most: usize,
    room: usize,
    failing: u64,
) -> MemorySink
    requires { 1 ≤ most }
{
    let fail = number_alone(rt, alloc, failing);
    match MemorySink::new(alloc, most, room, fail) {
        Ok(sink) => sink,
        Err(_) => panic!(rt; "no memory"),
    }
}

/// Asserts what one put answers.
pub(crate) fn hold_put_answer(
    rt: &impl Abort,
    what: &str,
    found: Result<usize, Failed>,
    answer: Result<usize, Failed>,
) {
    assert!(rt; found == answer, "the answer at {what}");
}

/// Asserts what a put of all bytes answers.
pub(crate) fn hold_put_all_answer(
    rt: &impl Abort,
    what: &str,
    found: Result<(), Failed>,
    answer: Result<(), Failed>,
) {
    assert!(rt; found == answer, "the answer at {what}");
}

/// Asserts which bytes were taken so far.
pub(crate) fn hold_written(rt: &impl Abort, what: &str, found: &[u8], written: &[u8]) {
    assert!(rt; found == written, "the bytes at {what}");
}

/// Asserts how many puts have failed.
pub(crate) fn hold_faults(rt: &impl Abort, what: &str, found: u64, faults: u64) {
    assert!(rt; found == faults, "the faults at {what}");
}
