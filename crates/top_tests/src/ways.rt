// By which way commands run.
use crate::helpers::{Machine, Over, assert_text, called, cut, files_of};
use crate::jobs::{NAMES, TEXTS};
use std::alloc::Global;
use std::test::Fail;
use swan_model::NoMemory;
use swan_top::{How, Status};

/// Command lines, and by which way they run.
const WAYS: &str = "\
run 1 100 a|a core
run 1 1 a|a core
run 2 100 a|a core
run 64 1 a|a core
run 256 1 a|a core
index 1 five|no core
convert 1 five|no core
bulk 7 3 1|no core
index 2 five|a core
convert 2 five|a core
bulk 7 3 2|a core
index 64 five|a core
convert 64 five|a core
bulk 7 3 64|a core
elide 100 a|no core
elide 1 a|no core
check a|no core
--help|no core
--version|no core
check frob|no run";

// By which way a call ran what it ran.
fn way_of(status: &Status) -> &'static str {
    match status {
        Status::Done(How::Ran(_)) | Status::Faulted(How::Ran(_)) => "a core",
        Status::Done(How::Plain) | Status::Faulted(How::Plain) => "no core",
        _ => "no run",
    }
}

// By which way a call with these words runs.
fn way_of_words(rt: &impl Machine, alloc: Global, words: &str) -> Result<&'static str, NoMemory> {
    let over = Over::files(files_of(alloc, NAMES, &TEXTS)?);
    let got = called(rt, alloc, words, over)?;
    let way = way_of(&got.status);
    drop(got);
    Ok(way)
}

// Asserts a row of the ways.
fn hold_way(rt: &impl Machine, alloc: Global, row: &str) -> Result<(), Fail> {
    let (words, way) = cut(row)?;
    assert_text(rt, way_of_words(rt, alloc, words)?, way, "the way", row);
    Ok(())
}

#[test]
fn a_status_shows_whether_a_core_ran_the_plan(rt: HostRuntime) -> Result<(), Fail> {
    for row in WAYS.lines() {
        hold_way(&rt, rt.alloc(), row)?;
    }
    Ok(())
}
