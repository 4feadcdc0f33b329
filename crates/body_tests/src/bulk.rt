// The texts of small workloads, worked out by hand.
ghost use Rattle.std.specs.Prelude.{◌≤◌};
ghost use Rattle.bulk_workload.specs.declared.texts.TheConstants.{BULK_MOST};

use bulk_workload::{BULK_MOST, bulk_input, bulk_job};
use std::alloc::Global;
use std::process::Abort;
use std::test::Fail;

/// Whether the input of so many lines from this number on is this text.
fn input_is(alloc: Global, number: u64, size: u64, text: &str) -> bool
    requires { size ≤ BULK_MOST }
{
    match bulk_input(alloc, number, size) {
        Ok(input) => input.as_slice() == text.as_bytes(),
        Err(_) => false,
    }
}

/// Asserts this text of an input.
fn hold_input(rt: &impl Abort, alloc: Global, number: u64, size: u64, text: &str)
    requires { size ≤ BULK_MOST }
{
    assert!(rt; input_is(alloc, number, size, text), "{number} {size}");
}

#[test]
fn the_input_has_the_numbers_in_a_row(rt: HostRuntime) {
    hold_input(&rt, rt.alloc(), 7, 3, "7\n154\n241\n");
    hold_input(&rt, rt.alloc(), 1_007, 3, "7\n154\n241\n");
    hold_input(&rt, rt.alloc(), 999_999_999, 2, "999\n986\n");
    hold_input(&rt, rt.alloc(), 0, 4, "0\n7\n154\n241\n");
    hold_input(&rt, rt.alloc(), 5, 0, "");
}

/// Asserts how the text of a job begins, for an input of so many lines, and that it ends so.
fn hold_text(rt: &impl Abort, text: &[u8], size: u64, end: &str) {
    assert!(rt; text.starts_with(b"swan 1\ninput lines\noutput summary int\n"));
    assert!(rt; text.ends_with(end.as_bytes()), "{size}");
}

/// Asserts the like of the job for an input of so many lines.
fn hold_job(rt: &impl Abort, alloc: Global, size: u64, end: &str) -> Result<(), Fail>
    requires { size ≤ BULK_MOST }
{
    let job = bulk_job(alloc, size)?;
    hold_text(rt, job.as_slice(), size, end);
    Ok(())
}

#[test]
fn the_job_gives_its_last_task_seven_units_a_line(rt: HostRuntime) -> Result<(), Fail> {
    let small = "  spawn 8 fold nums total count summary\nend\n";
    hold_job(&rt, rt.alloc(), 0, small)?;
    let large = "  spawn 2100008 fold nums total count summary\nend\n";
    hold_job(&rt, rt.alloc(), 300_000, large)
}
