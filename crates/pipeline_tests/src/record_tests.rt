// The conversion of texts, against answers worked out by hand.
use crate::plans::plan_of_conversion;
use crate::texts::{add, in_turn, plan_leaves, repeated};
use record_pipeline::record_names;
use std::alloc::Global;
use std::process::Abort;

/// Whether a text is converted so, with this report of its faults.
fn leaves(rt: &impl Abort, alloc: Global, text: &[u8], out: &[u8], faults: &str) -> bool {
    let plan = plan_of_conversion(rt, alloc, text);
    plan_leaves(rt, alloc, plan, record_names(alloc), out, faults)
}

/// Asserts that a text is converted so, with this report of its faults.
fn hold_conversion(rt: &impl Abort, alloc: Global, text: &[u8], out: &[u8], faults: &str) {
    let bytes = text.len();
    assert!(rt; leaves(rt, alloc, text, out, faults), "{bytes} bytes");
}

#[test]
fn fields_become_netstrings(rt: HostRuntime) {
    let alloc = rt.alloc();
    hold_conversion(
        &rt,
        alloc,
        b"ab\tc\nx\ty\tz\n\t\nw\n",
        b"2:ab,1:c,\n0:,0:,\n",
        "faults 2\nfault /0/1 2 User 1\nfault /0/3 4 User 1\n",
    );
    hold_conversion(&rt, alloc, b"", b"", "faults 0\n");
    hold_conversion(&rt, alloc, b"\n\n", b"0:,\n0:,\n", "faults 0\n");
    hold_conversion(&rt, alloc, b"a\xff:,", b"4:a\xff:,,\n", "faults 0\n");
}

/// Asserts that so many lines of one field are converted, and this report of one of two fields after them.
fn hold_lines(rt: &impl Abort, alloc: Global, lines: usize, faults: &str) {
    let text = in_turn(rt, alloc, b"w\n", lines, b"w\tw", 1);
    let out = repeated(rt, alloc, b"1:w,\n", lines);
    let holds = leaves(rt, alloc, &text, &out, faults);
    assert!(rt; holds, "at {lines}");
}

#[test]
fn blocks_have_64_lines(rt: HostRuntime) {
    let alloc = rt.alloc();
    hold_lines(&rt, alloc, 63, "faults 1\nfault /0/63 64 User 1\n");
    hold_lines(&rt, alloc, 64, "faults 1\nfault /1/0 65 User 1\n");
    hold_lines(&rt, alloc, 65, "faults 1\nfault /1/1 66 User 1\n");
    hold_lines(&rt, alloc, 127, "faults 1\nfault /1/63 128 User 1\n");
    hold_lines(&rt, alloc, 128, "faults 1\nfault /2/0 129 User 1\n");
}

/// Whether a text of 1048567 bytes is converted to one field.
fn is_one_field(rt: &impl Abort, alloc: Global, text: &[u8]) -> bool {
    let mut out = in_turn(rt, alloc, b"1048567:", 1, text, 1);
    add(rt, &mut out, b",\n");
    leaves(rt, alloc, text, &out, "faults 0\n")
}

#[test]
fn long_records_are_left_out(rt: HostRuntime) {
    let mut text = repeated(&rt, rt.alloc(), b"a", 1_048_567);
    assert!(rt; is_one_field(&rt, rt.alloc(), &text), "at 1048567");
    add(&rt, &mut text, b"a");
    let faults = "faults 1\nfault /0/0 1 TooLong\n";
    assert!(rt; leaves(&rt, rt.alloc(), &text, b"", faults), "at 1048568");
}
