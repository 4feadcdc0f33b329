// Whole jobs, one of them cut after each of its bytes.
use super::*;
use crate::example_texts::{GIVES_POP_FROM_PUSH, GIVES_TWICE};
use crate::{FIRST_JOB, REFUSED_FRONTS};

#[test]
fn a_holder_of_push_gives_no_pop(rt: HostRuntime) {
    let row = "a spawn";
    hold(&rt, rt.alloc(), GIVES_POP_FROM_PUSH, "9 Privilege", row);
}

/// The job without the spawn that gives a queue twice.
fn only_readers(rt: &impl Abort, alloc: Global) -> String {
    made(rt, GIVES_TWICE.replace(alloc, "  spawn 1 two q q\n", ""))
}

/// How many lines a job has once it is checked, if it is accepted.
fn len_of_checked(alloc: Global, job: Job) -> Option<usize> {
    match check(alloc, job) {
        Ok(checked) => Some(checked.job().len()),
        Err(_) => None,
    }
}

/// How many lines the checked job of a text has, if it is accepted.
fn checked_len(alloc: Global, text: &str) -> Option<usize> {
    match read_job(alloc, text.as_bytes()) {
        Ok(job) => len_of_checked(alloc, job),
        Err(_) => None,
    }
}

/// Asserts that the job without that spawn is accepted, with all its other lines.
fn hold_readers(rt: &impl Abort, alloc: Global, readers: &str) {
    hold(rt, alloc, readers, "accepted", "both");
    let len = checked_len(alloc, readers);
    assert_eq!(rt; len, Some(17));
}

#[test]
fn two_may_read_an_object_and_one_may_push(rt: HostRuntime) {
    hold(&rt, rt.alloc(), GIVES_TWICE, "17 Alias", "two");
    let readers = only_readers(&rt, rt.alloc());
    hold_readers(&rt, rt.alloc(), readers.as_str());
}

/// Asserts what is said of the first job's front of a length.
fn hold_front(rt: &impl Abort, alloc: Global, len: u64, wanted: &str) {
    match FIRST_JOB.get(..len as usize) {
        Some(front) => hold(rt, alloc, front, wanted, front),
        None => panic!(rt; "too long"),
    }
}

/// Asserts a row of the first job's fronts: from which length to which, and what is said of them.
fn hold_fronts(rt: &impl Abort, alloc: Global, row: &str) {
    let (from, to, wanted) = three_parts_of(rt, row);
    for len in number_of_word(rt, from)..=number_of_word(rt, to) {
        hold_front(rt, alloc, len, wanted);
    }
}

#[test]
fn each_front_of_a_job_is_refused_at_its_last_line_or_accepted(rt: HostRuntime) {
    for row in REFUSED_FRONTS.lines() {
        hold_fronts(&rt, rt.alloc(), row);
    }
    hold_fronts(&rt, rt.alloc(), "58 59 accepted");
}

/// Whole texts with a fault that the reader or the checker names.
const TEXTS: &str = "\
2 BadLine,swan 1/frob/output out bytes/task main/do/end
4 BadByte,swan 1/task main/do/\t/end
5 BadNumber,swan 1/output out int/task main/do/push out 9223372036854775808/end
5 Kind,swan 1/output out int/task main/do/push out \"hi\"/end
1 BadHeader,";

/// Asserts what is said of a text in which / stands for a line feed.
fn hold_lines(rt: &impl Abort, alloc: Global, text: &str, wanted: &str, row: &str) {
    let lines = with_line_feeds(rt, alloc, text);
    hold(rt, alloc, lines.as_str(), wanted, row);
}

/// Asserts one of those rows.
fn hold_whole(rt: &impl Abort, alloc: Global, row: &str) {
    match row.split_once(',') {
        Some((wanted, text)) => hold_lines(rt, alloc, text, wanted, row),
        None => panic!(rt; "no text"),
    }
}

#[test]
fn the_text_is_read_before_it_is_checked(rt: HostRuntime) {
    for row in TEXTS.lines() {
        hold_whole(&rt, rt.alloc(), row);
    }
}
