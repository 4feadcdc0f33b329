// The two editions: their first lines, and the statement that only the second has.
use super::{
    At, check_texts, hold_refused, hold_written, is_second_header, job_of, number_of, refused_at,
    text_with,
};
use crate::example_texts::{COUNTS_FAILED, EVERY_LINE, JOBS};
use crate::texts::{in_second_edition, joined, parts_of, three_parts_of};
use job_reader::JobKind;
use std::alloc::Global;
use std::process::Abort;

/// First lines, and what follows them.
const HEADERS: &str = r#"0 Ok swan 2
0 Ok swan 2/
0 Ok swan  2
0 Ok   swan   2   /
0 Ok swan 2/# a note/
1 BadHeader swan 0
1 BadHeader swan 3
1 BadHeader swan 12
1 BadHeader swan 21
1 BadHeader swan 02
1 BadHeader swan -2
1 BadHeader swan 2.
1 BadHeader swan two
1 BadHeader swan "2"
1 BadHeader swan2
1 BadHeader Swan 2
1 BadHeader 2 swan
1 BadHeader "swan" 2
1 BadHeader swan 1 2
1 BadHeader swan 2 1
1 BadHeader swan 2 2
1 BadHeader swan 2 # a note
1 BadHeader # swan 2/
1 BadHeader /swan 2/
2 BadLine swan 1/swan 2/
2 BadLine swan 2/swan 1/
2 BadLine swan 2/swan 2/
2 BadLine swan 2/caught n/
4 Unbalanced swan 2/task t/do/caught n
5 BadLine swan 2/task t/do/end/caught n/
4 BadLine swan 1/task t/do/caught n
4 BadLine swan 1/task t/do/caught n/frob
5 BadLine swan 2/task t/do/caught n/frob
1 BadHeader swan 3/task t/do/caught n"#;

#[test]
fn a_job_begins_with_the_line_of_an_edition(rt: HostRuntime) {
    check_texts(&rt, rt.alloc(), HEADERS);
}

/// Lines: where they stand, what is wrong with them in a job of the first edition, and in one of the second.
const LINES: &str = r#"Do BadLine Ok caught v
Do BadLine Ok   caught   v
Do BadLine Ok caught caught
Do BadLine Ok caught abcdefghijklmnopqrstuvwxyz_12345
Do BadLine BadName caught abcdefghijklmnopqrstuvwxyz_123456
Do BadLine BadLine caught
Do BadLine BadLine caught a b
Do BadLine BadLine caught a b c
Do BadLine BadLine caught v =
Do BadLine BadLine caught v 00
Do BadLine BadName caught "x"
Do BadLine BadName caught "="
Do BadLine BadLine caught "x
Do BadLine BadLine caught "\q"
Do BadLine BadName caught 1
Do BadLine BadName caught 00
Do BadLine BadName caught -
Do BadLine BadName caught +
Do BadLine BadName caught V
Do BadLine BadName caught ==
Do BadLine BadLine caught= set 1
Do BadLine BadLine Caught v
Do BadLine BadLine "caught" v
Do Ok Ok caught = set 1
Do Ok Ok caught = add caught 1
Do BadLine BadLine caught =
Do BadLine BadLine caught = set
Do BadLine BadLine caught = v
Do BadName BadName caught = set +1
Do BadNumber BadNumber caught = set 00
Do Ok Ok fuel caught
Do Ok Ok sync
Do BadLine BadLine sync v
Do BadLine BadLine frob v
Task BadLine BadLine caught v
Task BadLine BadLine caught = set 1
Task Ok Ok var caught int
Top BadLine BadLine caught v
Top BadLine BadLine caught = set 1
Top Ok Ok input caught"#;

/// Asserts what is refused of a line at a place in both editions, if anything.
fn hold_both(
    rt: &impl Abort,
    alloc: Global,
    at: At,
    line: &str,
    first: Option<(u64, JobKind)>,
    second: Option<(u64, JobKind)>,
    row: &str,
) {
    let text = text_with(rt, alloc, at, line);
    hold_refused(rt, alloc, text.as_str(), first, row);
    let text = in_second_edition(rt, alloc, text.as_str());
    hold_refused(rt, alloc, text.as_str(), second, row);
}

/// Asserts a row of a place, what is wrong in each edition, and a line.
fn hold_line(rt: &impl Abort, alloc: Global, row: &str) {
    let (place, first, rest) = three_parts_of(rt, row);
    let (second, line) = parts_of(rt, rest);
    let at = At::named(place);
    let first = refused_at(number_of(at), first);
    let second = refused_at(number_of(at), second);
    hold_both(rt, alloc, at, line, first, second, row);
}

#[test]
fn caught_is_a_statement_of_the_second_edition_alone(rt: HostRuntime) {
    for row in LINES.lines() {
        hold_line(&rt, rt.alloc(), row);
    }
}

/// Asserts that a job of the first edition, with the first line of the second, is written back.
fn hold_in_second(rt: &impl Abort, alloc: Global, text: &str) {
    let text = in_second_edition(rt, alloc, text);
    hold_written(rt, alloc, text.as_str(), text.as_str());
}

#[test]
fn the_second_edition_has_each_line_of_the_first(rt: HostRuntime) {
    hold_in_second(&rt, rt.alloc(), EVERY_LINE);
    for text in JOBS.as_slice() {
        hold_in_second(&rt, rt.alloc(), text);
    }
}

/// A `caught` in a task and in blocks, with too many spaces.
const SPACED: &str = "  swan   2 \n task  t\nvar n int\ndo\n  sync\n\ncaught   n \n# here\n\
    while n\ncaught n\nif n\n       caught n\nelse\n caught n\nend\nend\nend";

/// What is written of it.
const CANONICAL: &str = "swan 2\ntask t\n  var n int\n  do\n  sync\n\n  caught n\n  # here\n  \
    while n\n    caught n\n    if n\n      caught n\n    else\n      caught n\n    end\n  end\nend\n";

#[test]
fn jobs_of_the_second_edition_are_written_in_the_canonical_way(rt: HostRuntime) {
    hold_written(&rt, rt.alloc(), SPACED, CANONICAL);
    hold_written(&rt, rt.alloc(), COUNTS_FAILED, COUNTS_FAILED);
}

#[test]
fn the_first_line_says_which_edition_a_job_is_of(rt: HostRuntime) {
    let job = job_of(&rt, rt.alloc(), COUNTS_FAILED.as_bytes());
    assert!(&rt; is_second_header(job.line(0)));
}
