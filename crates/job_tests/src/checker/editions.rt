// Jobs of the second edition, and the statement that only they have.
use super::*;
use crate::example_texts::{COUNTS_FAILED, GIVES_POP_FROM_PUSH, GIVES_TWICE, JOBS};
use crate::texts::in_second_edition;

/// `caught v` in a job of the second edition: v, its sort and its kind.
const CAUGHT: &str = "\
accepted caught var_int
accepted caught param_int
Unknown caught z
Unknown caught nothing
Kind caught in_int
Kind caught out_bytes
Kind caught object_int
Kind caught push_int
Kind caught pop_int
Kind caught queue_bytes
Kind caught var_bytes
accepted if 1/caught var_int/end
accepted fuel var_int
accepted sync
BadName caught 1
BadLine caught
BadLine caught var_int z
Unknown caught = set 1";

#[test]
fn caught_takes_a_variable_of_numbers(rt: HostRuntime) {
    for row in CAUGHT.lines() {
        hold_statement(&rt, rt.alloc(), "swan 2", row);
    }
}

/// `caught` in a job of the first edition.
const OF_THE_FIRST: &str = "\
BadLine caught var_int
BadLine caught z
BadLine caught var_bytes
Unknown caught = set 1";

#[test]
fn caught_is_no_statement_of_the_first_edition(rt: HostRuntime) {
    hold_statements(&rt, rt.alloc(), OF_THE_FIRST);
}

/// Asserts what is said of the job that counts what failed, with this in the place of that.
fn hold_changed(rt: &impl Abort, alloc: Global, old: &str, new: &str, wanted: &str) {
    let text = made(rt, COUNTS_FAILED.replace(alloc, old, new));
    hold(rt, alloc, text.as_str(), wanted, new);
}

#[test]
fn a_job_may_count_the_children_that_failed(rt: HostRuntime) {
    let row = "the job";
    hold(&rt, rt.alloc(), COUNTS_FAILED, "accepted", row);
    hold_changed(&rt, rt.alloc(), "swan 2", "swan 1", "18 BadLine");
    let first = "caught n\n  push out n\n  sync\n";
    let given = "caught out\n  push out n\n  sync\n";
    hold_changed(&rt, rt.alloc(), first, given, "18 Kind");
}

/// What is wanted of an example job: two of them have a fault.
fn wanted_of_example(text: &str) -> &'static str {
    if text == GIVES_POP_FROM_PUSH {
        "9 Privilege"
    } else if text == GIVES_TWICE {
        "17 Alias"
    } else {
        "accepted"
    }
}

/// Asserts what is said of an example job with the first line of the second edition.
fn hold_alike(rt: &impl Abort, alloc: Global, text: &str) {
    let second = in_second_edition(rt, alloc, text);
    hold(rt, alloc, second.as_str(), wanted_of_example(text), text);
}

#[test]
fn jobs_of_the_first_edition_are_checked_alike_in_the_second(rt: HostRuntime) {
    for text in JOBS.as_slice() {
        hold_alike(&rt, rt.alloc(), text);
    }
}
