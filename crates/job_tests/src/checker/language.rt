// The job and the rows of the language's page: what the check refuses, with an example of each kind.
use super::*;

/// The job that the lines are put into, each before the line whose number its row begins with.
const JOB: &str = "swan 1
input lines
output sums int
object total int
task child
  param n int
  in first int
  in second int
  push results int
  do
end
task worker
  in seen int
  out done int
  push results int
  pop items int
  var n int
  var text bytes
  do
end
task main
  queue spare int
  object last int
  var n int
  do
end
";

/// Adds a line and a line feed.
fn push_line(rt: &impl Abort, alloc: Global, text: &mut String, line: &str) {
    let line = joined(rt, alloc, &[line, "\n"]);
    assert!(rt; text.push_str(line.as_str()).is_ok(), "no memory");
}

/// The job with a line put before the line of a number.
fn job_with(rt: &impl Abort, alloc: Global, line: &str, number: u64) -> String {
    let mut text = String::new(alloc);
    let mut next = 1u64;
    for own in JOB.split('\n') {
        if next == number {
            push_line(rt, alloc, &mut text, line);
        }
        push_line(rt, alloc, &mut text, own);
        next = next.saturating_add(1);
    }
    text
}

/// The job of a row's number and line, in which / stands for a line feed.
fn job_of_row(rt: &impl Abort, alloc: Global, number: &str, line: &str) -> String {
    let lines = with_line_feeds(rt, alloc, line);
    job_with(rt, alloc, lines.as_str(), number_of_word(rt, number))
}

/// Asserts a row of a number, what is said, and a line.
fn hold_row(rt: &impl Abort, alloc: Global, row: &str) {
    let (number, said, line) = three_parts_of(rt, row);
    let text = job_of_row(rt, alloc, number, line);
    hold_at(rt, alloc, text.as_str(), number, said, row);
}

/// Asserts rows of a number, what is said, and a line.
fn hold_rows(rt: &impl Abort, alloc: Global, table: &str) {
    for row in table.lines() {
        hold_row(rt, alloc, row);
    }
}

const DUPLICATE: &str = "\
5 Duplicate input total
19 Duplicate var n bytes
25 Duplicate queue total int
19 accepted queue total int
25 Duplicate param spare int
27 Duplicate task child/do/end
27 accepted task total/do/end";

const UNKNOWN: &str = "\
20 Unknown n = add n step
20 Unknown push spare 1
20 Unknown write total 1
26 accepted write total 1
26 Unknown spawn 5 helper
20 Unknown spawn 5 main";

const KIND: &str = "\
20 Kind n = set \"a\"
20 Kind text = len text
20 Kind n = eq n text
20 Kind n = add seen 1
20 Kind read n items
20 Kind pop text items
20 Kind push results \"a\"
20 Kind if text/end
20 Kind spawn text child
20 Kind spawn 5 child \"a\" seen seen results
20 Kind spawn 5 child 1 seen 2 results
20 Kind spawn 5 child 1 seen items results";

const PRIVILEGE: &str = "\
20 Privilege write seen 1
20 Privilege read n done
20 Privilege push items 1
20 Privilege pop n results
20 Privilege empty n results
20 Privilege spawn 5 child 1 seen done results
20 Privilege spawn 5 child 1 seen seen items
26 Privilege push lines \"a\"
26 Privilege pop n sums
20 Privilege push items text
20 Kind read text done";

const ARITY: &str = "\
20 Arity spawn 5 child 1 seen seen
20 Arity spawn 5 child 1 seen seen results items
20 Arity spawn 5 child \"a\"";

const ALIAS: &str = "\
26 Alias spawn 9 worker total total sums spare
26 Alias spawn 9 worker total last spare spare
26 accepted spawn 9 worker total last sums spare
20 accepted spawn 5 child 1 seen seen results";

const MAIN_PARAMS: &str = "\
25 MainParams param count int
25 MainParams pop items int
26 MainParams spawn 5 main";

/// Whole texts after their first line.
const NO_MAIN: &str = "\
2.NoMain output sums int/
6.NoMain task t/do/end//# main/";

#[test]
fn the_examples_of_duplicate_and_unknown(rt: HostRuntime) {
    hold_rows(&rt, rt.alloc(), DUPLICATE);
    hold_rows(&rt, rt.alloc(), UNKNOWN);
}

#[test]
fn the_examples_of_kind_and_privilege(rt: HostRuntime) {
    hold_rows(&rt, rt.alloc(), KIND);
    hold_rows(&rt, rt.alloc(), PRIVILEGE);
}

#[test]
fn the_examples_of_arity_and_alias(rt: HostRuntime) {
    hold_rows(&rt, rt.alloc(), ARITY);
    hold_rows(&rt, rt.alloc(), ALIAS);
}

#[test]
fn the_examples_of_no_main_and_main_params(rt: HostRuntime) {
    hold_texts(&rt, rt.alloc(), NO_MAIN);
    hold_rows(&rt, rt.alloc(), MAIN_PARAMS);
}
