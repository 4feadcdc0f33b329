// The rows of the text: what is accepted, what is refused with which line and kind, and how it is
// written.
use crate::FIRST_JOB;
use crate::example_texts::{EVERY_LINE, JOBS};
use crate::texts::{joined, made, number_of_word, three_parts_of, with_line_feeds};
use job_reader::{
    Edition, Job, JobFault, JobKind, Line, ReadJob, limits_of_jobs, lines_are_pieces,
    literals_are_pieces, read_job, text_reads_back, tokens_are_pieces, write_job,
};
use std::alloc::{AllocError, Global};
use std::process::Abort;

mod editions;
mod line_texts;

/// A text with one line that stands at the top level, in a task, or after its `do`.
#[derive(Clone, Copy)]
pub enum At {
    Top,
    Task,
    Do,
}

impl At {
    /// The place with this name.
    pub fn named(name: &str) -> At {
        match name {
            "Top" => At::Top,
            "Task" => At::Task,
            _ => At::Do,
        }
    }
}

/// The kind with this name, if it is one of the text's.
pub fn kind_named(name: &str) -> Option<JobKind> {
    match name {
        "BadByte" => Some(JobKind::BadByte),
        "BadHeader" => Some(JobKind::BadHeader),
        "BadLine" => Some(JobKind::BadLine),
        "BadName" => Some(JobKind::BadName),
        "BadNumber" => Some(JobKind::BadNumber),
        "Unbalanced" => Some(JobKind::Unbalanced),
        "Limit" => Some(JobKind::Limit),
        _ => None,
    }
}

/// What is refused, where a row names this line and this kind: nothing where no kind has that name.
pub fn refused_at(line: u64, kind: &str) -> Option<(u64, JobKind)> {
    kind_named(kind).map(|kind| (line, kind))
}

/// A text with @ at a place.
fn text_at(at: At) -> &'static str {
    match at {
        At::Top => "swan 1\n@\ntask t\n  do\nend\n",
        At::Task => "swan 1\ntask t\n@\n  do\nend\n",
        At::Do => "swan 1\ntask t\n  do\n@\nend\n",
    }
}

/// A text with a line at a place.
pub fn text_with(rt: &impl Abort, alloc: Global, at: At, line: &str) -> String {
    made(rt, text_at(at).replace(alloc, "@", line))
}

/// The number of that line.
pub fn number_of(at: At) -> u64 {
    match at {
        At::Top => 2,
        At::Task => 3,
        At::Do => 4,
    }
}

/// What is refused of a text, if anything.
pub fn refusal(rt: &impl Abort, alloc: Global, text: &[u8]) -> Option<(u64, JobKind)> {
    match read_job(alloc, text) {
        Ok(job) => {
            drop(job);
            None
        }
        Err(ReadJob::Refused(JobFault { line, kind })) => Some((line, kind)),
        Err(ReadJob::NoMemory) => panic!(rt; "no memory"),
    }
}

/// The job that a text is.
pub fn job_of(rt: &impl Abort, alloc: Global, text: &[u8]) -> Job {
    match read_job(alloc, text) {
        Ok(job) => job,
        Err(_) => panic!(rt; "refused"),
    }
}

/// The canonical text of what a text is.
pub fn rewritten(rt: &impl Abort, alloc: Global, text: &str) -> Vec<u8> {
    match write_job(alloc, &job_of(rt, alloc, text.as_bytes())) {
        Ok(text) => text,
        Err(_) => panic!(rt; "no memory"),
    }
}

/// Asserts that what is written of a text is what is wanted.
fn hold_bytes(rt: &impl Abort, written: &[u8], wanted: &[u8], text: &str) {
    assert!(rt; written == wanted, "{written:?} is written of {text}");
}

/// Asserts what is written of a text.
pub fn hold_written(rt: &impl Abort, alloc: Global, text: &str, wanted: &str) {
    let written = rewritten(rt, alloc, text);
    hold_bytes(rt, written.as_slice(), wanted.as_bytes(), text);
}

/// Asserts what is refused of a text, if anything.
pub fn hold_refused(
    rt: &impl Abort,
    alloc: Global,
    text: &str,
    expected: Option<(u64, JobKind)>,
    row: &str,
) {
    let found = refusal(rt, alloc, text.as_bytes());
    assert_eq!(rt; found, expected, "{row}");
}

#[test]
fn example_jobs_are_written_back(rt: HostRuntime) {
    for text in JOBS.as_slice() {
        hold_written(&rt, rt.alloc(), text, text);
    }
}

/// Whether a line is there, and is the header of a job of the first edition.
fn is_header(line: Option<&Line>) -> bool {
    matches!(line, Some(Line::Header(Edition::One)))
}

/// Whether a line is there, and is the header of a job of the second edition.
pub fn is_second_header(line: Option<&Line>) -> bool {
    matches!(line, Some(Line::Header(Edition::Two)))
}

/// Whether a line is there, and is an end.
fn is_end(line: Option<&Line>) -> bool {
    matches!(line, Some(Line::End))
}

/// Asserts how many lines the first job has, and which are its first and its last.
fn hold_first_job(rt: &impl Abort, job: &Job) {
    assert!(rt; job.len() == 6);
    assert!(rt; job.as_slice().len() == 6);
    assert!(rt; is_header(job.line(0)));
    assert!(rt; is_end(job.line(5)));
    assert!(rt; job.line(6).is_none());
}

#[test]
fn a_job_has_its_first_line_at_0_and_none_past_its_last(rt: HostRuntime) {
    let job = job_of(&rt, rt.alloc(), FIRST_JOB.as_bytes());
    hold_first_job(&rt, &job);
}

#[test]
fn a_job_with_every_kind_of_line_is_written_back(rt: HostRuntime) {
    hold_written(&rt, rt.alloc(), EVERY_LINE, EVERY_LINE);
}

/// The laws are calls that do nothing.
#[test]
fn each_law_of_the_reader_can_be_called(_rt: HostRuntime) {
    limits_of_jobs();
    lines_are_pieces();
    tokens_are_pieces();
    literals_are_pieces();
    text_reads_back();
}

/// Whole texts: the line that is refused, the kind, and the text with / in the place of line feeds.
const TEXTS: &str = r#"1 BadHeader 
1 BadHeader /
1 BadHeader # swan 1/
1 BadHeader swan "1/
1 BadHeader swan 1 "/
0 Ok   swan   1  
4 Unbalanced swan 1/task main/  do/  push out "hi"/
2 BadLine swan 1/frob/output out bytes/
4 BadNumber swan 1/task main/ do/ push out 9223372036854775808/end
2 Unbalanced swan 1/task t/
5 BadLine swan 1/task t/do/end/end/
5 BadLine swan 1/task t/do/end/else/
5 BadLine swan 1/task t/do/end/input a/
5 BadLine swan 1/task t/do/end/output a int/
5 BadLine swan 1/task t/do/end/object a int/
5 BadLine swan 1/task t/do/end/do/
0 Ok swan 1/task t/do/end/# a note//task t/do/end
7 Unbalanced swan 1/task t/do/end/task t/do/# a note
0 Ok swan 1/task t/do/if 1/else/end/end/
6 Unbalanced swan 1/task t/do/if 1/else/else/end/end/
5 Unbalanced swan 1/task t/do/while 1/else/end/end/
0 Ok swan 1/task t/do/if 1/while 1/end/else/end/end/
5 Unbalanced swan 1/task t/do/if 1/end/
4 Unbalanced swan 1/task t/do/else
4 BadLine swan 1/task t/do/else 1/frob/"#;

/// Every prefix of the first example job.
const PREFIXES: &str = r#"1 BadHeader 
1 BadHeader s
1 BadHeader sw
1 BadHeader swa
1 BadHeader swan
1 BadHeader swan 
0 Ok swan 1
0 Ok swan 1/
2 BadLine swan 1/o
2 BadLine swan 1/ou
2 BadLine swan 1/out
2 BadLine swan 1/outp
2 BadLine swan 1/outpu
2 BadLine swan 1/output
2 BadLine swan 1/output 
2 BadLine swan 1/output o
2 BadLine swan 1/output ou
2 BadLine swan 1/output out
2 BadLine swan 1/output out 
2 BadLine swan 1/output out b
2 BadLine swan 1/output out by
2 BadLine swan 1/output out byt
2 BadLine swan 1/output out byte
0 Ok swan 1/output out bytes
0 Ok swan 1/output out bytes/
3 BadLine swan 1/output out bytes/t
3 BadLine swan 1/output out bytes/ta
3 BadLine swan 1/output out bytes/tas
3 BadLine swan 1/output out bytes/task
3 BadLine swan 1/output out bytes/task 
3 Unbalanced swan 1/output out bytes/task m
3 Unbalanced swan 1/output out bytes/task ma
3 Unbalanced swan 1/output out bytes/task mai
3 Unbalanced swan 1/output out bytes/task main
3 Unbalanced swan 1/output out bytes/task main/
4 Unbalanced swan 1/output out bytes/task main/ 
4 Unbalanced swan 1/output out bytes/task main/  
4 BadLine swan 1/output out bytes/task main/  d
4 Unbalanced swan 1/output out bytes/task main/  do
4 Unbalanced swan 1/output out bytes/task main/  do/
5 Unbalanced swan 1/output out bytes/task main/  do/ 
5 Unbalanced swan 1/output out bytes/task main/  do/  
5 BadLine swan 1/output out bytes/task main/  do/  p
5 BadLine swan 1/output out bytes/task main/  do/  pu
5 BadLine swan 1/output out bytes/task main/  do/  pus
5 BadLine swan 1/output out bytes/task main/  do/  push
5 BadLine swan 1/output out bytes/task main/  do/  push 
5 BadLine swan 1/output out bytes/task main/  do/  push o
5 BadLine swan 1/output out bytes/task main/  do/  push ou
5 BadLine swan 1/output out bytes/task main/  do/  push out
5 BadLine swan 1/output out bytes/task main/  do/  push out 
5 BadLine swan 1/output out bytes/task main/  do/  push out "
5 BadLine swan 1/output out bytes/task main/  do/  push out "h
5 BadLine swan 1/output out bytes/task main/  do/  push out "hi
5 Unbalanced swan 1/output out bytes/task main/  do/  push out "hi"
5 Unbalanced swan 1/output out bytes/task main/  do/  push out "hi"/
6 BadLine swan 1/output out bytes/task main/  do/  push out "hi"/e
6 BadLine swan 1/output out bytes/task main/  do/  push out "hi"/en
0 Ok swan 1/output out bytes/task main/  do/  push out "hi"/end
0 Ok swan 1/output out bytes/task main/  do/  push out "hi"/end/"#;

/// Asserts a row of a table of texts.
fn hold_row(rt: &impl Abort, alloc: Global, row: &str) {
    let (line, kind, text) = three_parts_of(rt, row);
    let expected = refused_at(number_of_word(rt, line), kind);
    let text = with_line_feeds(rt, alloc, text);
    hold_refused(rt, alloc, text.as_str(), expected, row);
}

/// Checks each row of a table of texts.
pub fn check_texts(rt: &impl Abort, alloc: Global, table: &str) {
    for row in table.lines() {
        hold_row(rt, alloc, row);
    }
}

#[test]
fn whole_texts_are_read_or_refused_at_their_lines(rt: HostRuntime) {
    check_texts(&rt, rt.alloc(), TEXTS);
    check_texts(&rt, rt.alloc(), PREFIXES);
}

#[test]
fn bytes_that_may_not_stand_in_a_line_are_refused(rt: HostRuntime) {
    for text in [
        "swan 1\n\t#\n",
        "swan 1\ninput\ta\n",
        "swan 1\ninput a\r\n",
        "swan 1\n\r\n\t",
        "swan 1\n# caf\u{e9}",
        "swan 1\n\u{7f}\u{0}",
    ] {
        let expected = Some((2, JobKind::BadByte));
        hold_refused(&rt, rt.alloc(), text, expected, text);
    }
}

/// This many copies of a line.
fn copies(alloc: Global, line: &str, count: usize) -> Result<String, AllocError> {
    let lines = vec![in alloc; line; count]?;
    lines.as_slice().concat(alloc)
}

/// A text with this many copies of a line after its first lines, and then its last lines.
fn repeated(
    rt: &impl Abort,
    alloc: Global,
    first: &str,
    line: &str,
    count: usize,
    last: &str,
) -> String {
    let lines = made(rt, copies(alloc, line, count));
    joined(rt, alloc, &[first, lines.as_str(), last])
}

/// Asserts what is refused of such a text, if anything.
fn hold_repeated(
    rt: &impl Abort,
    alloc: Global,
    first: &str,
    line: &str,
    count: usize,
    last: &str,
    expected: Option<(u64, JobKind)>,
) {
    let text = repeated(rt, alloc, first, line, count, last);
    hold_refused(rt, alloc, text.as_str(), expected, last);
}

/// A limit that is met at a line.
fn limit(line: u64) -> Option<(u64, JobKind)> {
    Some((line, JobKind::Limit))
}

/// Asserts what is refused of the first job with this many empty lines after it, and then its last line.
fn hold_empty(
    rt: &impl Abort,
    alloc: Global,
    count: usize,
    last: &str,
    expected: Option<(u64, JobKind)>,
) {
    hold_repeated(rt, alloc, FIRST_JOB, "\n", count, last, expected);
}

#[test]
fn a_job_has_at_most_20000_lines(rt: HostRuntime) {
    hold_empty(&rt, rt.alloc(), 19_994, "", None);
    hold_empty(&rt, rt.alloc(), 19_995, "", limit(20_001));
    hold_empty(
        &rt,
        rt.alloc(),
        19_994,
        "\t",
        Some((20_001, JobKind::BadByte)),
    );
}

#[test]
fn a_line_has_at_most_4096_bytes(rt: HostRuntime) {
    hold_repeated(&rt, rt.alloc(), "swan 1\n#", "x", 4_095, "   \n", None);
    hold_repeated(&rt, rt.alloc(), "swan 1\n  #", "x", 4_096, "\n", limit(2));
    hold_repeated(&rt, rt.alloc(), "swan 1", " ", 5_000, "\n", None);
    hold_repeated(&rt, rt.alloc(), "swan 1 ", "x", 4_096, "\n", limit(1));
}

/// Asserts what is refused of this many inputs, and of what stands after them.
fn hold_inputs(
    rt: &impl Abort,
    alloc: Global,
    count: usize,
    last: &str,
    expected: Option<(u64, JobKind)>,
) {
    hold_repeated(rt, alloc, "swan 1\n", "input a\n", count, last, expected);
}

#[test]
fn a_job_has_at_most_16_inputs(rt: HostRuntime) {
    let main = "task main\ndo\nend\n";
    let byte = Some((18, JobKind::BadByte));
    hold_inputs(&rt, rt.alloc(), 16, main, None);
    hold_inputs(&rt, rt.alloc(), 17, main, limit(18));
    hold_inputs(&rt, rt.alloc(), 16, "input 1 2 \"\n", limit(18));
    hold_inputs(&rt, rt.alloc(), 16, "object a int\n#input", None);
    hold_inputs(&rt, rt.alloc(), 16, "input \t\n", byte);
}

/// Asserts what is refused of this many blocks in a task, and of what stands in the innermost.
fn hold_blocks(
    rt: &impl Abort,
    alloc: Global,
    line: &str,
    count: usize,
    last: &str,
    expected: Option<(u64, JobKind)>,
) {
    let first = "swan 1\ntask t\ndo\n";
    hold_repeated(rt, alloc, first, line, count, last, expected);
}

/// Asserts that 32 blocks are accepted with their ends and the end of the task.
fn hold_closed(rt: &impl Abort, alloc: Global) {
    let closed = made(rt, copies(alloc, "end\n", 33));
    hold_blocks(rt, alloc, "if 1\n", 32, closed.as_str(), None);
}

#[test]
fn blocks_stand_at_most_32_deep(rt: HostRuntime) {
    let unbalanced = Some((36, JobKind::Unbalanced));
    hold_closed(&rt, rt.alloc());
    hold_blocks(&rt, rt.alloc(), "if 1\n", 33, "", limit(36));
    hold_blocks(&rt, rt.alloc(), "while 1\n", 32, "if\n", limit(36));
    hold_blocks(&rt, rt.alloc(), "if 1\nelse\n", 32, "while \"\n", limit(68));
    hold_blocks(&rt, rt.alloc(), "while 1\n", 32, "if = set 1\n", unbalanced);
}

/// Past a limit only what would be one more is Limit: an input after a task stands where none may, and an
/// `if` whose second token is a literal is no assignment.
#[test]
fn limits_go_by_what_would_be_one_more(rt: HostRuntime) {
    let inputs = "task main\ndo\nend\ninput x\n";
    let line = Some((21, JobKind::BadLine));
    hold_inputs(&rt, rt.alloc(), 16, inputs, line);
    let condition = "if \"=\" 1\n";
    hold_blocks(&rt, rt.alloc(), "while 1\n", 32, condition, limit(36));
}

/// Notes, indentation and spaces, with a mistake or without one where @ stands.
const SPACED: &str =
    "  swan   1 \n   # top  \n\n object   x   int\n#\ntask t\n# in\n   \nvar v int\n\
    #before do\ndo\n# in do\nif   v\n# in if\nwhile -1\n# in while\nend\n#else next\nelse\n\n\
    # after else\nend\nspawn  1   t   \"  \"  -@\n#last\nend\n#between\ntask u\ndo\nend\n  #end";

/// What is written of it.
const CANONICAL: &str =
    "swan 1\n# top\n\nobject x int\n#\ntask t\n  # in\n\n  var v int\n  #before do\n\
    \x20 do\n  # in do\n  if v\n    # in if\n    while -1\n      # in while\n    end\n    \
    #else next\n  else\n\n    # after else\n  end\n  spawn 1 t \"  \" -10\n  #last\nend\n\
    #between\ntask u\n  do\nend\n#end\n";

/// Those with this at the end of a number.
fn spaced(rt: &impl Abort, alloc: Global, end: &str) -> String {
    made(rt, SPACED.replace(alloc, "@", end))
}

#[test]
fn what_is_refused_of_a_spaced_text_names_its_line(rt: HostRuntime) {
    let text = spaced(&rt, rt.alloc(), "0x");
    let expected = Some((23, JobKind::BadNumber));
    hold_refused(&rt, rt.alloc(), text.as_str(), expected, "0x");
}

#[test]
fn a_spaced_text_is_written_in_the_canonical_way(rt: HostRuntime) {
    let text = spaced(&rt, rt.alloc(), "10");
    hold_written(&rt, rt.alloc(), text.as_str(), CANONICAL);
}
