// Failing reads and writes, cut jobs, and limits.
use crate::helpers::{
    Ended, Machine, Over, assert_ended, assert_report, assert_text, called, cut, file_of, files_of,
    hold, hold_row, hold_words, number_before, number_of, with_line_feeds,
};
use crate::jobs::LEAVES;
use job_tests::{FIRST_JOB, REFUSED_FRONTS};
use std::alloc::{AllocError, Global};
use std::test::Fail;
use swan_model::NoMemory;

/// The number of the read that fails; then the words, the output, the report and the code. Reads count from 1,
/// so the rows show too that no read is made twice, and none that isn't needed.
const FAILING_READS: &str = "\
1 run 1 5 b x y||read failed b~|4
2 run 1 5 b x y||read failed x~|4
3 run 1 5 b x y||read failed y~|4
4 run 1 5 b x y||inputs 1 2~|7
1 run 1 5 b x||read failed b~|4
2 run 1 5 b x||read failed x~|4
3 run 1 5 b x||left text 1~faults 0~|0
1 elide 5 b x y||read failed b~|4
2 elide 5 b x y||read failed x~|4
3 elide 5 b x y||read failed y~|4
4 elide 5 b x y||inputs 1 2~|7
3 elide 5 b x||left text 1~faults 0~|0
1 check b||read failed b~|4
2 check b|swan 1~input text~task main~  do~end~|checked~|0
1 index 1 x||read failed x~|4
2 index 1 x|1 1~|left input 0~faults 0~|0
1 convert 1 y||read failed y~|4
2 convert 1 y|1:2,~|left input 0~faults 0~|0
1 bulk 7 1 1|7~1~|object total int 7~object count int 1~left lines 0~faults 0~|0
1 --version|swan 0.1.0~||0
1 frob||usage~|2";

// A job and two inputs, where the read of this number fails.
fn over_files(alloc: Global, read_fails: u32) -> Result<Over, NoMemory> {
    let mut over = Over::files(files_of(alloc, "b x y", &[LEAVES, "1", "2"])?);
    over.read_fails = u64::from(read_fails);
    Ok(over)
}

// Asserts a row of the failing reads.
fn hold_failing_read(rt: &impl Machine, alloc: Global, row: &str) -> Result<(), Fail> {
    let (read_fails, row) = number_before(row)?;
    let over = over_files(alloc, read_fails)?;
    hold_row(rt, alloc, over, "", row)
}

#[test]
fn a_failing_read_is_named_and_none_is_made_again(rt: HostRuntime) -> Result<(), Fail> {
    for row in FAILING_READS.lines() {
        hold_failing_read(&rt, rt.alloc(), row)?;
    }
    Ok(())
}

/// The numbers of the puts to the output and to the report that fail; then the words, the output, the report and the code. Puts also
/// count from 1, so the rows show that no put is made again after it failed, and none that isn't needed.
const FAILING_WRITES: &str = "\
1 0 run 1 100 a|||5
2 0 run 1 100 a|hi||5
0 1 run 1 100 a|hi~||5
0 2 run 1 100 a|hi~|fa|5
3 6 run 1 100 a|hi~|faults 0~|0
2 0 elide 100 a|hi||5
2 0 index 1 a|1 ||5
0 1 convert 1 a|6:swan 1,~16:output out bytes,~9:task main,~4:  do,~15:  push out \"hi\",~3:end,~||5
2 0 bulk 7 3 1|40||5
0 1 bulk 7 3 1|402~3~||5
0 1 |||5
0 3 ||usag|5
1 4 ||usage~|2
0 1 check x|||5
1 8 check x||read failed x~|4
6 1 --version|swan 0.1.0||5
7 1 --version|swan 0.1.0~||0";

// The first job, where each put to either sink takes 2 bytes, and the puts of these numbers fail.
fn over_sinks(alloc: Global, out_fails: u32, report_fails: u32) -> Result<Over, NoMemory> {
    Ok(Over {
        files: files_of(alloc, "a", &[FIRST_JOB])?,
        read_fails: 0,
        put_most: 2,
        out_fails: u64::from(out_fails),
        report_fails: u64::from(report_fails),
    })
}

// Asserts a row of the failing writes.
fn hold_failing_write(rt: &impl Machine, alloc: Global, row: &str) -> Result<(), Fail> {
    let (out_fails, others) = number_before(row)?;
    let (report_fails, row) = number_before(others)?;
    let over = over_sinks(alloc, out_fails, report_fails)?;
    hold_row(rt, alloc, over, "", row)
}

#[test]
fn a_failing_write_leaves_a_front(rt: HostRuntime) -> Result<(), Fail> {
    for row in FAILING_WRITES.lines() {
        hold_failing_write(&rt, rt.alloc(), row)?;
    }
    Ok(())
}

// How a check of a job ended.
fn checked(rt: &impl Machine, alloc: Global, job: &str) -> Result<Ended, NoMemory> {
    let files = files_of(alloc, "a", &[job])?;
    called(rt, alloc, "check a", Over::files(files))
}

// Asserts what a check of a job says.
fn hold_check(
    rt: &impl Machine,
    alloc: Global,
    job: &str,
    out: &str,
    report: &str,
    code: &str,
) -> Result<(), Fail> {
    let got = checked(rt, alloc, job)?;
    assert_ended(rt, &got, job, out, report, code);
    Ok(())
}

// Asserts that a check refuses each front of the first job of these lengths by this report.
fn hold_fronts(
    rt: &impl Machine,
    alloc: Global,
    from: u32,
    to: u32,
    report: &str,
) -> Result<(), Fail> {
    for len in from..=to {
        hold_check(rt, alloc, front_of(len)?, "", report, "3")?;
    }
    Ok(())
}

// The front of the first job of this length.
fn front_of(len: u32) -> Result<&'static str, Fail> {
    Ok(FIRST_JOB.get(..len as usize).ok_or("too long")?)
}

// Asserts a row of the fronts.
fn hold_front(rt: &impl Machine, alloc: Global, row: &str) -> Result<(), Fail> {
    let (from, others) = number_before(row)?;
    let (to, refusal) = number_before(others)?;
    let report = format!(in alloc; "refused {refusal}\n")?;
    hold_fronts(rt, alloc, from, to, report.as_str())
}

#[test]
fn a_whole_job_is_printed_with_and_without_its_last_line_feed(rt: HostRuntime) -> Result<(), Fail> {
    for len in [58, 59] {
        hold_check(&rt, rt.alloc(), front_of(len)?, FIRST_JOB, "checked\n", "0")?;
    }
    Ok(())
}

#[test]
fn each_front_of_a_job_is_refused_at_its_line(rt: HostRuntime) -> Result<(), Fail> {
    for row in REFUSED_FRONTS.lines() {
        hold_front(&rt, rt.alloc(), row)?;
    }
    Ok(())
}

/// An input as its first bytes, then so many copies of some, and its last bytes; then the report and
/// the code, with ~ for each line feed.
const INPUTS: &str = "\
|x|1048576|~|left text 1~faults 0~|0
|x|1048577|~|long line 1 1~|7
a~|x|1048577|~b|long line 1 2~|7
|~|1000000||left text 1000000~faults 0~|0
|~|1000000|~|too many lines 1~|7";

// So many copies of a text between two others, with a line feed in the place of each ~.
fn between(
    alloc: Global,
    first: &str,
    part: &str,
    times: u32,
    last: &str,
) -> Result<String, AllocError> {
    let copies = part.repeat(alloc, times as usize)?;
    let text = format!(in alloc; "{first}{copies}{last}")?;
    with_line_feeds(alloc, text.as_str())
}

// The input of a row, by its first four parts.
fn input_of(
    alloc: Global,
    first: &str,
    part: &str,
    times: &str,
    last: &str,
) -> Result<String, Fail> {
    let times = number_of(Some(times))?;
    Ok(between(alloc, first, part, times, last)?)
}

// A call with these words over this input.
fn with_input(
    rt: &impl Machine,
    alloc: Global,
    words: &str,
    text: String,
) -> Result<Ended, NoMemory> {
    let mut files = files_of(alloc, "b", &[LEAVES])?;
    files.push(file_of(alloc, "x", text.into_bytes())?)?;
    called(rt, alloc, words, Over::files(files))
}

// Asserts a row of the inputs, of which the first two parts are these and the others are one text.
fn hold_copies(
    rt: &impl Machine,
    alloc: Global,
    words: &str,
    first: &str,
    part: &str,
    others: &str,
) -> Result<(), Fail> {
    let (times, ending) = cut(others)?;
    let (last, wanted) = cut(ending)?;
    let text = input_of(alloc, first, part, times, last)?;
    hold_report(rt, alloc, words, text, others, wanted)
}

// Asserts that a call with this input writes nothing, and what its report and code are.
fn hold_report(
    rt: &impl Machine,
    alloc: Global,
    words: &str,
    text: String,
    row: &str,
    wanted: &str,
) -> Result<(), Fail> {
    let got = with_input(rt, alloc, words, text)?;
    assert_text(rt, got.out.as_str(), "", "the output", row);
    assert_report(rt, alloc, &got, row, wanted)
}

// Asserts a row of the inputs.
fn hold_input(rt: &impl Machine, alloc: Global, words: &str, row: &str) -> Result<(), Fail> {
    let (first, others) = cut(row)?;
    let (part, others) = cut(others)?;
    hold_copies(rt, alloc, words, first, part, others)
}

// Asserts each row of a table of inputs.
pub fn hold_inputs(rt: &impl Machine, alloc: Global, words: &str, table: &str) -> Result<(), Fail> {
    for row in table.lines() {
        hold_input(rt, alloc, words, row)?;
    }
    Ok(())
}

/// As many lines as a full file has, of one byte less than a line may have.
const FULL_LINES: u32 = 64;

// A file as long as one may be, in lines of one byte less than they may have, and these last bytes.
fn full_text(alloc: Global, last: &str) -> Result<String, AllocError> {
    let mut line = "x".repeat(alloc, 1_048_575)?;
    line.push_str("\n")?;
    let mut text = line.repeat(alloc, FULL_LINES as usize)?;
    text.push_str(last)?;
    Ok(text)
}

// Asserts how a call over such a file ends: the output, the report and the code.
fn hold_over_full(
    rt: &impl Machine,
    alloc: Global,
    words: &str,
    last: &str,
    wanted: (&str, &str, &str),
) -> Result<(), Fail> {
    let (out, report, code) = wanted;
    let got = with_input(rt, alloc, words, full_text(alloc, last)?)?;
    assert_ended(rt, &got, words, out, report, code);
    Ok(())
}

// Asserts how a call over a full file ends, and that one byte more is too long.
fn hold_full(
    rt: &impl Machine,
    alloc: Global,
    words: &str,
    out: &str,
    report: &str,
    code: &str,
) -> Result<(), Fail> {
    hold_over_full(rt, alloc, words, "", (out, report, code))?;
    hold_over_full(rt, alloc, words, "x", ("", "too long x\n", "4"))
}

#[test]
fn a_full_input_is_read_and_one_byte_more_is_too_long(rt: HostRuntime) -> Result<(), Fail> {
    for words in ["elide 5 b x", "run 1 5 b x"] {
        let report = "left text 64\nfaults 0\n";
        hold_full(&rt, rt.alloc(), words, "", report, "0")?;
    }
    Ok(())
}

// What the index of a text has of a word on the line after so many.
fn full_pair(alloc: Global, word: &str, number: u32) -> Result<String, AllocError> {
    let line = u64::from(number) + 1;
    format!(in alloc; "{word} {line}\n")
}

// The index of a full text: the first 64 bytes of its one word on each line.
fn full_index(alloc: Global) -> Result<String, AllocError> {
    let word = "x".repeat(alloc, 64)?;
    let mut index = String::new(alloc);
    for number in 0..FULL_LINES {
        index.push_str(full_pair(alloc, word.as_str(), number)?.as_str())?;
    }
    Ok(index)
}

#[test]
fn a_full_text_is_indexed_and_one_byte_more_is_too_long(rt: HostRuntime) -> Result<(), Fail> {
    let index = full_index(rt.alloc())?;
    hold_full(
        &rt,
        rt.alloc(),
        "index 1 x",
        index.as_str(),
        "left input 0\nfaults 0\n",
        "0",
    )
}

// The task that has the line after so many, as the report says it.
fn task_of_line(alloc: Global, number: u32) -> Result<String, AllocError> {
    let block = number / 64;
    let place = number % 64;
    format!(in alloc; "/{block}/{place}")
}

// The fault of the line after so many.
fn full_fault(alloc: Global, number: u32) -> Result<String, AllocError> {
    let task = task_of_line(alloc, number)?;
    let line = u64::from(number) + 1;
    let place = format!(in alloc; "{task} {line}")?;
    format!(in alloc; "fault {place} TooLong\n")
}

// The report of the conversion of a full text: the netstring of each line is too long.
fn full_faults(alloc: Global) -> Result<String, AllocError> {
    let mut report = String::from_str(alloc, "left input 0\nfaults 64\n")?;
    for number in 0..FULL_LINES {
        report.push_str(full_fault(alloc, number)?.as_str())?;
    }
    Ok(report)
}

#[test]
fn a_full_text_is_converted_and_one_byte_more_is_too_long(rt: HostRuntime) -> Result<(), Fail> {
    let report = full_faults(rt.alloc())?;
    hold_full(&rt, rt.alloc(), "convert 1 x", "", report.as_str(), "1")
}

#[test]
fn run_refuses_inputs_past_their_limits(rt: HostRuntime) -> Result<(), Fail> {
    hold_inputs(&rt, rt.alloc(), "run 1 5 b x", INPUTS)
}

#[test]
fn elide_refuses_the_same_inputs(rt: HostRuntime) -> Result<(), Fail> {
    hold_inputs(&rt, rt.alloc(), "elide 5 b x", INPUTS)
}

/// Jobs of 16 and of 17 inputs, and two inputs.
const MANY: [&str; 4] = [
    "swan 1\ninput a\ninput b\ninput c\ninput d\ninput e\ninput f\ninput g\ninput h\ninput i\ninput j\ninput k\ninput l\ninput m\ninput n\ninput o\ninput p\ntask main\n  do\nend\n",
    "swan 1\ninput a\ninput b\ninput c\ninput d\ninput e\ninput f\ninput g\ninput h\ninput i\ninput j\ninput k\ninput l\ninput m\ninput n\ninput o\ninput p\ninput q\ntask main\n  do\nend\n",
    "1\n2\n",
    "3\n",
];

/// Fuel, job and inputs; then the output, the report and the code.
const MANY_RUNS: &str = "\
1 sixteen x x x x x x x x x x x x x x x y||left a 2~left b 2~left c 2~left d 2~left e 2~left f 2~left g 2~left h 2~left i 2~left j 2~left k 2~left l 2~left m 2~left n 2~left o 2~left p 1~faults 0~|0
1 sixteen x x x x x x x x x x x x x x x||inputs 16 15~|7
1 sixteen x x x x x x x x x x x x x x x x y||inputs 16 17~|7
1 seventeen x x x x x x x x x x x x x x x x y||refused 18 Limit~|3";

#[test]
fn a_job_has_sixteen_inputs_at_most(rt: HostRuntime) -> Result<(), Fail> {
    let names = "sixteen seventeen x y";
    hold(&rt, rt.alloc(), names, &MANY, "run 1", MANY_RUNS)?;
    hold(&rt, rt.alloc(), names, &MANY, "elide", MANY_RUNS)
}

/// A job as pieces with ^ between them, of which one may stand for so many copies of what is before its *; then
/// the output, the report and the code.
const JOBS: &str = "\
swan 1~output out bytes~task main~  do~  push out \"hi\"~end~^~*19994|hi~|faults 0~|0
swan 1~output out bytes~task main~  do~  push out \"hi\"~end~^~*19995||refused 20001 Limit~|3
swan 1~#^x*4095^~output out bytes~task main~  do~  push out \"hi\"~end~|hi~|faults 0~|0
swan 1~#^x*4096^~output out bytes~task main~  do~  push out \"hi\"~end~||refused 2 Limit~|3
swan 1~task main~  do~^  if 1~*32^  end~*32^end~||faults 0~|0
swan 1~task main~  do~^  if 1~*33^  end~*33^end~||refused 36 Limit~|3
swan 1~task ^a*32^~  do~end~task main~  do~end~||faults 0~|0
swan 1~task ^a*33^~  do~end~task main~  do~end~||refused 2 BadName~|3";

// So many copies of a text, with a line feed in the place of each ~.
fn copies_of(alloc: Global, part: &str, times: &str) -> Result<String, Fail> {
    let times = number_of(Some(times))? as usize;
    Ok(with_line_feeds(alloc, part)?.repeat(alloc, times)?)
}

// Adds a piece, which has * before the number of its copies.
fn add_piece(alloc: Global, text: &mut String, piece: &str) -> Result<(), Fail> {
    let (part, times) = piece.split_once('*').unwrap_or((piece, "1"));
    text.push_str(copies_of(alloc, part, times)?.as_str())?;
    Ok(())
}

// The text of pieces.
fn text_of(alloc: Global, pieces: &str) -> Result<String, Fail> {
    let mut text = String::new(alloc);
    for piece in pieces.split('^') {
        if let Err(fail) = add_piece(alloc, &mut text, piece) {
            drop(text);
            return Err(fail);
        }
    }
    Ok(text)
}

// The job of these pieces.
fn over_job(alloc: Global, pieces: &str) -> Result<Over, Fail> {
    let text = text_of(alloc, pieces)?;
    Ok(Over::files(files_of(alloc, "j", &[text.as_str()])?))
}

// Asserts a row of the jobs.
fn hold_job(rt: &impl Machine, alloc: Global, row: &str) -> Result<(), Fail> {
    let (pieces, wanted) = cut(row)?;
    hold_words(
        rt,
        alloc,
        over_job(alloc, pieces)?,
        "run 1 100 j",
        row,
        wanted,
    )
}

#[test]
fn jobs_are_read_up_to_their_limits(rt: HostRuntime) -> Result<(), Fail> {
    for row in JOBS.lines() {
        hold_job(&rt, rt.alloc(), row)?;
    }
    Ok(())
}
