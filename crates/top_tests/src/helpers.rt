// What the tests share: calls of `swan` over files and sinks in memory, and rows that say how they end.
use std::alloc::{AllocError, Global};
use std::marker::Sync;
use std::process::Abort;
use std::sync::Wait;
use std::test::Fail;
use std::thread::Threads;
use std::time::Clock;
use swan_model::{Blob, NoMemory, Word, Words};
use swan_outside::{FileBlob, Gate, MemoryFiles, MemorySink, OpenGate};
use swan_top::{Status, swan};

/// What a call of a test is made with.
pub trait Machine: Abort + Threads + Wait + Clock + Sync {}

impl<T: Abort + Threads + Wait + Clock + Sync> Machine for T {}

/// How a call ended, and what it wrote.
#[derive(Drop)]
pub struct Ended {
    /// The output.
    pub out: String,
    /// The report.
    pub report: String,
    /// How it ended.
    pub status: Status,
}

/// What a call is made over. Reads and puts count from 1, so none has the number 0.
#[derive(Drop)]
pub struct Over {
    /// Its files.
    pub files: Vec<FileBlob>,
    /// The number of the read that fails.
    pub read_fails: u64,
    /// How many bytes a put takes at most.
    pub put_most: usize,
    /// The number of the put to the output that fails.
    pub out_fails: u64,
    /// The number of the put to the report that fails.
    pub report_fails: u64,
}

impl Over {
    /// These files, where nothing fails.
    pub fn files(files: Vec<FileBlob>) -> Over {
        Over {
            files,
            read_fails: 0,
            put_most: 4_096,
            out_fails: 0,
            report_fails: 0,
        }
    }
}

/// Adds a word. `-` stands for the empty one.
fn add_word(alloc: Global, words: &mut Words, part: &str) -> Result<(), NoMemory> {
    let word = Word::of(alloc, if part == "-" { "" } else { part })?;
    match words.push(word) {
        Ok(()) => Ok(()),
        Err(back) => {
            drop(back);
            Err(NoMemory)
        }
    }
}

/// Adds the words between the spaces of a text.
fn add_words(alloc: Global, words: &mut Words, text: &str) -> Result<(), NoMemory> {
    for part in text.split_whitespace() {
        add_word(alloc, words, part)?;
    }
    Ok(())
}

/// The words between the spaces of a text. A word `-` stands for the empty one.
pub fn words_of(alloc: Global, text: &str) -> Result<Words, NoMemory> {
    let mut words = Words::new(alloc);
    match add_words(alloc, &mut words, text) {
        Ok(()) => Ok(words),
        Err(none) => {
            drop(words);
            Err(none)
        }
    }
}

/// A file of this name, with this content.
pub fn file_of(alloc: Global, name: &str, content: Vec<u8>) -> Result<FileBlob, NoMemory> {
    Ok(FileBlob {
        name: Word::of(alloc, name)?,
        content: Blob::new(content),
    })
}

/// Adds a file of this name, with this content.
fn add_file(
    alloc: Global,
    files: &mut Vec<FileBlob>,
    name: &str,
    text: &str,
) -> Result<(), NoMemory> {
    let content = text.as_bytes().to_vec(alloc)?;
    files.push(file_of(alloc, name, content)?)?;
    Ok(())
}

/// Files of these names, which stand between spaces, with these contents.
pub fn files_of(alloc: Global, names: &str, texts: &[&str]) -> Result<Vec<FileBlob>, NoMemory> {
    let mut files = Vec::new(alloc);
    for (name, text) in names.split_whitespace().zip(texts) {
        if let Err(none) = add_file(alloc, &mut files, name, *text) {
            drop(files);
            return Err(none);
        }
    }
    Ok(files)
}

/// A sink of which a put takes so many bytes at most, and the put of this number fails.
fn sink(alloc: Global, most: usize, failing: u64) -> Result<MemorySink, NoMemory> {
    let fail = vec![in alloc; failing]?;
    MemorySink::new(alloc, most.max(1), 131_072, fail)
}

/// How a call ended, which has written this output.
fn end_with(
    out: String,
    report: Result<String, AllocError>,
    status: Status,
) -> Result<Ended, NoMemory> {
    match report {
        Ok(report) => Ok(Ended {
            out,
            report,
            status,
        }),
        Err(error) => {
            drop(out);
            drop(status);
            Err(error.into())
        }
    }
}

/// How a call ended, by its status and what its sinks have.
pub fn end_of(
    out: Result<String, AllocError>,
    report: Result<String, AllocError>,
    status: Status,
) -> Result<Ended, NoMemory> {
    match out {
        Ok(out) => end_with(out, report, status),
        Err(error) => {
            drop(report);
            drop(status);
            Err(error.into())
        }
    }
}

/// What a sink has taken.
fn written(alloc: Global, sink: &MemorySink) -> Result<String, AllocError> {
    String::from_utf8_lossy(alloc, sink.written())
}

/// The numbers of a call: how many bytes a put takes at most, and which puts fail.
#[derive(Clone, Copy)]
struct Puts {
    /// How many bytes a put takes at most.
    most: usize,
    /// The number of the put to the output that fails.
    out_fails: u64,
    /// The number of the put to the report that fails.
    report_fails: u64,
}

/// A call with these words over these files, whose output goes to this sink.
fn called_into<G: Gate>(
    rt: &impl Machine,
    alloc: Global,
    words: &[Word],
    files: &mut MemoryFiles,
    out: &mut MemorySink,
    puts: Puts,
    gate: &G,
) -> Result<Ended, NoMemory> {
    let mut report = sink(alloc, puts.most, puts.report_fails)?;
    let status = swan(rt, alloc, words, files, out, &mut report, gate);
    end_of(written(alloc, out), written(alloc, &report), status)
}

/// A call with these words over these files, whose sinks take and fail so.
fn called_of_words<G: Gate>(
    rt: &impl Machine,
    alloc: Global,
    words: &[Word],
    files: &mut MemoryFiles,
    puts: Puts,
    gate: &G,
) -> Result<Ended, NoMemory> {
    let mut out = sink(alloc, puts.most, puts.out_fails)?;
    called_into(rt, alloc, words, files, &mut out, puts, gate)
}

/// A call with the words of a text over these files, whose sinks take and fail so.
fn called_of_text<G: Gate>(
    rt: &impl Machine,
    alloc: Global,
    words: &str,
    files: &mut MemoryFiles,
    puts: Puts,
    gate: &G,
) -> Result<Ended, NoMemory> {
    let words = words_of(alloc, words)?;
    called_of_words(rt, alloc, words.as_slice(), files, puts, gate)
}

/// These files, of which the read of this number fails.
fn files_with(
    alloc: Global,
    files: Vec<FileBlob>,
    read_fails: u64,
) -> Result<MemoryFiles, NoMemory> {
    match vec![in alloc; read_fails] {
        Ok(fails) => Ok(MemoryFiles::new(files, fails)),
        Err(error) => {
            drop(files);
            Err(error.into())
        }
    }
}

/// A call with these words over all this, whose workers ask this gate.
pub fn called_at<G: Gate>(
    rt: &impl Machine,
    alloc: Global,
    words: &str,
    over: Over,
    gate: &G,
) -> Result<Ended, NoMemory> {
    let puts = Puts {
        most: over.put_most,
        out_fails: over.out_fails,
        report_fails: over.report_fails,
    };
    let mut files = files_with(alloc, over.files, over.read_fails)?;
    called_of_text(rt, alloc, words, &mut files, puts, gate)
}

/// A call with these words over all this.
pub fn called(
    rt: &impl Machine,
    alloc: Global,
    words: &str,
    over: Over,
) -> Result<Ended, NoMemory> {
    called_at(rt, alloc, words, over, &OpenGate)
}

/// A number of a row.
pub fn number_of(text: Option<&str>) -> Result<u32, Fail> {
    let number = text.ok_or("no number")?.parse::<u32>();
    Ok(number.ok().ok_or("no number")?)
}

/// The number before the first space of a text, and what stands behind that.
pub fn number_before(text: &str) -> Result<(u32, &str), Fail> {
    let (number, others) = cut_at_space(text)?;
    Ok((number_of(Some(number))?, others))
}

/// A text with line feeds in the place of each ~.
pub fn with_line_feeds(alloc: Global, text: &str) -> Result<String, AllocError> {
    text.chars()
        .map(|c| if c == '~' { '\n' } else { c })
        .collect(alloc)
}

/// Asserts that a text is this one.
pub fn assert_text(rt: &impl Abort, got: &str, wanted: &str, of: &str, row: &str) {
    assert_eq!(rt; got, wanted, "{of} of {row}");
}

/// Asserts that a code is this one.
pub fn assert_code(rt: &impl Abort, got: u8, wanted: &str, row: &str) {
    match wanted.parse::<u8>() {
        Ok(code) => assert!(rt; got == code, "the code of {row}: {got}"),
        Err(_) => panic!(rt; "no code in {row}"),
    }
}

/// Asserts that a call ended so.
pub fn assert_ended(rt: &impl Abort, got: &Ended, row: &str, out: &str, report: &str, code: &str) {
    assert_text(rt, got.out.as_str(), out, "the output", row);
    assert_text(rt, got.report.as_str(), report, "the report", row);
    assert_code(rt, got.status.code(), code, row);
}

/// The two parts of a text before and after its first |.
pub fn cut(text: &str) -> Result<(&str, &str), Fail> {
    Ok(text.split_once('|').ok_or("no |")?)
}

/// The two parts of a text before and after its first space.
pub fn cut_at_space(text: &str) -> Result<(&str, &str), Fail> {
    Ok(text.split_once(' ').ok_or("no space")?)
}

/// The words of a row behind its command, and what stands after them.
fn row_words<'a>(alloc: Global, command: &str, row: &'a str) -> Result<(String, &'a str), Fail> {
    let (words, wanted) = cut(row)?;
    let words = format!(in alloc; "{command} {words}")?;
    Ok((words, wanted))
}

/// Asserts that a text is this one, which has ~ for each line feed.
pub fn assert_lines(
    rt: &impl Abort,
    alloc: Global,
    got: &str,
    wanted: &str,
    of: &str,
    row: &str,
) -> Result<(), AllocError> {
    let wanted = with_line_feeds(alloc, wanted)?;
    assert_text(rt, got, wanted.as_str(), of, row);
    Ok(())
}

/// Asserts the report and the code of a call, which have | between them and ~ for each line feed.
pub fn assert_report(
    rt: &impl Abort,
    alloc: Global,
    got: &Ended,
    row: &str,
    wanted: &str,
) -> Result<(), Fail> {
    let (report, code) = cut(wanted)?;
    assert_lines(rt, alloc, got.report.as_str(), report, "the report", row)?;
    assert_code(rt, got.status.code(), code, row);
    Ok(())
}

/// Asserts the output, the report and the code of a call, which have | between them and ~ for each line feed.
pub fn assert_row(
    rt: &impl Abort,
    alloc: Global,
    got: &Ended,
    row: &str,
    wanted: &str,
) -> Result<(), Fail> {
    let (out, wanted) = cut(wanted)?;
    assert_lines(rt, alloc, got.out.as_str(), out, "the output", row)?;
    assert_report(rt, alloc, got, row, wanted)
}

/// Asserts a row over all this: the words, the output, the report and the code, with | between them and ~ for each line
/// feed. The command stands before the words.
pub fn hold_row(
    rt: &impl Machine,
    alloc: Global,
    over: Over,
    command: &str,
    row: &str,
) -> Result<(), Fail> {
    match row_words(alloc, command, row) {
        Ok((words, wanted)) => hold_words(rt, alloc, over, words.as_str(), row, wanted),
        Err(fail) => {
            drop(over);
            Err(fail)
        }
    }
}

/// Asserts how a call with these words over all this ends: the output, the report and the code, with | between them and ~ for each line feed.
pub fn hold_words(
    rt: &impl Machine,
    alloc: Global,
    over: Over,
    words: &str,
    row: &str,
    wanted: &str,
) -> Result<(), Fail> {
    let got = called(rt, alloc, words, over)?;
    assert_row(rt, alloc, &got, row, wanted)
}

/// Asserts a row over these files.
pub fn hold_over_files(
    rt: &impl Machine,
    alloc: Global,
    names: &str,
    texts: &[&str],
    command: &str,
    row: &str,
) -> Result<(), Fail> {
    let files = files_of(alloc, names, texts)?;
    hold_row(rt, alloc, Over::files(files), command, row)
}

/// Asserts each row of a table over these files.
pub fn hold(
    rt: &impl Machine,
    alloc: Global,
    names: &str,
    texts: &[&str],
    command: &str,
    table: &str,
) -> Result<(), Fail> {
    for row in table.lines() {
        hold_over_files(rt, alloc, names, texts, command, row)?;
    }
    Ok(())
}
