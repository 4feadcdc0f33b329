// Calls over files and sinks that never fail.
use crate::helpers::{
    Ended, Machine, assert_ended, assert_row, cut, end_of, file_of, files_of, words_of,
};
use crate::jobs::{NAMES, TEXTS};
use std::alloc::{AllocError, Global};
use std::test::Fail;
use swan_model::{NoMemory, Word};
use swan_outside::{FileBlob, HonestFiles, HonestSink, OpenGate};
use swan_top::honest_call;

/// The words; then the output, the report and the code. A name that isn't there is an empty file.
const CALLS: &str = "\
run 1 100 a|hi~|faults 0~|0
run 1 1 a|hi~|faults 1~fault / 6 Fuel~|1
check missing||refused 1 BadHeader~|3
run 1 5 b missing||left text 0~faults 0~|0
elide 5 b long||too long long~|4
check long||too long long~|4
run 1 5 b three three||inputs 1 2~|7
index 1 missing||left input 0~faults 0~|0
convert 1 long||too long long~|4
bulk 7 3 1|402~3~|object total int 402~object count int 3~left lines 0~faults 0~|0
frob||usage~|2";

// What a sink tells.
fn told(alloc: Global, sink: &HonestSink) -> Result<String, AllocError> {
    match sink.written() {
        Some(bytes) => String::from_utf8_lossy(alloc, bytes),
        None => String::from_str(alloc, "nothing is told"),
    }
}

// Adds a file past the limit.
fn add_long(alloc: Global, files: &mut Vec<FileBlob>) -> Result<(), NoMemory> {
    let content = vec![in alloc; b'x'; 67_108_865]?;
    files.push(file_of(alloc, "long", content)?)?;
    Ok(())
}

// The known jobs, and where words name it, a file past the limit.
fn files_for(alloc: Global, words: &str) -> Result<Vec<FileBlob>, NoMemory> {
    let mut files = files_of(alloc, NAMES, &TEXTS)?;
    if words.contains("long") {
        if let Err(none) = add_long(alloc, &mut files) {
            drop(files);
            return Err(none);
        }
    }
    Ok(files)
}

// A call with these words over these files, whose output goes to this sink, and whose report to one with so much room.
fn called_into(
    rt: &impl Machine,
    alloc: Global,
    words: &[Word],
    files: &mut HonestFiles,
    out: &mut HonestSink,
    room: usize,
) -> Result<Ended, NoMemory> {
    let mut report = HonestSink::new(alloc, room)?;
    let status = honest_call(rt, alloc, words, files, out, &mut report, &OpenGate);
    end_of(told(alloc, out), told(alloc, &report), status)
}

// A call with these words over these files, and sinks with so much room.
fn called_over(
    rt: &impl Machine,
    alloc: Global,
    words: &[Word],
    files: &mut HonestFiles,
    room: usize,
) -> Result<Ended, NoMemory> {
    let mut out = HonestSink::new(alloc, room)?;
    called_into(rt, alloc, words, files, &mut out, room)
}

// A call with the words of a text over those files, and sinks with so much room.
fn called_honestly(
    rt: &impl Machine,
    alloc: Global,
    text: &str,
    room: usize,
) -> Result<Ended, NoMemory> {
    let words = words_of(alloc, text)?;
    let mut files = HonestFiles::new(files_for(alloc, text)?);
    called_over(rt, alloc, words.as_slice(), &mut files, room)
}

// Asserts a row of the calls.
fn hold_honestly(rt: &impl Machine, alloc: Global, row: &str) -> Result<(), Fail> {
    let (words, wanted) = cut(row)?;
    let got = called_honestly(rt, alloc, words, 4_096)?;
    assert_row(rt, alloc, &got, row, wanted)
}

#[test]
fn an_honest_call_ends_as_its_words_say(rt: HostRuntime) -> Result<(), Fail> {
    for row in CALLS.lines() {
        hold_honestly(&rt, rt.alloc(), row)?;
    }
    Ok(())
}

#[test]
fn an_honest_sink_without_room_takes_all_and_tells_nothing(rt: HostRuntime) -> Result<(), Fail> {
    let got = called_honestly(&rt, rt.alloc(), "run 1 100 a", 3)?;
    assert_ended(&rt, &got, "room 3", "hi\n", "nothing is told", "0");
    Ok(())
}
