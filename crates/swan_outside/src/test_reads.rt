// What tests of files share, and bytes for those of sinks.
use crate::{FileBlob, Files, ReadAnswer};
use std::alloc::Global;
use std::process::Abort;
use swan_model::{Blob, Word};

/// The word that a text is.
pub(crate) fn word(rt: &impl Abort, alloc: Global, text: &str) -> Word {
    match Word::of(alloc, text) {
        Ok(word) => word,
        Err(_) => panic!(rt; "no word"),
    }
}

/// So many equal bytes.
pub(crate) fn bytes_of(rt: &impl Abort, alloc: Global, byte: u8, length: usize) -> Vec<u8> {
    match vec![in alloc; byte; length] {
        Ok(bytes) => bytes,
        Err(_) => panic!(rt; "no memory"),
    }
}

/// A file of so many equal bytes.
pub(crate) fn long_file(rt: &impl Abort, alloc: Global, name: &str, length: usize) -> FileBlob {
    let content = Blob::new(bytes_of(rt, alloc, b'x', length));
    let name = word(rt, alloc, name);
    FileBlob { name, content }
}

/// Adds a file to others.
pub(crate) fn add_file(rt: &impl Abort, files: &mut Vec<FileBlob>, file: FileBlob) {
    assert!(rt; files.push(file).is_ok(), "no memory");
}

/// A read through the trait's bound, and the buffer that it leaves, in which a `>` stood before.
fn read_file<F: Files>(
    rt: &impl Abort,
    alloc: Global,
    files: &mut F,
    name: &str,
) -> (Result<(), ReadAnswer>, Vec<u8>) {
    let name = word(rt, alloc, name);
    let mut into = bytes_of(rt, alloc, b'>', 1);
    let answer = files.read(&name, &mut into);
    (answer, into)
}

/// Asserts what a read of this name answers.
fn hold_answer(
    rt: &impl Abort,
    name: &str,
    found: Result<(), ReadAnswer>,
    answer: Result<(), ReadAnswer>,
) {
    assert!(rt; found == answer, "the answer at {name}");
}

/// Asserts what a read of this name answers, and what stands in the buffer then, with the `>` that stood there before.
pub(crate) fn hold_read<F: Files>(
    rt: &impl Abort,
    alloc: Global,
    files: &mut F,
    name: &str,
    answer: Result<(), ReadAnswer>,
    left: &str,
) {
    let (found, into) = read_file(rt, alloc, files, name);
    let is_left = into.as_slice() == left.as_bytes();
    drop(into);
    hold_answer(rt, name, found, answer);
    assert!(rt; is_left, "the bytes at {name}");
}

/// Asserts what a read of this name answers, and how many bytes stand in the buffer then, with the one that stood there before.
pub(crate) fn hold_length<F: Files>(
    rt: &impl Abort,
    alloc: Global,
    files: &mut F,
    name: &str,
    answer: Result<(), ReadAnswer>,
    left: usize,
) {
    let (found, into) = read_file(rt, alloc, files, name);
    let length = into.len();
    drop(into);
    hold_answer(rt, name, found, answer);
    assert!(rt; length == left, "the number of bytes at {name}");
}

/// Asserts how many of these were counted.
pub(crate) fn hold_count(rt: &impl Abort, what: &str, found: u64, wanted: u64) {
    assert!(rt; found == wanted, "{what}: not {wanted}");
}
