// Files of the system.
ghost use Rattle.std.specs.Prelude.{◌≡◌, ◌≢◌, ◌<◌, ◌≤◌, None, length, take, IfOk, OnOk, OnErr};
ghost use Rattle.std.specs.Io.{StartsWith};
ghost use Rattle.std.specs.Io.KnownBytes.{Consumes, IsAtEnd};
ghost use Rattle.std.specs.IoError.{error_kind};
ghost use Rattle.swan_outside.specs.Counts.{Rose, no_counts, counts_after_read};
ghost use Rattle.swan_outside.specs.Reads.{Reads, IsTooLong, Gave};
ghost use Rattle.swan_outside.specs.declared.answer.ReadAnswer.TheVariants as answer;

use crate::counts::ReadCounts;
use crate::{FILE_MOST, Files, ReadAnswer};
use std::io::{ErrorKind, Read};
use std::marker::Model;
use std::rt::Runtime;
use std::{fs, io};
use swan_model::Word;

/// How many bytes are asked of the system at once.
const CHUNK: usize = 8_192;

/// How often one read is made that signals interrupt. The last such interruption is a fault.
const READS_MOST: u32 = 1_000_000;

/// The files of the system. Names are paths. They tell no content. Contracts see them as their
/// counts of faults and of long reads.
#[derive(Drop)]
pub struct OsFiles<T: Runtime> {
    rt: T,
    counts: ReadCounts,
}

impl<T: Runtime> Model for OsFiles<T> {
    ghost use Rattle.swan_outside.specs.declared.counts.ReadCounts.{ReadCounts};

    ghost Value = { ReadCounts };

    ghost view = { λ it. it.counts };
}

impl<T: Runtime> OsFiles<T> {
    /// The files that this runtime reaches. Both counts are 0. It takes no memory. `O(1)`.
    pub fn new(rt: T) -> OsFiles<T>
        ensures { result ≡ no_counts }
    {
        OsFiles {
            rt,
            counts: ReadCounts::new(),
        }
    }
}

impl<T: Runtime> Files for OsFiles<T> {
    ghost content = { λ _ _. None };

    ghost faults = { λ it. it.faults };

    ghost long_reads = { λ it. it.long_reads };

    /// Adds the whole content of a file to the end of the buffer. The name is its path, as it is. A
    /// pipe or another special file is read to its end, or to one byte past 67,108,864 bytes, and the
    /// call waits until it gives bytes or ends. Failed comes where the system can't open or read the
    /// file, as where it is missing, a directory, may not be read, or its name is empty or has a NUL
    /// byte; where it lacks memory to open it; and where signals interrupt one read 1,000,000 times.
    /// TooLong comes where the file has more than 67,108,864
    /// bytes, of which no more than one past that is read. NoMemory comes where the buffer can't grow
    /// or the system has no memory to read, and only where the runtime has a file. That a missing
    /// file is Failed is so by the body, which asks for no memory before it has opened the file: no
    /// clause says it, since the kit's `open` has no contract on names.
    ///
    /// Where the runtime tells what its files have left, the bytes are all that one of its files
    /// had, and TooLong comes only where one had more than 67,108,864 bytes. `O(bytes that are read)`.
    fn read(&mut self, name: &Word, into: &mut Vec<u8>) -> Result<(), ReadAnswer>
        // what is known of a system
        ensures counts { self.new ≡ counts_after_read self.old result }
        ensures file { OnOk result ((file : T.File)
            × Reads (T.File.remaining file) into.old.items into.new.items) }

        // what is read
        ensures whole { OnOk result (Reads None into.old.items into.new.items) }
        ensures unread { OnErr result (into.new.items ≡ into.old.items) }

        // when each refusal comes
        ensures failed { result ≡ Err answer.Failed → Rose self.old.faults self.new.faults }
        ensures long { result ≡ Err answer.TooLong → Rose self.old.long_reads self.new.long_reads }
        ensures long_file { result ≡ Err answer.TooLong →
            (file : T.File) × IsTooLong (T.File.remaining file) }
        ensures opened { result ≡ Err answer.NoMemory → T.File }

        // what is counted, and what stays
        ensures no_fault { result ≢ Err answer.Failed → self.new.faults ≡ self.old.faults }
        ensures no_long_read { result ≢ Err answer.TooLong →
            self.new.long_reads ≡ self.old.long_reads }
        ensures faults_kept { self.old.faults ≤ self.new.faults }
        ensures long_reads_kept { self.old.long_reads ≤ self.new.long_reads }
    {
        let start = into.len();
        match append_file(&self.rt, name.as_str(), into) {
            Ok(()) => Ok(()),
            Err(refusal) => {
                into.truncate(start);
                self.counts.note(refusal);
                Err(refusal)
            }
        }
    }
}

/// Adds the content of a file to the end of the buffer. After a refusal a part of it may be there.
fn append_file<T: Runtime>(rt: &T, name: &str, into: &mut Vec<u8>) -> Result<(), ReadAnswer>
    ensures front { StartsWith into.new.items into.old.items }
    ensures whole { OnOk result ((file : T.File)
        × Reads (T.File.remaining file) into.old.items into.new.items) }
    ensures long { result ≡ Err answer.TooLong →
        (file : T.File) × IsTooLong (T.File.remaining file) }
    ensures opened { result ≡ Err answer.NoMemory → T.File }
{
    match fs::open(rt, name) {
        Ok(mut file) => append_rest(&mut file, into),
        Err(_) => Err(ReadAnswer::Failed),
    }
}

/// Adds what a reader has left to the end of the buffer. After a refusal a part of it may be there.
fn append_rest<R: Read>(reader: &mut R, into: &mut Vec<u8>) -> Result<(), ReadAnswer>
    ensures front { StartsWith into.new.items into.old.items }
    ensures whole { OnOk result (Reads (R.remaining reader.old) into.old.items into.new.items) }
    ensures long { result ≡ Err answer.TooLong → IsTooLong (R.remaining reader.old) }
{
    let mut chunk = [0u8; CHUNK];
    let mut count = 0;
    while count <= FILE_MOST {
        let most = CHUNK.min(FILE_MOST + 1 - count);
        let taken = append_some(reader, &mut chunk[..most], into)?;
        if taken == 0 {
            return Ok(());
        }
        count += taken;
    }
    Err(ReadAnswer::TooLong)
}

/// Adds what one read gives to the end of the buffer, and answers how many bytes it gave: none only
/// at the end.
fn append_some<R: Read>(
    reader: &mut R,
    chunk: &mut [u8],
    into: &mut Vec<u8>,
) -> Result<usize, ReadAnswer>
    requires { 0 < length chunk.old }

    // what a read gives
    ensures gave { IfOk result (λ n. Gave (R.remaining reader.old) (R.remaining reader.new)
        into.old.items into.new.items n) }
    ensures end { IfOk result (λ n. n ≡ 0 → IsAtEnd (R.remaining reader.new)) }
    ensures most { IfOk result (λ n. n ≤ length chunk.old) }

    // and what a refusal leaves
    ensures kept { OnErr result (into.new.items ≡ into.old.items) }
    ensures not_long { result ≢ Err answer.TooLong }
{
    let count = read_some(reader, chunk)?;
    into.extend_from_slice(&chunk[..count])?;
    Ok(count)
}

/// One read, made again where a signal interrupts it.
fn read_some<R: Read>(reader: &mut R, chunk: &mut [u8]) -> Result<usize, ReadAnswer>
    ensures taken { IfOk result (λ n.
        Consumes (R.remaining reader.old) (R.remaining reader.new) (take n chunk.new)) }
    ensures end { IfOk result (λ n.
        n ≡ 0 → 0 < length chunk.old → IsAtEnd (R.remaining reader.new)) }
    ensures most { IfOk result (λ n. n ≤ length chunk.old) }
    ensures not_long { result ≢ Err answer.TooLong }
{
    for _ in 0..READS_MOST {
        match reader.read(chunk) {
            Ok(count) => return Ok(count),
            Err(error) if error.kind() == ErrorKind::Interrupted => {}
            Err(error) => return Err(refusal_of(error)),
        }
    }
    Err(ReadAnswer::Failed)
}

/// What an error of the system is: want of memory, or a fault.
fn refusal_of(error: io::Error) -> ReadAnswer
    ensures no_memory { error_kind error ≡ ErrorKind.OutOfMemory → result ≡ answer.NoMemory }
    ensures failed { error_kind error ≢ ErrorKind.OutOfMemory → result ≡ answer.Failed }
{
    match error.kind() {
        ErrorKind::OutOfMemory => ReadAnswer::NoMemory,
        _ => ReadAnswer::Failed,
    }
}

#[cfg(test)]
mod tests {
    use super::*;
    use crate::test_reads::{hold_count, hold_length, hold_read};
    use std::alloc::Global;
    use std::fs::File;
    use std::process::Abort;

    const SHORT: &str = "swan_outside_test_short";

    /// The same name with a space before it.
    const SPACED: &str = " swan_outside_test_short";

    const LONG: &str = "swan_outside_test_long";

    /// Asserts that the files of these names are read, and what stands in the buffer then.
    fn hold_read_names<F: Files>(rt: &impl Abort, alloc: Global, files: &mut F) {
        hold_read(rt, alloc, files, SHORT, Ok(()), ">some bytes");
        hold_read(rt, alloc, files, SPACED, Ok(()), ">others");
        hold_read(rt, alloc, files, "/dev/null", Ok(()), ">");
    }

    /// Asserts that a read of what this name names fails, and that nothing is left of it.
    fn hold_failed<F: Files>(rt: &impl Abort, alloc: Global, files: &mut F, name: &str) {
        hold_read(rt, alloc, files, name, Err(ReadAnswer::Failed), ">");
    }

    /// Asserts that what these names name isn't read, and that nothing is left of it.
    fn hold_refused_names<F: Files>(rt: &impl Abort, alloc: Global, files: &mut F) {
        hold_failed(rt, alloc, files, "swan_outside_test_short ");
        hold_failed(rt, alloc, files, "swan_outside_test_missing");
        hold_failed(rt, alloc, files, ".");
        hold_failed(rt, alloc, files, "");
        hold_failed(rt, alloc, files, "nul\0byte");
        hold_read(rt, alloc, files, "/dev/zero", Err(ReadAnswer::TooLong), ">");
    }

    /// Asserts how many reads failed, and how many files were too long.
    fn hold_counts<T: Runtime>(rt: &impl Abort, files: &OsFiles<T>, faults: u64, long_reads: u64) {
        hold_count(rt, "faults", files.counts.faults, faults);
        hold_count(rt, "long reads", files.counts.long_reads, long_reads);
    }

    /// Asserts what reads of all these names answer, and how many failed or found too long a file.
    fn hold_names<T: Runtime>(rt: &impl Abort, alloc: Global, files: &mut OsFiles<T>) {
        hold_read_names(rt, alloc, files);
        hold_refused_names(rt, alloc, files);
        hold_counts(rt, files, 5, 1);
    }

    /// Writes a file of this text. The test ends where it can't.
    fn write_file<T: Runtime>(abort: &impl Abort, rt: &T, name: &str, text: &str) {
        match fs::write(rt, name, text) {
            Ok(()) => {}
            Err(error) => panic!(abort; "{name} isn't written: {error}"),
        }
    }

    /// Removes a file. The test ends where it can't.
    fn remove_file<T: Runtime>(abort: &impl Abort, rt: &T, name: &str) {
        match fs::remove_file(rt, name) {
            Ok(()) => {}
            Err(error) => panic!(abort; "{name} isn't removed: {error}"),
        }
    }

    /// Writes two files, asserts what reads of all names answer, and removes the two.
    fn hold_files<T: Runtime>(abort: &impl Abort, rt: &T, alloc: Global, files: &mut OsFiles<T>) {
        write_file(abort, rt, SHORT, "some bytes");
        write_file(abort, rt, SPACED, "others");
        hold_names(abort, alloc, files);
        remove_file(abort, rt, SHORT);
        remove_file(abort, rt, SPACED);
    }

    #[test]
    fn reads_files_of_the_system(rt: HostRuntime) {
        let mut files = OsFiles::new(rt);
        hold_files(&rt, &rt, rt.alloc(), &mut files);
    }

    /// Asserts what a read of the long file answers, how many bytes stand in the buffer then, with the one that stood there before, and how
    /// many files were too long. No read fails.
    fn hold_long<T: Runtime>(
        rt: &impl Abort,
        alloc: Global,
        files: &mut OsFiles<T>,
        answer: Result<(), ReadAnswer>,
        left: usize,
        long_reads: u64,
    ) {
        hold_length(rt, alloc, files, LONG, answer, left);
        hold_counts(rt, files, 0, long_reads);
    }

    /// Gives a file this length. The test ends where it can't.
    fn set_length(abort: &impl Abort, file: &File, length: u64) {
        match file.set_len(length) {
            Ok(()) => {}
            Err(error) => panic!(abort; "no length of {length}: {error}"),
        }
    }

    /// Makes the long file, of so many bytes. The test ends where it can't.
    fn make_long(abort: &impl Abort, rt: HostRuntime, length: u64) {
        match File::create(&rt, LONG) {
            Ok(file) => set_length(abort, &file, length),
            Err(error) => panic!(abort; "{LONG} isn't made: {error}"),
        }
    }

    /// Asserts what a read of a file of the system of so many bytes answers, how many bytes stand in the buffer then, and how many reads were
    /// too long.
    fn hold_bytes(
        abort: &impl Abort,
        rt: HostRuntime,
        length: usize,
        answer: Result<(), ReadAnswer>,
        left: usize,
        long_reads: u64,
    ) {
        make_long(abort, rt, length as u64);
        let mut files = OsFiles::new(rt);
        hold_long(abort, rt.alloc(), &mut files, answer, left, long_reads);
        remove_file(abort, &rt, LONG);
    }

    #[test]
    fn reads_up_to_the_limit(rt: HostRuntime) {
        hold_bytes(&rt, rt, FILE_MOST, Ok(()), FILE_MOST + 1, 0);
        hold_bytes(&rt, rt, FILE_MOST + 1, Err(ReadAnswer::TooLong), 1, 1);
    }

    /// Gives a byte, is interrupted, gives another byte, and then ends or fails.
    #[derive(Drop)]
    struct Stumbling {
        reads: u8,
        last: Option<ErrorKind>,
    }

    impl Read for Stumbling {
        fn read(&mut self, chunk: &mut [u8]) -> io::Result<usize> {
            self.reads = self.reads.saturating_add(1);
            if self.reads == 2 {
                return Err(io::Error::from(ErrorKind::Interrupted));
            }
            if self.reads > 3 || chunk.is_empty() {
                return match self.last {
                    Some(kind) => Err(io::Error::from(kind)),
                    None => Ok(0),
                };
            }
            chunk[0] = b'0' + self.reads;
            Ok(1)
        }
    }

    /// Asserts what is answered of a file, and that it was read by four reads.
    fn hold_found(
        rt: &impl Abort,
        what: &str,
        found: Result<(), ReadAnswer>,
        answer: Result<(), ReadAnswer>,
        reads: u8,
    ) {
        assert!(rt; found == answer, "the answer at {what}");
        assert!(rt; reads == 4, "not four reads at {what}");
    }

    /// What is answered of what a reader has left, and whether the bytes 1 and 3 are read of it.
    fn rest_of(alloc: Global, reader: &mut Stumbling) -> (Result<(), ReadAnswer>, bool) {
        let mut into = Vec::new(alloc);
        let answer = append_rest(reader, &mut into);
        (answer, into.as_slice() == b"13".as_slice())
    }

    /// Asserts what is answered of a file that ends so, of which two bytes are read by four reads: none is made again but the one that was
    /// interrupted.
    fn hold_rest(
        rt: &impl Abort,
        alloc: Global,
        what: &str,
        last: Option<ErrorKind>,
        answer: Result<(), ReadAnswer>,
    ) {
        let mut reader = Stumbling { reads: 0, last };
        let (found, is_read) = rest_of(alloc, &mut reader);
        hold_found(rt, what, found, answer, reader.reads);
        assert!(rt; is_read, "other bytes at {what}");
    }

    #[test]
    fn reads_to_the_end_or_the_fault(rt: HostRuntime) {
        let alloc = rt.alloc();
        hold_rest(&rt, alloc, "the end", None, Ok(()));
        let last = Some(ErrorKind::OutOfMemory);
        let no_memory = Err(ReadAnswer::NoMemory);
        hold_rest(&rt, alloc, "want of memory", last, no_memory);
        let last = Some(ErrorKind::Other);
        hold_rest(&rt, alloc, "a fault", last, Err(ReadAnswer::Failed));
    }
}
