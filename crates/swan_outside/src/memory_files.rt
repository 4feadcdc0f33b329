// Files in memory.
ghost use Rattle.std.specs.Prelude.{◌≡◌, ◌≢◌, ◌≤◌, List, ℕ, Some, OnOk, OnErr, find};
ghost use Rattle.std.specs.Option.{option_copied};
ghost use Rattle.std.specs.Str.{bytes_eq};
ghost use Rattle.swan_outside.specs.Counts.{Rose};
ghost use Rattle.swan_outside.specs.Reads.{Reads, IsTooLong};
ghost use Rattle.swan_outside.specs.FilesState.{fresh_files, content_of, content_found, IsAnswerTo, after_read};
ghost use Rattle.swan_outside.specs.declared.answer.ReadAnswer.TheVariants as answer;

use crate::counts::ReadCounts;
use crate::{FILE_MOST, FileBlob, Files, ReadAnswer};
use std::marker::Model;
use swan_model::Word;

/// Files in memory, which tell their contents, and of which chosen calls fail. A look-up goes over
/// the files one by one. Contracts see them as a `FilesState`.
#[derive(Drop)]
pub struct MemoryFiles {
    files: Vec<FileBlob>,
    fail: Vec<u64>,
    calls: u64,
    counts: ReadCounts,
}

impl Model for MemoryFiles {
    ghost use Rattle.swan_outside.specs.FilesState.{FilesState};

    ghost Value = { FilesState };

    ghost view = { λ it. record {
      files = it.files.items;
      fail = it.fail.items;
      calls = it.calls;
      counts = it.counts;
    } };
}

impl MemoryFiles {
    /// These files, of which the first of each name counts. Calls of `read` count from 1, and one
    /// whose number is in `fail` fails. Both counts are 0. It takes no memory. `O(1)`.
    pub fn new(files: Vec<FileBlob>, fail: Vec<u64>) -> MemoryFiles
        ensures { result ≡ fresh_files files.items fail.items }
    {
        MemoryFiles {
            files,
            fail,
            calls: 0,
            counts: ReadCounts::new(),
        }
    }
}

impl Files for MemoryFiles {
    ghost content = { λ it name. content_of it.files name };

    ghost faults = { λ it. it.counts.faults };

    ghost long_reads = { λ it. it.counts.long_reads };

    /// Adds the content of the first file of this name to the end of the buffer. Failed comes
    /// exactly where the call's number is one of those that fail, or no file has the name. TooLong
    /// comes exactly where else the content passes 67,108,864 bytes. `O(files + numbers that fail
    /// + content)`.
    fn read(&mut self, name: &Word, into: &mut Vec<u8>) -> Result<(), ReadAnswer>
        // the exact answer, and what it leaves
        ensures answer { IsAnswerTo (content_found self.old name.now) result }
        ensures after { self.new ≡ after_read self.old result }

        // what is read
        ensures whole { OnOk result
            (Reads (content_of self.old.files name.now) into.old.items into.new.items) }
        ensures unread { OnErr result (into.new.items ≡ into.old.items) }

        // when each refusal comes
        ensures failed { result ≡ Err answer.Failed →
            Rose self.old.counts.faults self.new.counts.faults }
        ensures long { result ≡ Err answer.TooLong →
            Rose self.old.counts.long_reads self.new.counts.long_reads }
        ensures long_where_told { result ≡ Err answer.TooLong →
            IsTooLong (content_of self.old.files name.now) }

        // what is counted, and what stays
        ensures no_fault { result ≢ Err answer.Failed →
            self.new.counts.faults ≡ self.old.counts.faults }
        ensures no_long_read { result ≢ Err answer.TooLong →
            self.new.counts.long_reads ≡ self.old.counts.long_reads }
        ensures faults_kept { self.old.counts.faults ≤ self.new.counts.faults }
        ensures long_reads_kept { self.old.counts.long_reads ≤ self.new.counts.long_reads }
        ensures contents_kept { (other : List ℕ) →
            content_of self.new.files other ≡ content_of self.old.files other }
    {
        self.calls = self.calls.saturating_add(1);
        let answer = if self.fail.contains(&self.calls) {
            Err(ReadAnswer::Failed)
        } else {
            append_content(&self.files, name, into)
        };
        match answer {
            Ok(()) => Ok(()),
            Err(refusal) => {
                self.counts.note(refusal);
                Err(refusal)
            }
        }
    }
}

/// Adds the content of the first file of this name to the end of the buffer.
fn append_content(files: &[FileBlob], name: &Word, into: &mut Vec<u8>) -> Result<(), ReadAnswer>
    ensures answer { IsAnswerTo (content_of files.now name.now) result }
    ensures whole { OnOk result
        (Reads (content_of files.now name.now) into.old.items into.new.items) }
    ensures unread { OnErr result (into.new.items ≡ into.old.items) }
{
    match file_named(files, name) {
        Some(file) => append_whole(file.content.as_slice(), into),
        None => Err(ReadAnswer::Failed),
    }
}

/// The first file of this name.
pub(crate) fn file_named<'a>(files: &'a [FileBlob], name: &Word) -> Option<&'a FileBlob>
    ensures { option_copied result ≡ find (λ file. bytes_eq file.name name.now) files.now }
{
    files
        .iter()
        .find(|file| file.name.as_str() == name.as_str())
}

/// Adds a whole content to the end of the buffer.
pub(crate) fn append_whole(content: &[u8], into: &mut Vec<u8>) -> Result<(), ReadAnswer>
    ensures answer { IsAnswerTo (Some content.now) result }
    ensures whole { OnOk result (Reads (Some content.now) into.old.items into.new.items) }
    ensures unread { OnErr result (into.new.items ≡ into.old.items) }
{
    if content.len() > FILE_MOST {
        return Err(ReadAnswer::TooLong);
    }
    into.extend_from_slice(content)?;
    Ok(())
}

#[cfg(test)]
mod tests {
    use super::*;
    use crate::test_reads::{add_file, hold_count, hold_length, hold_read, long_file, word};
    use std::alloc::Global;
    use std::process::Abort;
    use std::test::Fail;
    use swan_model::Blob;

    /// The bytes of a text.
    fn blob_of(rt: &impl Abort, alloc: Global, text: &str) -> Blob {
        let mut bytes = Vec::new(alloc);
        assert!(rt;
            bytes.extend_from_slice(text.as_bytes()).is_ok(),
            "no memory"
        );
        Blob::new(bytes)
    }

    /// A file of this text.
    fn file(rt: &impl Abort, alloc: Global, name: &str, content: &str) -> FileBlob {
        FileBlob {
            name: word(rt, alloc, name),
            content: blob_of(rt, alloc, content),
        }
    }

    /// Three files, two of one name.
    fn three_files(rt: &impl Abort, alloc: Global) -> Vec<FileBlob> {
        let mut files = Vec::new(alloc);
        add_file(rt, &mut files, file(rt, alloc, "a", "one"));
        add_file(rt, &mut files, file(rt, alloc, "b", ""));
        add_file(rt, &mut files, file(rt, alloc, "a", "two"));
        files
    }

    /// Asserts how many reads have failed, and how many have found a file that is too long.
    fn hold_counts(rt: &impl Abort, files: &MemoryFiles, faults: u64, long_reads: u64) {
        hold_count(rt, "faults", files.counts.faults, faults);
        hold_count(rt, "long reads", files.counts.long_reads, long_reads);
    }

    /// Asserts what a read of this name answers, what stands in the buffer then, and how many reads have failed.
    fn hold_row(
        rt: &impl Abort,
        alloc: Global,
        files: &mut MemoryFiles,
        name: &str,
        answer: Result<(), ReadAnswer>,
        left: &str,
        faults: u64,
    ) {
        hold_read(rt, alloc, files, name, answer, left);
        hold_counts(rt, files, faults, 0);
    }

    /// Asserts what reads of these files answer, of which the third fails, and that of a name that none has.
    fn hold_rows(rt: &impl Abort, alloc: Global, files: &mut MemoryFiles) {
        let failed = Err(ReadAnswer::Failed);
        hold_row(rt, alloc, files, "a", Ok(()), ">one", 0);
        hold_row(rt, alloc, files, "c", failed, ">", 1);
        hold_row(rt, alloc, files, "a", failed, ">", 2);
        hold_row(rt, alloc, files, "b", Ok(()), ">", 2);
        hold_row(rt, alloc, files, "a", Ok(()), ">one", 2);
    }

    #[test]
    fn reads_the_first_of_a_name(rt: HostRuntime) -> Result<(), Fail> {
        let fail = vec![in rt.alloc(); 3, 9]?;
        let mut files = MemoryFiles::new(three_files(&rt, rt.alloc()), fail);
        hold_rows(&rt, rt.alloc(), &mut files);
        Ok(())
    }

    /// Files of which the one that is there has so many bytes.
    fn files_of(rt: &impl Abort, alloc: Global, length: usize) -> MemoryFiles {
        let mut files = Vec::new(alloc);
        add_file(rt, &mut files, long_file(rt, alloc, "a", length));
        MemoryFiles::new(files, Vec::new(alloc))
    }

    /// Asserts what a read of a file of so many bytes answers, how many bytes stand in the buffer then, with the one that stood there before, and
    /// how many files were too long. No read fails.
    fn hold_bytes(
        rt: &impl Abort,
        alloc: Global,
        length: usize,
        answer: Result<(), ReadAnswer>,
        left: usize,
        long_reads: u64,
    ) {
        let mut files = files_of(rt, alloc, length);
        hold_length(rt, alloc, &mut files, "a", answer, left);
        hold_counts(rt, &files, 0, long_reads);
    }

    #[test]
    fn refuses_a_long_content(rt: HostRuntime) {
        let alloc = rt.alloc();
        hold_bytes(&rt, alloc, FILE_MOST, Ok(()), FILE_MOST + 1, 0);
        let refused = Err(ReadAnswer::TooLong);
        hold_bytes(&rt, alloc, FILE_MOST + 1, refused, 1, 1);
    }
}
