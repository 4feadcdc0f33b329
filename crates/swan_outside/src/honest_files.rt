// Files that never fail.
ghost use Rattle.std.specs.Prelude.{◌≡◌, ◌≢◌, ◌≤◌, List, ℕ, Some, OnOk, OnErr};
ghost use Rattle.swan_outside.specs.Counts.{Rose};
ghost use Rattle.swan_outside.specs.FilesState.{IsAnswerTo};
ghost use Rattle.swan_outside.specs.Honest.{honest_content, long_reads_after};
ghost use Rattle.swan_outside.specs.Reads.{Reads, IsTooLong};
ghost use Rattle.swan_outside.specs.declared.answer.ReadAnswer.TheVariants as answer;

use crate::memory_files::{append_whole, file_named};
use crate::{FileBlob, Files, ReadAnswer};
use std::marker::Model;
use swan_model::Word;

/// Files in memory, which tell their contents, and of which no read fails: their count of faults is 0
/// for good. A name that isn't there reads as the empty content. A look-up goes over the files one by
/// one. Contracts see them as an `HonestFilesState`.
#[derive(Drop)]
pub struct HonestFiles {
    files: Vec<FileBlob>,
    long_reads: u64,
}

impl Model for HonestFiles {
    ghost use Rattle.swan_outside.specs.Honest.{HonestFilesState};

    ghost Value = { HonestFilesState };

    ghost view = { λ it. record { files = it.files.items; long_reads = it.long_reads } };
}

impl HonestFiles {
    /// These files, of which the first of each name counts. Their count of long reads is 0. It takes no
    /// memory. `O(1)`.
    pub fn new(files: Vec<FileBlob>) -> HonestFiles
        ensures { result ≡ record { files = files.items; long_reads = 0 } }
    {
        HonestFiles {
            files,
            long_reads: 0,
        }
    }
}

impl Files for HonestFiles {
    ghost content = { λ it name. Some (honest_content it.files name) };

    ghost faults = { λ _. 0 };

    ghost long_reads = { λ it. it.long_reads };

    /// Adds the content of the first file of this name to the end of the buffer, and nothing where no
    /// file has the name. Failed never comes. TooLong comes exactly where the content passes 67,108,864
    /// bytes. `O(files + content)`.
    fn read(&mut self, name: &Word, into: &mut Vec<u8>) -> Result<(), ReadAnswer>
        // the exact answer, and what it leaves
        ensures answer { IsAnswerTo (Some (honest_content self.old.files name.now)) result }
        ensures after { self.new ≡ record self.old {
          long_reads = long_reads_after self.old.long_reads result;
        } }

        // what is read
        ensures whole { OnOk result (Reads (Some (honest_content self.old.files name.now))
            into.old.items into.new.items) }
        ensures unread { OnErr result (into.new.items ≡ into.old.items) }

        // when each refusal comes
        ensures failed { result ≡ Err answer.Failed → Rose 0 0 }
        ensures long { result ≡ Err answer.TooLong →
            Rose self.old.long_reads self.new.long_reads }
        ensures long_where_told { result ≡ Err answer.TooLong →
            IsTooLong (Some (honest_content self.old.files name.now)) }

        // what is counted, and what stays
        ensures no_long_read { result ≢ Err answer.TooLong →
            self.new.long_reads ≡ self.old.long_reads }
        ensures long_reads_kept { self.old.long_reads ≤ self.new.long_reads }
        ensures contents_kept { (other : List ℕ) →
            Some (honest_content self.new.files other)
            ≡ Some (honest_content self.old.files other) }
    {
        match append_content_or_nothing(&self.files, name, into) {
            Ok(()) => Ok(()),
            Err(ReadAnswer::TooLong) => {
                self.long_reads = self.long_reads.saturating_add(1);
                Err(ReadAnswer::TooLong)
            }
            Err(refusal) => Err(refusal),
        }
    }
}

/// Adds the content of the first file of this name to the end of the buffer, and nothing where no file
/// has the name.
fn append_content_or_nothing(
    files: &[FileBlob],
    name: &Word,
    into: &mut Vec<u8>,
) -> Result<(), ReadAnswer>
    ensures answer { IsAnswerTo (Some (honest_content files.now name.now)) result }
    ensures whole { OnOk result (Reads (Some (honest_content files.now name.now))
        into.old.items into.new.items) }
    ensures unread { OnErr result (into.new.items ≡ into.old.items) }
{
    match file_named(files, name) {
        Some(file) => append_whole(file.content.as_slice(), into),
        None => append_whole(&[], into),
    }
}

#[cfg(test)]
mod tests {
    use super::*;
    use crate::FILE_MOST;
    use crate::test_reads::{add_file, hold_length, long_file};
    use std::alloc::Global;
    use std::process::Abort;

    /// Files of some lengths, two of one name.
    fn four_files(rt: &impl Abort, alloc: Global) -> Vec<FileBlob> {
        let mut files = Vec::new(alloc);
        add_file(rt, &mut files, long_file(rt, alloc, "a", 3));
        add_file(rt, &mut files, long_file(rt, alloc, "full", FILE_MOST));
        add_file(rt, &mut files, long_file(rt, alloc, "long", FILE_MOST + 1));
        add_file(rt, &mut files, long_file(rt, alloc, "a", 9));
        files
    }

    /// Asserts how many files were too long once this name is read.
    fn hold_long_reads(rt: &impl Abort, name: &str, found: u64, wanted: u64) {
        assert!(rt; found == wanted, "long reads at {name}");
    }

    /// Asserts what a read of this name answers, how many bytes stand in the buffer then, with the one that stood there before, and how many
    /// files were too long.
    fn hold_row(
        rt: &impl Abort,
        alloc: Global,
        files: &mut HonestFiles,
        name: &str,
        answer: Result<(), ReadAnswer>,
        left: usize,
        long_reads: u64,
    ) {
        hold_length(rt, alloc, files, name, answer, left);
        hold_long_reads(rt, name, files.long_reads, long_reads);
    }

    /// Asserts what reads of these files answer.
    fn hold_reads(rt: &impl Abort, alloc: Global, files: &mut HonestFiles) {
        let too_long = Err(ReadAnswer::TooLong);
        hold_row(rt, alloc, files, "missing", Ok(()), 1, 0);
        hold_row(rt, alloc, files, "a", Ok(()), 4, 0);
        hold_row(rt, alloc, files, "full", Ok(()), FILE_MOST + 1, 0);
        hold_row(rt, alloc, files, "long", too_long, 1, 1);
        hold_row(rt, alloc, files, "long", too_long, 1, 2);
        hold_row(rt, alloc, files, "a", Ok(()), 4, 2);
    }

    #[test]
    fn a_read_never_fails(rt: HostRuntime) {
        let mut files = HonestFiles::new(four_files(&rt, rt.alloc()));
        hold_reads(&rt, rt.alloc(), &mut files);
    }
}
