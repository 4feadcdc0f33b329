// Files by name.
ghost use Rattle.std.specs.Prelude.{◌≡◌, ◌≢◌, ◌≤◌, List, ℕ, Option, OnOk, OnErr};
ghost use Rattle.swan_outside.specs.Counts.{Rose};
ghost use Rattle.swan_outside.specs.Reads.{Reads, IsTooLong};
ghost use Rattle.swan_outside.specs.declared.answer.ReadAnswer.TheVariants as answer;

use crate::ReadAnswer;
use swan_model::{Blob, Word};

/// The largest number of bytes of a file that is read.
pub const FILE_MOST: usize = 67_108_864;

/// A name and what stands under it.
#[derive(Drop)]
pub struct FileBlob {
    /// The name.
    pub name: Word,
    /// The whole content.
    pub content: Blob,
}

/// Files that are read whole, by name.
pub trait Files {
    /// What stands under a name, where that is told.
    ghost content: { Self → List ℕ → Option (List ℕ) };

    /// How many reads failed.
    ghost faults: { Self → ℕ };

    /// How many reads found a file that is too long.
    ghost long_reads: { Self → ℕ };

    /// Adds the whole content of a file to the end of the buffer.
    ///
    /// Failed comes exactly where the count of faults rose in this call, and TooLong exactly where
    /// the count of long reads did: a read that answers otherwise leaves that count as it was.
    /// Where contents are told, TooLong comes exactly where the told content passes 67,108,864
    /// bytes, but for a call that is Failed or NoMemory. After any refusal the buffer is as it was. A
    /// read leaves all told contents as they are.
    fn read(&mut self, name: &Word, into: &mut Vec<u8>) -> Result<(), ReadAnswer>
        // what is read
        ensures whole { OnOk result
            (Reads (content self.old name.now) into.old.items into.new.items) }
        ensures unread { OnErr result (into.new.items ≡ into.old.items) }

        // when each refusal comes
        ensures failed { result ≡ Err answer.Failed → Rose (faults self.old) (faults self.new) }
        ensures long { result ≡ Err answer.TooLong →
            Rose (long_reads self.old) (long_reads self.new) }
        ensures long_where_told { result ≡ Err answer.TooLong →
            IsTooLong (content self.old name.now) }

        // what is counted, and what stays
        ensures no_fault { result ≢ Err answer.Failed → faults self.new ≡ faults self.old }
        ensures no_long_read { result ≢ Err answer.TooLong →
            long_reads self.new ≡ long_reads self.old }
        ensures faults_kept { faults self.old ≤ faults self.new }
        ensures long_reads_kept { long_reads self.old ≤ long_reads self.new }
        ensures contents_kept { (other : List ℕ) →
            content self.new other ≡ content self.old other };
}
