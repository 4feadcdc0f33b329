// The two counts of files.
ghost use Rattle.std.specs.Prelude.{◌≡◌, ◌≤◌};

use crate::ReadAnswer;

/// How many reads failed, and how many found a file that is too long. Each count stops at its last
/// value.
#[derive(Clone, Copy)]
pub(crate) struct ReadCounts {
    pub faults: u64,
    pub long_reads: u64,
}

impl ReadCounts {
    ghost use Rattle.swan_outside.specs.Counts.{no_counts, counts_after};

    pub fn new() -> ReadCounts
        ensures { result ≡ no_counts }
    {
        ReadCounts {
            faults: 0,
            long_reads: 0,
        }
    }

    /// Counts a read that was refused so.
    pub fn note(&mut self, refusal: ReadAnswer)
        ensures counts { self.new ≡ counts_after self.old refusal }
        ensures faults_kept { self.old.faults ≤ self.new.faults }
        ensures long_reads_kept { self.old.long_reads ≤ self.new.long_reads }
    {
        match refusal {
            ReadAnswer::Failed => self.faults = self.faults.saturating_add(1),
            ReadAnswer::TooLong => self.long_reads = self.long_reads.saturating_add(1),
            ReadAnswer::NoMemory => {}
        }
    }
}
