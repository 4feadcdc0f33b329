// What is settled, and what stops the reading.
ghost use Rattle.std.specs.Prelude.{◌≡◌};
ghost use Rattle.swan_top.specs.declared.verdict.Settled.TheVariants as settled;
ghost use Rattle.swan_top.specs.declared.verdict.WhyStopped.TheVariants as stop;

use crate::Status;
use std::alloc::{AllocError, AllocFailed};
use swan_model::{Blob, NoMemory};

/// What is settled: what is written, and how the call ends.
#[derive(Drop)]
pub enum Settled {
    /// Both texts.
    Prints {
        /// The output.
        out: Blob,
        /// The report.
        report: Blob,
        /// How the call ends.
        ends: Status,
    },
    /// A refusal's one line of the report.
    Refuses {
        /// The line, with its line feed.
        line: Blob,
        /// How the call ends.
        ends: Status,
    },
}

/// Why nothing more is read.
#[derive(Drop)]
pub enum WhyStopped {
    /// It is settled.
    Settled(Settled),
    /// Memory ran out.
    NoMemory,
}

impl WhyStopped {
    /// It is refused by this line, and the call ends so. It takes no memory. `O(1)`.
    pub fn refused(line: Blob, ends: Status) -> WhyStopped
        ensures { result ≡ stop.Settled (settled.Refuses line ends) }
    {
        WhyStopped::Settled(Settled::Refuses { line, ends })
    }
}

impl From<NoMemory> for WhyStopped {
    ghost from_gives = { λ _ why. why ≡ stop.NoMemory };

    fn from(_error: NoMemory) -> WhyStopped {
        WhyStopped::NoMemory
    }
}

impl From<AllocError> for WhyStopped {
    ghost from_gives = { λ _ why. why ≡ stop.NoMemory };

    fn from(_error: AllocError) -> WhyStopped {
        WhyStopped::NoMemory
    }
}

impl<T: Drop> From<AllocFailed<T>> for WhyStopped {
    ghost from_gives = { λ _ why. why ≡ stop.NoMemory };

    fn from(_failed: AllocFailed<T>) -> WhyStopped {
        WhyStopped::NoMemory
    }
}
