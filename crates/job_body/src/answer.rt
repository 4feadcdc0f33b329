// Why there is no plan.
ghost use Rattle.std.specs.Prelude.{◌≡◌};
ghost use Rattle.job_body.specs.PlanOfJob.{of_input};
ghost use Rattle.job_body.specs.declared.answer.PlanAnswer.TheVariants as answer;

use std::alloc::AllocError;
use swan_model::{LinesAnswer, NoMemory};

/// Why there is no plan.
#[derive(Clone, Copy, Debug, PartialEq, Eq)]
pub enum PlanAnswer {
    /// The number of inputs isn't the job's.
    Inputs {
        /// How many inputs the job has.
        wanted: u64,
        /// How many there are.
        given: u64,
    },
    /// A line of an input has more bytes than a record may have.
    RecordTooLong {
        /// The input's number, from 1 on.
        input: u64,
        /// The line's number, from 1 on.
        line: u64,
    },
    /// An input has more lines than a queue may begin with.
    TooManyRecords {
        /// The input's number, from 1 on.
        input: u64,
    },
    /// Memory ran out.
    NoMemory,
}

impl PlanAnswer {
    /// Why the input of this number, from 1 on, is refused, by what its text has. It takes no memory. `O(1)`.
    pub fn of_input(input: u64, why: LinesAnswer) -> PlanAnswer
        ensures { result ≡ of_input input why }
    {
        match why {
            LinesAnswer::TooLong { line } => PlanAnswer::RecordTooLong { input, line },
            LinesAnswer::TooMany => PlanAnswer::TooManyRecords { input },
            LinesAnswer::NoMemory => PlanAnswer::NoMemory,
        }
    }
}

impl From<AllocError> for PlanAnswer {
    ghost from_gives = { λ _ why. why ≡ answer.NoMemory };

    fn from(_error: AllocError) -> PlanAnswer {
        PlanAnswer::NoMemory
    }
}

impl From<NoMemory> for PlanAnswer {
    ghost from_gives = { λ _ why. why ≡ answer.NoMemory };

    fn from(_want: NoMemory) -> PlanAnswer {
        PlanAnswer::NoMemory
    }
}
