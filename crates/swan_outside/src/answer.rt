// Why a call outside was refused.
ghost use Rattle.std.specs.Prelude.{◌≡◌};
ghost use Rattle.swan_outside.specs.declared.answer.ReadAnswer.TheVariants as answer;

use std::alloc::AllocError;

/// The outside failed, and the count of faults of the object that was handed in rose.
#[derive(Clone, Copy, Debug, PartialEq, Eq)]
pub struct Failed;

/// Why a file wasn't read.
#[derive(Clone, Copy, Debug, PartialEq, Eq)]
pub enum ReadAnswer {
    /// The file can't be read, and the count of faults rose.
    Failed,
    /// The file has more than 67,108,864 bytes, and the count of long reads rose.
    TooLong,
    /// Memory ran out.
    NoMemory,
}

impl From<AllocError> for ReadAnswer {
    ghost from_gives = { λ _ refusal. refusal ≡ answer.NoMemory };

    fn from(_error: AllocError) -> ReadAnswer {
        ReadAnswer::NoMemory
    }
}
