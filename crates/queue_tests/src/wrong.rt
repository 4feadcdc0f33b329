// Why a table isn't met.
use swan_model::NoMemory;

/// Why a call isn't met.
#[derive(Clone, Copy, Debug, PartialEq, Eq)]
pub enum Wrong {
    /// Memory ran out.
    NoMemory,
    /// The answer was another one.
    Answer,
}

impl From<NoMemory> for Wrong {
    fn from(_none: NoMemory) -> Wrong {
        Wrong::NoMemory
    }
}

/// The first call of a table that isn't met, counted from 0.
#[derive(Clone, Copy, Debug, PartialEq, Eq)]
pub struct WrongStep {
    /// Which call it is.
    pub step: usize,
    /// Why it isn't met.
    pub wrong: Wrong,
}
