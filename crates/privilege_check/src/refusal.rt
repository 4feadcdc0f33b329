// Why a line isn't taken.
ghost use Rattle.std.specs.Prelude.{◌≡◌};
ghost use Rattle.privilege_check.specs.declared.refusal.CheckLine.TheVariants as refusal;

use job_reader::JobKind;
use std::alloc::{AllocError, AllocFailed};
use swan_model::NoMemory;

/// Why a line isn't taken.
#[derive(Clone, Copy, Debug, PartialEq, Eq)]
pub enum CheckLine {
    /// The line has a fault, and this is its first.
    Refused(JobKind),
    /// Memory ran out.
    NoMemory,
}

impl From<JobKind> for CheckLine {
    ghost from_gives = { λ kind answer. answer ≡ refusal.Refused kind };

    fn from(kind: JobKind) -> CheckLine {
        CheckLine::Refused(kind)
    }
}

impl From<NoMemory> for CheckLine {
    ghost from_gives = { λ _ answer. answer ≡ refusal.NoMemory };

    fn from(_want: NoMemory) -> CheckLine {
        CheckLine::NoMemory
    }
}
