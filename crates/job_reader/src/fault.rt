// What can be wrong with a job.
ghost use Rattle.std.specs.Prelude.{◌≡◌};
ghost use Rattle.job_reader.specs.Faults.{IsReadAs, both, first_kind, order_of};
ghost use Rattle.job_reader.specs.declared.fault.ReadLine.TheVariants as refusal;
ghost use Rattle.job_reader.specs.declared.fault.ReadJob.TheVariants as read;
ghost use Rattle.std.specs.Prelude.{Result};

use std::alloc::{AllocError, AllocFailed};
use swan_model::NoMemory;

/// What is wrong with a line of a job. The reader answers the first seven, and the checker the rest.
#[derive(Clone, Copy, Debug, PartialEq, Eq)]
pub enum JobKind {
    /// A byte that may not stand in a job.
    BadByte,
    /// The first line is neither `swan 1` nor `swan 2`.
    BadHeader,
    /// Not a line that may stand there, by its first token, how many it has, a kind, an operation or a literal.
    BadLine,
    /// A token that isn't a name stands in a name's position, or one that is no number, literal or name in a value's.
    /// A name has at most 32 bytes.
    BadName,
    /// A token that begins as a number isn't one.
    BadNumber,
    /// An `else` that belongs to no `if`, or a task that is still open at the end.
    Unbalanced,
    /// More than 20,000 lines, 16 inputs or 32 blocks that are open at once, or a line of more than 4,096 bytes without its
    /// outer spaces.
    Limit,
    /// The name is taken.
    Duplicate,
    /// The name isn't known.
    Unknown,
    /// The name or value is of another sort or kind than its position asks for.
    Kind,
    /// A task is given more or less than it takes.
    Arity,
    /// The name may not be used so.
    Privilege,
    /// An object or a queue is given twice, and not only to read.
    Alias,
    /// There is no task `main`.
    NoMain,
    /// The task `main` takes something, or is spawned.
    MainParams,
}

/// A fault of a job.
#[derive(Clone, Copy, Debug, PartialEq, Eq)]
pub struct JobFault {
    /// The line, counted from 1.
    pub line: u64,
    /// What is wrong with it.
    pub kind: JobKind,
}

/// Why there is no job.
#[derive(Clone, Copy, Debug, PartialEq, Eq)]
pub enum ReadJob {
    /// The text has a fault, of which this is the first.
    Refused(JobFault),
    /// Memory ran out.
    NoMemory,
}

/// Why there is no line.
#[derive(Clone, Copy, Debug, PartialEq, Eq)]
pub enum ReadLine {
    /// The line has a fault, and this is the first kind of it.
    Refused(JobKind),
    /// Memory ran out.
    NoMemory,
}

impl From<AllocError> for ReadLine {
    ghost from_gives = { λ _ refused. refused ≡ refusal.NoMemory };

    fn from(_error: AllocError) -> ReadLine {
        ReadLine::NoMemory
    }
}

impl<T: Drop> From<AllocFailed<T>> for ReadLine {
    ghost from_gives = { λ _ refused. refused ≡ refusal.NoMemory };

    fn from(_failed: AllocFailed<T>) -> ReadLine {
        ReadLine::NoMemory
    }
}

impl From<NoMemory> for ReadLine {
    ghost from_gives = { λ _ refused. refused ≡ refusal.NoMemory };

    fn from(_want: NoMemory) -> ReadLine {
        ReadLine::NoMemory
    }
}

impl<T: Drop> From<AllocFailed<T>> for ReadJob {
    ghost from_gives = { λ _ refused. refused ≡ read.NoMemory };

    fn from(_failed: AllocFailed<T>) -> ReadJob {
        ReadJob::NoMemory
    }
}

impl JobKind {
    /// The position of a kind of the text among the kinds, where a line has several.
    fn order(self) -> u8
        ensures { result ≡ order_of self }
    {
        match self {
            JobKind::BadByte => 0,
            JobKind::Limit => 1,
            JobKind::BadHeader => 2,
            JobKind::BadLine => 3,
            JobKind::BadName => 4,
            JobKind::BadNumber => 5,
            JobKind::Unbalanced => 6,
            _ => 7,
        }
    }

    /// The one of two kinds that is named.
    pub(crate) fn first(self, other: JobKind) -> JobKind
        ensures { result ≡ first_kind self other }
    {
        if self.order() <= other.order() {
            self
        } else {
            other
        }
    }
}

/// Both of two answers, or the first kind of fault that they have.
pub fn both<A: Drop, B: Drop>(
    a: Result<A, ReadLine>,
    b: Result<B, ReadLine>,
) -> Result<(A, B), ReadLine>
    ensures { (x : Result A JobKind) (y : Result B JobKind) → IsReadAs a x → IsReadAs b y → IsReadAs result (both x y) }
{
    match (a, b) {
        (Ok(a), Ok(b)) => Ok((a, b)),
        (Err(ReadLine::NoMemory), _) | (_, Err(ReadLine::NoMemory)) => Err(ReadLine::NoMemory),
        (Err(ReadLine::Refused(kind)), Ok(_)) | (Ok(_), Err(ReadLine::Refused(kind))) => {
            Err(ReadLine::Refused(kind))
        }
        (Err(ReadLine::Refused(a)), Err(ReadLine::Refused(b))) => {
            Err(ReadLine::Refused(a.first(b)))
        }
    }
}
