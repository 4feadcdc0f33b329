// What can go wrong in a task.
use crate::{Listed, Path};

/// Why a task ends itself by a fault.
#[derive(Clone, Copy, Debug, PartialEq, Eq)]
pub enum Trouble {
    /// A number doesn't fit 64 bits.
    Overflow,
    /// A division by 0.
    DivideByZero,
    /// A number outside the range that its place asks for.
    Range,
    /// Bytes that don't fit a record.
    TooLong,
    /// Bytes that aren't the text of a number.
    BadNumber,
    /// The task's own, with a number of its choice.
    User(i64),
}

/// What a task did wrong.
#[derive(Clone, Copy, Debug, PartialEq, Eq)]
pub enum FaultKind {
    /// The task ended itself.
    Trouble(Trouble),
    /// It popped from an empty queue.
    PopEmpty,
    /// It used or gave what it doesn't hold so.
    Privilege,
    /// It gave one object or queue twice to a child, and not only to read.
    Alias,
    /// It had no fuel left, or gave more to a child than it had.
    Fuel,
    /// It spawned from a path of the largest number of parts.
    Depth,
}

/// One fault. It ended its task, and its parent has one more failed child. Nothing else came of it.
#[derive(Drop)]
pub struct Fault {
    /// The task.
    pub path: Path,
    /// Where in the task's program it was, as its body says; in a job the line number.
    pub place: u64,
    /// What was wrong.
    pub kind: FaultKind,
}

/// Faults. In an outcome they stand in serial order: that of a task after those of the tasks below it, and before those of its
/// younger siblings and of the tasks below them.
pub type Faults = Listed<Fault>;
