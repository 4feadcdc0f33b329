// The sign of a lock.

/// How what a lock keeps stands, as its sign says.
pub enum Sign {
    /// It goes on.
    Runs,
    /// It is done, for good.
    Done,
    /// It was stopped, for good.
    Stopped,
}
