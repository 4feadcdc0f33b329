// What the queues of a run answer.
use swan_model::Value;

/// What a frame has to wait for.
#[derive(Clone, Copy, Debug, PartialEq, Eq)]
pub enum WaitFor {
    /// This child is active.
    Child(u64),
    /// This frame owes the version of an object.
    Version(u64),
    /// This frame is active, and pops a queue before the one that waits may.
    PopTurn(u64),
    /// This frame is active, is earlier in serial order and may still push.
    Pusher(u64),
}

/// What a pop answers.
#[derive(Drop)]
pub enum Popped {
    /// The first item of the queue, which left it.
    Item(Value),
    /// In serial order the queue is empty at this step.
    Empty,
    /// It can't be told yet.
    NotYet(WaitFor),
}

/// What a test for emptiness answers.
#[derive(Clone, Copy, Debug, PartialEq, Eq)]
pub enum Tested {
    /// In serial order the queue has an item at this step.
    Holds,
    /// In serial order the queue is empty at this step.
    Empty,
    /// It can't be told yet.
    NotYet(WaitFor),
}
