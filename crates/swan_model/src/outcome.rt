// What a run leaves, and the names that it is printed with.
use crate::{Faults, Listed, ValueLists, Values, Word, Words};

/// What a run leaves.
#[derive(Drop)]
pub struct Outcome {
    /// The value of each object that the plan began with, in its order.
    pub objects: Values,
    /// The items that are left in each queue that the plan began with, in its order.
    pub queues: ValueLists,
    /// The faults in serial order.
    pub faults: Faults,
}

/// What is printed of a queue.
#[derive(Clone, Copy, Debug, PartialEq, Eq)]
pub enum Shown {
    /// How many items are left, a line of the report.
    Left,
    /// Each item that is left, in the output.
    Out,
}

/// A queue's name, and what is printed of it.
#[derive(Drop)]
pub struct QueueName {
    /// The name.
    pub name: Word,
    /// What is printed.
    pub shown: Shown,
}

/// Names of queues in order.
pub type QueueNames = Listed<QueueName>;

/// The names of what a plan begins with.
#[derive(Drop)]
pub struct Names {
    /// The queues, in the plan's order.
    pub queues: QueueNames,
    /// The objects, in the plan's order.
    pub objects: Words,
}
