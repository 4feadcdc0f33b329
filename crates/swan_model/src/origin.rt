// What made an object or a queue.

/// What made an object or a queue: the plan, of whose objects or queues it is the one of this index; or the step of the
/// elision that has this number. Both count from 0 on.
#[derive(Clone, Copy, Debug, PartialEq, Eq)]
pub enum Origin {
    /// The plan, by the index among its objects or its queues.
    Root(u32),
    /// The step of this number.
    Step(u64),
}
