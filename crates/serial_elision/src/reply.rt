// What asks come to, as far as the stack isn't concerned.
use swan_model::{Answer, Child, FaultKind, Trouble, Value};

/// What an ask comes to.
#[derive(Drop)]
pub enum Reply<L> {
    /// Its task goes on, and its next step is told this.
    Told(Answer),
    /// Its task goes on. Its next step is told how many of the task's children failed, and the task counts
    /// anew.
    Synced,
    /// Its task ends by this fault.
    Fault(FaultKind),
    /// It is about the task itself, and has had no effect yet.
    Own(OwnAsk<L>),
}

/// An ask about the task itself: for a place or a child of its own, or to end.
#[derive(Drop)]
pub enum OwnAsk<L> {
    /// A new queue.
    NewQueue,
    /// A new object with this value.
    NewObject(Value),
    /// A child.
    Spawn(Child<L>),
    /// To end.
    Finish,
    /// To end with a fault.
    Fail(Trouble),
}
