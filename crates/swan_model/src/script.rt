// Scripts: what a serial elision does, step by step.
use crate::{Listed, Mode, Origin, Path, Value, ValueLists, Values};

/// What a child is given: an object or a queue, named by what made it, and how the child may use it.
/// A mode of queues gives a queue, and another one an object.
#[derive(Clone, Copy, Debug, PartialEq, Eq)]
pub struct OriginGive {
    /// What made it.
    pub origin: Origin,
    /// How the child may use it.
    pub mode: Mode,
}

/// What a child is given, queues and objects together, in the order of its places.
pub type OriginGives = Listed<OriginGive>;

/// What one step of the elision does. Objects and queues are named by what made them.
#[derive(Drop)]
pub enum Deed {
    /// A new queue, which this step makes.
    MakeQueue,
    /// A new object with this value, which this step makes.
    MakeObject(Value),
    /// A child that is given this.
    Spawn(OriginGives),
    /// This value goes to the end of a queue.
    Push(Origin, Value),
    /// The first item of a queue leaves it, where there is one.
    Pop(Origin),
    /// A queue is tested for emptiness.
    Test(Origin),
    /// An object is read.
    Read(Origin),
    /// An object gets this value.
    Write(Origin, Value),
    /// All children have ended.
    Sync,
    /// Nothing that another task could see: work of the task's own, its end, or a fault.
    Quiet,
}

/// One step of the elision.
#[derive(Drop)]
pub struct Entry {
    /// The task whose step it is.
    pub path: Path,
    /// What the step does.
    pub deed: Deed,
    /// Whether the task ends by it.
    pub ends: bool,
}

/// Entries in the order of the steps.
pub type Entries = Listed<Entry>;

/// What the serial elision of a plan does: with which lists the root queues and with which values the
/// root objects begin, and one entry for each step.
#[derive(Drop)]
pub struct Script {
    /// The first items of each root queue.
    pub queues: ValueLists,
    /// The first value of each root object.
    pub objects: Values,
    /// What each step does.
    pub entries: Entries,
}
