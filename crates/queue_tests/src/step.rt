// A call on hyperqueues with its answer.
use queues::{Tested, WaitFor};
use swan_model::Mode;

/// A call on hyperqueues, with the answer that it has to give. Frames and queues go by their numbers, a frame first.
#[derive(Clone, Copy)]
pub enum Step<'a> {
    /// Makes a root queue with one first item: its number, and the item.
    CreateRoot(u32, i64),
    /// Makes a queue, which gets this number.
    Create(u64, u32),
    /// Makes this child of a frame, which is given one queue by a mode.
    Spawn(u64, u64, u32, Mode),
    /// Asks whether a child may begin to pop, and has to be told who keeps it from that, or that nobody does.
    MayStart(u64, Option<u64>),
    /// Uses a queue in this way.
    Use(u64, u32, Use),
    /// Syncs and ends a frame.
    Finish(u64),
    /// Takes what is left of a queue: these numbers.
    TakeRest(u32, &'a [i64]),
}

/// How a frame uses a queue, with the answer that it has to get.
#[derive(Clone, Copy)]
pub enum Use {
    /// Pushes a number.
    Push(i64),
    /// Pops a number.
    Pop(i64),
    /// Pops, and finds that none is left.
    PopNone,
    /// Pops, and has to wait.
    PopWait(WaitFor),
    /// Tests for emptiness.
    Test(Tested),
    /// Looks whether there is an item.
    Look(Tested),
}
