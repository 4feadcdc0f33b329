// A call on the turns of poppers, and its answer.
use pop_order::Certain;
use swan_model::Mode;

/// A call on the turns of poppers, and the answer that it has to have.
#[derive(Clone, Copy)]
pub enum Step {
    /// `enlist` of this parent, child, queue and mode.
    Enlist(u64, u64, u32, Mode),
    /// `may_start` of this child.
    MayStart(u64, Result<(), u64>),
    /// `lend` of this child, which may start.
    Lend(u64),
    /// `back` of this child.
    Back(u64),
    /// `popping_child` of this frame and queue.
    PoppingChild(u64, u32, Option<u64>),
    /// `certain` of this frame and queue.
    Finds(u64, u32, Certain),
}
