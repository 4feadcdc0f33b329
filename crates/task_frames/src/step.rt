// What comes of a step at the core.
use crate::FrameAtCore;
use queues::WaitFor;
use swan_model::Body;

/// What came of a frame that was to take its next step at the core.
#[derive(Drop)]
pub enum Step<B: Body> {
    /// It has taken the step and goes on.
    Runs(FrameAtCore<B>),
    /// It has spawned this child, and both go on.
    Spawned(FrameAtCore<B>, FrameAtCore<B>),
    /// It has to wait, and took no step.
    Waits(FrameAtCore<B>, WaitFor),
    /// It has ended by this step.
    Ended,
}
