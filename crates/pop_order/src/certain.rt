// What a frame may know of a queue.

/// Whether the items that a queue has at a frame's place in serial order are certain: those that the
/// frame would find, and no others.
#[derive(Clone, Copy, Debug, PartialEq, Eq)]
pub enum Certain {
    /// They are: no popping child of the frame is active, and no frame that is earlier in serial order
    /// can still push.
    Yes,
    /// This frame is active, is earlier in serial order and may still push. It is the first of those.
    EarlierPusher(u64),
    /// This child of the frame is active and may still pop. It is the oldest of those.
    PoppingChild(u64),
}
