// Queues that are given to a child.
use std::marker::Model;
use swan_model::Mode;

/// A queue that a child is given, and how the child may use it.
#[derive(Clone, Copy, Debug, PartialEq, Eq)]
pub struct QueueGive {
    /// The queue's number.
    pub queue: u32,
    /// How the child may use it: by Push, Pop or PushPop.
    pub mode: Mode,
}

impl Model for QueueGive {
    ghost use Rattle.swan_model.specs.QueueState.{QueueRight};

    ghost Value = { QueueRight };

    ghost view = { λ give. record { queue = give.queue; mode = give.mode } };

    ghost inverse = { λ right. record { queue = right.queue; mode = right.mode } };
}
