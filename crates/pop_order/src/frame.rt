// What is kept of an active frame.
ghost use Rattle.std.specs.Prelude.{◌≡◌, ◌++◌, ◌∷◌, [], true, OnOk, OnErr};

use std::marker::Model;
use swan_model::{Mode, NoMemory};

/// A queue that a frame was given, and how it may use it.
#[derive(Clone, Copy)]
pub struct QueueHolding {
    /// How it may be used.
    pub mode: Mode,
    /// Which queue it is.
    pub queue: u32,
}

impl Model for QueueHolding {
    ghost use Rattle.swan_model.specs.SerialState.{Holding as TheHolding};

    ghost Value = { TheHolding };

    ghost view = { λ holding. record { mode = holding.mode; number = holding.queue } };

    ghost inverse = { λ held. record { mode = held.mode; queue = held.number } };
}

/// An active frame.
#[derive(Drop)]
pub struct TurnFrame {
    /// The frame that spawned it.
    pub parent: u64,
    /// The queues that it was given.
    pub holdings: Vec<QueueHolding>,
    /// Whether the queue views of its popped queues were moved to it.
    pub lent: bool,
}

impl Model for TurnFrame {
    ghost use Rattle.pop_order.specs.Frames.{TurnFrame as TheTurnFrame};

    ghost Value = { TheTurnFrame };

    ghost view = { λ frame. record {
      parent = frame.parent;
      holdings = frame.holdings.items;
      lent = frame.lent;
    } };
}

impl TurnFrame {
    /// Adds a holding. Err is want of memory, and changes nothing. `O(1)` amortised.
    pub fn hold(&mut self, holding: QueueHolding) -> Result<(), NoMemory>
        ensures ok { OnOk result (self.new ≡ record self.old { holdings = self.old.holdings ++ holding ∷ [] }) }
        ensures err { OnErr result (self.new ≡ self.old) }
    {
        self.holdings.push(holding)?;
        Ok(())
    }

    /// Notes that the queue views of its popped queues were moved to it. `O(1)`.
    pub fn lend(&mut self)
        ensures { self.new ≡ record self.old { lent = true } }
    {
        self.lent = true;
    }
}
