// What resuming a frame answers.
ghost use Rattle.std.specs.Prelude.{◌≡◌};

use crate::{Frame, Steps};
use queues::{Queues, WaitFor};
use swan_model::Body;

/// Shows that a frame has to wait. Only `Core::resume` makes one, with each `Resumed::Waits`.
#[derive(Drop)]
pub struct Waited {
    wait: WaitFor,
}

impl Waited {
    /// For this. It takes no memory. `O(1)`.
    pub(crate) fn of(wait: WaitFor) -> Waited
        ensures { result.wait ≡ wait }
    {
        Waited { wait }
    }

    /// What the frame has to wait for. It takes no memory. `O(1)`.
    pub fn wait(&self) -> WaitFor
        ensures { result ≡ self.now.wait }
    {
        self.wait
    }
}

/// Shows that a frame wasn't one of the core's. Only `Core::resume` makes one, with each `Resumed::Strange`.
#[derive(Drop)]
pub struct Foreign {
    number: u64,
}

impl Foreign {
    /// The frame of this number. It takes no memory. `O(1)`.
    pub(crate) fn of(number: u64) -> Foreign
        ensures { result.number ≡ number }
    {
        Foreign { number }
    }
}

/// What came of a frame that was resumed.
#[derive(Drop)]
pub enum Resumed<B: Body, Q: Queues> {
    /// It has taken the step and goes on.
    Runs(Frame<B, Q>, Steps),
    /// It has spawned this child, and both go on.
    Spawned(Frame<B, Q>, Frame<B, Q>, Steps),
    /// It took no step, and has to wait for this.
    Waits(Frame<B, Q>, Waited),
    /// It has ended by the step.
    Ended(Steps),
    /// It isn't the frame that the core gave last under its number. Nothing was changed.
    Strange(Frame<B, Q>, Foreign),
    /// Want of memory. The frame is torn.
    NoMemory,
}
