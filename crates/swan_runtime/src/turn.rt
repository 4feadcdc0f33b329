// What a worker's turn answers.
ghost use Rattle.std.specs.Prelude.{◌≡◌};
ghost use Rattle.swan_runtime.specs.Turned.{is_last};

use task_frames::{Foreign, Steps, Waited};

/// What came of a worker's turn.
#[derive(Drop)]
pub enum Turn {
    /// So many steps were taken, one at least.
    Stepped(Steps),
    /// No step was taken: the frame that the worker had has to wait for this.
    NotYet(Waited),
    /// No step was taken: what the turn needs was held by another worker.
    Busy,
    /// No step was taken: no frame was ready to go on.
    Idle,
    /// No step was taken: the frame that the worker has isn't the one that the core gave last under its number.
    Strange(Foreign),
    /// The run is done.
    Done,
    /// Want of memory, of this worker or of another one. The run is stopped for good.
    NoMemory,
}

impl Turn {
    /// Whether it is a worker's last one: the run is done, or stopped. It takes no memory. `O(1)`.
    pub fn is_last(&self) -> bool
        ensures { result ≡ is_last self.now }
    {
        match self {
            Turn::Done => true,
            Turn::NoMemory => true,
            _ => false,
        }
    }
}
