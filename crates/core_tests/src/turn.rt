// What a turn of a frame comes to.
use queues::WaitFor;

/// What a turn of a frame comes to: first the frame's number, then how many steps it took by itself.
#[derive(Clone, Copy, Debug, PartialEq, Eq)]
pub enum FrameTurn {
    /// It took so many, which was its budget.
    Works(u64, u64),
    /// It found no memory for one of them.
    Torn(u64),
    /// The core took the next one.
    Runs(u64, u64),
    /// The core took the next one, by which it spawned the child of this number.
    Spawns(u64, u64, u64),
    /// The core took the next one, by which it ended.
    Ends(u64, u64),
    /// It has to wait for this.
    Waits(u64, u64, WaitFor),
    /// It isn't the frame that the core gave last.
    Strange(u64, u64),
    /// The core has found no memory.
    NoMemory(u64, u64),
}

impl FrameTurn {
    /// The frame's number.
    pub fn frame(&self) -> u64 {
        match self {
            FrameTurn::Works(frame, _) => *frame,
            FrameTurn::Torn(frame) => *frame,
            FrameTurn::Runs(frame, _) => *frame,
            FrameTurn::Spawns(frame, _, _) => *frame,
            FrameTurn::Ends(frame, _) => *frame,
            FrameTurn::Waits(frame, _, _) => *frame,
            FrameTurn::Strange(frame, _) => *frame,
            FrameTurn::NoMemory(frame, _) => *frame,
        }
    }

    /// How many steps it may take by itself.
    pub fn budget(&self) -> u64 {
        match self {
            FrameTurn::Works(_, budget) => *budget,
            _ => u64::MAX,
        }
    }
}
