// What comes of steps that a frame takes by itself.
use crate::Steps;

/// Why a frame has stopped taking steps by itself.
#[derive(Drop)]
pub enum Paused {
    /// So many steps were taken, and the next one needs the core.
    AtCore(Steps),
    /// So many steps were taken, which is the budget.
    Budget(Steps),
    /// Want of memory. The frame has no local any more.
    NoMemory,
}
