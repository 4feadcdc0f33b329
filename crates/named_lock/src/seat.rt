// Seats.
use crate::Named;
use crate::rule::View;
use atomic_table::Seat;

/// What one worker takes a lock with. It has no bytes, belongs to its lock, and may move to another thread.
#[derive(Drop)]
pub struct LockSeat<S: Named> {
    pub(crate) seat: Seat<Option<S>, View<S::Name>>,
}
