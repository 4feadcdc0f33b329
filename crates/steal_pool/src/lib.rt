//! Pools of ready frames, from which workers help themselves and each other without a lock.
//!
//! Each worker of a run has a seat of the pool. It puts the frames that it makes ready into a deque of its own and takes from there,
//! first in, first out; where it finds nothing it steals from the other seats' deques, as Chase and Lev have it, in "Dynamic Circular
//! Work-Stealing Deque", SPAA 2005.
//!
//! - `pool` makes the seats, whose name is that of a value that it is shown. What is put has to have that name.
//! - `PoolSeat::put` puts a frame. Where the deque can't grow, the frame goes to a list of the seat's own, which nobody else takes
//!   from, so it is never lost.
//! - `PoolSeat::take` looks into the seat's deque, then into its list, and then tries one steal at each other seat, the next one
//!   first. It answers `Dry` where it found nothing. Only it makes one.
//! - `PoolSeat::is_bare` looks whether the seat's deque is empty.
//!
//! Promised, and proved over all interleavings of the seats' steps:
//!
//! - Each seat of a new pool knows each other one, the next one first, and never forgets one.
//! - What comes out has the pool's name.
//! - `take` gives one frame, from the deque, the list or another seat, and no other frame leaves by that call.
//! - `Dry` comes only where a pop of this call found the seat's deque empty at one moment, its list is empty, and a steal from each
//!   other seat, in order, gave no frame. The caller's own `Outcome` says what it learns of an empty deque. A `Dry` holds two tokens,
//!   one that only that pop gives and one to which only such a steal adds a deque, so no other body can answer it.
//! - `is_bare` is true only where the seat's deque was empty at one moment, of which the caller learns the same, and false only where
//!   a frame stood there.
//!
//! That a frame which comes out was put, and goes out once, needs no clause: a frame moves by value, is not copied, and this code
//! is generic in its type, so it can make none.
//!
//! Not promised: that a steal finds what is there, or that a frame that was put is ever taken.
#![tactic(auto)]

mod deque;
mod dry;
mod finding;
mod kept;
mod limits;
mod opening;
mod parcel;
mod peer;
mod peers;
mod rule;
mod seat;
mod stealing;
#[cfg(test)]
mod tests;

pub use dry::Dry;
pub use limits::limit_of_seats;
pub use opening::pool;
pub use rule::{DequeStage, PoolView};
pub use seat::PoolSeat;
