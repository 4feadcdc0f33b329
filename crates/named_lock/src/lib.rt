//! A lock on a value whose name is fixed when the lock is opened.
//!
//! A run's state lies behind one lock, and several workers take it, one at a time. What a worker finds there has to be
//! the state of its own run, and once that run is done it has to stay done. `NamedLock` keeps both, over all
//! interleavings of the workers' steps, and no call of it waits: where the state is taken, `try_take` says so.
//!
//! - A value that is `Named` means a name, and that it is done or not.
//! - `NamedLock::open` gives a lock with its seats, one for each worker. A seat belongs to its lock, and what it knows
//!   is plain data that clauses see (definition `View`): how often it took the state, how often it found it taken, and
//!   what it saw of the lock's sign.
//! - `try_take` gives the state as `Held`, which can't be dropped: it goes back by `give`, with the name of the lock,
//!   and done where it was done before.
//! - The sign is Runs at first. `finish` sets it to Done where it runs, for which the state that is held has to be done,
//!   and `stop` to Stopped where it runs. So a worker learns by one load that nothing is left to be done.
//! - `close` takes all seats, and gives the state back.
//!
//! Promised, and proved of each value that is `Named`: what `try_take` and `close` give has the lock's name; a state that was
//! done stays done; after `is_done` has answered true, each state that this seat takes, and the one that `close` gives, is
//! done; and a seat that has seen the sign Done or Stopped finds it so at each later look. That at most one seat holds the state at a
//! time is the rule that each step keeps (`IsLock` in `specs/Rule`), and there is one state, which moves.
//!
//! Not promised: that a seat which tries again and again ever finds the state free.
#![tactic(auto)]

mod held;
mod lock;
mod name_of;
mod named;
mod plays;
mod rule;
mod seat;
mod sign;
#[cfg(test)]
mod tests;

pub use held::Held;
pub use lock::NamedLock;
pub use name_of::NameOf;
pub use named::Named;
pub use seat::LockSeat;
pub use sign::Sign;
