//! Runs of a plan out of order.
//!
//! `run_alone` runs an opened core to its end on one thread. It keeps the live frames on a stack, with each child above its
//! parent: the top is the earliest live frame in serial order, so it never has to wait. `turns_are_few` says how long such a run
//! can be, and how many frames stand there.
//!
//! `run` runs a plan by several workers, each in a thread of its own, and answers the outcome of the serial elision for every number of
//! them and every interleaving. `open`, `Worker::turn` and `close` are its parts. The core stands behind one lock, with the frames that
//! are ready and those that sleep. A worker takes steps of a frame outside the lock, and then one in a hold. A frame that has to wait
//! sleeps under a live one until that has ended; or, where it waits for a push, until that has taken a step about the queue, has taken
//! its first step, or has spawned a child that may push to the queue.
//!
//! Not promised: that `run` returns, that its work is shared, and that a frame is woken as soon as it may go on.
#![tactic(auto)]

mod alone;
mod asleep;
mod backoff;
mod laws;
mod limits;
mod opening;
mod shape;
mod shared;
mod sleepers;
mod threads;
mod trying;
mod turn;
mod worker;
mod worker_turns;

pub use alone::run_alone;
pub use laws::turns_are_few;
pub use limits::{FRUITLESS_MOST, SLEEP_LEAST, SLEEP_MOST, limits_of_shapes, limits_of_sleeps};
pub use opening::{close, open};
pub use shape::{RING_MOST, Shape, WORKERS_MOST};
pub use threads::run;
pub use turn::Turn;
pub use worker::Worker;
