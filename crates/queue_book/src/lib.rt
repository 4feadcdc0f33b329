//! The hyperqueues of a run in the plainest form.
//!
//! `queues` says what hyperqueues are, and promises it of each form. `BookQueues` is the first form, as plain as can
//! be. A queue is a list of chunks in serial order; each active frame that has the queue owns one, where it pushes, and
//! one that may only pop owns one too, which marks its place. Where a child may still pop, a pop names the oldest such child.
//! Else it takes from the first chunk that isn't spent; or where no item is there, it names the first owner before the frame's
//! own chunk that may push; or there is none, and the queue is empty. Chunks are nodes of a slab, and popped items are
//! given up at once. Its ends, `NoEnds`, serve nothing.
//!
//! What stands in the chunks, and whose they are, is said in `queues` (`specs/Chunks`). Here is said how they are kept:
//! chains of nodes, the frames by number, and the turns of those that pop.
#![tactic(auto)]

mod book;
mod chains;
mod ending;
mod fronts;
mod live_frame;
mod live_frames;
mod no_ends;
mod node;
mod spawns;
mod stated;
mod store;

pub use book::BookQueues;
use live_frame::{OwnChunk, QueueFrame};
pub use no_ends::NoEnds;
use node::ChunkNode;
use queues::{LocalEnds, Popped, QueueGive, Queues, Tested, WaitFor};
