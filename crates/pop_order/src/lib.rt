//! The turns of poppers: who may pop now, and whether an earlier frame can still push.
//!
//! A frame is one task of a run. It may give a queue to the children that it spawns, to push, to pop,
//! or both, and then they run at the same time. What a queue answers must still be what it answers in
//! serial order, in which each child runs whole at the step that spawns it. That rests on two
//! questions. Which child may pop now? One that has no older popping sibling. And is what a frame
//! finds in a queue all that it would find in serial order? Yes, where none of its children pops, and
//! no frame that is earlier in serial order can still push.
//!
//! `PopTurns` answers both, exactly. Contracts see it as the active frames that were given queues, each
//! behind its number: its parent, its queues and modes, and whether the views of its popped queues were
//! moved to it. Parents make trees of them, and the order of a tree is the serial order of its frames:
//! a frame comes after all that are below it, and after its older siblings with all that are below
//! those. Frames of different trees are never compared, since a queue stays within the tree of the
//! frame that made it.
//!
//! Promised, and proved of each call: what it answers and what it leaves, with the oldest child, and the
//! first frame in the order of the tree. By the law `order_is_serial` that is the order of points in a plan's
//! script, as long as each frame has an entry left. Of the calls of `PopTurns` only `enlist` takes memory.
//! After want of memory nothing is said of the frames.
//!
//! Inside, three sets stand beside the frames: the children that pop, and those that push, each by parent
//! and queue; and the givers, by queue: the frames that may not push to it themselves and have a child that
//! may. All pushers of a queue are below its givers, and a run's queue has one. So no call looks at all
//! siblings, and none but `certain` goes up or down a tree. The givers are a set of pairs of numbers (`NumberPairs`), which is public
//! for those who keep such a set of their own; after want of memory it is as it was.
#![tactic(auto)]

mod certain;
mod children;
mod frame;
mod frames;
mod laws;
mod number_pairs;
mod order;
mod poppers;
mod sets;
mod turns;
mod walk;

pub use certain::Certain;
use children::Children;
use frame::{QueueHolding, TurnFrame};
pub use laws::order_is_serial;
pub use number_pairs::NumberPairs;
use sets::Sets;
pub use turns::PopTurns;
