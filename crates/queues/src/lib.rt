//! The contract of the hyperqueues of a run, whatever their form, and the laws that speak of no form.
//!
//! A frame is one task of a run. `Queues` is what its frames use: they make queues, spawn children that may
//! push or pop, push, pop and test. Frames act in any order that their spawns and syncs allow, and yet each is
//! answered what it is answered in serial order, or is told for whom it has to wait. `LocalEnds` are the ends
//! that a running frame has with it, by which it pushes, pops and tests without asking the queues.
//!
//! Contracts see hyperqueues as a name, which means a script or nothing, as a run, and as a state of plain data:
//! the active frames, what each holds and how many deeds of queues it has done, and what made each queue. Each
//! call is one equation on the state. What is answered is told by the script, at the frame's point among queues,
//! for every script that is lawful. With the free name nothing is said of items.
//!
//! Proved are laws that speak of no form. Calls lead from a state that follows a script to one that follows it
//! (`calls_follow`). What the state says of a frame's point, of items and of the serial order is what each full reading
//! says that fits (`points_of_queues_agree`), and what a frame does next there is what it does next among queues
//! (`next_deeds_agree`). With each call such a reading goes on, and all other entries need none (`readings_go_on`).
//!
//! Further laws say what each form keeps, whether or not there is a script: that the frames are a tree
//! (`frames_stay_a_tree`), what each call leaves of the active ones (`active_frames_stay`), that those that have spawned
//! have their turns (`spawners_have_their_turns`), that no call takes a turn away (`a_turn_stays`), that the turns of
//! poppers beside the queues are those of the frames (`turns_stay`) and tell who may pop and for whom to wait
//! (`turns_tell_who_may_pop`), and whose the chunks of a queue are (`owners_stay`). By a script it goes on how much was
//! pushed and popped by the frames' points (`counts_go_on`, `what_is_taken_goes_on`).
//!
//! A form of hyperqueues stands in a crate of its own, as `BookQueues` does in `queue_book`. What each form has to show
//! of the frames, whether or not there is a script, stands here once: that they are a tree (`specs/Tree`), whose turn it is
//! (`specs/Turned`), and whose chunks a queue consists of in serial order, with what the script tells of them
//! (`specs/Chunks`).
#![tactic(auto)]

mod answers;
mod ends;
mod give;
mod laws;
mod owner_laws;
mod queues;
mod readings;
mod tree_laws;
mod turn_laws;

pub use answers::{Popped, Tested, WaitFor};
pub use ends::LocalEnds;
pub use give::QueueGive;
pub use laws::{calls_follow, points_of_queues_agree};
pub use owner_laws::{counts_go_on, owners_stay, what_is_taken_goes_on};
pub use queues::Queues;
pub use readings::{next_deeds_agree, readings_go_on};
pub use tree_laws::{
    a_turn_stays, active_frames_stay, frames_stay_a_tree, spawners_have_their_turns,
};
pub use turn_laws::{turns_stay, turns_tell_who_may_pop};
