//! Renamed objects: whoever writes an object waits for nobody who reads it, and each read still gets what it
//! gets in serial order.
//!
//! A frame is one task of a run. It may give an object to the children that it spawns, to read, to write, or
//! both, and then they run at the same time. With one cell for all, a writer would wait for the readers
//! before it. So an object has versions. A version has a value, or it is owed by a frame, which settles it
//! when it ends. Each frame has a version of each of its objects. Where a child is given an object to write,
//! its parent gets a new version, which the child owes. Whoever reads the old version reads on, and whoever
//! wants the new one waits for the child alone. A frame may start once the versions that it was given to read
//! have their values, and what others write then changes nothing that it reads.
//!
//! `Versions` keeps them all. Contracts see it as the places of frames, in order: which object stands there,
//! how the frame may use it, who still owes what the frame was given to read, and its present version.
//!
//! Promised, and proved of each call: what it answers and what it leaves, exactly; and that a frame that is
//! waited for has the object itself and may write it. And whatever the lawful script and the reading that the
//! calls follow, what a frame reads is the value that the object has at the frame's point. The laws say which
//! entries need no call, how the giving of a child's objects begins, and when a frame may end. After want of
//! memory nothing is said of the objects.
//!
//! Inside, a version is a node of a slab, with the number of places that refer to it. A place refers to the
//! version that was given, to the present one and to the one that the frame owes. So all who have a version
//! see its value at once when it is settled, which costs the same however many they are. A node is given up
//! when no place refers to it. A frame may write as often as it likes: its own version is overwritten where
//! nobody else has it, and what it was given is given up with its next write or gift, once that has its value. So
//! a place keeps three versions at most.
#![tactic(auto)]

mod ending;
mod giving;
mod laws;
mod node;
mod nodes;
mod object_number;
mod placed_object;
mod places;
mod store;
mod versions;
mod waiting;

pub use laws::{
    ended_children_leave_all_settled, giving_begins, nobody_waits_again, other_entries_pass,
    places_stay, who_is_awaited_comes_first,
};
use node::{Node, NodeState};
use object_number::ObjectNumber;
use placed_object::PlacedObject;
pub use versions::Versions;
