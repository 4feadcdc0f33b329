//! The index of a text, as a pipeline: where each word stands.
//!
//! A word is a longest run of the ASCII letters and digits, with A to Z lowered, cut at 64 bytes. The index has a
//! line `WORD LINE` for each word and each line on which it stands, each pair once, in the order of the words'
//! bytes and then of the numbers (`the_index_is_a_sorted_set`).
//!
//! The root reads the lines and gives them to block tasks by 64. A block task pushes the words of its lines, with
//! their numbers, to a queue that the root has made. The collector pops them, keeps the set of pairs, and pushes
//! the index. Records that are pushed share buffers of at most 65,535 bytes, each of which lives as long as one of its records.
//!
//! Promised, and proved of each text of at most `TEXT_MOST` bytes: `index_plan` answers the plan of the
//! definitions, or refuses the text as `lines_of` does; and the outcome of this plan has no line left, no fault,
//! and the index of the text as its output, by the law `the_outcome_is_the_index`. So its fuel is enough.
//!
//! Not promised: that memory is found. What a text costs is said in `docs/COSTS.md`.
#![tactic(auto)]

mod batch;
mod batches;
mod body;
mod key;
mod laws;
mod line_left;
mod local;
mod numbers;
mod pair;
mod pairs;
mod pairs_left;
mod plan;
mod word;
mod words_left;

pub use body::IndexBody;
pub use laws::{limits_of_the_index, the_index_is_a_sorted_set, the_outcome_is_the_index};
pub use local::IndexLocal;
pub use plan::{index_names, index_plan};
