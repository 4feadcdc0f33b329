//! Folds of the lines of a text, as a pipeline.
//!
//! A reducer says what is folded: the part of each line, the join of two parts, and the end of a part, which is a
//! record or a trouble. A line may have no part; then it is left out, and is a fault. The two reducers here add the
//! numbers that lines are (`SumReducer`), and join the bytes of the lines (`JoinReducer`).
//!
//! The root reads the lines and gives them to block tasks by 64. A block task pushes the join of its lines' parts to a
//! queue that the root has made, and ends by a fault at its first line without a part. The collector pops these, joins
//! them in order, and pushes the end, or ends by its trouble.
//!
//! Promised, and proved of each reducer that keeps the laws (`specs/Lawful.antt`) and of each text that `lines_of`
//! accepts: `fold_plan` answers the plan of the definitions, or refuses the text as `lines_of` does; and the outcome
//! of this plan has no line left, the end of the fold as its one output, or none where that is a trouble, and exactly
//! one fault for each block with a line without a part, in order, and then that trouble, by the law
//! `the_outcome_is_the_fold`. So its fuel is enough. The two reducers keep the laws, and their folds are exact, by
//! `sums_are_exact` and `joins_are_whole`.
//!
//! Not promised: that memory is found. What a text costs is said in `docs/COSTS.md`.
#![tactic(auto)]

mod body;
mod join_reducer;
mod laws;
mod local;
mod plan;
mod reducer;
mod sum_reducer;

pub use body::FoldBody;
pub use join_reducer::{JOIN_MOST, JoinReducer};
pub use laws::{joins_are_whole, place_of_the_parts, sums_are_exact, the_outcome_is_the_fold};
pub use local::FoldLocal;
pub use plan::{fold_names, fold_plan};
pub use reducer::{BlockFold, EndAnswer, LineAnswer, Reducer};
pub use sum_reducer::SumReducer;
