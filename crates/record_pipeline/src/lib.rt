//! The conversion of tab-separated lines to netstrings, as a pipeline.
//!
//! The fields of a line are the pieces between its TAB bytes, and the width of a text is the number of fields of
//! its first line. A line of this width becomes one record: the netstrings of its fields, joined. A line of another
//! width, or whose netstrings don't fit a record, is left out, and is a fault at its line.
//!
//! The root reads the lines and gives them to block tasks by 64. A block task spawns a task for each of its lines,
//! which pushes the line's record or ends by its fault.
//!
//! Promised, and proved of each text of at most `TEXT_MOST` bytes: `record_plan` answers the plan of the
//! definitions, or refuses the text as `lines_of` does; and the outcome of this plan has no line left, the
//! conversion of the text as its output, and exactly one fault for each line that is left out, in order, by the law
//! `the_outcome_is_the_conversion`. So its fuel is enough.
//!
//! Not promised: that memory is found. What a text costs is said in `docs/COSTS.md`.
#![tactic(auto)]

mod body;
mod fields;
mod laws;
mod local;
mod plan;

pub use body::RecordBody;
pub use laws::the_outcome_is_the_conversion;
pub use local::RecordLocal;
pub use plan::{record_names, record_plan};
