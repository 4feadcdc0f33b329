// The end of a run.
use crate::How;
use swan_model::Outcome;

/// How the run of a plan ends.
#[derive(Drop)]
pub struct RunEnd {
    /// What it leaves.
    pub outcome: Outcome,
    /// What shows how it was run.
    pub how: How,
}
