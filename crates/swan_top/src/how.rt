// What a status shows of a run.
use task_frames::Ran;

/// What shows by which way a plan was run.
#[derive(Drop)]
pub enum How {
    /// By the runtime: a core ran the command's plan to its end. It means the plan's script.
    Ran(Ran),
    /// By the elision, or there was nothing to run.
    Plain,
}
