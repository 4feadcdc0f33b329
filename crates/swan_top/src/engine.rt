// What plans are run with.
use std::alloc::Global;

/// What plans are run with.
#[derive(Drop)]
pub struct Engine<'a, T, G> {
    /// Where the threads of workers come from.
    pub rt: &'a T,
    /// Where memory comes from.
    pub alloc: Global,
    /// What a worker passes before it goes on with a task.
    pub gate: &'a G,
}
