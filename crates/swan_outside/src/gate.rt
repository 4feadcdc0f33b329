// Gates that workers pass.
use std::marker::Sync;
use swan_model::Path;

/// What a worker asks before it goes on with a task. It decides nothing: it may look on, or hold the
/// worker for a while. It takes nothing to wait by, so it returns. Several workers may be in it at once.
pub trait Gate: Sync {
    /// Lets the worker of this number go on with the task of this path. It is asked before each turn of a
    /// frame, while nothing is locked.
    fn enter(&self, worker: u32, path: &Path);
}

/// A gate that is always open.
#[derive(Clone, Copy, Debug, PartialEq, Eq)]
pub struct OpenGate;

impl Gate for OpenGate {
    /// Returns at once. It takes no memory. `O(1)`.
    fn enter(&self, worker: u32, path: &Path) {
        let _ = worker;
        let _ = path;
    }
}

#[cfg(test)]
mod tests {
    use super::*;
    use std::test::Fail;

    /// Passes a gate through the trait's bound.
    fn pass<G: Gate>(gate: &G, worker: u32, path: &Path) {
        gate.enter(worker, path);
    }

    #[test]
    fn the_open_gate_lets_each_worker_go_on(rt: HostRuntime) -> Result<(), Fail> {
        let root = Path::root(rt.alloc());
        let child = root.child(3)?;
        for worker in [0, 1, 63] {
            pass(&OpenGate, worker, &root);
            pass(&OpenGate, worker, &child);
        }
        Ok(())
    }
}
