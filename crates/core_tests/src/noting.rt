// A gate that notes who enters it.
use std::sync::atomic::{AtomicU64, Ordering};
use swan_model::Path;
use swan_outside::Gate;

/// Notes how often it is entered, and by whom it was last: the worker's number, and of the task's path how many parts it has and the last one.
#[derive(Drop)]
pub struct NotingGate {
    entries: AtomicU64,
    worker: AtomicU64,
    depth: AtomicU64,
    child: AtomicU64,
}

impl NotingGate {
    /// One that nobody has entered.
    pub fn new() -> NotingGate {
        NotingGate {
            entries: AtomicU64::new(0),
            worker: AtomicU64::new(0),
            depth: AtomicU64::new(0),
            child: AtomicU64::new(0),
        }
    }

    /// Whether nobody has entered it.
    pub fn is_fresh(&self) -> bool {
        self.entries.load(Ordering::SeqCst) == 0
    }

    /// Whether it was entered once, by the worker of this number.
    pub fn is_entered_by(&self, worker: usize) -> bool {
        self.entries.load(Ordering::SeqCst) == 1
            && self.worker.load(Ordering::SeqCst) == worker as u64
    }

    /// Whether it was entered last for a task so deep, which has so many older siblings.
    pub fn is_entered_for(&self, depth: u64, child: u64) -> bool {
        self.depth.load(Ordering::SeqCst) == depth && self.child.load(Ordering::SeqCst) == child
    }
}

impl Gate for NotingGate {
    fn enter(&self, worker: u32, path: &Path) {
        let parts = path.parts();
        let child = match parts.last() {
            Some(part) => u64::from(*part),
            None => 0,
        };
        self.entries.fetch_add(1, Ordering::SeqCst);
        self.worker.store(u64::from(worker), Ordering::SeqCst);
        self.depth.store(parts.len() as u64, Ordering::SeqCst);
        self.child.store(child, Ordering::SeqCst);
    }
}
