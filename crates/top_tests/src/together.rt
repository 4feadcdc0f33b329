// Two workers go on with two tasks at the same time.
use crate::helpers::{Ended, Machine, Over, assert_ended, called_at, files_of};
use crate::jobs::{NAMES, TEXTS};
use std::alloc::Global;
use std::process::Abort;
use std::sync::atomic::{AtomicBool, Ordering};
use std::test::Fail;
use swan_model::{NoMemory, Path};
use swan_outside::Gate;

/// How often a gate looks for the other task before it gives up.
const LOOKS: u64 = 1_000_000_000;

/// A gate that holds each of the root's first two children until the other one has come too.
#[derive(Drop)]
struct Together {
    first: AtomicBool,
    second: AtomicBool,
    failed: AtomicBool,
}

impl Together {
    // A gate at which nobody has come yet.
    fn new() -> Together {
        Together {
            first: AtomicBool::new(false),
            second: AtomicBool::new(false),
            failed: AtomicBool::new(false),
        }
    }
}

impl Gate for Together {
    fn enter(&self, _worker: u32, path: &Path) {
        let (own, other) = match path.parts() {
            [0] => (&self.first, &self.second),
            [1] => (&self.second, &self.first),
            _ => return,
        };
        own.store(true, Ordering::SeqCst);
        for _ in 0..LOOKS {
            if other.load(Ordering::SeqCst) {
                return;
            }
        }
        self.failed.store(true, Ordering::SeqCst);
    }
}

// A run of two children by two workers, at this gate.
fn called_together(rt: &impl Machine, alloc: Global, gate: &Together) -> Result<Ended, NoMemory> {
    let over = Over::files(files_of(alloc, NAMES, &TEXTS)?);
    called_at(rt, alloc, "run 2 2003 c", over, gate)
}

// Asserts that both have come to a gate, and neither has given up.
fn assert_met(rt: &impl Abort, gate: &Together) {
    assert!(rt; gate.first.load(Ordering::SeqCst), "the first child came");
    assert!(rt; gate.second.load(Ordering::SeqCst), "the second child came");
    assert!(rt;
        !gate.failed.load(Ordering::SeqCst),
        "neither waited in vain"
    );
}

#[test]
fn two_frames_at_once(rt: HostRuntime) -> Result<(), Fail> {
    let gate = Together::new();
    let got = called_together(&rt, rt.alloc(), &gate)?;
    assert_met(&rt, &gate);
    assert_ended(
        &rt,
        &got,
        "run 2 2003 c",
        "10\n11\n20\n21\n",
        "faults 0\n",
        "0",
    );
    Ok(())
}
