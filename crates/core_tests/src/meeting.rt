// Two tasks that wait for each other, so that both are under way at once.
use crate::plans::asks;
use crate::runs::{outcome_of, shape_of};
use elision_tests::AskList;
use std::alloc::Global;
use std::marker::Model;
use std::rt::Clock;
use std::sync::atomic::{AtomicU64, Ordering};
use std::sync::{Arc, Wait};
use std::test::Fail;
use std::thread::Threads;
use swan_model::{Answer, Ask, Body, NoMemory, Plan, PlanFuel, Roots};
use swan_outside::OpenGate;
use swan_runtime::run;

/// How often one looks for the other.
const TURNS_MOST: u64 = 1_000_000_000;

/// What two tasks and the test share.
#[derive(Drop)]
struct Flags {
    first: AtomicU64,
    second: AtomicU64,
    failures: AtomicU64,
}

impl Flags {
    /// Those of tasks that haven't come yet.
    fn new() -> Flags {
        Flags {
            first: AtomicU64::new(0),
            second: AtomicU64::new(0),
            failures: AtomicU64::new(0),
        }
    }

    /// Sets the own flag, and waits for the other one. After too many turns it notes a failure.
    fn wait(&self, own: &AtomicU64, other: &AtomicU64) {
        own.store(1, Ordering::SeqCst);
        for _ in 0..TURNS_MOST {
            if other.load(Ordering::SeqCst) == 1 {
                return;
            }
        }
        self.failures.store(1, Ordering::SeqCst);
    }

    /// Both have come, and none has looked in vain.
    fn have_met(&self) -> Result<(), Fail> {
        if self.failures.load(Ordering::SeqCst) != 0 {
            return Err("they haven't met".into());
        }
        if self.first.load(Ordering::SeqCst) != 1 || self.second.load(Ordering::SeqCst) != 1 {
            return Err("one hasn't come".into());
        }
        Ok(())
    }
}

/// The steps of a list, at two of which the tasks meet.
#[derive(Drop)]
struct Meeting {
    list: AskList,
    first: usize,
    second: usize,
    flags: Arc<Flags>,
}

impl Model for Meeting {
    ghost use Rattle.std.specs.Prelude.{List, ℕ};
    ghost use Rattle.swan_model.specs.declared.body.Ask.{Ask as TheAsk};

    ghost Value = { List (TheAsk ℕ) };

    ghost view = { λ meeting. meeting.list };
}

impl Body for Meeting {
    type Local = usize;

    ghost next = { ⟦<AskList as Body>⟧.next };

    ghost place_of = { ⟦<AskList as Body>⟧.place_of };

    fn advance(
        &self,
        alloc: Global,
        local: usize,
        answer: Answer,
        fuel: u64,
    ) -> Result<(usize, Ask<usize>), NoMemory> {
        if local == self.first {
            self.flags.wait(&self.flags.first, &self.flags.second);
        } else if local == self.second {
            self.flags.wait(&self.flags.second, &self.flags.first);
        }
        self.list.advance(alloc, local, answer, fuel)
    }

    fn place(&self, local: &usize) -> u64 {
        self.list.place(local)
    }
}

/// The plan of a root with no queues and no objects that goes through these asks, where tasks meet at the asks of index 4 and 7: the second
/// steps of the two children of `plan_of`.
fn plan_over(alloc: Global, list: AskList, flags: Arc<Flags>) -> Plan<Meeting> {
    Plan {
        body: Meeting {
            list,
            first: 4,
            second: 7,
            flags,
        },
        root_local: 0,
        roots: Roots::new(alloc),
        fuel: PlanFuel::new(9),
    }
}

/// The plan of a root that spawns two children, of which each works twice. They meet in their second steps.
fn plan_of(alloc: Global, flags: &Arc<Flags>) -> Result<Plan<Meeting>, Fail> {
    let tasks = ["spawn:1:3: spawn:2:3:", "work work", "work work"];
    let list = asks(alloc, &tasks, usize::MAX)?;
    match Arc::try_clone(flags) {
        Ok(flags) => Ok(plan_over(alloc, list, flags)),
        Err(error) => {
            drop(list);
            Err(error.into())
        }
    }
}

/// How many faults a run of that plan by two workers has.
fn faults_of<T: Threads + Wait + Clock + Sync>(
    rt: &T,
    alloc: Global,
    flags: &Arc<Flags>,
) -> Result<usize, Fail> {
    let shape = shape_of(2)?;
    let plan = plan_of(alloc, flags)?;
    let outcome = outcome_of(run(rt, alloc, plan, &shape, &OpenGate)?);
    let faults = outcome.faults.len();
    drop(outcome);
    Ok(faults)
}

/// A run of that plan has no fault, and both children have met.
fn meet_at<T: Threads + Wait + Clock + Sync>(
    rt: &T,
    alloc: Global,
    flags: &Arc<Flags>,
) -> Result<(), Fail> {
    if faults_of(rt, alloc, flags)? != 0 {
        return Err("a fault".into());
    }
    flags.have_met()
}

/// In a run of that plan by two workers both children are in their second step of work at once.
pub fn meet<T: Threads + Wait + Clock + Sync>(rt: &T, alloc: Global) -> Result<(), Fail> {
    let flags = Arc::new(alloc, Flags::new())?;
    meet_at(rt, alloc, &flags)
}
