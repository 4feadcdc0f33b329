// What a run leaves.
ghost use Rattle.std.specs.Prelude.{◌≡◌, None, IfOk, IsErr, length, true};
ghost use Rattle.std.specs.Ordering.{is_lt};
ghost use Rattle.swan_model.specs.Elision.{outcome};
ghost use Rattle.swan_model.specs.PathOrder.{comes_before};
ghost use Rattle.swan_model.specs.Script.{script};
ghost use Rattle.task_frames.specs.Cores.{IsCore, KeptView};
ghost use Rattle.task_frames.specs.Records.{live_at};

use crate::{Core, Kept, RunOutcome};
use queues::Queues;
use std::alloc::Global;
use std::cmp::Ordering;
use std::mem;
use swan_model::{
    Body, Fault, Faults, Meaning, Means, NoMemory, Outcome, Plan, Script, ValueLists, Values,
};

/// Whether a task comes before another in serial order, by their paths. `O(length of the paths)`.
fn comes_before(path: &[u32], other: &[u32]) -> bool
    ensures { result ≡ comes_before path.now other.now }
{
    let Some((part, parts)) = path.split_first() else {
        return false;
    };
    let Some((number, numbers)) = other.split_first() else {
        return true;
    };
    if part == number {
        comes_before(parts, numbers)
    } else {
        part < number
    }
}

/// Which of two faults stands first in serial order.
fn fault_order(fault: &Fault, other: &Fault) -> Ordering
    ensures { is_lt result ≡ comes_before fault.now.path other.now.path }
{
    if comes_before(fault.path.parts(), other.path.parts()) {
        Ordering::Less
    } else if comes_before(other.path.parts(), fault.path.parts()) {
        Ordering::Greater
    } else {
        Ordering::Equal
    }
}

/// The value of each root object. Err is want of memory. `O(r log n)` for r of them. The plan is there for what contracts
/// say alone.
fn values_left<B: Body, Q: Queues>(
    alloc: Global,
    plan: &Meaning<Plan<B>>,
    kept: &Kept<Q>,
    first: u32,
    count: u32,
) -> Result<Values, NoMemory>
    requires core { IsCore B.Body plan.now.means kept.now }
    requires over { live_at kept.now.live 0 ≡ None }
    requires first { first ≡ length plan.now.means.roots.queues }
    requires count { count ≡ length plan.now.means.roots.objects }
    ensures { IfOk result (λ values. values ≡ (outcome B.Body plan.now.means).objects) }
{
    let _ = plan;
    let mut values = Values::new(alloc);
    for index in 0..count {
        let value = match kept.versions.value(0, first + index) {
            Ok(value) => value.copy()?,
            Err(_) => unreachable!(),
        };
        match values.push(value) {
            Ok(()) => {}
            Err(_) => return Err(NoMemory),
        }
    }
    Ok(values)
}

/// What is left in each root queue. Err is want of memory. It costs what `Queues::take_rest` costs for each. The plan is
/// there for contracts alone.
fn rests_left<B: Body, Q: Queues>(
    alloc: Global,
    plan: &Meaning<Plan<B>>,
    queues: &mut Q,
    count: u32,
) -> Result<ValueLists, NoMemory>
    requires kept { (kept : KeptView) × IsCore B.Body plan.now.means kept × (live_at kept.live 0 ≡ None)
        × (Q.name queues.old ≡ kept.name) × (Q.state queues.old ≡ kept.state) }
    requires count { count ≡ length plan.now.means.roots.queues }
    ensures { IfOk result (λ lists. lists ≡ (outcome B.Body plan.now.means).queues) }
{
    let _ = plan;
    let mut lists = ValueLists::new(alloc);
    for index in 0..count {
        let rest = queues.take_rest(index)?;
        match lists.push(rest) {
            Ok(()) => {}
            Err(_) => return Err(NoMemory),
        }
    }
    Ok(lists)
}

/// The faults in serial order. `O(f log f)` for f faults; it takes no memory. The plan is there for what contracts say
/// alone.
fn in_serial_order<B: Body>(plan: &Meaning<Plan<B>>, faults: Vec<Fault>) -> Faults
    requires kept { (kept : KeptView) × IsCore B.Body plan.now.means kept × (live_at kept.live 0 ≡ None) × (faults.items ≡ kept.faults) }
    ensures { result ≡ (outcome B.Body plan.now.means).faults }
{
    let _ = plan;
    let mut faults = faults;
    faults.sort_unstable_by(
        |fault: &Fault, other: &Fault| -> Ordering
            ensures { is_lt result ≡ comes_before fault.now.path other.now.path }
        { fault_order(fault, other) },
    );
    Faults::from_vec(faults)
}

/// Takes the outcome of the plan out of what its core keeps, once the root has ended; what is left there is only to be given up. Err is want
/// of memory. `O(f log f)` for f faults, and what taking the values and the items costs. The plan is there for contracts alone.
fn outcome_left<B: Body, Q: Queues>(
    alloc: Global,
    plan: &Meaning<Plan<B>>,
    kept: &mut Kept<Q>,
    root_queues: u32,
    root_objects: u32,
) -> Result<Outcome, NoMemory>
    requires core { IsCore B.Body plan.now.means kept.old }
    requires over { live_at kept.old.live 0 ≡ None }
    requires root_queues { root_queues ≡ length plan.now.means.roots.queues }
    requires root_objects { root_objects ≡ length plan.now.means.roots.objects }
    ensures { IfOk result (λ left. left ≡ outcome B.Body plan.now.means) }
{
    let objects = values_left(alloc, plan, kept, root_queues, root_objects)?;
    let queues = rests_left(alloc, plan, &mut kept.queues, root_queues)?;
    let faults = mem::replace(&mut kept.faults, Vec::new(alloc));
    let faults = in_serial_order(plan, faults);
    Ok(Outcome {
        objects,
        queues,
        faults,
    })
}

/// It means the plan's script.
#[derive(Drop)]
struct ScriptOf<'a, B: Body> {
    plan: &'a Meaning<Plan<B>>,
}

impl<B: Body> Means<Script> for ScriptOf<'_, B> {
    ghost use Rattle.swan_model.specs.Script.{script};

    ghost means = { λ of. script B.Body of.plan.now.means };
}

impl<B: Body, Q: Queues> Core<B, Q> {
    /// The outcome of the plan, once the root has ended: the values of the root objects, what is left in the root queues, and
    /// the faults in serial order. It means the plan's script. NoMemory is want of memory, now or in a call before.
    /// `O(f log f)` for f faults, and what taking the values and the items costs.
    pub fn take_outcome(self, alloc: Global) -> Result<RunOutcome, NoMemory>
        requires done { self.is_done ≡ true }
        ensures outcome { IfOk result (λ ran. ran.outcome ≡ outcome B.Body self.plan) }
        ensures script { IfOk result (λ ran. ran.script.means ≡ script B.Body self.plan) }
        ensures dead { self.kept ≡ None → IsErr result }
    {
        let Core {
            plan,
            run: _,
            is_done: _,
            kept,
            root_queues,
            root_objects,
        } = self;
        let Some(mut kept) = kept else {
            return Err(NoMemory);
        };
        let outcome = outcome_left(alloc, &plan, &mut kept, root_queues, root_objects);
        // by a call, since what ends with its block is checked part by part
        drop(kept);
        Ok(RunOutcome::of(outcome?, Meaning::of(&ScriptOf { plan: &plan })))
    }
}
