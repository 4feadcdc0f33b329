// Opening a run.
ghost use Rattle.std.specs.Prelude.{◌≡◌, ◌+◌, ◌++◌, ◌≤◌, [], Some, None, length, IfOk, OnOk};
ghost use Rattle.swan_model.specs.Elision.{object_holdings, queue_holdings};
ghost use Rattle.swan_model.specs.QueueState.{new_state};
ghost use Rattle.swan_model.specs.Readings.{at_start};
ghost use Rattle.swan_model.specs.Script.{script};
ghost use Rattle.swan_model.specs.declared.plan.TheConstants.{ROOTS_MOST};
ghost use Rattle.queues.specs.Asks.{IsSameRun};
ghost use Rattle.task_frames.specs.Frames.{IsPlan, root_task};
ghost use Rattle.task_frames.specs.Opened.{AreFirstObjects, AreFirstQueues, IsKeptAtFirst, IsRootAlone, roots_to};
ghost use Rattle.task_frames.specs.Resumes.{IsOpened, ends_of};

use crate::{
    Core, Frame, FrameAtCore, Holding, Kept, KeptReading, LiveFrame, LiveRecord, Run, Stage,
    TaskAtCore,
};
use object_versions::Versions;
use queues::Queues;
use std::alloc::Global;
use std::sync::Arc;
use swan_model::{
    Answer, Body, Meaning, Means, Mode, NoMemory, Path, Plan, RootQueue, RootQueues, Value, Values,
};

/// A run that is opened: its core, the body of its plan, and its root.
#[derive(Drop)]
pub struct Opened<B: Body, Q: Queues> {
    /// The core.
    pub core: Core<B, Q>,
    /// The body of the plan.
    pub body: Arc<B>,
    /// The root, as the core gave it.
    pub root: Frame<B, Q>,
}

/// It means the plan.
#[derive(Drop)]
struct PlanOf<'a, B: Body> {
    plan: &'a Plan<B>,
}

impl<B: Body> Means<Plan<B>> for PlanOf<'_, B> {
    ghost means = { λ of. of.plan.now };
}

/// It means the run of the queues.
#[derive(Drop)]
struct RunOf<'a, Q: Queues> {
    queues: &'a Q,
}

impl<Q: Queues> Means<Run> for RunOf<'_, Q> {
    ghost means = { λ of. Q.run of.queues.now };
}

/// Adds what the root holds of queues. Err is want of memory.
fn hold_queues(holdings: &mut Vec<Holding>, queues: &[RootQueue]) -> Result<(), NoMemory>
    requires few { length queues.now ≤ ROOTS_MOST }
    ensures { OnOk result (holdings.new.items ≡ holdings.old.items ++ queue_holdings 0 queues.now) }
{
    for (number, queue) in queues.iter().enumerate() {
        holdings.push(Holding {
            mode: queue.mode,
            number: number as u32,
        })?;
    }
    Ok(())
}

/// Adds what the root holds of objects. Err is want of memory.
fn hold_objects(holdings: &mut Vec<Holding>, objects: &[Value]) -> Result<(), NoMemory>
    requires few { length objects.now ≤ ROOTS_MOST }
    ensures { OnOk result (holdings.new.items ≡ holdings.old.items ++ object_holdings 0 objects.now) }
{
    for (number, _) in objects.iter().enumerate() {
        holdings.push(Holding {
            mode: Mode::InOut,
            number: number as u32,
        })?;
    }
    Ok(())
}

/// What the root holds: the queues, and then the objects. Err is want of memory. `O(roots)`, one allocation.
fn held(alloc: Global, queues: &RootQueues, objects: &Values) -> Result<Vec<Holding>, NoMemory>
    requires few { length queues.now + length objects.now ≤ ROOTS_MOST }
    ensures { IfOk result (λ holdings. holdings.items ≡ queue_holdings 0 queues.now ++ object_holdings 0 objects.now) }
{
    let mut holdings = Vec::with_capacity(alloc, queues.len() + objects.len())?;
    hold_queues(&mut holdings, queues.as_slice())?;
    hold_objects(&mut holdings, objects.as_slice())?;
    Ok(holdings)
}

/// Makes the root queues of the plan, one after the other. The answer is the reading that has them. Err is want of memory.
/// The plan itself is there for contracts alone.
fn make_queues<B: Body, Q: Queues>(
    plan: &Meaning<Plan<B>>,
    queues: &mut Q,
    roots: RootQueues,
) -> Result<KeptReading, NoMemory>
    // for which plan, and over which queues
    requires plan { IsPlan plan.now.means }
    requires new { Q.state queues.old ≡ new_state }
    requires name { Q.name queues.old ≡ Some (script B.Body plan.now.means) }
    requires roots { roots ≡ plan.now.means.roots.queues }

    // what it leaves
    ensures queues { OnOk result (AreFirstQueues (script B.Body plan.now.means) (Q.state queues.new) (length roots)) }
    ensures reading { IfOk result (λ reading. reading ≡ at_start (roots_to (length roots)) []) }
    ensures same { IsSameRun Q.name Q.run queues.old queues.new }
{
    let _ = plan;
    let mut reading = KeptReading::new();
    let mut made = 0u32;
    for root in roots.into_vec() {
        queues.create_root(root.items)?;
        reading = reading.with_root_queue(made);
        made += 1;
    }
    Ok(reading)
}

/// The root objects of a plan, the reading that has them, and how many they are.
#[derive(Drop)]
struct FirstObjects {
    versions: Versions,
    reading: KeptReading,
    made: u32,
}

/// Makes the root objects of the plan, one after the other, at the places behind those of the queues. Err is want of memory.
/// The plan itself is there for contracts alone.
fn make_objects<B: Body>(
    alloc: Global,
    plan: &Meaning<Plan<B>>,
    first: u32,
    reading: KeptReading,
    roots: Values,
) -> Result<FirstObjects, NoMemory>
    // for which plan, and behind which queues
    requires plan { IsPlan plan.now.means }
    requires first { first ≡ length plan.now.means.roots.queues }
    requires reading { reading ≡ at_start (roots_to first) [] }
    requires roots { roots ≡ plan.now.means.roots.objects }

    // what is answered
    ensures objects { IfOk result (λ made. AreFirstObjects (script B.Body plan.now.means) made.versions first (length roots)) }
    ensures reading { IfOk result (λ made. made.reading ≡ at_start (roots_to first) (roots_to (length roots))) }
    ensures count { IfOk result (λ made. made.made ≡ length roots) }
{
    let _ = plan;
    let mut versions = Versions::new(alloc);
    let mut reading = reading;
    let mut made = 0u32;
    for value in roots.into_vec() {
        versions.create(0, first + made, value)?;
        reading = reading.with_root_object(made);
        made += 1;
    }
    Ok(FirstObjects {
        versions,
        reading,
        made,
    })
}

/// The record that has the root alone, which holds this and has taken no step. Err is want of memory. `O(k)` for k places.
fn root_alone(alloc: Global, holdings: &[Holding]) -> Result<LiveRecord, NoMemory>
    ensures { IfOk result (λ live. IsRootAlone live holdings.now) }
{
    let root = LiveFrame {
        parent: None,
        path: Path::root(alloc),
        done: 0,
        holdings: Vec::from_slice(alloc, holdings)?,
        failed: 0,
    };
    let mut live = LiveRecord::new(alloc);
    live.enter_root(0, root)?;
    Ok(live)
}

/// Makes what a core keeps of a plan's run at first: its root queues, its root objects, and the root, which has taken no step. Err is
/// want of memory. `O(r log r)` for r queues and objects that the plan begins with. The plan itself is there for what contracts say
/// alone.
fn kept_at_first<B: Body, Q: Queues>(
    alloc: Global,
    plan: &Meaning<Plan<B>>,
    mut queues: Q,
    root_queues: RootQueues,
    root_objects: Values,
    holdings: &[Holding],
) -> Result<Kept<Q>, NoMemory>
    // for which plan, and over which queues
    requires plan { IsPlan plan.now.means }
    requires new { Q.state queues ≡ new_state }
    requires name { Q.name queues ≡ Some (script B.Body plan.now.means) }
    requires root_queues { root_queues ≡ plan.now.means.roots.queues }
    requires root_objects { root_objects ≡ plan.now.means.roots.objects }

    // what is answered
    ensures kept { IfOk result (λ kept. IsKeptAtFirst (script B.Body plan.now.means) (length root_queues) (length root_objects) holdings.now kept) }
    ensures run { IfOk result (λ kept. kept.run ≡ Q.run queues) }
{
    let first_place = root_queues.len() as u32;
    let Ok(reading) = make_queues(plan, &mut queues, root_queues) else {
        drop(queues);
        drop(root_objects);
        return Err(NoMemory);
    };
    let Ok(first) = make_objects(alloc, plan, first_place, reading, root_objects) else {
        drop(queues);
        return Err(NoMemory);
    };
    let Ok(live) = root_alone(alloc, holdings) else {
        drop(queues);
        drop(first);
        return Err(NoMemory);
    };
    let FirstObjects {
        versions,
        reading,
        made,
    } = first;
    Ok(Kept {
        queues,
        versions,
        reading,
        live,
        frames: 1,
        objects: made,
        faults: Vec::new(alloc),
    })
}

/// The root's task before its first step, with this fuel and what it holds. It takes no memory. `O(1)`.
fn root_task<B: Body>(
    alloc: Global,
    plan: &Meaning<Plan<B>>,
    fuel: u64,
    holdings: Vec<Holding>,
) -> TaskAtCore<B>
    ensures { result ≡ record (root_task plan.now.means holdings.items) { fuel = fuel } }
{
    TaskAtCore {
        plan: plan.again(),
        path: Path::root(alloc),
        number: 0,
        done: 0,
        fuel,
        holdings,
        children: 0,
    }
}

impl<B: Body, Q: Queues> Core<B, Q> {
    /// Opens a run of a plan over new queues, whose name means the plan's script. The core has the root alone then, which has
    /// taken no step, and the run of the queues. Err is want of memory. `O(r log r)` for r queues and objects that the plan begins with.
    pub fn open(alloc: Global, plan: Plan<B>, queues: Q) -> Result<Opened<B, Q>, NoMemory>
        // what the queues have to be
        requires new { Q.state queues ≡ new_state }
        requires name { Q.name queues ≡ Some (script B.Body plan) }

        // the core and its root, and whose run it is
        ensures opened { IfOk result (λ it. IsOpened (ends_of Q.Ends.LocalEnds) it.core it.root) }
        ensures plan { IfOk result (λ it. it.core.plan ≡ plan) }
        ensures run { IfOk result (λ it. it.core.run ≡ Q.run queues) }
        ensures body { IfOk result (λ it. it.body.value ≡ plan.body) }
    {
        let means = Meaning::of(&PlanOf { plan: &plan });
        let run = Meaning::of(&RunOf { queues: &queues });
        let Plan {
            body,
            root_local,
            roots,
            fuel,
        } = plan;
        let fuel = fuel.units();
        let (root_queues, root_objects) = roots.into_lists();
        let queue_count = root_queues.len() as u32;
        let object_count = root_objects.len() as u32;
        let holdings = held(alloc, &root_queues, &root_objects)?;
        let body = Arc::new(alloc, body)?;
        let mut kept = kept_at_first(
            alloc,
            &means,
            queues,
            root_queues,
            root_objects,
            holdings.as_slice(),
        )?;
        let task = root_task(alloc, &means, fuel, holdings);
        let stage = Stage::Ready(root_local, Answer::Start);
        let Ok(begun) = FrameAtCore::begun(alloc, task, stage) else {
            // by a call, since what ends with its block is checked part by part
            drop(kept);
            return Err(NoMemory);
        };
        let root = kept.give(begun);
        let core = Core {
            plan: means,
            run,
            is_done: false,
            kept: Some(kept),
            root_queues: queue_count,
            root_objects: object_count,
        };
        Ok(Opened { core, body, root })
    }
}
