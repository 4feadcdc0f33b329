// Frames that take steps by themselves: what a frame answers, call by call, over queues whose ends serve nothing.
ghost use Rattle.std.specs.Prelude.{◌≡◌, IfOk};
ghost use Rattle.task_frames.specs.Resumes.{IsOpened, ends_of};
ghost use Rattle.core_tests.specs.Pools.{MayAllCome, MayCome};

use crate::plans::asks;
use crate::runs::{frames_from, opened};
use crate::turn::FrameTurn;
use elision_tests::AskList;
use queue_book::{BookQueues, NoEnds};
use queues::{LocalEnds, Queues};
use std::alloc::Global;
use std::test::Fail;
use swan_model::{Body, FUEL_MOST, Mode, Plan, PlanFuel, RootQueue, Roots, Values};
use task_frames::{Core, Frame, Opened, Paused};

/// What a call of `run_local` answers.
#[derive(Clone, Copy, Debug, PartialEq, Eq)]
enum Stop {
    /// So many steps were taken, and the next one needs the core.
    AtCore(u64),
    /// So many steps were taken, which is the budget.
    Budget(u64),
    /// It found no memory for one of them.
    NoMemory,
}

impl Stop {
    /// What this answer tells.
    fn of(paused: &Paused) -> Stop {
        match paused {
            Paused::AtCore(steps) => Stop::AtCore(steps.count()),
            Paused::Budget(steps) => Stop::Budget(steps.count()),
            Paused::NoMemory => Stop::NoMemory,
        }
    }
}

/// The budget of a call, and what it answers.
type Call = (u64, Stop);

/// The turns of a root whose first step is work. The core takes it.
const BEGUN: &[FrameTurn] = &[FrameTurn::Runs(0, 0)];

/// A plan whose root may push to one queue and pop from it, at place 0, and has these asks and this much fuel. No memory is found at one index
/// of its asks.
#[derive(Clone, Copy, Debug)]
struct Root<'a> {
    asks: &'a str,
    fuel: u64,
    fails: usize,
}

/// The queue at place 0, alone.
fn one_queue(alloc: Global) -> Result<Roots, Fail> {
    let mut roots = Roots::new(alloc);
    let queue = RootQueue {
        mode: Mode::PushPop,
        items: Values::new(alloc),
    };
    match roots.push_queue(queue) {
        Ok(()) => Ok(roots),
        Err(back) => {
            drop(back);
            drop(roots);
            Err("no memory".into())
        }
    }
}

/// The plan of this root.
fn plan(alloc: Global, root: &Root<'_>) -> Result<Plan<AskList>, Fail> {
    if root.fuel > FUEL_MOST {
        return Err("fuel".into());
    }
    let body = asks(alloc, &[root.asks], root.fails)?;
    match one_queue(alloc) {
        Ok(roots) => Ok(Plan {
            body,
            root_local: 0,
            roots,
            fuel: PlanFuel::new(root.fuel),
        }),
        Err(fail) => {
            drop(body);
            Err(fail)
        }
    }
}

/// A call is answered otherwise.
fn another(root: &Root<'_>, index: usize, came: Stop) -> Fail {
    Fail::new(format_args!("{root:?}: call {index} answers {came:?}"))
}

/// The frame is the root's.
fn is_root<B: Body, Q: Queues>(root: &Root<'_>, frame: &Frame<B, Q>) -> Result<(), Fail> {
    if frame.number() != 0 || !frame.path().parts().is_empty() {
        return Err(Fail::new(format_args!("{root:?}: another frame")));
    }
    Ok(())
}

/// The frame of this root answers these calls so, one after the other, and is the root's whatever comes. Err names the root, and the first call
/// that is answered otherwise.
fn answers<B: Body, Q: Queues>(
    alloc: Global,
    root: &Root<'_>,
    frame: &mut Frame<B, Q>,
    body: &B,
    calls: &[Call],
) -> Result<(), Fail>
    requires { body.now ≡ frame.old.task.plan.body }
{
    for index in 0..calls.len() {
        let (budget, stop) = calls[index];
        let came = Stop::of(&frame.run_local(alloc, body, budget));
        if came != stop {
            return Err(another(root, index, came));
        }
    }
    is_root(root, frame)
}

/// Takes the only one of these frames out. Err says that there is none, or that there are several.
fn only_frame<B: Body, Q: Queues>(
    core: &Core<B, Q>,
    frames: &mut Vec<Frame<B, Q>>,
) -> Result<Frame<B, Q>, Fail>
    requires { MayAllCome Q.Ends.run core.now frames.old.items }
    ensures { IfOk result (MayCome Q.Ends.run core.now) }
{
    if frames.len() != 1 {
        return Err("no frame, or several".into());
    }
    Ok(frames.remove(0))
}

/// The only frame of a core that began with this one, after these turns. Err says that there is none, or that there are several, or is what the
/// turns came to.
fn frame_after<B: Body, Q: Queues>(
    alloc: Global,
    core: &mut Core<B, Q>,
    body: &B,
    begun: Frame<B, Q>,
    turns: &[FrameTurn],
) -> Result<Frame<B, Q>, Fail>
    requires body { body.now ≡ core.old.plan.body }
    requires begun { MayCome Q.Ends.run core.old begun }
    ensures frame { IfOk result (MayCome Q.Ends.run core.new) }
    ensures plan { core.new.plan ≡ core.old.plan }
{
    let mut frames = frames_from(alloc, core, body, begun, turns)?;
    let frame = only_frame(core, &mut frames);
    drop(frames);
    frame
}

/// The only frame of a core that began with this one of this root, after these turns, answers these calls so.
fn answers_at<B: Body, Q: Queues>(
    alloc: Global,
    root: &Root<'_>,
    core: &mut Core<B, Q>,
    body: &B,
    begun: Frame<B, Q>,
    turns: &[FrameTurn],
    calls: &[Call],
) -> Result<(), Fail>
    requires body { body.now ≡ core.old.plan.body }
    requires begun { MayCome Q.Ends.run core.old begun }
{
    let mut frame = frame_after(alloc, core, body, begun, turns)?;
    let came = answers(alloc, root, &mut frame, body, calls);
    frame.tear();
    came
}

/// The only frame of an opened run of this root, after these turns, answers these calls so.
fn answers_after<B: Body, Q: Queues>(
    alloc: Global,
    root: &Root<'_>,
    opened: Opened<B, Q>,
    turns: &[FrameTurn],
    calls: &[Call],
) -> Result<(), Fail>
    requires opened { IsOpened (ends_of Q.Ends.LocalEnds) opened.core opened.root }
    requires body { opened.body.value ≡ opened.core.plan.body }
{
    let Opened {
        mut core,
        body,
        root: begun,
    } = opened;
    let came = answers_at(alloc, root, &mut core, &body, begun, turns, calls);
    drop(core);
    came
}

/// An opened run of this root.
fn opened_root(alloc: Global, root: &Root<'_>) -> Result<Opened<AskList, BookQueues>, Fail>
    ensures opened { IfOk result (λ it. IsOpened (ends_of ⟦<NoEnds as LocalEnds>⟧) it.core it.root) }
    ensures body { IfOk result (λ it. it.body.value ≡ it.core.plan.body) }
{
    Ok(opened(alloc, plan(alloc, root)?)?)
}

/// The frame of this root, after these turns, answers these calls so.
fn stops_so(
    alloc: Global,
    root: &Root<'_>,
    turns: &[FrameTurn],
    calls: &[Call],
) -> Result<(), Fail> {
    answers_after(alloc, root, opened_root(alloc, root)?, turns, calls)
}

/// Three steps of work, and then each ask that isn't work. At place 7 the root has nothing.
const CORE_ASKS: &str = "\
work work work read:0
work work work write:0:1
work work work push:0:1
work work work push:7:1
work work work pop:0
work work work empty:0
work work work queue
work work work object:1
work work work spawn:0:1:
work work work sync
work work work finish
work work work range";

/// The core takes the first of these asks. The frame of their root takes the two after it, and stops at the fourth, at each call.
fn stops_at_fourth(alloc: Global, asks: &str) -> Result<(), Fail> {
    let root = Root {
        asks,
        fuel: 9,
        fails: 9,
    };
    stops_so(
        alloc,
        &root,
        BEGUN,
        &[(9, Stop::AtCore(2)), (9, Stop::AtCore(0))],
    )
}

#[test]
fn a_frame_stops_at_each_ask_that_needs_the_core(rt: HostRuntime) -> Result<(), Fail> {
    for asks in CORE_ASKS.lines() {
        stops_at_fourth(rt.alloc(), asks)?;
    }
    Ok(())
}

#[test]
fn a_frame_that_has_taken_no_step_needs_the_core(rt: HostRuntime) -> Result<(), Fail> {
    stops_so(
        rt.alloc(),
        &Root {
            asks: "work work work work work finish",
            fuel: 9,
            fails: 9,
        },
        &[],
        &[
            (0, Stop::Budget(0)),
            (4, Stop::AtCore(0)),
            (1, Stop::AtCore(0)),
        ],
    )
}

#[test]
fn a_frame_works_up_to_its_budget(rt: HostRuntime) -> Result<(), Fail> {
    stops_so(
        rt.alloc(),
        &Root {
            asks: "work work work work work work finish",
            fuel: 20,
            fails: 9,
        },
        BEGUN,
        &[
            (0, Stop::Budget(0)),
            (2, Stop::Budget(2)),
            (3, Stop::Budget(3)),
            (1, Stop::AtCore(0)),
            (0, Stop::Budget(0)),
        ],
    )
}

#[test]
fn a_frame_without_fuel_needs_the_core(rt: HostRuntime) -> Result<(), Fail> {
    stops_so(
        rt.alloc(),
        &Root {
            asks: "work work work work work work finish",
            fuel: 4,
            fails: 9,
        },
        BEGUN,
        &[(9, Stop::AtCore(3)), (1, Stop::AtCore(0))],
    )
}

/// A torn frame is the root's still.
#[test]
fn a_frame_is_torn_where_its_body_finds_no_memory(rt: HostRuntime) -> Result<(), Fail> {
    for fails in [3, 4] {
        let root = Root {
            asks: "work work work work work work finish",
            fuel: 9,
            fails,
        };
        stops_so(
            rt.alloc(),
            &root,
            BEGUN,
            &[(2, Stop::Budget(2)), (2, Stop::NoMemory)],
        )?;
    }
    Ok(())
}
