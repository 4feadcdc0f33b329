// Frames that come to a core that hasn't given them last.
ghost use Rattle.std.specs.Prelude.{◌≡◌, [], IfOk, OnOk};
ghost use Rattle.task_frames.specs.Resumes.{IsOpened, ends_of};
ghost use Rattle.core_tests.specs.Pools.{MayAllCome, MayCome};

use crate::plans::asks;
use crate::runs::{alone, frames_from, opened};
use crate::turn::FrameTurn;
use crate::turns::take_turns;
use elision_tests::AskList;
use queue_book::{BookQueues, NoEnds};
use queues::{LocalEnds, Queues, WaitFor};
use std::alloc::Global;
use std::marker::Model;
use std::sync::Arc;
use std::test::Fail;
use swan_model::{Answer, Ask, Body, NoMemory, Plan, PlanFuel, Roots};
use task_frames::{Core, Frame, Opened};

/// A list of asks that the plans of two runs share. Contracts see it as the list.
#[derive(Drop)]
struct Shared {
    list: Arc<AskList>,
}

impl Model for Shared {
    ghost use Rattle.std.specs.Prelude.{List, ℕ};
    ghost use Rattle.swan_model.specs.declared.body.Ask.{Ask as TheAsk};

    ghost Value = { List (TheAsk ℕ) };

    ghost view = { λ shared. shared.list.value };
}

impl Body for Shared {
    type Local = usize;

    ghost next = { ⟦<AskList as Body>⟧.next };

    ghost place_of = { ⟦<AskList as Body>⟧.place_of };

    fn advance(
        &self,
        alloc: Global,
        local: usize,
        answer: Answer,
        fuel: u64,
    ) -> Result<(usize, Ask<usize>), NoMemory> {
        self.list.advance(alloc, local, answer, fuel)
    }

    fn place(&self, local: &usize) -> u64 {
        self.list.place(local)
    }
}

/// The plan that goes through these asks, with nothing at first.
fn plan_of(alloc: Global, list: Arc<AskList>) -> Plan<Shared>
    ensures { result ≡ record { body = list.value; root_local = 0; roots = record { queues = []; objects = [] }; fuel = 50 } }
{
    Plan {
        body: Shared { list },
        root_local: 0,
        roots: Roots::new(alloc),
        fuel: PlanFuel::new(50),
    }
}

/// Turns of two runs of one plan.
pub struct Turns<'a> {
    /// Of the first run.
    pub first: &'a [FrameTurn],
    /// Of the second one.
    pub second: &'a [FrameTurn],
    /// The second run's frames come to the first core.
    pub stale: &'a [FrameTurn],
    /// The first run goes on.
    pub rest: &'a [FrameTurn],
}

/// The frames that an opened run has after these turns.
pub fn frames_after<B: Body, Q: Queues>(
    alloc: Global,
    opened: Opened<B, Q>,
    turns: &[FrameTurn],
) -> Result<Vec<Frame<B, Q>>, Fail>
    requires opened { IsOpened (ends_of Q.Ends.LocalEnds) opened.core opened.root }
    requires body { opened.body.value ≡ opened.core.plan.body }
    ensures frames { IfOk result (λ frames. MayAllCome Q.Ends.run opened.core frames.items) }
{
    let Opened {
        mut core,
        body,
        root,
    } = opened;
    let frames = frames_from(alloc, &mut core, &body, root, turns);
    drop(core);
    frames
}

/// Takes these turns of some frames. What else may come to the core may still come to it.
fn take_beside<B: Body, Q: Queues>(
    alloc: Global,
    core: &mut Core<B, Q>,
    body: &B,
    frames: &mut Vec<Frame<B, Q>>,
    others: &Vec<Frame<B, Q>>,
    turns: &[FrameTurn],
) -> Result<(), Fail>
    // which frames may come to the core
    requires body { body.now ≡ core.old.plan.body }
    requires frames { MayAllCome Q.Ends.run core.old frames.old.items }
    requires others { MayAllCome Q.Ends.run core.old others.now.items }

    // which still may
    ensures frames { OnOk result (MayAllCome Q.Ends.run core.new frames.new.items) }
    ensures others { MayAllCome Q.Ends.run core.new others.now.items }
    ensures plan { core.new.plan ≡ core.old.plan }
{
    take_turns(alloc, core, body, frames, turns)
}

/// Stale frames come to a core, and then its own ones go on.
fn take_rest<B: Body, Q: Queues>(
    alloc: Global,
    core: &mut Core<B, Q>,
    body: &B,
    own: &mut Vec<Frame<B, Q>>,
    stale: &mut Vec<Frame<B, Q>>,
    turns: &Turns<'_>,
) -> Result<(), Fail>
    requires body { body.now ≡ core.old.plan.body }
    requires own { MayAllCome Q.Ends.run core.old own.old.items }
    requires stale { MayAllCome Q.Ends.run core.old stale.old.items }
{
    take_beside(alloc, core, body, stale, own, turns.stale)?;
    take_turns(alloc, core, body, own, turns.rest)
}

/// Stale frames come to a core between turns of its own ones, and all come to what is said.
fn take_all<B: Body, Q: Queues>(
    alloc: Global,
    core: &mut Core<B, Q>,
    body: &B,
    own: &mut Vec<Frame<B, Q>>,
    stale: &mut Vec<Frame<B, Q>>,
    turns: &Turns<'_>,
) -> Result<(), Fail>
    requires body { body.now ≡ core.old.plan.body }
    requires own { MayAllCome Q.Ends.run core.old own.old.items }
    requires stale { MayAllCome Q.Ends.run core.old stale.old.items }
{
    take_beside(alloc, core, body, own, stale, turns.first)?;
    take_rest(alloc, core, body, own, stale, turns)
}

/// The same with this frame as the core's own at first.
fn take_from<B: Body, Q: Queues>(
    alloc: Global,
    core: &mut Core<B, Q>,
    body: &B,
    root: Frame<B, Q>,
    stale: &mut Vec<Frame<B, Q>>,
    turns: &Turns<'_>,
) -> Result<(), Fail>
    requires body { body.now ≡ core.old.plan.body }
    requires root { MayCome Q.Ends.run core.old root }
    requires stale { MayAllCome Q.Ends.run core.old stale.old.items }
{
    let mut own = alone(alloc, root)?;
    take_all(alloc, core, body, &mut own, stale, turns)
}

/// The turns of an opened run, to whose core these stale frames come, come to what is said. Err is what they came to.
fn come_beside<B: Body, Q: Queues>(
    alloc: Global,
    opened: Opened<B, Q>,
    stale: &mut Vec<Frame<B, Q>>,
    turns: &Turns<'_>,
) -> Result<(), Fail>
    requires opened { IsOpened (ends_of Q.Ends.LocalEnds) opened.core opened.root }
    requires body { opened.body.value ≡ opened.core.plan.body }
    requires stale { MayAllCome Q.Ends.run opened.core stale.old.items }
{
    let Opened {
        mut core,
        body,
        root,
    } = opened;
    let came = take_from(alloc, &mut core, &body, root, stale, turns);
    drop(core);
    came
}

/// The same, and gives up the stale frames.
fn come_so<B: Body, Q: Queues>(
    alloc: Global,
    opened: Opened<B, Q>,
    stale: Vec<Frame<B, Q>>,
    turns: &Turns<'_>,
) -> Result<(), Fail>
    requires opened { IsOpened (ends_of Q.Ends.LocalEnds) opened.core opened.root }
    requires body { opened.body.value ≡ opened.core.plan.body }
    requires stale { MayAllCome Q.Ends.run opened.core stale.items }
{
    let mut stale = stale;
    let came = come_beside(alloc, opened, &mut stale, turns);
    drop(stale);
    came
}

/// An opened run of the plan that goes through these asks.
fn opened_over(alloc: Global, list: &Arc<AskList>) -> Result<Opened<Shared, BookQueues>, Fail>
    ensures opened { IfOk result (λ it. IsOpened (ends_of ⟦<NoEnds as LocalEnds>⟧) it.core it.root) }
    ensures plan { IfOk result (λ it. it.core.plan ≡ record { body = list.now.value; root_local = 0; roots = record { queues = []; objects = [] }; fuel = 50 }) }
    ensures run { IfOk result (λ it. it.core.run ≡ []) }
    ensures body { IfOk result (λ it. it.body.value ≡ list.now.value) }
{
    Ok(opened(alloc, plan_of(alloc, Arc::try_clone(list)?))?)
}

/// The turns of a run, if it was opened, to whose core these stale frames come, come to what is said. Else they are given up.
fn come_if<B: Body, Q: Queues>(
    alloc: Global,
    opened: Result<Opened<B, Q>, Fail>,
    stale: Vec<Frame<B, Q>>,
    turns: &Turns<'_>,
) -> Result<(), Fail>
    requires opened { IfOk opened (λ it. IsOpened (ends_of Q.Ends.LocalEnds) it.core it.root) }
    requires body { IfOk opened (λ it. it.body.value ≡ it.core.plan.body) }
    requires stale { IfOk opened (λ it. MayAllCome Q.Ends.run it.core stale.items) }
{
    match opened {
        Ok(opened) => come_so(alloc, opened, stale, turns),
        Err(fail) => {
            drop(stale);
            Err(fail)
        }
    }
}

/// The turns of two runs of the plan that goes through these asks come to what is said.
fn come_over(alloc: Global, list: &Arc<AskList>, turns: &Turns<'_>) -> Result<(), Fail> {
    let stale = frames_after(alloc, opened_over(alloc, list)?, turns.second)?;
    come_if(alloc, opened_over(alloc, list), stale, turns)
}

/// The turns of two runs of these tasks, of which the first is the root, come to what is said.
fn table(alloc: Global, tasks: &[&str], turns: &Turns<'_>) -> Result<(), Fail> {
    let list = Arc::new(alloc, asks(alloc, tasks, usize::MAX)?)?;
    come_over(alloc, &list, turns)
}

#[test]
fn a_stale_frame_is_strange(rt: HostRuntime) -> Result<(), Fail> {
    table(
        rt.alloc(),
        &["sync"],
        &Turns {
            first: &[FrameTurn::Runs(0, 0)],
            second: &[],
            stale: &[FrameTurn::Strange(0, 0), FrameTurn::Strange(0, 0)],
            rest: &[FrameTurn::Ends(0, 0)],
        },
    )
}

#[test]
fn a_frame_from_ahead_is_strange(rt: HostRuntime) -> Result<(), Fail> {
    table(
        rt.alloc(),
        &["sync sync"],
        &Turns {
            first: &[],
            second: &[FrameTurn::Runs(0, 0), FrameTurn::Runs(0, 0)],
            stale: &[FrameTurn::Strange(0, 0), FrameTurn::Strange(0, 0)],
            rest: &[
                FrameTurn::Runs(0, 0),
                FrameTurn::Runs(0, 0),
                FrameTurn::Ends(0, 0),
            ],
        },
    )
}

#[test]
fn a_frame_that_has_ended_is_strange(rt: HostRuntime) -> Result<(), Fail> {
    table(
        rt.alloc(),
        &["sync sync"],
        &Turns {
            first: &[
                FrameTurn::Runs(0, 0),
                FrameTurn::Runs(0, 0),
                FrameTurn::Ends(0, 0),
            ],
            second: &[FrameTurn::Runs(0, 0)],
            stale: &[FrameTurn::Strange(0, 0), FrameTurn::Strange(0, 0)],
            rest: &[],
        },
    )
}

/// The first two turns of each run spawn the children, which go on in the same order until each has its own place. The child that spawns
/// first has the child 3 in its run.
#[test]
fn a_frame_of_another_path_is_strange(rt: HostRuntime) -> Result<(), Fail> {
    table(
        rt.alloc(),
        &["spawn:1:9: spawn:1:9: sync", "spawn:2:2: sync", ""],
        &Turns {
            first: &[
                FrameTurn::Spawns(0, 0, 1),
                FrameTurn::Spawns(0, 0, 2),
                FrameTurn::Spawns(1, 0, 3),
                FrameTurn::Spawns(2, 0, 4),
            ],
            second: &[
                FrameTurn::Spawns(0, 0, 1),
                FrameTurn::Spawns(0, 0, 2),
                FrameTurn::Spawns(2, 0, 3),
                FrameTurn::Spawns(1, 0, 4),
            ],
            stale: &[
                FrameTurn::Strange(3, 0),
                FrameTurn::Strange(4, 0),
                FrameTurn::Strange(3, 0),
            ],
            rest: &[
                FrameTurn::Waits(0, 0, WaitFor::Child(1)),
                FrameTurn::Waits(1, 0, WaitFor::Child(3)),
                FrameTurn::Waits(2, 0, WaitFor::Child(4)),
                FrameTurn::Ends(3, 0),
                FrameTurn::Runs(1, 0),
                FrameTurn::Ends(1, 0),
                FrameTurn::Waits(0, 0, WaitFor::Child(2)),
                FrameTurn::Ends(4, 0),
                FrameTurn::Runs(2, 0),
                FrameTurn::Ends(2, 0),
                FrameTurn::Runs(0, 0),
                FrameTurn::Ends(0, 0),
            ],
        },
    )
}

/// Each child makes a queue, or an object, for a place of its own, and spawns a child. They make them in another order in the second run.
fn other_places(alloc: Global, child: &str) -> Result<(), Fail> {
    table(
        alloc,
        &["spawn:1:9: spawn:1:9: sync", child, ""],
        &Turns {
            first: &[
                FrameTurn::Spawns(0, 0, 1),
                FrameTurn::Spawns(0, 0, 2),
                FrameTurn::Runs(1, 0),
                FrameTurn::Runs(2, 0),
                FrameTurn::Spawns(1, 0, 3),
            ],
            second: &[
                FrameTurn::Spawns(0, 0, 1),
                FrameTurn::Spawns(0, 0, 2),
                FrameTurn::Runs(2, 0),
                FrameTurn::Runs(1, 0),
                FrameTurn::Spawns(1, 0, 3),
            ],
            stale: &[
                FrameTurn::Strange(1, 0),
                FrameTurn::Strange(2, 0),
                FrameTurn::Strange(1, 0),
            ],
            rest: &[
                FrameTurn::Ends(3, 0),
                FrameTurn::Runs(1, 0),
                FrameTurn::Ends(1, 0),
                FrameTurn::Spawns(2, 0, 4),
                FrameTurn::Waits(2, 0, WaitFor::Child(4)),
                FrameTurn::Ends(4, 0),
                FrameTurn::Runs(2, 0),
                FrameTurn::Ends(2, 0),
                FrameTurn::Runs(0, 0),
                FrameTurn::Ends(0, 0),
            ],
        },
    )
}

#[test]
fn a_frame_that_holds_another_queue_is_strange(rt: HostRuntime) -> Result<(), Fail> {
    other_places(rt.alloc(), "queue spawn:2:2: sync")
}

#[test]
fn a_frame_that_holds_another_object_is_strange(rt: HostRuntime) -> Result<(), Fail> {
    other_places(rt.alloc(), "object:5 spawn:2:2: sync")
}

/// In the second run the other child goes first. Only the root stands as in the first run.
#[test]
fn each_frame_of_the_other_order_is_strange(rt: HostRuntime) -> Result<(), Fail> {
    table(
        rt.alloc(),
        &["spawn:1:9: spawn:1:9: sync", "queue spawn:2:2: sync", ""],
        &Turns {
            first: &[
                FrameTurn::Spawns(0, 0, 1),
                FrameTurn::Spawns(0, 0, 2),
                FrameTurn::Runs(1, 0),
                FrameTurn::Spawns(1, 0, 3),
                FrameTurn::Runs(2, 0),
                FrameTurn::Spawns(2, 0, 4),
            ],
            second: &[
                FrameTurn::Spawns(0, 0, 1),
                FrameTurn::Spawns(0, 0, 2),
                FrameTurn::Runs(2, 0),
                FrameTurn::Spawns(2, 0, 3),
                FrameTurn::Runs(1, 0),
                FrameTurn::Spawns(1, 0, 4),
            ],
            stale: &[
                FrameTurn::Strange(1, 0),
                FrameTurn::Strange(2, 0),
                FrameTurn::Strange(3, 0),
                FrameTurn::Strange(4, 0),
            ],
            rest: &[
                FrameTurn::Waits(2, 0, WaitFor::Child(4)),
                FrameTurn::Ends(3, 0),
                FrameTurn::Ends(4, 0),
                FrameTurn::Runs(2, 0),
                FrameTurn::Runs(1, 0),
                FrameTurn::Ends(2, 0),
                FrameTurn::Waits(0, 0, WaitFor::Child(1)),
                FrameTurn::Ends(1, 0),
                FrameTurn::Runs(0, 0),
                FrameTurn::Ends(0, 0),
            ],
        },
    )
}
