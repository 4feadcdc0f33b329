// Turns of frames.
ghost use Rattle.std.specs.Prelude.{◌≡◌, ◌<◌, IfSome, OnOk, length, true};
ghost use Rattle.core_tests.specs.Pools.{CameSo, MayAllCome, MayCome};

use crate::turn::FrameTurn;
use queues::Queues;
use std::alloc::Global;
use std::test::Fail;
use swan_model::{Body, NoMemory};
use task_frames::{Core, Frame, Paused, Resumed};

/// Gives a frame to the core. What comes of it may come to the core, and what else could come still may.
fn resumed<B: Body, Q: Queues>(
    alloc: Global,
    core: &mut Core<B, Q>,
    body: &B,
    frame: Frame<B, Q>,
    others: &Vec<Frame<B, Q>>,
) -> Resumed<B, Q>
    // how the frame stands, and which others may come to the core
    requires body { body.now ≡ core.old.plan.body }
    requires frame { MayCome Q.Ends.run core.old frame }
    requires mark { frame.mark ≡ true }
    requires others { MayAllCome Q.Ends.run core.old others.now.items }

    // which may come to it then
    ensures came { CameSo Q.Ends.run core.new result }
    ensures others { MayAllCome Q.Ends.run core.new others.now.items }
    ensures plan { core.new.plan ≡ core.old.plan }
    ensures run { core.new.run ≡ core.old.run }
{
    core.resume(alloc, body, frame)
}

/// Keeps a frame behind the others. Err is want of memory for that.
fn keep<B: Body, Q: Queues>(
    core: &Core<B, Q>,
    frames: &mut Vec<Frame<B, Q>>,
    frame: Frame<B, Q>,
) -> Result<(), NoMemory>
    requires frames { MayAllCome Q.Ends.run core.now frames.old.items }
    requires frame { MayCome Q.Ends.run core.now frame }
    ensures { OnOk result (MayAllCome Q.Ends.run core.now frames.new.items) }
{
    Ok(frames.push(frame)?)
}

/// Keeps a frame and its child behind the others. Err is want of memory for that.
fn keep_both<B: Body, Q: Queues>(
    core: &Core<B, Q>,
    frames: &mut Vec<Frame<B, Q>>,
    parent: Frame<B, Q>,
    child: Frame<B, Q>,
) -> Result<(), NoMemory>
    requires frames { MayAllCome Q.Ends.run core.now frames.old.items }
    requires parent { MayCome Q.Ends.run core.now parent }
    requires child { MayCome Q.Ends.run core.now child }
    ensures { OnOk result (MayAllCome Q.Ends.run core.now frames.new.items) }
{
    if let Err(NoMemory) = keep(core, frames, parent) {
        drop(child);
        return Err(NoMemory);
    }
    keep(core, frames, child)
}

/// What the turn of a frame of this number came to, which took so many steps by itself before it came to the core.
fn told<B: Body, Q: Queues>(came: &Resumed<B, Q>, number: u64, works: u64) -> FrameTurn {
    match came {
        Resumed::Runs(_, _) => FrameTurn::Runs(number, works),
        Resumed::Spawned(_, child, _) => FrameTurn::Spawns(number, works, child.number()),
        Resumed::Ended(_) => FrameTurn::Ends(number, works),
        Resumed::Waits(_, waited) => FrameTurn::Waits(number, works, waited.wait()),
        Resumed::Strange(_, _) => FrameTurn::Strange(number, works),
        Resumed::NoMemory => FrameTurn::NoMemory(number, works),
    }
}

/// Keeps behind the others the frames that came of one. Err is want of memory for that.
fn keep_what_came<B: Body, Q: Queues>(
    core: &Core<B, Q>,
    frames: &mut Vec<Frame<B, Q>>,
    came: Resumed<B, Q>,
) -> Result<(), NoMemory>
    requires frames { MayAllCome Q.Ends.run core.now frames.old.items }
    requires came { CameSo Q.Ends.run core.now came }
    ensures { OnOk result (MayAllCome Q.Ends.run core.now frames.new.items) }
{
    match came {
        Resumed::Runs(next, _) => keep(core, frames, next),
        Resumed::Spawned(parent, child, _) => keep_both(core, frames, parent, child),
        Resumed::Waits(same, _) => keep(core, frames, same),
        Resumed::Strange(same, _) => keep(core, frames, same),
        Resumed::Ended(_) | Resumed::NoMemory => Ok(()),
    }
}

/// Gives a frame to the core, after so many steps that it took by itself, and keeps the frames that come of it. It answers what the turn came to.
/// Err is want of memory to keep them.
fn resume<B: Body, Q: Queues>(
    alloc: Global,
    core: &mut Core<B, Q>,
    body: &B,
    frames: &mut Vec<Frame<B, Q>>,
    frame: Frame<B, Q>,
    works: u64,
) -> Result<FrameTurn, NoMemory>
    // how the frame stands, and which others may come to the core
    requires body { body.now ≡ core.old.plan.body }
    requires frames { MayAllCome Q.Ends.run core.old frames.old.items }
    requires frame { MayCome Q.Ends.run core.old frame }
    requires mark { frame.mark ≡ true }

    // which may come to it then
    ensures frames { OnOk result (MayAllCome Q.Ends.run core.new frames.new.items) }
    ensures plan { core.new.plan ≡ core.old.plan }
    ensures run { core.new.run ≡ core.old.run }
{
    let number = frame.number();
    let came = resumed(alloc, core, body, frame, frames);
    let turn = told(&came, number, works);
    keep_what_came(core, frames, came)?;
    Ok(turn)
}

/// Keeps a frame behind the others that took so many steps by itself, which were its budget. It answers what the turn came to. Err is want of
/// memory to keep it.
fn pause<B: Body, Q: Queues>(
    core: &Core<B, Q>,
    frames: &mut Vec<Frame<B, Q>>,
    frame: Frame<B, Q>,
    steps: u64,
) -> Result<FrameTurn, NoMemory>
    requires frames { MayAllCome Q.Ends.run core.now frames.old.items }
    requires frame { MayCome Q.Ends.run core.now frame }
    ensures { OnOk result (MayAllCome Q.Ends.run core.now frames.new.items) }
{
    let turn = FrameTurn::Works(frame.number(), steps);
    keep(core, frames, frame)?;
    Ok(turn)
}

/// Gives up a frame that found no memory for a step, and answers what its turn came to.
fn torn<B: Body, Q: Queues>(frame: Frame<B, Q>) -> FrameTurn {
    let turn = FrameTurn::Torn(frame.number());
    frame.tear();
    turn
}

/// Takes the turn of a frame: the steps that it takes by itself, up to so many, and the one that needs the core. The frames
/// that come of it stand behind the others. Err is want of memory for that.
pub fn take_turn<B: Body, Q: Queues>(
    alloc: Global,
    core: &mut Core<B, Q>,
    body: &B,
    frames: &mut Vec<Frame<B, Q>>,
    mut frame: Frame<B, Q>,
    budget: u64,
) -> Result<FrameTurn, NoMemory>
    // which frames may come to the core
    requires body { body.now ≡ core.old.plan.body }
    requires frames { MayAllCome Q.Ends.run core.old frames.old.items }
    requires frame { MayCome Q.Ends.run core.old frame }

    // which may come to it then
    ensures frames { OnOk result (MayAllCome Q.Ends.run core.new frames.new.items) }
    ensures plan { core.new.plan ≡ core.old.plan }
    ensures run { core.new.run ≡ core.old.run }
{
    match frame.run_local(alloc, body, budget) {
        Paused::AtCore(steps) => resume(alloc, core, body, frames, frame, steps.count()),
        Paused::Budget(steps) => pause(core, frames, frame, steps.count()),
        Paused::NoMemory => Ok(torn(frame)),
    }
}

/// Where the first frame of a number stands.
fn position_of<B: Body, Q: Queues>(frames: &[Frame<B, Q>], number: u64) -> Option<usize>
    ensures { IfSome result (λ at. at < length frames.now) }
{
    for index in 0..frames.len() {
        if frames[index].number() == number {
            return Some(index);
        }
    }
    None
}

/// Takes the first frame of a number out.
fn first_of<B: Body, Q: Queues>(
    core: &Core<B, Q>,
    frames: &mut Vec<Frame<B, Q>>,
    number: u64,
) -> Option<Frame<B, Q>>
    requires frames { MayAllCome Q.Ends.run core.now frames.old.items }
    ensures frame { IfSome result (MayCome Q.Ends.run core.now) }
    ensures frames { MayAllCome Q.Ends.run core.now frames.new.items }
{
    match position_of(frames, number) {
        Some(at) => Some(frames.remove(at)),
        None => None,
    }
}

/// There is no frame of the number at the turn of this index.
fn no_frame(index: usize) -> Fail {
    Fail::new(format_args!("no frame at turn {index}"))
}

/// The turn of this index came to this turn. Err names it where it came to something else.
fn came_to(came: FrameTurn, turn: FrameTurn, index: usize) -> Result<(), Fail> {
    if came != turn {
        return Err(Fail::new(format_args!("turn {index} came to {came:?}")));
    }
    Ok(())
}

/// Takes the turn of the first frame of a number, with this budget. It is None where there is no such frame. Err is want of memory to keep the
/// frames that come of it.
fn take_turn_of<B: Body, Q: Queues>(
    alloc: Global,
    core: &mut Core<B, Q>,
    body: &B,
    frames: &mut Vec<Frame<B, Q>>,
    number: u64,
    budget: u64,
) -> Result<Option<FrameTurn>, NoMemory>
    requires body { body.now ≡ core.old.plan.body }
    requires frames { MayAllCome Q.Ends.run core.old frames.old.items }
    ensures frames { OnOk result (MayAllCome Q.Ends.run core.new frames.new.items) }
    ensures plan { core.new.plan ≡ core.old.plan }
    ensures run { core.new.run ≡ core.old.run }
{
    match first_of(core, frames, number) {
        Some(frame) => Ok(Some(take_turn(alloc, core, body, frames, frame, budget)?)),
        None => Ok(None),
    }
}

/// Takes this turn, which is the one of this index, of the first frame of its number. Err names it where there is no such frame or it comes to
/// something else, or is want of memory to keep the frames that come of it.
fn take_one<B: Body, Q: Queues>(
    alloc: Global,
    core: &mut Core<B, Q>,
    body: &B,
    frames: &mut Vec<Frame<B, Q>>,
    turn: FrameTurn,
    index: usize,
) -> Result<(), Fail>
    requires body { body.now ≡ core.old.plan.body }
    requires frames { MayAllCome Q.Ends.run core.old frames.old.items }
    ensures frames { OnOk result (MayAllCome Q.Ends.run core.new frames.new.items) }
    ensures plan { core.new.plan ≡ core.old.plan }
    ensures run { core.new.run ≡ core.old.run }
{
    match take_turn_of(alloc, core, body, frames, turn.frame(), turn.budget()) {
        Ok(Some(came)) => came_to(came, turn, index),
        Ok(None) => Err(no_frame(index)),
        Err(none) => Err(none.into()),
    }
}

/// Takes these turns, each of the first frame of its number. Err names the first one that comes to something else.
pub fn take_turns<B: Body, Q: Queues>(
    alloc: Global,
    core: &mut Core<B, Q>,
    body: &B,
    frames: &mut Vec<Frame<B, Q>>,
    turns: &[FrameTurn],
) -> Result<(), Fail>
    requires body { body.now ≡ core.old.plan.body }
    requires frames { MayAllCome Q.Ends.run core.old frames.old.items }
    ensures frames { OnOk result (MayAllCome Q.Ends.run core.new frames.new.items) }
    ensures plan { core.new.plan ≡ core.old.plan }
    ensures run { core.new.run ≡ core.old.run }
{
    for index in 0..turns.len() {
        if let Err(fail) = take_one(alloc, core, body, frames, turns[index], index) {
            return Err(fail);
        }
    }
    Ok(())
}
