// Orders by chance.
ghost use Rattle.std.specs.Prelude.{◌≡◌, ◌<◌, OnOk, length};
ghost use Rattle.core_tests.specs.Pools.{MayAllCome};

use crate::turn::FrameTurn;
use crate::turns::take_turn;
use queues::Queues;
use std::alloc::Global;
use std::test::Fail;
use swan_model::{Body, NoMemory};
use task_frames::{Core, Frame};

/// More turns than a run of a test has.
const TURNS_MOST: usize = 1_000_000;

/// The next number in a row of numbers by chance.
fn next(chance: u64) -> u64 {
    chance
        .wrapping_mul(6_364_136_223_846_793_005)
        .wrapping_add(1_442_695_040_888_963_407)
}

/// How many steps a frame may take by itself.
fn budget(chance: u64) -> u64 {
    match (chance >> 20) & 3 {
        0 => u64::MAX,
        budget => budget,
    }
}

/// The root has ended exactly where no want of memory was met.
fn ends_so<B: Body, Q: Queues>(core: &Core<B, Q>, is_dead: bool) -> Result<(), Fail> {
    if core.is_done() == is_dead {
        Err("want of memory and an end, or neither".into())
    } else {
        Ok(())
    }
}

/// Takes the turn of one of the frames, with a budget: both by this number. Err is want of memory to keep the frames that come of it.
fn take_turn_by_chance<B: Body, Q: Queues>(
    alloc: Global,
    core: &mut Core<B, Q>,
    body: &B,
    frames: &mut Vec<Frame<B, Q>>,
    chance: u64,
) -> Result<FrameTurn, NoMemory>
    requires body { body.now ≡ core.old.plan.body }
    requires frames { MayAllCome Q.Ends.run core.old frames.old.items }
    requires some { 0 < length frames.old.items }
    ensures frames { OnOk result (MayAllCome Q.Ends.run core.new frames.new.items) }
    ensures plan { core.new.plan ≡ core.old.plan }
{
    let at = (chance >> 33) as usize % frames.len();
    let frame = frames.swap_remove(at);
    take_turn(alloc, core, body, frames, frame, budget(chance))
}

/// Gives up the frames.
fn give_up<B: Body, Q: Queues>(core: &Core<B, Q>, frames: &mut Vec<Frame<B, Q>>)
    ensures { MayAllCome Q.Ends.run core.now frames.new.items }
{
    frames.clear();
}

/// Whether want of memory was met, once this turn has come, which tore no frame. Err says what is wrong with the turn.
fn is_dead_after(turn: FrameTurn, is_dead: bool) -> Result<bool, Fail> {
    match turn {
        FrameTurn::Works(_, _) => Ok(is_dead),
        FrameTurn::NoMemory(_, _) => Ok(true),
        FrameTurn::Strange(_, _) => Err("a frame is strange".into()),
        _ if is_dead => Err("a core without memory goes on".into()),
        _ => Ok(false),
    }
}

/// Takes the turn of one of the frames, with a budget: both by this number. Where it is torn by want of memory in a step of its own, the others
/// are given up. It answers whether want of memory was met by then. Err says what is wrong with the turn, or is want of memory to keep a frame.
fn go_on<B: Body, Q: Queues>(
    alloc: Global,
    core: &mut Core<B, Q>,
    body: &B,
    frames: &mut Vec<Frame<B, Q>>,
    chance: u64,
    is_dead: bool,
) -> Result<bool, Fail>
    requires body { body.now ≡ core.old.plan.body }
    requires frames { MayAllCome Q.Ends.run core.old frames.old.items }
    requires some { 0 < length frames.old.items }
    ensures frames { OnOk result (MayAllCome Q.Ends.run core.new frames.new.items) }
    ensures plan { core.new.plan ≡ core.old.plan }
{
    match take_turn_by_chance(alloc, core, body, frames, chance) {
        Ok(FrameTurn::Torn(_)) => {
            give_up(core, frames);
            Ok(true)
        }
        Ok(turn) => is_dead_after(turn, is_dead),
        Err(none) => Err(none.into()),
    }
}

/// Takes turns until no frame is left, or one is torn by want of memory in a step of its own: each is that of any frame, with any budget. Once
/// the core has found no memory, it finds none for each frame that comes to it. The root has ended exactly where no want of memory was met. Err
/// says what went wrong.
pub fn take_turns_by_chance<B: Body, Q: Queues>(
    alloc: Global,
    core: &mut Core<B, Q>,
    body: &B,
    frames: &mut Vec<Frame<B, Q>>,
    seed: u64,
) -> Result<(), Fail>
    requires body { body.now ≡ core.old.plan.body }
    requires frames { MayAllCome Q.Ends.run core.old frames.old.items }
    ensures plan { core.new.plan ≡ core.old.plan }
{
    let mut chance = next(seed);
    let mut is_dead = false;
    for _turn in 0..TURNS_MOST {
        if frames.is_empty() {
            return ends_so(core, is_dead);
        }
        chance = next(chance);
        is_dead = go_on(alloc, core, body, frames, chance, is_dead)?;
    }
    Err("no end".into())
}
