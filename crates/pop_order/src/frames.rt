// The frames by number.
ghost use Rattle.std.specs.Prelude.{◌≡◌, ℕ, ◌<◌, OnOk};
ghost use Rattle.std.specs.Ordering.{nat_cmp};
ghost use Rattle.std.specs.List.Sorted.{IsStrictlySortedBy};
ghost use Rattle.std.specs.Map.{keys_of};
ghost use Rattle.pop_order.specs.Frames.{Frames, frames_after_enlist, frames_after_lend, AreUpTo, MayBeEnlisted};
ghost use Rattle.pop_order.specs.Kept.{IsKept, IsKeptFor};
ghost use Rattle.pop_order.specs.Steps.{IsShrunk, HoldsNoOther};

use crate::{QueueHolding, Sets, TurnFrame};
use std::alloc::Global;
use std::collections::BTreeMap;
use swan_model::NoMemory;

/// Gives a child one more queue, or puts it in with its first one. `O(log n)`.
pub fn give(
    alloc: Global,
    frames: &mut BTreeMap<u64, TurnFrame>,
    parent: u64,
    child: u64,
    holding: QueueHolding,
) -> Result<(), NoMemory>
    ensures given { OnOk result (frames.new.entries ≡ frames_after_enlist frames.old.entries parent child holding) }
    ensures sorted { IsStrictlySortedBy nat_cmp (keys_of frames.new.entries) }
{
    if let Some(frame) = frames.get_mut(&child) {
        return frame.hold(holding);
    }
    let mut holdings = Vec::new(alloc);
    holdings.push(holding)?;
    let first = TurnFrame {
        parent,
        holdings,
        lent: false,
    };
    frames.insert(child, first)?;
    Ok(())
}

/// Notes that the queue views of a child's popped queues were moved to it. `O(log n)`.
pub fn lend(frames: &mut BTreeMap<u64, TurnFrame>, child: u64)
    ensures lent { frames.new.entries ≡ frames_after_lend frames.old.entries child }
    ensures sorted { IsStrictlySortedBy nat_cmp (keys_of frames.new.entries) }
{
    if let Some(frame) = frames.get_mut(&child) {
        frame.lend();
    }
}

/// Gives a child one more queue, in the frames and in the sets. `O(log n)`.
pub fn add(
    alloc: Global,
    frames: &mut BTreeMap<u64, TurnFrame>,
    sets: &mut Sets,
    parent: u64,
    child: u64,
    holding: QueueHolding,
) -> Result<(), NoMemory>
    // the frames, and what the sets have of them
    requires kept { IsKept frames.old.entries sets.old.poppers sets.old.pushers sets.old.givers }

    // who gets it
    requires rising { parent < child }
    requires newest { AreUpTo frames.old.entries child }
    requires fits { MayBeEnlisted frames.old.entries parent child holding.number }

    // what it leaves
    ensures given { OnOk result (frames.new.entries ≡ frames_after_enlist frames.old.entries parent child holding) }
    ensures kept { OnOk result (IsKept frames.new.entries sets.new.poppers sets.new.pushers sets.new.givers) }
{
    give(alloc, frames, parent, child, holding)?;
    sets.add(frames, parent, child, holding)?;
    Ok(())
}

/// Takes a child that is gone from the frames out of the sets, for each of its queues. `O(k log n)` for k
/// holdings.
pub fn take_out(sets: &mut Sets, parent: u64, child: u64, holdings: &[QueueHolding])
    ensures { (before after : Frames) → IsShrunk before after parent child → HoldsNoOther before child holdings.now
        → ((queue : ℕ) → IsKeptFor before sets.old.poppers sets.old.pushers sets.old.givers queue)
        → (queue : ℕ) → IsKeptFor after sets.new.poppers sets.new.pushers sets.new.givers queue }
{
    for holding in holdings {
        sets.take_out(parent, child, holding.queue);
    }
}
