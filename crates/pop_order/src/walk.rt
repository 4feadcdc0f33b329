// The way to the first earlier pusher.
ghost use Rattle.std.specs.Prelude.{◌≡◌, ℕ, ◌<◌, true};
ghost use Rattle.swan_model.specs.declared.rights.Mode.TheVariants.{Push};
ghost use Rattle.pop_order.specs.Children.{has};
ghost use Rattle.pop_order.specs.Frames.{Frames};
ghost use Rattle.pop_order.specs.Kept.{AreBelowParents, HasHolders, HasGivers};
ghost use Rattle.pop_order.specs.Walk.{IsFirstUnder, IsFirstEarlier, IsSooner};

use crate::order::comes_before;
use crate::{Children, NumberPairs, TurnFrame};
use std::collections::BTreeMap;

/// The first, in serial order, of the pushers of a queue that come before a frame. Below each giver of
/// the queue it is looked for by itself. `O(g d log n)` for g givers and a tree of depth d; in a run a
/// queue has one giver.
pub fn first_earlier(
    frames: &BTreeMap<u64, TurnFrame>,
    pushers: &Children,
    givers: &NumberPairs,
    frame: u64,
    queue: u32,
) -> Option<u64>
    requires rising { AreBelowParents frames.now.entries }
    requires pushes { HasHolders frames.now.entries Push queue pushers.now }
    requires gives { HasGivers frames.now.entries queue pushers.now givers.now }
    ensures { IsFirstEarlier frames.now.entries queue frame result }
{
    let mut found = None;
    let mut from = 0;
    while let Some(giver) = givers.next(queue as u64, from) {
        let pusher = first_under(pushers, giver, queue);
        found = sooner(frames, found, pusher, frame);
        from = giver + 1;
    }
    found
}

/// The first pusher below a giver of a queue, in serial order: down by the oldest pushing child, as long
/// as there is one. `O(d log n)` for a tree of depth d.
fn first_under(pushers: &Children, giver: u64, queue: u32) -> u64
    requires rising { (parent child : ℕ) → has pushers.now parent queue child ≡ true → parent < child }
    requires gave { (child : ℕ) × (has pushers.now giver queue child ≡ true) }
    ensures younger { giver < result }
    ensures first { (frames : Frames) → AreBelowParents frames → HasHolders frames Push queue pushers.now
        → IsFirstUnder frames pushers.now queue giver result }
{
    let mut node = giver;
    while let Some(oldest) = pushers.oldest(node, queue) {
        node = oldest;
    }
    node
}

/// The one that comes first of a frame found before and of a pusher, where the pusher comes before a
/// frame, and else what was found before. `O(d log n)` for a tree of depth d.
fn sooner(
    frames: &BTreeMap<u64, TurnFrame>,
    found: Option<u64>,
    pusher: u64,
    frame: u64,
) -> Option<u64>
    requires { AreBelowParents frames.now.entries }
    ensures { IsSooner frames.now.entries frame found pusher result }
{
    if !comes_before(frames, pusher, frame) {
        return found;
    }
    let Some(first) = found else {
        return Some(pusher);
    };
    if comes_before(frames, first, pusher) {
        found
    } else {
        Some(pusher)
    }
}
