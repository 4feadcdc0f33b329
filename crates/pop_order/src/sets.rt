// The three sets beside the frames, which answer for them.
ghost use Rattle.std.specs.Prelude.{◌≡◌, ◌≢◌, ℕ, true, false, [], OnOk, ◌⊎◌};
ghost use Rattle.swan_model.specs.Rights.{allows};
ghost use Rattle.swan_model.specs.declared.rights.Mode.TheVariants.{Push};
ghost use Rattle.pop_order.specs.Children.{IsWith};
ghost use Rattle.pop_order.specs.Frames.{Frames};
ghost use Rattle.pop_order.specs.Kept.{HasHolders, IsKeptFor};
ghost use Rattle.pop_order.specs.Givers.{IsGiverSettled};
ghost use Rattle.pop_order.specs.Steps.{IsGrown, IsShrunk, IsGiverNoted};
ghost use Rattle.pop_order.specs.Turns.{IsHolder};

use crate::{Children, NumberPairs, QueueHolding, TurnFrame};
use std::alloc::Global;
use std::collections::BTreeMap;
use swan_model::{Mode, NoMemory};

/// What is kept beside the frames.
#[derive(Drop)]
pub struct Sets {
    /// The frames that pop, as children by queue.
    pub poppers: Children,
    /// The frames that push, as children by queue.
    pub pushers: Children,
    /// The frames that have a pushing child and don't push themselves, each behind the queue. In a run that
    /// is the frame that made the queue.
    pub givers: NumberPairs,
}

impl Sets {
    /// Empty sets. It takes no memory. `O(1)`.
    pub fn new(alloc: Global) -> Sets
        ensures poppers { result.poppers ≡ [] }
        ensures pushers { result.pushers ≡ [] }
        ensures givers { result.givers ≡ [] }
    {
        Sets {
            poppers: Children::new(alloc),
            pushers: Children::new(alloc),
            givers: NumberPairs::new(alloc),
        }
    }

    /// Empties the sets. `O(n)`.
    pub fn clear(&mut self)
        ensures poppers { self.new.poppers ≡ [] }
        ensures pushers { self.new.pushers ≡ [] }
        ensures givers { self.new.givers ≡ [] }
    {
        self.poppers.clear();
        self.pushers.clear();
        self.givers.clear();
    }

    /// Notes that a child was given a queue, where the frames already say so. `O(log n)`.
    pub fn add(
        &mut self,
        frames: &BTreeMap<u64, TurnFrame>,
        parent: u64,
        child: u64,
        holding: QueueHolding,
    ) -> Result<(), NoMemory>
        ensures { OnOk result ((before : Frames) → IsGrown before frames.now.entries parent child holding
            → ((queue : ℕ) → IsKeptFor before self.old.poppers self.old.pushers self.old.givers queue)
            → (queue : ℕ) → IsKeptFor frames.now.entries self.new.poppers self.new.pushers self.new.givers queue) }
    {
        note(&mut self.poppers, Mode::Pop, parent, child, holding)?;
        note(&mut self.pushers, Mode::Push, parent, child, holding)?;
        note_giver(frames, &self.pushers, &mut self.givers, parent, holding)?;
        Ok(())
    }

    /// Takes a child that is gone from the frames out of the sets of a queue. `O(log n)`; it takes no
    /// memory.
    pub fn take_out(&mut self, parent: u64, child: u64, queue: u32)
        ensures this { (before after : Frames) → IsShrunk before after parent child
            → IsKeptFor before self.old.poppers self.old.pushers self.old.givers queue
            ⊎ IsKeptFor after self.old.poppers self.old.pushers self.old.givers queue
            → IsKeptFor after self.new.poppers self.new.pushers self.new.givers queue }
        ensures others { (any : Frames) (other : ℕ) → other ≢ queue
            → IsKeptFor any self.old.poppers self.old.pushers self.old.givers other
            → IsKeptFor any self.new.poppers self.new.pushers self.new.givers other }
    {
        self.poppers.remove(parent, queue, child);
        self.pushers.remove(parent, queue, child);
        settle(&self.pushers, &mut self.givers, parent, queue);
    }
}

/// Notes a child in a set where the holding lets use its queue by the set's mode. `O(log n)`.
fn note(
    set: &mut Children,
    mode: Mode,
    parent: u64,
    child: u64,
    holding: QueueHolding,
) -> Result<(), NoMemory>
    ensures noted { OnOk result (allows holding.mode mode ≡ true → IsWith set.old parent holding.number child set.new) }
    ensures kept { OnOk result (allows holding.mode mode ≡ false → set.new ≡ set.old) }
{
    if holding.mode.allows(mode) {
        set.insert(parent, holding.queue, child)
    } else {
        Ok(())
    }
}

/// Notes the parent of a child that may push, where it may not push itself, as it may not where it made
/// the queue. `O(log n)`.
fn note_giver(
    frames: &BTreeMap<u64, TurnFrame>,
    pushers: &Children,
    givers: &mut NumberPairs,
    parent: u64,
    holding: QueueHolding,
) -> Result<(), NoMemory>
    ensures { OnOk result (HasHolders frames.now.entries Push holding.number pushers.now
        → IsGiverNoted frames.now.entries parent holding givers.old givers.new) }
{
    if !holding.mode.allows(Mode::Push) {
        return Ok(());
    }
    if pushes(frames, pushers, holding.queue, parent) {
        return Ok(());
    }
    givers.insert(holding.queue as u64, parent)?;
    Ok(())
}

/// Whether a frame may push to a queue. `O(log n)`.
fn pushes(frames: &BTreeMap<u64, TurnFrame>, pushers: &Children, queue: u32, number: u64) -> bool
    ensures yes { HasHolders frames.now.entries Push queue pushers.now → result ≡ true
        → IsHolder frames.now.entries queue Push number }
    ensures no { HasHolders frames.now.entries Push queue pushers.now → result ≡ false
        → ¬ IsHolder frames.now.entries queue Push number }
{
    match frames.get(&number) {
        Some(frame) => pushers.has(frame.parent, queue, number),
        None => false,
    }
}

/// Takes a frame out of the givers of a queue where it has no pushing child any more. `O(log n)`.
fn settle(pushers: &Children, givers: &mut NumberPairs, parent: u64, queue: u32)
    ensures { IsGiverSettled pushers.now parent queue givers.old givers.new }
{
    match pushers.oldest(parent, queue) {
        Some(_child) => {}
        None => givers.remove(queue as u64, parent),
    }
}
