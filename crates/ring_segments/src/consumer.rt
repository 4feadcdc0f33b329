// The end that pops.
ghost use Rattle.std.specs.Prelude.{◌≡◌, ◌≢◌, ◌<◌, ◌≤◌, IfErr, IfNone, IfOk, IfSome};
ghost use Rattle.std.specs.Arc.{arc_value};
ghost use Rattle.std.specs.Bool.{MatchBool};
ghost use Rattle.std.specs.Option.{ForSome};
ghost use Rattle.ring_segments.specs.Ends.{after_learn, after_look, after_pop, HasNotPassed, WasEmpty};
ghost use Rattle.ring_segments.specs.Sits.{consumer_state, IsPopping};
ghost use Rattle.ring_segments.specs.Tags.{IsInside, IsItem, OwesRest, tag_of};

use crate::steps::{hear, look, take_out};
use crate::{Link, Note, Ring, RingSeat, Tag};
use std::alloc::Global;
use std::marker::Model;
use std::sync::Arc;
use swan_model::Value;

/// The end of a segment that pops. It may go to another thread than the other end.
#[derive(Drop)]
pub struct Consumer {
    ring: Arc<Ring, Global>,
    seat: RingSeat,
    popped: u64,
}

impl Model for Consumer {
    ghost use Rattle.std.specs.Prelude.{◌≤◌};
    ghost use Rattle.std.specs.Arc.{arc_value};
    ghost use Rattle.std.specs.Option.{ForSome};
    ghost use Rattle.ring_segments.specs.Ends.{ConsumerState};
    ghost use Rattle.ring_segments.specs.Sits.{consumer_state, IsPopping};

    ghost Value = { ConsumerState };

    ghost view = { λ c. consumer_state (arc_value c.ring) c.seat.me.0 };

    ghost invariant = { λ c. IsPopping (arc_value c.ring) c.seat c.popped × ForSome c.seat.me.0.all (λ n. c.popped ≤ n) };
}

impl Consumer {
    /// The consumer of a segment, at its seat. `O(1)`.
    pub(crate) fn new(ring: Arc<Ring, Global>, seat: RingSeat) -> Consumer
        requires { IsPopping (arc_value ring) seat 0 }
        ensures { result ≡ consumer_state (arc_value ring) seat.me.0 }
    {
        Consumer {
            ring,
            seat,
            popped: 0,
        }
    }

    /// Pops the next item: the one at `popped` of the list that the segment owes.
    ///
    /// `None` comes where the ring was empty when this call looked, once, and neither a learnt note nor an earlier look told of
    /// more items than were popped. It takes no memory. `O(1)`: one load, and one store where it pops.
    pub fn pop(&mut self) -> Option<Value>
        ensures some { IfSome result (λ item. IsItem self.old.of.id self.old.popped item × (self.new ≡ after_pop self.old self.new.known)) }
        ensures known { IfSome result (λ item. (self.old.popped < self.new.known) × (self.old.known ≤ self.new.known)) }
        ensures none { IfNone result (WasEmpty self.old self.new) }
        ensures all { HasNotPassed self.new }
    {
        let item = take_out(&self.ring, &mut self.seat, self.popped)?;
        self.popped += 1;
        Some(item)
    }

    /// Whether an item is there, so that the next `pop` gives one. Nothing is taken.
    ///
    /// `false` comes where the ring was empty when this call looked, once, and neither a learnt note nor an earlier look told of
    /// more items than were popped. It takes no memory. `O(1)`: one load.
    pub fn holds(&mut self) -> bool
        ensures answer { MatchBool result ((self.new ≡ after_look self.old self.new.known) × (self.old.popped < self.new.known) × IsInside self.old.of.id self.old.popped) (WasEmpty self.old self.new) }
        ensures known { self.old.known ≤ self.new.known }
        ensures all { HasNotPassed self.new }
    {
        look(&self.ring, &mut self.seat, self.popped)
    }

    /// Goes on to the next segment, by the link that stands for this one.
    ///
    /// `Ok` gives the consumer of the next segment, and comes where all was popped that the link's producer had pushed.
    /// Otherwise `Err` gives both back. It takes no memory, and no step on the ring. `O(1)`, and the time to drop the
    /// segment that is left behind.
    pub fn advance(self, link: Link) -> Result<Consumer, (Consumer, Link)>
        requires { (link.of.id ≡ self.of.id) × (link.of.key ≡ self.of.key) }
        ensures ok { IfOk result (λ next. (self.popped ≡ link.pushed) × (next ≡ link.next)) }
        ensures rest { IfOk result (λ next. (next.popped ≡ 0) × OwesRest self.of.id self.popped next.of.id) }
        ensures err { IfErr result (λ both. (self.popped ≢ link.pushed) × (both ≡ (self, link))) }
    {
        if self.popped == link.pushed() {
            Ok(link.into_next())
        } else {
            Err((self, link))
        }
    }

    /// Learns how many items were pushed when a note of this segment was made, and where a link made it, that no more are: then
    /// no more than these were popped. It counts as a look. It takes no memory. `O(1)`: two loads.
    pub fn learn(&mut self, note: Note)
        requires { note.table ≡ self.old.of.table }
        ensures state { self.new ≡ after_learn self.old note }
        ensures last { ForSome note.all (λ n. self.old.popped ≤ n) }
        ensures all { HasNotPassed self.new }
    {
        hear(&self.ring, &mut self.seat, note.into_seat(), self.popped);
    }

    /// The segment's tag. It takes no memory. `O(1)`.
    pub fn tag(&self) -> &Tag
        ensures { tag_of result.now ≡ self.now.of.id.tag }
    {
        &self.ring.about.tag
    }

    /// The segment's key. It takes no memory. `O(1)`.
    pub fn key(&self) -> u64
        ensures { result ≡ self.now.of.key }
    {
        self.ring.about.key
    }

    /// How many items its ring takes. It takes no memory. `O(1)`.
    pub fn size(&self) -> u64
        ensures size { result ≡ self.now.of.size }
        ensures some { 1 ≤ result }
    {
        self.ring.about.size
    }

    /// How many items were popped. It takes no memory. `O(1)`.
    pub fn popped(&self) -> u64
        ensures { result ≡ self.now.popped }
    {
        self.popped
    }
}
