// The end that pushes.
ghost use Rattle.std.specs.Prelude.{◌≡◌, ◌+◌, ◌<◌, ◌≤◌, false, IfErr, OnOk};
ghost use Rattle.std.specs.Arc.{arc_value};
ghost use Rattle.ring_segments.specs.Ends.{after_push, link_of, note_of, WasRefused};
ghost use Rattle.ring_segments.specs.Sits.{IsPushing, producer_state};
ghost use Rattle.ring_segments.specs.Tags.{HasRoomFor, IsItem, OwesRest, tag_of};

use crate::steps::{note_down, put_in};
use crate::{Consumer, Link, Note, OwedItem, Ring, RingSeat, Tag};
use std::alloc::Global;
use std::marker::Model;
use std::sync::Arc;
use swan_model::{Meaning, Value};

/// The end of a segment that pushes. It may go to another thread than the other end.
#[derive(Drop)]
pub struct Producer {
    ring: Arc<Ring, Global>,
    seat: RingSeat,
    pushed: u64,
}

impl Model for Producer {
    ghost use Rattle.std.specs.Prelude.{◌≡◌, false};
    ghost use Rattle.std.specs.Arc.{arc_value};
    ghost use Rattle.ring_segments.specs.Ends.{ProducerState};
    ghost use Rattle.ring_segments.specs.Seating.{id_of};
    ghost use Rattle.ring_segments.specs.Sits.{IsPushing, producer_state};
    ghost use Rattle.ring_segments.specs.Tags.{HasRoomFor};

    ghost Value = { ProducerState };

    ghost view = { λ p. producer_state (arc_value p.ring) p.seat.me.0 };

    ghost invariant = { λ p. IsPushing (arc_value p.ring) p.seat p.pushed × (p.seat.me.0.sealed ≡ false) × HasRoomFor (id_of (arc_value p.ring).about) p.pushed };
}

impl Producer {
    /// The producer of a segment, at its seat. `O(1)`.
    pub(crate) fn new(ring: Arc<Ring, Global>, seat: RingSeat) -> Producer
        requires { IsPushing (arc_value ring) seat 0 × (seat.me.0.sealed ≡ false) }
        ensures { result ≡ producer_state (arc_value ring) seat.me.0 }
    {
        Producer {
            ring,
            seat,
            pushed: 0,
        }
    }

    /// Pushes the item that the segment owes next.
    ///
    /// `Err` hands the item back. It comes where the ring was full when this call looked, once: as many items as it takes were
    /// pushed, and not popped as that look found. Or it comes where as many items were pushed as a `u64` can count. It takes no
    /// memory. `O(1)`: one load, and one store where it pushes.
    pub fn push(&mut self, item: Value) -> Result<(), Value>
        requires { IsItem self.old.of.id self.old.pushed item }
        ensures ok { OnOk result (self.new ≡ after_push self.old self.new.found) }
        ensures room { OnOk result ((self.old.found ≤ self.new.found) × (self.old.pushed < self.new.found + self.old.of.size)) }
        ensures err { IfErr result (λ given. (given ≡ item) × WasRefused self.old self.new) }
    {
        if self.pushed == u64::MAX {
            return Err(item);
        }
        let entry = OwedItem::new(item, self.pushed, Meaning::of(&self.ring.about));
        put_in(&self.ring, &mut self.seat, self.pushed, entry)?;
        self.pushed += 1;
        Ok(())
    }

    /// Ends this segment, whose list goes on in the next one. No push follows. It takes no memory. `O(1)`.
    pub fn link(self, next: Consumer) -> Link
        requires fresh { next.popped ≡ 0 }
        requires rest { OwesRest self.of.id self.pushed next.of.id }
        ensures { result ≡ link_of self next }
    {
        let Producer { ring, seat, pushed } = self;
        Link::new(ring, seat, pushed, next)
    }

    /// A note of how many items were pushed by now. It takes no memory. `O(1)`.
    pub fn note(&mut self) -> Note
        ensures same { self.new ≡ self.old }
        ensures note { result ≡ note_of self.old.of self.old.pushed }
    {
        let seat = note_down(&self.ring, &mut self.seat, self.pushed);
        Note::new(seat)
    }

    /// The segment's tag. It takes no memory. `O(1)`.
    pub fn tag(&self) -> &Tag
        ensures { tag_of result.now ≡ self.now.of.id.tag }
    {
        &self.ring.about.tag
    }

    /// The segment's key. It takes no memory. `O(1)`.
    pub fn key(&self) -> u64
        ensures { result ≡ self.now.of.key }
    {
        self.ring.about.key
    }

    /// How many items its ring takes. It takes no memory. `O(1)`.
    pub fn size(&self) -> u64
        ensures size { result ≡ self.now.of.size }
        ensures some { 1 ≤ result }
    {
        self.ring.about.size
    }

    /// How many items were pushed. Where the segment owes a list, they all stand before its end. It takes no memory. `O(1)`.
    pub fn pushed(&self) -> u64
        ensures count { result ≡ self.now.pushed }
        ensures room { HasRoomFor self.now.of.id self.now.pushed }
    {
        self.pushed
    }
}
