// Links from one segment to the next.
ghost use Rattle.std.specs.Prelude.{◌≡◌};
ghost use Rattle.std.specs.Arc.{arc_value};
ghost use Rattle.ring_segments.specs.Ends.{last_note_of};
ghost use Rattle.ring_segments.specs.Sits.{IsPushing, shown_of};
ghost use Rattle.ring_segments.specs.Tags.{OwesRest};

use crate::steps::note_last;
use crate::{Consumer, Note, Ring, RingSeat};
use std::alloc::Global;
use std::marker::Model;
use std::sync::Arc;

/// The spent producer of one segment and the consumer of the next one. Only `Producer::link` makes one.
#[derive(Drop)]
pub struct Link {
    ring: Arc<Ring, Global>,
    seat: RingSeat,
    pushed: u64,
    next: Consumer,
}

impl Model for Link {
    ghost use Rattle.std.specs.Prelude.{◌≡◌};
    ghost use Rattle.std.specs.Arc.{arc_value};
    ghost use Rattle.ring_segments.specs.Ends.{LinkState};
    ghost use Rattle.ring_segments.specs.Seating.{id_of};
    ghost use Rattle.ring_segments.specs.Sits.{IsPushing, shown_of};
    ghost use Rattle.ring_segments.specs.Tags.{OwesRest};

    ghost Value = { LinkState };

    ghost view = { λ l. record { of = shown_of (arc_value l.ring); pushed = l.pushed; next = l.next } };

    ghost invariant = { λ l. IsPushing (arc_value l.ring) l.seat l.pushed × (l.next.popped ≡ 0) × OwesRest (id_of (arc_value l.ring).about) l.pushed l.next.of.id };
}

impl Link {
    /// The link of a producer's seat, which is spent, and the next segment's consumer. `O(1)`.
    pub(crate) fn new(ring: Arc<Ring, Global>, seat: RingSeat, pushed: u64, next: Consumer) -> Link
        requires seat { IsPushing (arc_value ring) seat pushed }
        requires next { (next.popped ≡ 0) × OwesRest (shown_of (arc_value ring)).id pushed next.of.id }
        ensures { result ≡ record { of = shown_of (arc_value ring); pushed = pushed; next = next } }
    {
        Link {
            ring,
            seat,
            pushed,
            next,
        }
    }

    /// A note of all that the spent producer has pushed. It takes no memory. `O(1)`.
    pub fn note(&mut self) -> Note
        ensures same { self.new ≡ self.old }
        ensures note { result ≡ last_note_of self.old.of self.old.pushed }
    {
        let seat = note_last(&self.ring, &mut self.seat, self.pushed);
        Note::new(seat)
    }

    /// The key of the spent producer's segment. It takes no memory. `O(1)`.
    pub fn key(&self) -> u64
        ensures { result ≡ self.now.of.key }
    {
        self.ring.about.key
    }

    /// How many items its producer has pushed. `O(1)`.
    pub(crate) fn pushed(&self) -> u64
        ensures { result ≡ self.now.pushed }
    {
        self.pushed
    }

    /// The next segment's consumer. `O(1)`.
    pub(crate) fn into_next(self) -> Consumer
        ensures next { result ≡ self.next }
        ensures rest { (result.popped ≡ 0) × OwesRest self.of.id self.pushed result.of.id }
    {
        self.next
    }
}
