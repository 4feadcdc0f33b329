// The queues of an elision.
ghost use Rattle.std.specs.Prelude.{◌≡◌, [], ◌∷◌, MatchOption, IfNone};

use std::collections::VecDeque;
use std::marker::Model;
use swan_model::{Origin, Value};

/// Room for so many items is kept.
const SHRUNK_LEAST: usize = 32;

/// A queue. Contracts see it as the queue of the serial state.
#[derive(Drop)]
pub struct Queue {
    /// What made it.
    pub origin: Origin,
    /// Its items, the first one in front.
    pub items: VecDeque<Value>,
}

impl Model for Queue {
    ghost use Rattle.swan_model.specs.SerialState.{Queue as TheQueue};

    ghost Value = { TheQueue };

    ghost view = { λ queue. record { origin = queue.origin; items = queue.items.items } };
}

impl Queue {
    /// Takes the first item off, and None exactly where there is none. Once less than a quarter of its room is used the
    /// queue gives half of the room back, down to room for `SHRUNK_LEAST` items. `O(1)` amortised.
    #[inline]
    pub fn pop(&mut self) -> Option<Value>
        ensures first { MatchOption result (self.old.items ≡ [])
            (λ item. self.old.items ≡ item ∷ self.new.items) }
        ensures none { IfNone result (self.new ≡ self.old) }
        ensures origin { self.new.origin ≡ self.old.origin }
    {
        let first = self.items.pop_front();
        let room = self.items.capacity();
        if room > SHRUNK_LEAST && self.items.len() < room / 4 {
            self.items.shrink_to((room / 2).max(SHRUNK_LEAST));
        }
        first
    }
}
