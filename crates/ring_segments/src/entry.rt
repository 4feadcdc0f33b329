// What a slot keeps.
ghost use Rattle.std.specs.Prelude.{◌≡◌};
ghost use Rattle.ring_segments.specs.Tags.{IsItem};
ghost use Rattle.ring_segments.specs.Entries.{IndexedItem};

use crate::About;
use std::marker::Model;
use swan_model::{Meaning, Means, Value};

/// Stands for a segment, by its run's name and its tag. No value of it is ever made.
pub struct Tagged {
    never: u8,
}

impl Model for Tagged {
    ghost use Rattle.std.specs.Prelude.{None};
    ghost use Rattle.swan_model.specs.QueueState.{first_of, planned};
    ghost use Rattle.ring_segments.specs.Tags.{SegmentId};

    ghost Value = { SegmentId };

    ghost view = { λ _. record { name = None; tag = first_of (planned 0) } };
}

impl Means<Tagged> for About {
    ghost use Rattle.ring_segments.specs.Seating.{id_of};

    ghost means = { id_of };
}

/// An item with its index, which stands there on the list that its segment owes.
#[derive(Drop)]
pub(crate) struct OwedItem {
    item: Value,
    index: u64,
    of: Meaning<Tagged>,
}

impl Model for OwedItem {
    ghost use Rattle.ring_segments.specs.Entries.{IndexedItem};
    ghost use Rattle.ring_segments.specs.Tags.{IsItem};

    ghost Value = { IndexedItem };

    ghost view = { λ e. record { item = e.item; index = e.index; of = e.of.means } };

    ghost invariant = { λ e. IsItem e.of.means e.index e.item };
}

impl OwedItem {
    /// The item that its segment owes at this index. `O(1)`.
    pub(crate) fn new(item: Value, index: u64, of: Meaning<Tagged>) -> OwedItem
        requires { IsItem of.means index item }
        ensures { result ≡ record { item = item; index = index; of = of.means } }
    {
        OwedItem { item, index, of }
    }

    /// The item. `O(1)`.
    pub(crate) fn into_item(self) -> Value
        ensures item { result ≡ self.item }
        ensures stands { IsItem self.of self.index result }
    {
        self.item
    }
}
