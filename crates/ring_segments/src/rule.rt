// What is true of a ring between any two steps.
use crate::{OwedItem, Tag, Tagged};
use atomic_table::TableRule;
use swan_model::RunName;

/// What a seat of a ring knows. No value of it is ever made.
pub struct SeatView<O> {
    /// It is the producer's.
    pub pushes: bool,
    /// It is the consumer's.
    pub pops: bool,
    /// How many items the producer has pushed.
    pub pushed: u64,
    /// How many items the consumer has popped.
    pub popped: u64,
    /// The producer has the next free slot.
    pub putting: bool,
    /// The consumer has the slot of the next item.
    pub taking: bool,
    /// No push follows.
    pub sealed: bool,
    /// How often it has looked at the other end's word.
    pub looks: u64,
    /// How often the ring was full, or empty, then.
    pub misses: u64,
    /// So many items were popped, as the producer found at its last look.
    pub found: u64,
    /// At least so many items were pushed.
    pub known: u64,
    /// So many are ever pushed.
    pub all: Option<u64>,
    /// Whose items they are.
    pub owner: Option<O>,
}

pub(crate) type Seen = SeatView<Tagged>;

/// What a segment is told when it is made.
#[derive(Drop)]
pub(crate) struct About {
    pub(crate) name: RunName,
    pub(crate) tag: Tag,
    pub(crate) key: u64,
    pub(crate) size: u64,
}

pub(crate) struct RingRule;

impl TableRule<Option<OwedItem>, Seen, About> for RingRule {
    ghost use Rattle.ring_segments.specs.Seating.{IsRingOf, first_view};

    ghost holds = { IsRingOf };

    ghost first = { first_view };
}
