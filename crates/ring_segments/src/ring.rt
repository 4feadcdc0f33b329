// What both ends of a segment share.
ghost use Rattle.std.specs.Prelude.{◌≡◌, ◌≤◌, IfOk};
ghost use Rattle.std.specs.Option.{ForSome};
ghost use Rattle.swan_model.specs.Segments.{IsSegmentOf};
ghost use Rattle.ring_segments.specs.Ends.{new_consumer, new_producer};
ghost use Rattle.ring_segments.specs.Tags.{tag_of};
ghost use Rattle.ring_segments.specs.declared.ring.TheConstants.{RING_PLACES_MOST};

use crate::{About, Consumer, Ends, OwedItem, Producer, RingRule, Seen, Tag};
use atomic_table::{Seat, Table};
use std::alloc::Global;
use std::sync::Arc;
use swan_model::{NoMemory, RunName};

/// The most places that a segment may have.
pub const RING_PLACES_MOST: u32 = 16_777_216;

/// The word that counts what was popped.
pub(crate) const HEAD: usize = 0;

/// The word that counts what was pushed. It stands a cache line behind the other.
pub(crate) const TAIL: usize = 8;

pub(crate) type RingTable = Table<Option<OwedItem>, Seen, About, RingRule, Global>;

pub(crate) type RingSeat = Seat<Option<OwedItem>, Seen>;

/// What both ends of a segment share.
#[derive(Drop)]
pub(crate) struct Ring {
    pub(crate) table: RingTable,
    pub(crate) about: About,
}

/// A new segment of that many places, 1 to 16,777,216: the end that pushes to it and the end that pops from it.
///
/// The name is that of its run, the tag says what made it, and the key is the caller's own number for it, which all its
/// ends show. Where the name has a script, the segment owes a list by it. NoMemory leaves nothing, and the tag is gone.
/// `O(size)`: it allocates four times and keeps three of the blocks, the table's words, its slots, and what both ends share.
pub fn segment(
    alloc: Global,
    name: RunName,
    tag: Tag,
    key: u64,
    size: u32,
) -> Result<(Producer, Consumer), NoMemory>
    requires size { (1 ≤ size) × (size ≤ RING_PLACES_MOST) }
    requires tag { ForSome name (λ s. IsSegmentOf s (tag_of tag)) }
    ensures producer { IfOk result (λ ends. ends.0 ≡ new_producer ends.0.of) }
    ensures consumer { IfOk result (λ ends. ends.1 ≡ new_consumer ends.0.of) }
    ensures shown { IfOk result (λ ends. (ends.0.of.id ≡ record { name = name; tag = tag_of tag }) × (ends.0.of.key ≡ key) × (ends.0.of.size ≡ size)) }
{
    let about = About {
        name,
        tag,
        key,
        size: size as u64,
    };
    let (table, mut first) = Table::vacant(alloc, &[0; 9], size as usize, &about)?;
    let second = table.shared.split_seat::<Ends>(&mut first);
    let ring = Arc::new(alloc, Ring { table, about })?;
    let other = Arc::try_clone(&ring)?;
    Ok((Producer::new(ring, first), Consumer::new(other, second)))
}
