//! Segments of hyperqueues: rings with a producer and a consumer, which may be in two threads, and links from one
//! segment to the next.
//!
//! A hyperqueue is a row of segments, and a segment is a ring of fixed size. Its producer pushes and its consumer pops
//! with one load and one store each, and neither waits for the other: a full ring hands the item back, and an empty one
//! gives none. Where a segment has the name of a run, its tag says what made it, and it owes the list that the run's
//! script has for that (`Segments` in swan_model).
//!
//! Promised, and proved of each call in whatever order the steps of the two ends come: `pop` gives the item that stands
//! at `popped` of the list that is owed, before the segment's end, and `push` refuses only where the ring was full when
//! the call looked, or where as many items were pushed as a number of 64 bits can count. A ring has as many places as
//! `segment` was asked for, and it is full where so many items were pushed and not popped. A `Note` carries to the consumer
//! how much was pushed when it was made, and from then on the consumer finds that much. A `Link` ends a segment: it keeps the consumer of the next one, which owes the rest of the
//! list, and `advance` goes on to that one exactly where all was popped. No call waits, and all but `segment` take no
//! memory.
//!
//! With the free name a segment owes nothing, and nothing is said of which items it gives. Nor is it said that a push is
//! ever seen without a note, or that a ring that was full gets room.
//!
//! Inside, both ends share one `atomic_table`. Its first word counts what was popped and its last one what was pushed, a
//! cache line apart, and the item of index i stands in the slot i modulo the size. The rule of the table (`IsRing` in
//! `specs/Words`) speaks of indexes alone: between head and tail each slot has the item of its index. That the item is
//! the one that is owed there is a fact of the private type of what a slot keeps (`OwedItem`). What a seat knows of the
//! ring, as how often it has looked, stands in its view (`SeatView`), which exists in proofs alone.
#![tactic(auto)]

mod consumer;
mod entry;
mod limits;
mod link;
mod note;
mod plays;
mod producer;
mod ring;
mod rule;
mod steps;
mod tag;

pub use consumer::Consumer;
use entry::{OwedItem, Tagged};
pub use limits::limit_of_places;
pub use link::Link;
pub use note::Note;
use plays::{Ends, Hear, LastNotes, Notes, Put, Reach, SeeHead, SeeTail, Take};
pub use producer::Producer;
pub use ring::segment;
use ring::{Ring, RingSeat};
use rule::{About, RingRule, Seen};
pub use tag::Tag;
