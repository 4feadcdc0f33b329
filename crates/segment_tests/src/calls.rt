// Calls in one thread, with the answers worked out by hand.
ghost use Rattle.std.specs.Prelude.{◌≡◌, ◌<◌, ◌≤◌, None};
ghost use Rattle.ring_segments.specs.Ends.{after_push};
ghost use Rattle.ring_segments.specs.declared.ring.TheConstants.{RING_PLACES_MOST};

use crate::helpers::{
    Step, advanced, drain, fill, free_segment, goes_in, hold_empty, hold_pops, hold_steps,
};
use ring_segments::{Consumer, Link, Note, Producer, Tag};
use std::alloc::Global;
use std::mem::size_of;
use std::process::Abort;
use swan_model::{Record, Value};

/// Asserts how many items were pushed and popped.
fn hold_counts(rt: &impl Abort, pushed: u64, popped: u64, count: u64) {
    assert!(rt; pushed == count, "pushed {pushed}, not {count}");
    assert!(rt; popped == count, "popped {popped}, not {count}");
}

/// Asserts what calls on the two ends of a segment of two places answer.
fn hold_two_places(rt: &impl Abort, producer: &mut Producer, consumer: &mut Consumer)
    requires name { producer.old.of.id.name ≡ None }
    requires segment { consumer.old.of ≡ producer.old.of }
{
    let steps = [
        Step::Empty,
        Step::Holds(false),
        Step::Push(1),
        Step::Push(2),
        Step::Full(3),
        Step::Pop(1),
        Step::Push(3),
        Step::Full(4),
        Step::Holds(true),
        Step::Holds(true),
        Step::Pop(2),
        Step::Note,
        Step::Pop(3),
        Step::Note,
        Step::Empty,
    ];
    hold_steps(rt, producer, consumer, &steps);
    hold_counts(rt, producer.pushed(), consumer.popped(), 3);
}

#[test]
fn a_full_ring_hands_the_item_back_and_an_empty_one_gives_none(rt: HostRuntime) {
    let (mut producer, mut consumer) = free_segment(&rt, rt.alloc(), 0, 2);
    hold_two_places(&rt, &mut producer, &mut consumer);
}

/// The consumer of a segment of key 1 that has 4.
fn next_with_four(rt: &impl Abort, alloc: Global) -> Consumer
    ensures { result.popped ≡ 0 }
{
    let (mut producer, consumer) = free_segment(rt, alloc, 1, 2);
    let is_pushed = goes_in(&mut producer, 4);
    drop(producer);
    assert!(rt; is_pushed, "4 isn't pushed");
    consumer
}

/// What is left of 1, 2 and 3 in a segment of key 0 once 1 is popped, and its link to one of key 1 that has 4.
fn linked(rt: &impl Abort, alloc: Global) -> (Consumer, Link)
    ensures { result.1.of ≡ result.0.of }
{
    let (mut producer, mut consumer) = free_segment(rt, alloc, 0, 2);
    let steps = [
        Step::Push(1),
        Step::Push(2),
        Step::Full(3),
        Step::Pop(1),
        Step::Push(3),
    ];
    hold_steps(rt, &mut producer, &mut consumer, &steps);
    (consumer, producer.link(next_with_four(rt, alloc)))
}

/// Asserts the key of a segment.
fn hold_key(rt: &impl Abort, found: u64, key: u64) {
    assert!(rt; found == key, "the key is {found}, not {key}");
}

/// Both ends of a link that isn't followed yet.
fn refused(rt: &impl Abort, consumer: Consumer, link: Link) -> (Consumer, Link)
    requires { link.of ≡ consumer.of }
    ensures { result ≡ (consumer, link) }
{
    match consumer.advance(link) {
        Ok(next) => {
            drop(next);
            panic!(rt; "a link is followed with items left")
        }
        Err(both) => both,
    }
}

#[test]
fn a_link_is_followed_once_all_is_popped(rt: HostRuntime) {
    let (consumer, link) = linked(&rt, rt.alloc());
    hold_key(&rt, link.key(), 0);
    let (mut consumer, link) = refused(&rt, consumer, link);
    hold_pops(&rt, &mut consumer, &[2, 3]);
    hold_empty(&rt, "the first segment", &mut consumer);
    let mut next = advanced(&rt, consumer, link);
    hold_key(&rt, next.key(), 1);
    hold_pops(&rt, &mut next, &[4]);
    hold_empty(&rt, "the next segment", &mut next);
}

#[test]
fn a_note_of_a_link_is_learnt(rt: HostRuntime) {
    let (mut consumer, mut link) = linked(&rt, rt.alloc());
    consumer.learn(link.note());
    hold_pops(&rt, &mut consumer, &[2, 3]);
    consumer.learn(link.note());
    drop(advanced(&rt, consumer, link));
}

#[test]
fn a_note_has_no_bytes(rt: HostRuntime) {
    assert_eq!(rt; size_of::<Note>(), 0);
}

/// Whether a ring of this size takes as many numbers as that, and gives them in order, many times round.
fn goes_round(producer: &mut Producer, consumer: &mut Consumer, size: u32) -> bool
    requires { producer.old.of.id.name ≡ None }
{
    for _ in 0..200 {
        if fill(producer) != size || drain(consumer) != Some(size) {
            return false;
        }
    }
    true
}

/// Asserts that of a ring of this size.
fn hold_round(rt: &impl Abort, alloc: Global, size: u32)
    requires { (1 ≤ size) × (size ≤ 50) }
{
    let (mut producer, mut consumer) = free_segment(rt, alloc, 0, size);
    let is_so = goes_round(&mut producer, &mut consumer, size);
    drop(producer);
    drop(consumer);
    assert!(rt; is_so, "at {size}");
}

#[test]
fn rings_of_one_two_sixteen_and_seventeen_places_go_round(rt: HostRuntime) {
    hold_round(&rt, rt.alloc(), 1);
    hold_round(&rt, rt.alloc(), 2);
    hold_round(&rt, rt.alloc(), 16);
    hold_round(&rt, rt.alloc(), 17);
}

/// Pushes a number where fewer were pushed than the ring takes: then it isn't refused, whatever was popped.
fn push_first(producer: &mut Producer, number: i64)
    requires name { producer.old.of.id.name ≡ None }
    requires room { producer.old.pushed < producer.old.of.size }
    requires few { producer.old.of.size ≤ RING_PLACES_MOST }
    ensures { producer.new ≡ after_push producer.old producer.new.found }
{
    match producer.push(Value::Int(number)) {
        Ok(()) => (),
        Err(_) => unreachable!(),
    }
}

/// Pushes the numbers from 0 on to a new segment, as many as its ring takes.
fn push_all_first(producer: &mut Producer, size: u64)
    requires name { producer.old.of.id.name ≡ None }
    requires new { producer.old.pushed ≡ 0 }
    requires size { (producer.old.of.size ≡ size) × (size ≤ RING_PLACES_MOST) }
    ensures of { producer.new.of ≡ producer.old.of }
    ensures pushed { producer.new.pushed ≡ size }
{
    for number in 0..size {
        push_first(producer, number as i64);
    }
}

/// Asserts what the two ends of a ring answer that took as many numbers, from 0 on, as it takes.
fn hold_full(rt: &impl Abort, producer: &mut Producer, consumer: &mut Consumer, size: i64)
    requires name { producer.old.of.id.name ≡ None }
    requires segment { consumer.old.of ≡ producer.old.of }
{
    let steps = [
        Step::Full(size),
        Step::Full(size),
        Step::Pop(0),
        Step::Push(size),
        Step::Full(size),
        Step::Pop(1),
        Step::Pop(2),
        Step::Push(5),
        Step::Push(6),
        Step::Full(7),
    ];
    hold_steps(rt, producer, consumer, &steps);
}

/// Asserts that a new ring takes as many numbers as its size, and no more before one is popped.
fn hold_size(rt: &impl Abort, alloc: Global, size: u32)
    requires { (3 ≤ size) × (size ≤ RING_PLACES_MOST) }
{
    let (mut producer, mut consumer) = free_segment(rt, alloc, 0, size);
    push_all_first(&mut producer, size as u64);
    hold_full(rt, &mut producer, &mut consumer, size as i64);
}

#[test]
fn a_ring_takes_as_many_items_as_its_size(rt: HostRuntime) {
    hold_size(&rt, rt.alloc(), 3);
    hold_size(&rt, rt.alloc(), 16);
    hold_size(&rt, rt.alloc(), 17);
    hold_size(&rt, rt.alloc(), 1000);
}

/// Pushes a record of these bytes, and says whether it went in.
fn push_text(producer: &mut Producer, alloc: Global, text: &str) -> bool
    requires { producer.old.of.id.name ≡ None }
    ensures { producer.new.of ≡ producer.old.of }
{
    match Record::of(alloc, text.as_bytes()) {
        Ok(record) => producer.push(Value::Bytes(record)).is_ok(),
        Err(_) => false,
    }
}

/// Pushes three records, and says whether all went in.
fn push_texts(producer: &mut Producer, alloc: Global) -> bool
    requires { producer.old.of.id.name ≡ None }
{
    push_text(producer, alloc, "ab")
        && push_text(producer, alloc, "")
        && push_text(producer, alloc, "c")
}

/// Whether a record of these bytes is popped.
fn pops_text(consumer: &mut Consumer, text: &str) -> bool {
    match consumer.pop() {
        Some(Value::Bytes(record)) => record.as_slice() == text.as_bytes(),
        Some(Value::Int(_)) => false,
        None => false,
    }
}

/// Asserts that three records are pushed, and that the first is popped.
fn hold_texts(rt: &impl Abort, alloc: Global, producer: &mut Producer, consumer: &mut Consumer)
    requires { producer.old.of.id.name ≡ None }
{
    assert!(rt; push_texts(producer, alloc), "a record isn't pushed");
    assert!(rt; pops_text(consumer, "ab"), "another record");
}

/// Asserts that an item is there.
fn hold_there(rt: &impl Abort, consumer: &mut Consumer) {
    assert!(rt; consumer.holds(), "nothing is there");
}

#[test]
fn records_go_through_and_those_left_are_dropped(rt: HostRuntime) {
    let (mut producer, mut consumer) = free_segment(&rt, rt.alloc(), 0, 3);
    hold_texts(&rt, rt.alloc(), &mut producer, &mut consumer);
    drop(producer);
    hold_there(&rt, &mut consumer);
}

/// Asserts that an end of a segment shows the tag of the plan's queue 3, key 7, and 20 places.
fn hold_shown(rt: &impl Abort, end: &str, tag: &Tag, key: u64, size: u64) {
    assert!(rt; matches!(tag, Tag::Root(3)), "the tag of the {end}");
    assert!(rt; key == 7, "{end}: key {key}, not 7");
    assert!(rt; size == 20, "{end}: {size} places, not 20");
}

#[test]
fn both_ends_show_tag_key_and_size(rt: HostRuntime) {
    let (producer, consumer) = free_segment(&rt, rt.alloc(), 7, 20);
    hold_shown(
        &rt,
        "producer",
        producer.tag(),
        producer.key(),
        producer.size(),
    );
    hold_shown(
        &rt,
        "consumer",
        consumer.tag(),
        consumer.key(),
        consumer.size(),
    );
}

/// Lets go of a value that may be sent to another thread.
fn let_go<T: Send + Drop>(_value: T) {}

#[test]
fn ends_links_and_notes_may_cross_to_another_thread(rt: HostRuntime) {
    let (mut producer, consumer) = free_segment(&rt, rt.alloc(), 0, 1);
    let (next_producer, next) = free_segment(&rt, rt.alloc(), 1, 1);
    let_go(producer.note());
    let_go(producer.link(next));
    let_go(next_producer);
    let_go(consumer);
}
