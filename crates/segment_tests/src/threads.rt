// The two ends in two threads.
ghost use Rattle.std.specs.Prelude.{◌≡◌, None, Some, IfSome};

use crate::helpers::{advanced, free_segment, goes_in, hold_pops, is_number, pops};
use ring_segments::{Consumer, Link, Producer};
use std::process::Abort;
use std::thread::{Threads, join, yield_now};

/// How many numbers go through.
const MANY: u32 = 100_000;

/// How often a side tries, at most.
const TRIES: u64 = 500_000_000;

/// Pushes so many numbers, from 0 on, and says whether all went in.
fn push_up_to(producer: &mut Producer, many: u32) -> bool
    requires { producer.old.of.id.name ≡ None }
    ensures { producer.new.of ≡ producer.old.of }
{
    let mut next = 0;
    for _ in 0..TRIES {
        if next >= many {
            return true;
        }
        if goes_in(producer, next as i64) {
            next += 1;
        } else {
            yield_now();
        }
    }
    false
}

/// Pushes so many numbers, from 0 on, and says whether all went in. Nothing is pushed after them.
fn push_last(mut producer: Producer, many: u32) -> bool
    requires { producer.of.id.name ≡ None }
{
    push_up_to(&mut producer, many)
}

/// Pops as many numbers, and says whether they came in order.
fn pop_all(mut consumer: Consumer) -> bool {
    let mut next = 0;
    for _ in 0..TRIES {
        if next >= MANY {
            return true;
        }
        match consumer.pop() {
            Some(item) => {
                if !is_number(item, next as i64) {
                    return false;
                }
                next += 1;
            }
            None => yield_now(),
        }
    }
    false
}

#[test]
fn a_hundred_thousand_numbers_go_through_three_places_in_order(rt: HostRuntime) {
    let (producer, consumer) = free_segment(&rt, rt.alloc(), 0, 3);
    let (pushed, popped) = join(
        &rt,
        move || push_last(producer, MANY),
        move || pop_all(consumer),
    );
    assert!(rt; pushed);
    assert!(rt; popped);
}

/// Pushes 0 to 999, links to the next segment, and pushes 0 there. No link comes where a side had too many tries.
fn push_and_link(mut producer: Producer, next_producer: Producer, next: Consumer) -> Option<Link>
    requires free { (producer.of.id.name ≡ None) × (next_producer.of.id.name ≡ None) }
    requires next { next.popped ≡ 0 }
    ensures { IfSome result (λ link. link.of ≡ producer.of) }
{
    if !push_up_to(&mut producer, 1000) {
        return None;
    }
    let link = producer.link(next);
    if push_last(next_producer, 1) {
        Some(link)
    } else {
        None
    }
}

/// Pops 0 to 999, with as many tries for each, and gives the consumer back.
fn pop_a_thousand(mut consumer: Consumer) -> Option<Consumer>
    ensures { IfSome result (λ c. c.of ≡ consumer.of) }
{
    for number in 0..1000 {
        for _ in 0..TRIES / 1000 {
            if consumer.holds() {
                break;
            }
            yield_now();
        }
        if !pops(&mut consumer, &[number]) {
            return None;
        }
    }
    Some(consumer)
}

/// Links a segment to the next one while its consumer is in another thread. What each thread gives back.
fn link_apart<R: Threads>(
    rt: &R,
    ends: (Producer, Consumer),
    next_ends: (Producer, Consumer),
) -> (Option<Link>, Option<Consumer>)
    requires free { (ends.0.of.id.name ≡ None) × (next_ends.0.of.id.name ≡ None) }
    requires next { next_ends.1.popped ≡ 0 }
    ensures link { IfSome result.0 (λ link. link.of ≡ ends.0.of) }
    ensures consumer { IfSome result.1 (λ c. c.of ≡ ends.1.of) }
{
    let (producer, consumer) = ends;
    let (next_producer, next) = next_ends;
    join(
        rt,
        move || -> Option<Link>
            requires free { (producer.of.id.name ≡ None) × (next_producer.of.id.name ≡ None) }
            requires next { next.popped ≡ 0 }
            ensures { IfSome result (λ link. link.of ≡ producer.of) }
        { push_and_link(producer, next_producer, next) },
        move || -> Option<Consumer>
            ensures { IfSome result (λ c. c.of ≡ consumer.of) }
        { pop_a_thousand(consumer) },
    )
}

/// The link of a side that hasn't tried too often.
fn link_there(rt: &impl Abort, link: Option<Link>) -> Link
    ensures { link ≡ Some result }
{
    match link {
        Some(link) => link,
        None => panic!(rt; "the producer's side has tried too often"),
    }
}

/// The consumer of a side that hasn't tried too often.
fn consumer_there(rt: &impl Abort, consumer: Option<Consumer>) -> Consumer
    ensures { consumer ≡ Some result }
{
    match consumer {
        Some(consumer) => consumer,
        None => panic!(rt; "the consumer's side has tried too often"),
    }
}

#[test]
fn a_segment_is_linked_while_its_consumer_is_in_another_thread(rt: HostRuntime) {
    let ends = free_segment(&rt, rt.alloc(), 0, 2);
    let next_ends = free_segment(&rt, rt.alloc(), 1, 1);
    let (link, consumer) = link_apart(&rt, ends, next_ends);
    let link = link_there(&rt, link);
    let consumer = consumer_there(&rt, consumer);
    let mut next = advanced(&rt, consumer, link);
    hold_pops(&rt, &mut next, &[0]);
}
