// What the tests share: segments with the free name, whose items are numbers.
ghost use Rattle.std.specs.Prelude.{◌≡◌, ◌≤◌, None};
ghost use Rattle.ring_segments.specs.Ends.{new_consumer, new_producer};
ghost use Rattle.ring_segments.specs.declared.ring.TheConstants.{RING_PLACES_MOST};

use ring_segments::{Consumer, Link, Producer, Tag, segment};
use std::alloc::Global;
use std::process::Abort;
use swan_model::{RunName, Value};

/// A segment with the free name, of this key and size. The test ends where there is no memory for it.
pub fn free_segment(rt: &impl Abort, alloc: Global, key: u64, size: u32) -> (Producer, Consumer)
    requires { (1 ≤ size) × (size ≤ RING_PLACES_MOST) }
    ensures name { result.0.of.id.name ≡ None }
    ensures producer { result.0 ≡ new_producer result.0.of }
    ensures consumer { result.1 ≡ new_consumer result.0.of }
    ensures key { result.0.of.key ≡ key }
    ensures size { result.0.of.size ≡ size }
{
    match segment(alloc, RunName::free(), Tag::Root(3), key, size) {
        Ok(ends) => ends,
        Err(_) => panic!(rt; "no memory"),
    }
}

/// A call on the two ends of one segment, and what it has to answer.
#[derive(Clone, Copy)]
pub enum Step {
    /// The number is pushed.
    Push(i64),
    /// The number is handed back.
    Full(i64),
    /// This number is popped.
    Pop(i64),
    /// Nothing is popped.
    Empty,
    /// Whether an item is there.
    Holds(bool),
    /// A note is given and learnt.
    Note,
}

/// Whether a call answers as it has to.
fn does(producer: &mut Producer, consumer: &mut Consumer, step: Step) -> bool
    requires name { producer.old.of.id.name ≡ None }
    requires segment { consumer.old.of ≡ producer.old.of }
    ensures { (producer.new.of ≡ producer.old.of) × (consumer.new.of ≡ consumer.old.of) }
{
    match step {
        Step::Push(number) => goes_in(producer, number),
        Step::Full(number) => is_handed_back(producer, number),
        Step::Pop(number) => is_popped(consumer, number),
        Step::Empty => is_empty(consumer),
        Step::Holds(is_there) => consumer.holds() == is_there,
        Step::Note => {
            consumer.learn(producer.note());
            true
        }
    }
}

/// Whether an item is this number.
pub fn is_number(item: Value, number: i64) -> bool {
    match item {
        Value::Int(found) => found == number,
        Value::Bytes(record) => {
            drop(record);
            false
        }
    }
}

/// Whether this number is pushed.
pub fn goes_in(producer: &mut Producer, number: i64) -> bool
    requires { producer.old.of.id.name ≡ None }
    ensures { producer.new.of ≡ producer.old.of }
{
    producer.push(Value::Int(number)).is_ok()
}

/// Whether this number is handed back.
fn is_handed_back(producer: &mut Producer, number: i64) -> bool
    requires { producer.old.of.id.name ≡ None }
    ensures { producer.new.of ≡ producer.old.of }
{
    match producer.push(Value::Int(number)) {
        Ok(()) => false,
        Err(item) => is_number(item, number),
    }
}

/// Whether this number is popped.
fn is_popped(consumer: &mut Consumer, number: i64) -> bool
    ensures { consumer.new.of ≡ consumer.old.of }
{
    match consumer.pop() {
        Some(item) => is_number(item, number),
        None => false,
    }
}

/// Whether nothing is popped.
fn is_empty(consumer: &mut Consumer) -> bool
    ensures { consumer.new.of ≡ consumer.old.of }
{
    consumer.pop().is_none()
}

/// How many calls answer as they have to, up to the first one that doesn't.
fn follows(producer: &mut Producer, consumer: &mut Consumer, steps: &[Step]) -> usize
    requires name { producer.old.of.id.name ≡ None }
    requires segment { consumer.old.of ≡ producer.old.of }
    ensures { (producer.new.of ≡ producer.old.of) × (consumer.new.of ≡ consumer.old.of) }
{
    let mut done = 0;
    for step in steps {
        if !does(producer, consumer, *step) {
            return done;
        }
        done += 1;
    }
    done
}

/// Asserts that all calls answer as they have to.
pub fn hold_steps(rt: &impl Abort, producer: &mut Producer, consumer: &mut Consumer, steps: &[Step])
    requires name { producer.old.of.id.name ≡ None }
    requires segment { consumer.old.of ≡ producer.old.of }
    ensures { (producer.new.of ≡ producer.old.of) × (consumer.new.of ≡ consumer.old.of) }
{
    let done = follows(producer, consumer, steps);
    assert!(rt; done == steps.len(), "another answer at step {done}");
}

/// Whether these numbers are popped, in order.
pub fn pops(consumer: &mut Consumer, numbers: &[i64]) -> bool
    ensures { consumer.new.of ≡ consumer.old.of }
{
    for number in numbers {
        if !is_popped(consumer, *number) {
            return false;
        }
    }
    true
}

/// Asserts that these numbers are popped, in order.
pub fn hold_pops(rt: &impl Abort, consumer: &mut Consumer, numbers: &[i64])
    ensures { consumer.new.of ≡ consumer.old.of }
{
    assert!(rt; pops(consumer, numbers), "not {numbers:?}");
}

/// Asserts that nothing is popped.
pub fn hold_empty(rt: &impl Abort, what: &str, consumer: &mut Consumer)
    ensures { consumer.new.of ≡ consumer.old.of }
{
    assert!(rt; is_empty(consumer), "{what} has an item left");
}

/// The next segment's consumer, by a link that is followed.
pub fn advanced(rt: &impl Abort, consumer: Consumer, link: Link) -> Consumer
    requires { link.of ≡ consumer.of }
{
    match consumer.advance(link) {
        Ok(next) => next,
        Err(both) => {
            drop(both);
            panic!(rt; "items are left")
        }
    }
}

/// Pushes numbers until the ring is full, and answers how many went in; 100 at most.
pub fn fill(producer: &mut Producer) -> u32
    requires { producer.old.of.id.name ≡ None }
    ensures { producer.new.of ≡ producer.old.of }
{
    for many in 0..100 {
        let number = (producer.pushed() % 1000) as i64;
        if !goes_in(producer, number) {
            return many;
        }
    }
    100
}

/// Pops those numbers until the ring is empty, and answers how many came; `None` where another one came.
pub fn drain(consumer: &mut Consumer) -> Option<u32> {
    for many in 0..100 {
        let number = (consumer.popped() % 1000) as i64;
        match consumer.pop() {
            Some(item) => {
                if !is_number(item, number) {
                    return None;
                }
            }
            None => return Some(many),
        }
    }
    None
}
