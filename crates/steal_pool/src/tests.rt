// Tests of pools: numbered balls of one pool, in one thread and in four.
ghost use Rattle.std.specs.Prelude.{◌≡◌, ◌<◌, ◌≤◌, vec_len};
ghost use Rattle.steal_pool.specs.declared.opening.TheConstants.{SEATS_MOST};

use crate::{PoolSeat, pool};
use crossbeam_deque::protocol::Free;
use named_lock::Named;
use std::alloc::Global;
use std::process::Abort;
use std::thread::Threads;
use swan_model::NoMemory;

/// A ball with its number. All have one name.
#[derive(Drop)]
struct Ball {
    number: u64,
}

impl Named for Ball {
    ghost use Rattle.std.specs.Prelude.{false};

    type Name = ();

    ghost name = { λ _. tt };

    ghost done = { λ _. false };
}

/// Two seats of a pool.
type Two = (PoolSeat<Ball>, PoolSeat<Ball>);

/// What a seat got.
type Got = Result<Vec<u64>, NoMemory>;

/// A seat takes a ball, and tells its number.
fn take(seat: &mut PoolSeat<Ball>) -> Option<u64> {
    match seat.take::<Free>() {
        Ok(ball) => Some(ball.number),
        Err(_) => None,
    }
}

/// A seat puts a ball with this number.
fn put(seat: &mut PoolSeat<Ball>, number: u64) -> Result<(), NoMemory> {
    match seat.put(Ball { number }) {
        Ok(()) => Ok(()),
        Err(_) => Err(NoMemory),
    }
}

/// A seat tries once to take a ball, and its number is noted.
fn note(seat: &mut PoolSeat<Ball>, numbers: &mut Vec<u64>) -> Result<(), NoMemory> {
    if let Some(number) = take(seat) {
        numbers.push(number)?;
    }
    Ok(())
}

/// A seat tries so many times to take a ball, and the numbers are noted.
fn note_all(seat: &mut PoolSeat<Ball>, numbers: &mut Vec<u64>, tries: u64) -> Result<(), NoMemory> {
    for _turn in 0..tries {
        note(seat, numbers)?;
    }
    Ok(())
}

/// The numbers of the balls that a seat gets by so many tries.
fn numbers_by(alloc: Global, seat: &mut PoolSeat<Ball>, tries: u64) -> Got {
    let mut numbers = Vec::new(alloc);
    match note_all(seat, &mut numbers, tries) {
        Ok(()) => Ok(numbers),
        Err(none) => {
            drop(numbers);
            Err(none)
        }
    }
}

/// The same of a seat that is given up then.
fn taken_by(alloc: Global, mut seat: PoolSeat<Ball>, tries: u64) -> Got {
    numbers_by(alloc, &mut seat, tries)
}

/// A seat puts balls with the numbers from 0 to below the count.
fn put_all(seat: &mut PoolSeat<Ball>, count: u64) -> Result<(), NoMemory> {
    for number in 0..count {
        put(seat, number)?;
    }
    Ok(())
}

/// The numbers of the balls that a seat gets back by so many tries, once it has put as many.
fn put_and_taken(alloc: Global, mut seat: PoolSeat<Ball>, count: u64) -> Got {
    match put_all(&mut seat, count) {
        Ok(()) => numbers_by(alloc, &mut seat, count),
        Err(none) => Err(none),
    }
}

/// What one seat got that puts and takes in one thread, and what another took in another thread.
fn one_puts<R: Threads>(rt: &R, alloc: Global, seats: Two, count: u64) -> (Got, Got) {
    let (first, second) = seats;
    std::thread::join(
        rt,
        move || put_and_taken(alloc, first, count),
        move || taken_by(alloc, second, count),
    )
}

/// What two seats got by so many tries, in two threads.
fn both_take<R: Threads>(rt: &R, alloc: Global, seats: Two, count: u64) -> (Got, Got) {
    let (first, second) = seats;
    std::thread::join(
        rt,
        move || taken_by(alloc, first, count),
        move || taken_by(alloc, second, count),
    )
}

/// Whether these are the numbers from 0 to below the count, each once.
fn are_all(mut numbers: Vec<u64>, count: u64) -> bool {
    numbers.sort_unstable();
    let mut expected = 0;
    for number in numbers {
        if number != expected {
            return false;
        }
        expected = number.wrapping_add(1);
    }
    expected == count
}

/// The seats of a pool, of this number. The test ends where there is no memory for them.
fn seats_of(rt: &impl Abort, alloc: Global, like: &Ball, count: u32) -> Vec<PoolSeat<Ball>>
    requires { (1 ≤ count) × (count ≤ SEATS_MOST) }
{
    match pool(alloc, like, count) {
        Ok(seats) => seats,
        Err(_) => panic!(rt; "no memory"),
    }
}

/// The last of some seats.
fn last_seat(rt: &impl Abort, seats: &mut Vec<PoolSeat<Ball>>) -> PoolSeat<Ball> {
    match seats.pop() {
        Some(seat) => seat,
        None => panic!(rt; "a seat is missing"),
    }
}

/// The two seats of a pool.
fn two_seats(rt: &impl Abort, alloc: Global, like: &Ball) -> Two {
    let mut seats = seats_of(rt, alloc, like, 2);
    let second = last_seat(rt, &mut seats);
    let first = last_seat(rt, &mut seats);
    drop(seats);
    (first, second)
}

/// Asserts that a ball with this number is put.
fn hold_put(rt: &impl Abort, seat: &mut PoolSeat<Ball>, number: u64) {
    assert!(rt; put(seat, number).is_ok(), "{number} isn't put");
}

/// Asserts that a ball with this number is put on the seat's own list.
fn hold_kept(rt: &impl Abort, seat: &mut PoolSeat<Ball>, number: u64) {
    assert!(rt; seat.keep(Ball { number }).is_ok(), "{number} isn't kept");
}

/// Asserts that a ball with this number is taken.
fn hold_taken(rt: &impl Abort, who: &str, seat: &mut PoolSeat<Ball>, number: u64) {
    assert!(rt; take(seat) == Some(number), "{number} isn't taken by {who}");
}

/// Asserts that no ball is taken.
fn hold_none(rt: &impl Abort, who: &str, seat: &mut PoolSeat<Ball>) {
    assert!(rt; take(seat).is_none(), "{who} takes a ball");
}

/// Asserts that a ball that the first of two seats puts is taken by the second, and that nothing is left then.
fn hold_passed(rt: &impl Abort, seats: &mut Two) {
    hold_put(rt, &mut seats.0, 5);
    hold_taken(rt, "the second seat", &mut seats.1, 5);
    hold_none(rt, "the first seat", &mut seats.0);
}

#[test]
fn what_one_seat_puts_another_takes_and_then_nothing_is_left(rt: HostRuntime) {
    let mut seats = two_seats(&rt, rt.alloc(), &Ball { number: 5 });
    hold_passed(&rt, &mut seats);
}

/// Asserts that a ball on the list of the first of two seats isn't taken by the second, and is by the first one.
fn hold_own(rt: &impl Abort, seats: &mut Two) {
    hold_kept(rt, &mut seats.0, 3);
    hold_none(rt, "the second seat", &mut seats.1);
    hold_taken(rt, "the first seat", &mut seats.0, 3);
    hold_none(rt, "the first seat", &mut seats.0);
}

#[test]
fn a_seat_takes_what_is_on_its_own_list_and_nobody_else_does(rt: HostRuntime) {
    let mut seats = two_seats(&rt, rt.alloc(), &Ball { number: 3 });
    hold_own(&rt, &mut seats);
}

/// Whether each of these seats takes a ball that the one at this place has put, and nothing is left then.
fn is_passed_from(seats: &mut Vec<PoolSeat<Ball>>, place: usize) -> bool
    requires { place < vec_len seats.old }
    ensures { vec_len seats.new ≡ vec_len seats.old }
{
    for taker in 0..seats.len() {
        let number = taker as u64;
        if put(&mut seats[place], number).is_err() {
            return false;
        }
        if take(&mut seats[taker]) != Some(number) || take(&mut seats[taker]).is_some() {
            return false;
        }
    }
    true
}

/// At how many of these seats, one after the other, all others find what it alone has.
fn passed(seats: &mut Vec<PoolSeat<Ball>>) -> usize {
    for place in 0..seats.len() {
        if !is_passed_from(seats, place) {
            return place;
        }
    }
    seats.len()
}

/// Asserts that in a pool of this many seats each finds what any one of them alone has.
fn hold_each_finds(rt: &impl Abort, alloc: Global, count: u32)
    requires { (1 ≤ count) × (count ≤ SEATS_MOST) }
{
    let mut seats = seats_of(rt, alloc, &Ball { number: 0 }, count);
    let passed = passed(&mut seats);
    drop(seats);
    assert!(rt;
        passed == count as usize,
        "of {count} seats, number {passed}"
    );
}

#[test]
fn each_seat_finds_what_any_one_of_them_alone_has(rt: HostRuntime) {
    hold_each_finds(&rt, rt.alloc(), 1);
    hold_each_finds(&rt, rt.alloc(), 2);
    hold_each_finds(&rt, rt.alloc(), 4);
    hold_each_finds(&rt, rt.alloc(), 7);
}

/// Asserts whether a seat's deque is bare.
fn hold_bare(rt: &impl Abort, when: &str, seat: &mut PoolSeat<Ball>, is_bare: bool) {
    assert!(rt; seat.is_bare::<Free>() == is_bare, "{when}");
}

/// Asserts that a deque is bare until a ball is put there, and again once another seat has taken it.
fn hold_bare_again(rt: &impl Abort, seats: &mut Two) {
    hold_bare(rt, "a new seat", &mut seats.0, true);
    hold_put(rt, &mut seats.0, 1);
    hold_bare(rt, "after a put", &mut seats.0, false);
    hold_bare(rt, "the other seat", &mut seats.1, true);
    hold_taken(rt, "the second seat", &mut seats.1, 1);
    hold_bare(rt, "after a steal", &mut seats.0, true);
}

#[test]
fn a_deque_is_bare_where_no_ball_is_in_it(rt: HostRuntime) {
    let mut seats = two_seats(&rt, rt.alloc(), &Ball { number: 1 });
    hold_bare_again(&rt, &mut seats);
}

/// Asserts that of two balls in a deque one is left, after a take of the seat itself.
fn hold_bare_after_two(rt: &impl Abort, seats: &mut Two) {
    hold_kept(rt, &mut seats.0, 4);
    hold_bare(rt, "one on the list", &mut seats.0, true);
    hold_put(rt, &mut seats.0, 2);
    hold_put(rt, &mut seats.0, 3);
    hold_taken(rt, "the first seat", &mut seats.0, 2);
    hold_bare(rt, "one of two left", &mut seats.0, false);
    hold_taken(rt, "the first seat", &mut seats.0, 3);
    hold_bare(rt, "both taken", &mut seats.0, true);
    hold_taken(rt, "the first seat", &mut seats.0, 4);
}

#[test]
fn a_deque_is_bare_whatever_is_on_the_list(rt: HostRuntime) {
    let mut seats = two_seats(&rt, rt.alloc(), &Ball { number: 2 });
    hold_bare_after_two(&rt, &mut seats);
}

/// Adds what a seat got to the numbers. The test ends where there was no memory for it.
fn add_got(rt: &impl Abort, numbers: &mut Vec<u64>, got: Got) {
    match got {
        Ok(mut more) => {
            let is_added = numbers.append(&mut more).is_ok();
            drop(more);
            assert!(rt; is_added, "no memory for all");
        }
        Err(_) => panic!(rt; "no memory for what a seat got"),
    }
}

/// Asserts that these are the numbers from 0 to below the count, each once.
fn hold_all(rt: &impl Abort, numbers: Vec<u64>, count: u64) {
    let length = numbers.len() as u64;
    let is_each_once = are_all(numbers, count);
    assert!(rt; length == count, "not {count} but {length}");
    assert!(rt; is_each_once, "not each once");
}

/// What four seats got, together. The test ends where there was no memory for it.
fn numbers_of(rt: &impl Abort, alloc: Global, got: ((Got, Got), (Got, Got))) -> Vec<u64> {
    let ((first, second), (third, fourth)) = got;
    let mut numbers = Vec::new(alloc);
    add_got(rt, &mut numbers, first);
    add_got(rt, &mut numbers, second);
    add_got(rt, &mut numbers, third);
    add_got(rt, &mut numbers, fourth);
    numbers
}

/// The four seats of a pool.
fn four_seats(rt: &impl Abort, alloc: Global, like: &Ball) -> (Two, Two) {
    let mut seats = seats_of(rt, alloc, like, 4);
    let d = last_seat(rt, &mut seats);
    let c = last_seat(rt, &mut seats);
    let b = last_seat(rt, &mut seats);
    let a = last_seat(rt, &mut seats);
    drop(seats);
    ((a, b), (c, d))
}

#[test]
fn each_ball_goes_out_once_in_four_threads(rt: HostRuntime) {
    let alloc = rt.alloc();
    let (first, second) = four_seats(&rt, alloc, &Ball { number: 0 });
    let got = std::thread::join(
        &rt,
        move || one_puts(&rt, alloc, first, 100_000),
        move || both_take(&rt, alloc, second, 100_000),
    );
    hold_all(&rt, numbers_of(&rt, alloc, got), 100_000);
}
