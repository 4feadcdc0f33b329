// Tests of locks: a count that is done at its goal, in one thread and in two.
ghost use Rattle.std.specs.Prelude.{false, ◌≡◌, All};
ghost use Rattle.named_lock.specs.Seats.{IsNewSeatOf, IsSeatOf, lock_name, lock_seats};

use crate::{LockSeat, Named, NamedLock};
use std::alloc::Global;
use std::process::Abort;

/// A count on its way to a goal.
#[derive(Drop)]
struct Tally {
    goal: u64,
    count: u64,
}

impl Named for Tally {
    ghost use Rattle.std.specs.Prelude.{◌==◌};

    type Name = u64;

    ghost name = { λ t. t.goal };

    ghost done = { λ t. t.count == t.goal };
}

/// Adds one to the count where it isn't done, by one try. Whether the state was free.
fn adds(lock: &NamedLock<Tally>, seat: &mut LockSeat<Tally>) -> bool
    requires { IsSeatOf lock.now false seat.old }
    ensures seat { IsSeatOf lock.now false seat.new }
{
    let Some(mut held) = lock.try_take(seat) else {
        return false;
    };
    let tally = held.state();
    if tally.count < tally.goal {
        tally.count += 1;
    }
    lock.give(seat, held);
    true
}

/// Adds so often, by at most that many tries. How often it did, and the seat.
fn adds_often(
    lock: &NamedLock<Tally>,
    mut seat: LockSeat<Tally>,
    times: u64,
    tries: u64,
) -> (u64, LockSeat<Tally>)
    requires { IsSeatOf lock.now false seat }
    ensures { IsSeatOf lock.now false result.1 }
{
    let mut added = 0;
    for _ in 0..tries {
        if added >= times {
            break;
        }
        if adds(lock, &mut seat) {
            added += 1;
        }
    }
    (added, seat)
}

/// A lock on a count, and its two seats. The test ends where there is no memory for them.
fn open(rt: &impl Abort, alloc: Global, goal: u64) -> (NamedLock<Tally>, Vec<LockSeat<Tally>>)
    ensures seats { All (IsNewSeatOf result.0) result.1.items }
    ensures all { lock_seats result.0 ≡ 2 }
    ensures name { lock_name result.0 ≡ goal }
{
    match NamedLock::open(alloc, Tally { goal, count: 0 }, 2) {
        Ok(opened) => opened,
        Err(_) => panic!(rt; "no memory"),
    }
}

/// The last of some seats.
fn last_seat(
    rt: &impl Abort,
    lock: &NamedLock<Tally>,
    seats: &mut Vec<LockSeat<Tally>>,
) -> LockSeat<Tally>
    requires { All (IsNewSeatOf lock.now) seats.old.items }
    ensures seat { IsSeatOf lock.now false result }
    ensures others { All (IsNewSeatOf lock.now) seats.new.items }
{
    match seats.pop() {
        Some(seat) => seat,
        None => panic!(rt; "a seat is missing"),
    }
}

/// A lock on a count, with two seats.
fn two_seats(
    rt: &impl Abort,
    alloc: Global,
    goal: u64,
) -> (NamedLock<Tally>, LockSeat<Tally>, LockSeat<Tally>)
    ensures seats { IsSeatOf result.0 false result.1 × IsSeatOf result.0 false result.2 }
    ensures all { lock_seats result.0 ≡ 2 }
    ensures name { lock_name result.0 ≡ goal }
{
    let (lock, mut seats) = open(rt, alloc, goal);
    let one = last_seat(rt, &lock, &mut seats);
    let zero = last_seat(rt, &lock, &mut seats);
    drop(seats);
    (lock, zero, one)
}

/// Asserts that a lock closes with this count.
fn hold_closed(
    rt: &impl Abort,
    alloc: Global,
    lock: &NamedLock<Tally>,
    zero: LockSeat<Tally>,
    one: LockSeat<Tally>,
    count: u64,
)
    requires all { lock_seats lock.now ≡ 2 }
    requires seats { IsSeatOf lock.now false zero × IsSeatOf lock.now false one }
{
    match vec![in alloc; zero, one] {
        Ok(seats) => {
            let found = lock.close(seats).count;
            assert!(rt; found == count, "not {count} but {found}");
        }
        Err(_) => panic!(rt; "no memory"),
    }
}

/// Whether a try finds the state free; it is given back as it was.
fn is_free(lock: &NamedLock<Tally>, seat: &mut LockSeat<Tally>) -> bool
    requires { IsSeatOf lock.now false seat.old }
    ensures seat { IsSeatOf lock.now false seat.new }
{
    match lock.try_take(seat) {
        None => false,
        Some(held) => {
            lock.give(seat, held);
            true
        }
    }
}

/// Asserts that one seat finds the state taken while the other holds it.
fn hold_taken(
    rt: &impl Abort,
    lock: &NamedLock<Tally>,
    zero: &mut LockSeat<Tally>,
    one: &mut LockSeat<Tally>,
)
    requires { IsSeatOf lock.now false zero.old × IsSeatOf lock.now false one.old }
    ensures { IsSeatOf lock.now false zero.new × IsSeatOf lock.now false one.new }
{
    let Some(held) = lock.try_take(zero) else {
        panic!(rt; "it is free at first")
    };
    let is_taken = !is_free(lock, one);
    lock.give(zero, held);
    assert!(rt; is_taken, "free while it is held");
}

#[test]
fn a_seat_finds_the_state_taken_until_the_other_gives_it(rt: HostRuntime) {
    let (lock, mut zero, mut one) = two_seats(&rt, rt.alloc(), 3);
    hold_taken(&rt, &lock, &mut zero, &mut one);
    assert!(rt; is_free(&lock, &mut one));
}

/// Takes the state, makes it done at its goal of 1, tells the lock, and gives it back. Whether the sign is Done then.
fn finishes(rt: &impl Abort, lock: &NamedLock<Tally>, seat: &mut LockSeat<Tally>) -> bool
    requires name { lock_name lock.now ≡ 1 }
    requires seat { IsSeatOf lock.now false seat.old }
    ensures { IsSeatOf lock.now false seat.new }
{
    let Some(mut held) = lock.try_take(seat) else {
        panic!(rt; "no other seat has it")
    };
    *held.state() = Tally { goal: 1, count: 1 };
    let is_done = lock.finish(seat, &held);
    lock.give(seat, held);
    is_done
}

/// Asserts whether a seat finds the lock done, and whether it finds it stopped.
fn hold_sign(
    rt: &impl Abort,
    lock: &NamedLock<Tally>,
    what: &str,
    seat: &mut LockSeat<Tally>,
    is_done: bool,
    is_stopped: bool,
)
    requires { IsSeatOf lock.now false seat.old }
    ensures { IsSeatOf lock.now false seat.new }
{
    assert!(rt;
        lock.is_done(seat) == is_done,
        "{what}: done isn't {is_done}"
    );
    assert!(rt;
        lock.is_stopped(seat) == is_stopped,
        "{what}: stopped isn't {is_stopped}"
    );
}

/// Asserts that a lock that one seat finishes is done to both, and can't be stopped.
fn hold_done(
    rt: &impl Abort,
    lock: &NamedLock<Tally>,
    zero: &mut LockSeat<Tally>,
    one: &mut LockSeat<Tally>,
)
    requires name { lock_name lock.now ≡ 1 }
    requires seats { IsSeatOf lock.now false zero.old × IsSeatOf lock.now false one.old }
    ensures { IsSeatOf lock.now false zero.new × IsSeatOf lock.now false one.new }
{
    hold_sign(rt, lock, "at first", one, false, false);
    assert!(rt; finishes(rt, lock, zero), "the sign isn't Done");
    lock.stop(one);
    hold_sign(rt, lock, "the seat that stops it", one, true, false);
    hold_sign(rt, lock, "the seat that finished it", zero, true, false);
}

#[test]
fn a_lock_that_is_done_says_so_to_all_seats_and_can_not_be_stopped(rt: HostRuntime) {
    let (lock, mut zero, mut one) = two_seats(&rt, rt.alloc(), 1);
    hold_done(&rt, &lock, &mut zero, &mut one);
    hold_closed(&rt, rt.alloc(), &lock, zero, one, 1);
}

/// Asserts that a lock that one seat stops is stopped to the other, which can't finish it then.
fn hold_stopped(
    rt: &impl Abort,
    lock: &NamedLock<Tally>,
    zero: &mut LockSeat<Tally>,
    one: &mut LockSeat<Tally>,
)
    requires name { lock_name lock.now ≡ 1 }
    requires seats { IsSeatOf lock.now false zero.old × IsSeatOf lock.now false one.old }
    ensures { IsSeatOf lock.now false zero.new × IsSeatOf lock.now false one.new }
{
    hold_sign(rt, lock, "at first", one, false, false);
    lock.stop(zero);
    hold_sign(rt, lock, "once it is stopped", one, false, true);
    assert!(rt; !finishes(rt, lock, one), "finished where it is stopped");
}

#[test]
fn a_stop_is_seen_by_the_other_seat_and_closes_with_what_is_there(rt: HostRuntime) {
    let (lock, mut zero, mut one) = two_seats(&rt, rt.alloc(), 1);
    hold_stopped(&rt, &lock, &mut zero, &mut one);
    hold_closed(&rt, rt.alloc(), &lock, zero, one, 1);
}

#[test]
fn two_threads_add_and_no_count_is_lost(rt: HostRuntime) {
    let goal = 20_000;
    let (lock, zero, one) = two_seats(&rt, rt.alloc(), goal);
    let shared = &lock;
    let ((first, zero), (second, one)) = std::thread::join(
        &rt,
        move || adds_often(shared, zero, 10_000, 1_000_000_000),
        move || adds_often(shared, one, 10_000, 1_000_000_000),
    );
    assert!(rt; first == 10_000);
    assert!(rt; second == 10_000);
    hold_closed(&rt, rt.alloc(), &lock, zero, one, goal);
}
