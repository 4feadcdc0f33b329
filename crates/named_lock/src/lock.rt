// Locks.
ghost use Rattle.std.specs.Prelude.{◌≡◌, ◌≢◌, ℕ, ◌+◌, ◌<◌, ◌≤◌, true, false, ◌⊎◌, [], All, IfSome, IfNone, IfOk, IsTrue, ◌↔◌, vec_len, vec_capacity};
ghost use Rattle.named_lock.specs.declared.sign.Sign.TheVariants.{Runs, Done, Stopped};

use crate::name_of::NameOf;
use crate::plays::{Close, Finish, Give, Look, Parts, Stop, Take};
use crate::rule::{LockRule, Opening, View};
use crate::{Held, LockSeat, Named};
use atomic_table::{Seat, Table};
use std::alloc::Global;
use std::snapshot::Snapshot;
use swan_model::NoMemory;

/// The word that is taken, and its values. Seven words or more beside each of the two that are used keep them a cache line apart,
/// and from what lies around the table.
const LOCK: usize = 8;

const FREE: u64 = 0;

const TAKEN: u64 = 1;

/// The word of the sign, and its values.
const SIGN: usize = 16;

const RUNS: u64 = 0;

const DONE: u64 = 1;

const STOPPED: u64 = 2;

/// A lock on a state. It never waits, and may lie in an `Arc`. Every step is sequentially consistent.
#[derive(Drop)]
pub struct NamedLock<S: Named> {
    table: Table<Option<S>, View<S::Name>, Opening<S>, LockRule, Global>,
    ghost some_seat: { 0 < table.shared.key.seats },
    ghost shape: { (table.shared.table_id.words ≡ 24) × (table.shared.table_id.slots ≡ 1) },
}

impl<S: Named> NamedLock<S> {
    ghost use Rattle.named_lock.specs.Rule.{seated};
    ghost use Rattle.named_lock.specs.Seats.{view_after_sign, lock_id, lock_name, lock_seats, knows, any_saw_done, Sits, IsSeatOf, IsNewSeatOf, IsSameSeat, IsHeldBy, FindsAgain};

    /// A lock with that many seats, of which there is at least one. The state's name is the lock's for good, and the sign
    /// is Runs. It allocates four times, whatever the number of seats, and keeps three of the blocks. `O(seats)`. NoMemory comes
    /// where one of the four isn't found; the state is dropped then.
    pub fn open(
        alloc: Global,
        state: S,
        seats: u32,
    ) -> Result<(NamedLock<S>, Vec<LockSeat<S>>), NoMemory>
        requires { 0 < seats }
        ensures name { IfOk result (λ r. lock_name r.0 ≡ S.name state) }
        ensures seats { IfOk result (λ r. (lock_seats r.0 ≡ seats) × (vec_len r.1 ≡ seats)) }
        ensures new { IfOk result (λ r. All (IsNewSeatOf r.0) r.1.items) }
    {
        let all = Vec::with_capacity(alloc, seats as usize)?;
        let (lock, first) = NamedLock::with_one(alloc, state, seats)?;
        let all = lock.deal(first, all, seats);
        Ok((lock, all))
    }

    /// The lock, with one seat that stands for all.
    fn with_one(
        alloc: Global,
        state: S,
        seats: u32,
    ) -> Result<(NamedLock<S>, Seat<Option<S>, View<S::Name>>), NoMemory>
        requires { 0 < seats }
        ensures lock { IfOk result (λ r. (lock_seats r.0 ≡ seats) × (lock_name r.0 ≡ S.name state)) }
        ensures seat { IfOk result (λ r. (r.1.table_id ≡ lock_id r.0) × (r.1.me ≡ (seated seats (lock_name r.0), []))) }
    {
        let opening = Opening {
            name: NameOf::of(&state),
            seats,
        };
        let mut slots = Vec::with_capacity(alloc, 1)?;
        slots.push_reserved(Some(state));
        let Ok((table, first)) = Table::new(alloc, &[0; 24], slots, &opening) else {
            return Err(NoMemory);
        };
        Ok((NamedLock { table }, first))
    }

    /// Cuts the seat that stands for all into single ones.
    fn deal(
        &self,
        mut first: Seat<Option<S>, View<S::Name>>,
        mut all: Vec<LockSeat<S>>,
        seats: u32,
    ) -> Vec<LockSeat<S>>
        requires room { (0 < seats) × (all.items ≡ []) × (seats ≤ vec_capacity all) }
        requires seat { (first.table_id ≡ lock_id self.now) × (first.me ≡ (seated seats (lock_name self.now), [])) }
        ensures { (vec_len result ≡ seats) × All (IsNewSeatOf self.now) result.items }
    {
        let shared = &self.table.shared;
        for made in 1..seats {
            let seat = shared.split_seat::<Parts>(&mut first);
            all.push_reserved(LockSeat { seat });
        }
        all.push_reserved(LockSeat { seat: first });
        all
    }

    /// Takes the state, for a seat of this lock that doesn't hold it. None comes exactly where this call's one
    /// compare_exchange found it taken, which the seat counts. The state has the name of the lock, and is done where the seat
    /// has seen the sign Done. It takes no memory. `O(1)`, and a move of the state.
    pub fn try_take(&self, seat: &mut LockSeat<S>) -> Option<Held<S>>
        requires { IsSeatOf self.now false seat.old }
        ensures same { IsSameSeat seat.old seat.new }

        // a state, and what the seat knows then
        ensures some { IfSome result (λ held. IsSeatOf self.now true seat.new × IsHeldBy seat.new held) }
        ensures name { IfSome result (λ held. S.name held.state ≡ lock_name self.now) }
        ensures done { IfSome result (λ held. (knows seat.old).saw_done ≡ true → S.done held.state ≡ true) }
        ensures held { IfSome result (λ held. knows seat.new ≡ record (knows seat.old) { holding = true; owes_done = S.done held.state; holds = (knows seat.old).holds + 1 }) }

        // and none
        ensures none { IfNone result (IsSeatOf self.now false seat.new) }
        ensures lost { IfNone result (knows seat.new ≡ record (knows seat.old) { lost = (knows seat.old).lost + 1 }) }
    {
        let shared = &self.table.shared;
        if shared.compare_exchange::<Take>(&mut seat.seat, LOCK, FREE, TAKEN) != FREE {
            return None;
        }
        let Some(state) = shared.exchange(&mut seat.seat, 0, None) else {
            unreachable!()
        };
        let by = Snapshot::of(&seat.seat);
        Some(Held { state, by })
    }

    /// Gives the state back, by the seat that took it. It has the name of the lock, and is done where it was done
    /// when it was taken or when `finish` was called on it. It takes no memory. `O(1)`: one store, and a move of the state.
    pub fn give(&self, seat: &mut LockSeat<S>, held: Held<S>)
        // what goes back, and by whose seat
        requires seat { IsSeatOf self.now true seat.old × IsHeldBy seat.old held }
        requires name { S.name held.state ≡ lock_name self.now }
        requires done { (knows seat.old).owes_done ≡ true → S.done held.state ≡ true }

        // the seat holds nothing then
        ensures same { IsSameSeat seat.old seat.new }
        ensures free { IsSeatOf self.now false seat.new }
        ensures knows { knows seat.new ≡ record (knows seat.old) { holding = false; owes_done = false } }
    {
        let Held { state, by: _ } = held;
        let shared = &self.table.shared;
        let None = shared.exchange(&mut seat.seat, 0, Some(state)) else {
            unreachable!()
        };
        shared.store::<Give>(&mut seat.seat, LOCK, FREE);
    }

    /// Sets the sign to Done where it is Runs, by the seat that holds the state, which has the name of the lock and is
    /// done. True comes where it was Runs or Done, and it is Done then; false exactly where it was Stopped, and it stays so. No
    /// stop is counted. The state has to be done when it goes back, in either case. It takes no memory. `O(1)`.
    pub fn finish(&self, seat: &mut LockSeat<S>, held: &Held<S>) -> bool
        // whose seat it is, and that its state is done
        requires seat { IsSeatOf self.now true seat.old × IsHeldBy seat.old held.now }
        requires name { S.name held.now.state ≡ lock_name self.now }
        requires done { S.done held.now.state ≡ true }

        // the seat holds the state still, and has seen the sign
        ensures same { IsSameSeat seat.old seat.new }
        ensures holds { IsSeatOf self.now true seat.new }
        ensures yes { result ≡ true → knows seat.new ≡ record (view_after_sign (knows seat.old) Done) { owes_done = true } }
        ensures no { result ≡ false → knows seat.new ≡ record (view_after_sign (knows seat.old) Stopped) { owes_done = true } }
    {
        let _ = held;
        let shared = &self.table.shared;
        shared.compare_exchange::<Finish>(&mut seat.seat, SIGN, RUNS, DONE) < STOPPED
    }

    /// Whether the sign is Done, by one load. Once it is, each state that this seat takes, and the one that `close`
    /// gives, is done. It takes no memory. `O(1)`.
    pub fn is_done(&self, seat: &mut LockSeat<S>) -> bool
        // whose seat it is
        requires { IsSeatOf self.now (knows seat.old).holding seat.old }
        ensures same { IsSameSeat seat.old seat.new }
        ensures seat { IsSeatOf self.now (knows seat.old).holding seat.new }

        // what the seat knows then
        ensures knows { knows seat.new ≡ view_after_sign (knows seat.old) (knows seat.new).sign }
        ensures sign { IsTrue result ↔ ((knows seat.new).sign ≡ Done) }
        ensures again { FindsAgain seat.old seat.new }
    {
        self.table.shared.load::<Look>(&mut seat.seat, SIGN) == DONE
    }

    /// Whether the sign is Stopped, by one load. Once it is, it stays so. It takes no memory. `O(1)`.
    pub fn is_stopped(&self, seat: &mut LockSeat<S>) -> bool
        // whose seat it is
        requires { IsSeatOf self.now (knows seat.old).holding seat.old }
        ensures same { IsSameSeat seat.old seat.new }
        ensures seat { IsSeatOf self.now (knows seat.old).holding seat.new }

        // what the seat knows then
        ensures knows { knows seat.new ≡ view_after_sign (knows seat.old) (knows seat.new).sign }
        ensures sign { IsTrue result ↔ ((knows seat.new).sign ≡ Stopped) }
        ensures again { FindsAgain seat.old seat.new }
    {
        self.table.shared.load::<Look>(&mut seat.seat, SIGN) == STOPPED
    }

    /// Sets the sign to Stopped where it is Runs, by a seat that holds the state or doesn't. It takes no memory.
    /// `O(1)`.
    pub fn stop(&self, seat: &mut LockSeat<S>)
        requires { IsSeatOf self.now (knows seat.old).holding seat.old }
        ensures same { IsSameSeat seat.old seat.new }
        ensures seat { IsSeatOf self.now (knows seat.old).holding seat.new }
        ensures knows { knows seat.new ≡ record (view_after_sign (knows seat.old) (knows seat.new).sign) { stops = (knows seat.old).stops + 1 } }
        ensures sign { (knows seat.new).sign ≢ Runs }
    {
        let shared = &self.table.shared;
        shared.compare_exchange::<Stop>(&mut seat.seat, SIGN, RUNS, STOPPED);
    }

    /// Gives the state out for good, for all seats of the lock, none of which holds it. It is done where one of them has
    /// seen the sign Done. The lock stays taken, so it may stay in an `Arc`. It takes no memory. `O(seats)`.
    pub fn close(&self, mut seats: Vec<LockSeat<S>>) -> S
        requires all { vec_len seats ≡ lock_seats self.now }
        requires free { All (IsSeatOf self.now false) seats.items }
        ensures name { S.name result ≡ lock_name self.now }
        ensures done { any_saw_done seats.items ≡ true → S.done result ≡ true }
    {
        let Some(LockSeat { seat: mut last }) = seats.pop() else {
            unreachable!()
        };
        self.gather(&mut last, seats);
        self.take_last(last)
    }

    /// Joins seats into one.
    fn gather(&self, last: &mut Seat<Option<S>, View<S::Name>>, mut seats: Vec<LockSeat<S>>)
        requires last { Sits (lock_id self.now) (lock_name self.now) last.old.me.0.parts false last.old × (0 < last.old.me.0.parts) }
        requires free { All (IsSeatOf self.now false) seats.items }
        ensures last { Sits (lock_id self.now) (lock_name self.now) (last.old.me.0.parts + vec_len seats) false last.new }
        ensures saw { last.old.me.0.saw_done ≡ true ⊎ any_saw_done seats.items ≡ true → last.new.me.0.saw_done ≡ true }
    {
        let shared = &self.table.shared;
        while let Some(LockSeat { seat }) = seats.pop() {
            shared.join_seat::<Parts>(last, seat);
        }
    }

    /// Takes the state by the seat that stands for all.
    fn take_last(&self, mut last: Seat<Option<S>, View<S::Name>>) -> S
        requires { Sits (lock_id self.now) (lock_name self.now) (lock_seats self.now) false last }
        ensures name { S.name result ≡ lock_name self.now }
        ensures done { last.me.0.saw_done ≡ true → S.done result ≡ true }
    {
        let shared = &self.table.shared;
        shared.compare_exchange::<Close>(&mut last, LOCK, FREE, TAKEN);
        let Some(state) = shared.exchange(&mut last, 0, None) else {
            unreachable!()
        };
        state
    }
}
