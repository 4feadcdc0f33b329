// Making a pool.
ghost use Rattle.std.specs.Prelude.{◌≡◌, ◌+◌, ◌<◌, ◌≤◌, Some, IfOk, OnOk, List, [], ◌∷◌, ◌++◌, All, map, slice_get, slice_set, vec_len};
ghost use Rattle.steal_pool.specs.Deques.{Deque};
ghost use Rattle.steal_pool.specs.Peers.{peer_deque};
ghost use Rattle.steal_pool.specs.Seats.{HasMet, HaveNext, IsNewSeat, KnowEachOther, known, own_deque};
ghost use Rattle.steal_pool.specs.declared.opening.TheConstants.{SEATS_MOST};

use crate::PoolSeat;
use crate::peer::Peer;
use named_lock::Named;
use std::alloc::Global;
use swan_model::NoMemory;

/// The most seats that a pool may have.
pub const SEATS_MOST: u32 = 256;

/// The seats of a new pool, one for each worker, of which there are 1 to 256. The pool's name is that of `like`, each
/// seat knows it, and its own list is empty. Each seat knows each other one, the next one first.
///
/// It allocates the list of the seats, and for each its deque with a first ring and a list of the others. `NoMemory` comes
/// where one of these isn't found, and no seat is left then. `O(workers * workers)`.
pub fn pool<T: Named>(alloc: Global, like: &T, workers: u32) -> Result<Vec<PoolSeat<T>>, NoMemory>
    requires { (1 ≤ workers) × (workers ≤ SEATS_MOST) }
    ensures count { IfOk result (λ seats. vec_len seats ≡ workers) }
    ensures seats { IfOk result (λ seats. All (λ seat. IsNewSeat (T.name like.now) seat) seats.items) }
    ensures others { IfOk result (λ seats. KnowEachOther seats.items) }
{
    let count = workers as usize;
    let mut seats = seats_alone(alloc, like, count)?;
    for round in 0..count - 1 {
        introduce_all(&mut seats, round, like)?;
    }
    Ok(seats)
}

/// Seats that know no other yet.
fn seats_alone<T: Named>(
    alloc: Global,
    like: &T,
    count: usize,
) -> Result<Vec<PoolSeat<T>>, NoMemory>
    requires { 1 ≤ count }
    ensures count { IfOk result (λ seats. vec_len seats ≡ count) }
    ensures seats { IfOk result (λ seats. All (λ seat. IsNewSeat (T.name like.now) seat) seats.items) }
    ensures alone { IfOk result (λ seats. HaveNext (map own_deque seats.items) 0 (map known seats.items)) }
{
    let mut seats = Vec::with_capacity(alloc, count)?;
    for _turn in 0..count {
        seats.push_reserved(PoolSeat::alone(alloc, like, count - 1)?);
    }
    Ok(seats)
}

/// Each seat, which knows so many others, gets to know the one after those, in a ring.
fn introduce_all<T: Named>(
    seats: &mut Vec<PoolSeat<T>>,
    round: usize,
    like: &T,
) -> Result<(), NoMemory>
    requires seats { All (λ seat. IsNewSeat (T.name like.now) seat) seats.old.items }
    requires few { (vec_len seats.old ≤ SEATS_MOST) × (round + 1 < vec_len seats.old) }
    requires know { HaveNext (map own_deque seats.old.items) round (map known seats.old.items) }
    ensures count { vec_len seats.new ≡ vec_len seats.old }
    ensures seats { All (λ seat. IsNewSeat (T.name like.now) seat) seats.new.items }
    ensures know { OnOk result (HaveNext (map own_deque seats.new.items) (round + 1) (map known seats.new.items)) }
{
    let count = seats.len();
    let mut thief = 0;
    while thief < count {
        introduce(seats, thief, (thief + 1 + round) % count, like)?;
        thief += 1;
    }
    Ok(())
}

/// The first seat gets to know the other.
fn introduce<T: Named>(
    seats: &mut Vec<PoolSeat<T>>,
    thief: usize,
    from: usize,
    like: &T,
) -> Result<(), NoMemory>
    requires seats { All (λ seat. IsNewSeat (T.name like.now) seat) seats.old.items }
    requires there { (thief < vec_len seats.old) × (from < vec_len seats.old) }
    ensures count { vec_len seats.new ≡ vec_len seats.old }
    ensures seats { All (λ seat. IsNewSeat (T.name like.now) seat) seats.new.items }
    ensures deques { map own_deque seats.new.items ≡ map own_deque seats.old.items }
    ensures met { OnOk result (HasMet (map own_deque seats.old.items) thief from (map known seats.old.items) (map known seats.new.items)) }
{
    let peer = peer_of(seats, from, like)?;
    meet_one(seats, thief, peer)
}

/// The seat at this place, as the others see it.
#[tactic(auto, using(crate::proofs::Rounds::same_by, crate::proofs::Rounds::stands_by))]
fn peer_of<T: Named>(
    seats: &mut Vec<PoolSeat<T>>,
    place: usize,
    like: &T,
) -> Result<Peer<T>, NoMemory>
    requires seats { All (λ seat. IsNewSeat (T.name like.now) seat) seats.old.items }
    requires there { place < vec_len seats.old }
    ensures count { vec_len seats.new ≡ vec_len seats.old }
    ensures seats { All (λ seat. IsNewSeat (T.name like.now) seat) seats.new.items }
    ensures deques { map own_deque seats.new.items ≡ map own_deque seats.old.items }
    ensures known { map known seats.new.items ≡ map known seats.old.items }
    ensures peer { IfOk result (λ peer. (peer.name ≡ T.name like.now) × (slice_get (map own_deque seats.old.items) place ≡ Some (peer_deque peer))) }
{
    let seat = &mut seats[place];
    seat.as_peer(like)
}

/// The seat at this place gets to know one more.
#[tactic(auto, using(crate::proofs::Rounds::same_by))]
fn meet_one<T: Named>(
    seats: &mut Vec<PoolSeat<T>>,
    place: usize,
    peer: Peer<T>,
) -> Result<(), NoMemory>
    requires seats { All (λ seat. IsNewSeat peer.name seat) seats.old.items }
    requires there { place < vec_len seats.old }
    ensures count { vec_len seats.new ≡ vec_len seats.old }
    ensures seats { All (λ seat. IsNewSeat peer.name seat) seats.new.items }
    ensures deques { map own_deque seats.new.items ≡ map own_deque seats.old.items }
    ensures met { OnOk result ((met : List Deque) × (slice_get (map known seats.old.items) place ≡ Some met) × (map known seats.new.items ≡ slice_set (map known seats.old.items) place (met ++ peer_deque peer ∷ []))) }
{
    let seat = &mut seats[place];
    seat.meet(peer)?;
    Ok(())
}
