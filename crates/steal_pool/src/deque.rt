// One deque of a pool, and the ways to it.
ghost use Rattle.std.specs.Prelude.{◌≡◌, ◌+◌, ◌≤◌, Some, IfOk, IfErr, OnOk, OnErr};
ghost use Rattle.std.specs.Bool.{MatchBool};
ghost use Rattle.crossbeam_deque.specs.Tasks.{Finds};
ghost use Rattle.crossbeam_deque.specs.Handles.{view, IsPassOf, worker_deque, worker_view, worker_port, worker_flavor, worker_index, worker_capacity, stealer_deque, stealer_flavor};
ghost use Rattle.steal_pool.specs.Rule.{IsAtStage, new_pass, Pooled, one_more};
ghost use Rattle.steal_pool.specs.declared.rule.DequeStage.TheVariants.{Open};

use crate::parcel::Parcel;
use crate::rule::{Labels, Looks, Opens, PoolRule, PoolView, Puts, Takes, Twins};
use crossbeam_deque::protocol::Outcome;
use crossbeam_deque::{Pass, Stealer, Worker};
use named_lock::{NameOf, Named};
use std::alloc::Global;
use swan_model::NoMemory;

/// How many frames a new deque has room for.
const FIRST_ROOM: usize = 64;

/// A worker's deque.
pub(crate) type Own<T> = Worker<Parcel<T>, Global, PoolView<<T as Named>::Name>, PoolRule>;

/// Another worker's deque, to steal from.
pub(crate) type Other<T> = Stealer<Parcel<T>, Global, PoolView<<T as Named>::Name>, PoolRule>;

/// What a thief steps with.
pub(crate) type Thief<T> = Pass<Parcel<T>, PoolView<<T as Named>::Name>, Global>;

/// Shows that a pop found its deque empty. Only `pop_frame` makes one.
#[derive(Drop)]
pub(crate) struct Empty {
    _found: (),
}

/// A deque that has the name of `like`. It allocates the deque with its first ring.
pub(crate) fn own_like<T: Named>(alloc: Global, like: &T) -> Result<Own<T>, NoMemory>
    ensures { IfOk result (λ own. (worker_flavor own ≡ 0) × IsAtStage Open (Some (T.name like.now)) (worker_view own)) }
{
    let mut own = Own::<T>::fifo_as(alloc, FIRST_ROOM)?;
    let label = Parcel::Label(NameOf::of(like));
    let Ok(()) = own.push_as::<Labels>(label) else {
        return Err(NoMemory);
    };
    let Some(_) = own.pop_as::<Opens>() else {
        unreachable!()
    };
    Ok(own)
}

/// Puts a frame that has the name, or hands it back where the deque can't grow. `O(1)` amortised.
pub(crate) fn push_frame<T: Named>(own: &mut Own<T>, frame: T) -> Result<(), T>
    requires { IsAtStage Open (Some (T.name frame)) (worker_view own.old) }
    ensures same { (worker_deque own.new ≡ worker_deque own.old) × (worker_view own.new ≡ worker_view own.old) × (worker_flavor own.new ≡ worker_flavor own.old) × (worker_port own.new ≡ worker_port own.old) }
    ensures ok { OnOk result (worker_index own.new ≡ worker_index own.old + 1) }
    ensures err { IfErr result (λ given. (given ≡ frame) × (worker_index own.new ≡ worker_index own.old)) }
    ensures full { OnErr result (worker_capacity own.old ≤ worker_index own.old) }
{
    match own.push_as::<Puts>(Parcel::Item(frame)) {
        Ok(()) => Ok(()),
        Err(Parcel::Item(frame)) => Err(frame),
        Err(Parcel::Label(_)) => unreachable!(),
    }
}

/// Takes a frame, which has the name. `Empty` comes only where the deque was empty at one moment. `O(1)`.
pub(crate) fn pop_frame<T: Named, M: Outcome<T, PoolView<T::Name>>>(
    own: &mut Own<T>,
) -> Result<T, Empty>
    // how the deque stands, and what stays
    requires stage { (worker_flavor own.old ≡ 0) × ((worker_view own.old).stage ≡ Open) }
    requires empty { Finds (Pooled T.name) (worker_port own.old) (worker_view own.old) (M.empty (worker_view own.old)) }
    ensures same { (worker_deque own.new ≡ worker_deque own.old) × (worker_flavor own.new ≡ worker_flavor own.old) × (worker_port own.new ≡ worker_port own.old) × (worker_index own.new ≤ worker_index own.old) }

    // a frame
    ensures ok { IfOk result (λ frame. (worker_view own.old).name ≡ Some (T.name frame)) }
    ensures taken { OnOk result (worker_view own.new ≡ one_more (worker_view own.old)) }

    // and none
    ensures empty { OnErr result ((worker_view own.new ≡ worker_view own.old) × M.empty (worker_view own.old)) }
{
    match own.pop_as::<Takes<M>>() {
        Some(Parcel::Item(frame)) => Ok(frame),
        Some(Parcel::Label(_)) => unreachable!(),
        None => Err(Empty { _found: () }),
    }
}

/// Whether the deque is empty at one moment. `O(1)`.
pub(crate) fn is_empty<T: Named, M: Outcome<T, PoolView<T::Name>>>(own: &mut Own<T>) -> bool
    requires stage { (worker_view own.old).stage ≡ Open }
    requires empty { Finds (Pooled T.name) (worker_port own.old) (worker_view own.old) (M.empty (worker_view own.old)) }
    ensures same { (worker_deque own.new ≡ worker_deque own.old) × (worker_view own.new ≡ worker_view own.old) × (worker_flavor own.new ≡ worker_flavor own.old) × (worker_port own.new ≡ worker_port own.old) × (worker_index own.new ≡ worker_index own.old) }
    ensures answer { MatchBool result (M.empty (worker_view own.old)) ((frame : T) × ((worker_view own.old).name ≡ Some (T.name frame))) }
{
    own.len_as::<Looks<M>>() == 0
}

/// A thief's way to a deque. It allocates nothing, and fails where the deque has all the stealers that it may have.
pub(crate) fn new_thief<T: Named>(own: &mut Own<T>) -> Result<(Other<T>, Thief<T>), NoMemory>
    requires { (worker_flavor own.old ≡ 0) × ((worker_view own.old).stage ≡ Open) }
    ensures own { (worker_view own.new ≡ worker_view own.old) × (worker_flavor own.new ≡ 0) × (worker_deque own.new ≡ worker_deque own.old) }
    ensures thief { IfOk result (λ r. IsPassOf (stealer_deque r.0) r.1 × (view r.1 ≡ new_pass (worker_view own.old)) × (stealer_flavor r.0 ≡ 0)) }
    ensures deque { IfOk result (λ r. stealer_deque r.0 ≡ worker_deque own.old) }
{
    let stealer = own.stealer()?;
    let pass = own.another::<Twins>();
    Ok((stealer, pass))
}
