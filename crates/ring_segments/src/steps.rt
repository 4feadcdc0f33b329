// Pushes and pops, step by step.
ghost use Rattle.std.specs.Prelude.{◌≡◌, ◌+◌, ◌<◌, ◌≤◌, ◌^◌, true, false, [], IfErr, IfNone, IfSome, OnErr, OnOk};
ghost use Rattle.std.specs.Bool.{MatchBool};
ghost use Rattle.std.specs.Option.{ForSome};
ghost use Rattle.ring_segments.specs.Seating.{id_of};
ghost use Rattle.ring_segments.specs.Sits.{IsPopping, IsPushing, Sits};
ghost use Rattle.ring_segments.specs.Tags.{HasRoomFor, IsInside, IsItem};
ghost use Rattle.ring_segments.specs.Words.{last_note_view, view_after_learn, view_after_look, view_after_miss, note_view, sealed_of};

use crate::ring::{HEAD, TAIL};
use crate::{Hear, LastNotes, Notes, OwedItem, Put, Reach, Ring, RingSeat, SeeHead, SeeTail, Take};
use swan_model::Value;

/// Puts an item into its slot, where that is free, and then counts it as pushed. One load, and one store. `O(1)`.
pub(crate) fn put_in(
    ring: &Ring,
    seat: &mut RingSeat,
    pushed: u64,
    entry: OwedItem,
) -> Result<(), Value>
    requires seat { IsPushing ring.now seat.old pushed × (seat.old.me.0.sealed ≡ false) }
    requires entry { (entry.index ≡ pushed) × (entry.of ≡ id_of ring.now.about) × (pushed + 1 < 2 ^ 64) × HasRoomFor entry.of (pushed + 1) }
    ensures ok { OnOk result (IsPushing ring.now seat.new (pushed + 1) × (seat.new.me.0 ≡ record seat.old.me.0 { pushed = pushed + 1; looks = seat.old.me.0.looks + 1; found = seat.new.me.0.found })) }
    ensures room { OnOk result ((seat.old.me.0.found ≤ seat.new.me.0.found) × (pushed < seat.new.me.0.found + ring.now.about.size)) }
    ensures err { IfErr result (λ item. (item ≡ entry.item) × IsPushing ring.now seat.new pushed × (seat.new.me.0 ≡ record seat.old.me.0 { looks = seat.old.me.0.looks + 1; misses = seat.old.me.0.misses + 1; found = seat.new.me.0.found })) }
    ensures full { OnErr result ((seat.old.me.0.found ≤ seat.new.me.0.found) × (pushed ≡ seat.new.me.0.found + ring.now.about.size)) }
{
    let shared = &ring.table.shared;
    let head = shared.load::<SeeHead>(seat, HEAD);
    if pushed - head >= ring.about.size {
        return Err(entry.into_item());
    }
    let slot = (pushed % ring.about.size) as usize;
    let _was = shared.exchange(seat, slot, Some(entry));
    shared.store::<Put>(seat, TAIL, pushed + 1);
    Ok(())
}

/// Takes the next item out of its slot, where there is one, and then counts it as popped. One load, and one store. `O(1)`.
pub(crate) fn take_out(ring: &Ring, seat: &mut RingSeat, popped: u64) -> Option<Value>
    requires { IsPopping ring.now seat.old popped }

    // the item that is given, and what the seat knows then
    ensures item { IfSome result (λ item. IsItem (id_of ring.now.about) popped item) }
    ensures seat { IfSome result (λ item. IsPopping ring.now seat.new (popped + 1)) }
    ensures view { IfSome result (λ item. seat.new.me.0 ≡ record (view_after_look seat.old.me.0 seat.new.me.0.known) { popped = popped + 1 }) }
    ensures known { IfSome result (λ item. (popped < seat.new.me.0.known) × (seat.old.me.0.known ≤ seat.new.me.0.known) × (seat.new.me.0.known < 2 ^ 64)) }
    ensures all { IfSome result (λ item. ForSome seat.old.me.0.all (λ n. popped + 1 ≤ n)) }

    // what shows that there was none
    ensures none { IfNone result ((seat.old.me.0.known ≤ popped) × IsPopping ring.now seat.new popped × (seat.new.me.0 ≡ view_after_miss seat.old.me.0 popped)) }
{
    let shared = &ring.table.shared;
    let tail = shared.load::<Reach>(seat, TAIL);
    if tail <= popped {
        return None;
    }
    let slot = (popped % ring.about.size) as usize;
    let Some(entry) = shared.exchange(seat, slot, None) else {
        unreachable!()
    };
    shared.store::<Take>(seat, HEAD, popped + 1);
    Some(entry.into_item())
}

/// Whether an item is there. One load. `O(1)`.
pub(crate) fn look(ring: &Ring, seat: &mut RingSeat, popped: u64) -> bool
    requires { IsPopping ring.now seat.old popped }
    ensures seat { IsPopping ring.now seat.new popped × (seat.old.me.0.known ≤ seat.new.me.0.known) }
    ensures yes { result ≡ true → (popped < seat.new.me.0.known) × (seat.new.me.0 ≡ view_after_look seat.old.me.0 seat.new.me.0.known) × IsInside (id_of ring.now.about) popped }
    ensures no { result ≡ false → (seat.old.me.0.known ≤ popped) × (seat.new.me.0 ≡ view_after_miss seat.old.me.0 popped) }
{
    let tail = ring.table.shared.load::<SeeTail>(seat, TAIL);
    popped < tail
}

/// A note of what a producer has pushed. `O(1)`.
pub(crate) fn note_down(ring: &Ring, seat: &mut RingSeat, pushed: u64) -> RingSeat
    requires { IsPushing ring.now seat.old pushed }
    ensures seat { IsPushing ring.now seat.new pushed × (seat.new.me.0 ≡ seat.old.me.0) }
    ensures note { (result.table_id ≡ ring.now.table.shared.table_id) × (result.me ≡ (note_view seat.old.me.0, [])) }
{
    ring.table.shared.split_seat::<Notes>(seat)
}

/// A note of all that a spent producer has pushed. `O(1)`.
pub(crate) fn note_last(ring: &Ring, seat: &mut RingSeat, pushed: u64) -> RingSeat
    requires { IsPushing ring.now seat.old pushed }
    ensures seat { IsPushing ring.now seat.new pushed × (seat.new.me.0 ≡ sealed_of seat.old.me.0) }
    ensures note { (result.table_id ≡ ring.now.table.shared.table_id) × (result.me ≡ (last_note_view seat.old.me.0, [])) }
{
    ring.table.shared.split_seat::<LastNotes>(seat)
}

/// Takes in what a note knows. `O(1)`.
pub(crate) fn hear(ring: &Ring, seat: &mut RingSeat, note: RingSeat, popped: u64)
    requires seat { IsPopping ring.now seat.old popped }
    requires note { (note.table_id ≡ ring.now.table.shared.table_id) × (note.me.1 ≡ []) }
    ensures seat { IsPopping ring.now seat.new popped }
    ensures view { seat.new.me.0 ≡ record (view_after_learn seat.old.me.0 note.me.0) { looks = seat.old.me.0.looks + 1 } }
    ensures all { ForSome seat.new.me.0.all (λ n. popped ≤ n) }
{
    let shared = &ring.table.shared;
    shared.join_seat::<Notes>(seat, note);
    let _tail = shared.load::<Hear>(seat, TAIL);
}
