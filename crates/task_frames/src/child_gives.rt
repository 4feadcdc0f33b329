// What a child is given.
ghost use Rattle.std.specs.Prelude.{◌≡◌, ◌<◌, Some, IfOk, OnOk, length};
ghost use Rattle.std.specs.Option.{option_map};
ghost use Rattle.swan_model.specs.SerialStep.{given};
ghost use Rattle.task_frames.specs.Giving.{AreMade, GivesObjects, queue_rights};

use crate::Holding;
use crate::holding::number_at;
use object_versions::Versions;
use queues::QueueGive;
use std::alloc::Global;
use swan_model::{Gives, NoMemory};

/// What a child holds by its gives, and None exactly where one who holds this may not give one of them so. Err is want of
/// memory. `O(gives)`, one allocation.
pub fn given(
    alloc: Global,
    holdings: &[Holding],
    gives: &Gives,
) -> Result<Option<Vec<Holding>>, NoMemory>
    ensures { IfOk result (λ held. option_map (λ list. list.items) held ≡ given holdings.now gives.now) }
{
    let mut held = Vec::with_capacity(alloc, gives.len())?;
    for give in gives.as_slice() {
        let Some(number) = number_at(holdings, give.place, give.mode) else {
            return Ok(None);
        };
        held.push(Holding {
            mode: give.mode,
            number,
        })?;
    }
    Ok(Some(held))
}

/// The queues among what is held, each with its mode. Err is want of memory. `O(holdings)`, amortised.
pub fn queue_gives(alloc: Global, holdings: &[Holding]) -> Result<Vec<QueueGive>, NoMemory>
    ensures { IfOk result (λ list. list.items ≡ queue_rights holdings.now) }
{
    let mut gives = Vec::new(alloc);
    for holding in holdings {
        if holding.mode.is_of_queues() {
            gives.push(QueueGive {
                queue: holding.number,
                mode: holding.mode,
            })?;
        }
    }
    Ok(gives)
}

/// Gives a child the objects among its gives, one after the other. Err is want of memory, and nothing is said of the
/// objects after it. `O(g log n)` for g gives, amortised.
pub fn give_objects(
    versions: &mut Versions,
    parent: u64,
    child: u64,
    gives: &Gives,
) -> Result<(), NoMemory>
    requires may { GivesObjects versions.old parent child gives.now }
    ensures made { OnOk result ((may : GivesObjects versions.old parent child gives.now)
        → AreMade may.s may.r versions.old versions.new may.giver child gives.now (length gives.now)) }
{
    // By the clause of `len` there are at most `GIVES_MOST` gives, so the count has room.
    let _most = gives.len();
    let mut place = 0;
    for give in gives.as_slice() {
        if !give.mode.is_of_queues() {
            versions.access(parent, give.place, child, place, give.mode)?;
        }
        place += 1;
    }
    Ok(())
}
