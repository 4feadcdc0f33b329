// Many items.
ghost use Rattle.std.specs.Prelude.{◌≡◌, None};
ghost use Rattle.swan_model.specs.QueueState.{new_state};

use crate::{Wrong, calls};
use queues::Queues;
use swan_model::Value;

/// Makes a queue on new hyperqueues of the free name, and pushes so many items to it. Err is want of memory, or another answer than the first
/// queue's number.
#[tactic(auto, using(crate::proofs::Pushing::may_make_new, crate::proofs::Pushing::pushing_new, crate::proofs::Pushing::pushed_once))]
pub fn push_many<Q: Queues>(queues: &mut Q, count: u32) -> Result<(), Wrong>
    requires free { Q.name queues.old ≡ None }
    requires new { Q.state queues.old ≡ new_state }
{
    calls::create(queues, 0, 0)?;
    for _turn in 0..count {
        queues.push(0, 0, Value::Int(7))?;
    }
    Ok(())
}
