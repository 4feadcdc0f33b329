// One helper for each call. Where the answer is the wanted one, the state after it is known.
ghost use Rattle.std.specs.Prelude.{◌≡◌, ℕ, true, ◌&&◌, [], ◌∷◌, None, IfOk, OnOk, length};
ghost use Rattle.swan_model.specs.declared.rights.Mode.TheVariants.{Push, Pop};
ghost use Rattle.swan_model.specs.QueueState.{QueueState, active, after_create, after_create_root, after_deed, after_finish, after_take_rest};
ghost use Rattle.queues.specs.Tells.{after_pop, after_spawn_by, with_active, after_test};
ghost use Rattle.queue_tests.specs.Allowed.{has_space, is_rest_left, is_untouched, may_join, may_make, may_spawn, may_use};

use crate::Wrong;
use queues::{Popped, QueueGive, Queues, Tested, WaitFor};
use std::alloc::Global;
use swan_model::{Mode, NoMemory, Value, Values};

/// A list of one number.
fn list_of(alloc: Global, item: i64) -> Result<Values, NoMemory>
    ensures { IfOk result (λ list. length list ≡ 1) }
{
    let mut list = Values::new(alloc);
    if list.push(Value::Int(item)).is_err() {
        drop(list);
        return Err(NoMemory);
    }
    Ok(list)
}

/// Makes a root queue with one item, which has to get this number.
#[tactic(auto, using(crate::proofs::Allowing::untouched_by_test, crate::proofs::Allowing::room_by_test))]
pub fn create_root<Q: Queues>(
    queues: &mut Q,
    alloc: Global,
    number: u32,
    item: i64,
) -> Result<(), Wrong>
    requires free { Q.name queues.old ≡ None }
    requires may { is_untouched (Q.state queues.old) && has_space (Q.state queues.old) ≡ true }
    ensures free { Q.name queues.new ≡ None }
    ensures after { OnOk result (Q.state queues.new ≡ after_create_root (Q.state queues.old)) }
{
    let Ok(first) = list_of(alloc, item) else {
        return Err(Wrong::NoMemory);
    };
    if queues.create_root(first)? == number {
        return Ok(());
    }
    Err(Wrong::Answer)
}

/// Makes a queue, which has to get this number.
#[tactic(auto, using(crate::proofs::Allowing::made_by_test, crate::proofs::Allowing::room_by_test))]
pub fn create<Q: Queues>(queues: &mut Q, frame: u64, number: u32) -> Result<(), Wrong>
    requires free { Q.name queues.old ≡ None }
    requires may { may_make (Q.state queues.old) frame && has_space (Q.state queues.old) ≡ true }
    ensures free { Q.name queues.new ≡ None }
    ensures after { OnOk result (Q.state queues.new ≡ with_active (after_create (Q.state queues.old)) (Q.state queues.old) (active (Q.state queues.old) frame)) }
{
    if queues.create(frame)? == number {
        return Ok(());
    }
    Err(Wrong::Answer)
}

/// Makes a child that is given one queue.
pub fn spawn<Q: Queues>(
    queues: &mut Q,
    parent: u64,
    child: u64,
    queue: u32,
    mode: Mode,
) -> Result<(), Wrong>
    requires free { Q.name queues.old ≡ None }
    requires may { may_spawn (Q.state queues.old) parent child ((record { queue = queue; mode = mode }) ∷ []) ≡ true }
    ensures free { Q.name queues.new ≡ None }
    ensures after { OnOk result (Q.state queues.new ≡ after_spawn_by (Q.state queues.old) parent child ((record { queue = queue; mode = mode }) ∷ [])) }
{
    queues.spawn(parent, child, &[QueueGive { queue, mode }])?;
    Ok(())
}

/// Asks whether a child may begin to pop. The answer has to name this blocker, or none.
pub fn may_start<Q: Queues>(queues: &Q, child: u64, blocker: Option<u64>) -> Result<(), Wrong> {
    if queues.may_start(child).err() == blocker {
        return Ok(());
    }
    Err(Wrong::Answer)
}

/// Pushes a number.
pub fn push<Q: Queues>(queues: &mut Q, frame: u64, queue: u32, item: i64) -> Result<(), Wrong>
    requires free { Q.name queues.old ≡ None }
    requires may { may_use (Q.state queues.old) frame queue Push ≡ true }
    ensures free { Q.name queues.new ≡ None }
    ensures after { OnOk result (Q.state queues.new ≡ after_deed (Q.state queues.old) frame) }
{
    queues.push(frame, queue, Value::Int(item))?;
    Ok(())
}

/// What a pop answers has to be this number.
fn is_item(popped: Popped, item: i64) -> Result<(), Wrong>
    ensures { OnOk result ((state : QueueState) (frame : ℕ) → after_pop state frame popped ≡ after_deed state frame) }
{
    let met = matches!(&popped, Popped::Item(Value::Int(number)) if *number == item);
    drop(popped);
    if met {
        return Ok(());
    }
    Err(Wrong::Answer)
}

/// Pops an item, which has to be this number.
pub fn pop<Q: Queues>(queues: &mut Q, frame: u64, queue: u32, item: i64) -> Result<(), Wrong>
    requires free { Q.name queues.old ≡ None }
    requires may { may_use (Q.state queues.old) frame queue Pop ≡ true }
    ensures free { Q.name queues.new ≡ None }
    ensures after { OnOk result (Q.state queues.new ≡ after_deed (Q.state queues.old) frame) }
{
    is_item(queues.pop(frame, queue), item)
}

/// What a pop answers has to be that none is left.
fn is_none(popped: Popped) -> Result<(), Wrong>
    ensures { OnOk result ((state : QueueState) (frame : ℕ) → after_pop state frame popped ≡ after_deed state frame) }
{
    let met = matches!(&popped, Popped::Empty);
    drop(popped);
    if met {
        return Ok(());
    }
    Err(Wrong::Answer)
}

/// Pops, which has to find that none is left.
pub fn pop_none<Q: Queues>(queues: &mut Q, frame: u64, queue: u32) -> Result<(), Wrong>
    requires free { Q.name queues.old ≡ None }
    requires may { may_use (Q.state queues.old) frame queue Pop ≡ true }
    ensures free { Q.name queues.new ≡ None }
    ensures after { OnOk result (Q.state queues.new ≡ after_deed (Q.state queues.old) frame) }
{
    is_none(queues.pop(frame, queue))
}

/// What a pop answers has to be a wait for this.
fn is_wait(popped: Popped, cause: WaitFor) -> Result<(), Wrong>
    ensures { OnOk result ((state : QueueState) (frame : ℕ) → after_pop state frame popped ≡ state) }
{
    let met = matches!(&popped, Popped::NotYet(wait) if *wait == cause);
    drop(popped);
    if met {
        return Ok(());
    }
    Err(Wrong::Answer)
}

/// Pops, which has to wait for this.
pub fn pop_wait<Q: Queues>(
    queues: &mut Q,
    frame: u64,
    queue: u32,
    cause: WaitFor,
) -> Result<(), Wrong>
    requires free { Q.name queues.old ≡ None }
    requires may { may_use (Q.state queues.old) frame queue Pop ≡ true }
    ensures free { Q.name queues.new ≡ None }
    ensures after { OnOk result (Q.state queues.new ≡ Q.state queues.old) }
{
    is_wait(queues.pop(frame, queue), cause)
}

/// Tests a queue, with this answer.
pub fn test<Q: Queues>(queues: &mut Q, frame: u64, queue: u32, answer: Tested) -> Result<(), Wrong>
    requires free { Q.name queues.old ≡ None }
    requires may { may_use (Q.state queues.old) frame queue Pop ≡ true }
    ensures free { Q.name queues.new ≡ None }
    ensures after { OnOk result (Q.state queues.new ≡ after_test (Q.state queues.old) frame answer) }
{
    if queues.test(frame, queue) == answer {
        return Ok(());
    }
    Err(Wrong::Answer)
}

/// Looks at a queue, with this answer.
#[tactic(auto, using(crate::proofs::Allowing::looked_by_test))]
pub fn look<Q: Queues>(queues: &mut Q, frame: u64, queue: u32, answer: Tested) -> Result<(), Wrong>
    requires free { Q.name queues.old ≡ None }
    requires may { may_use (Q.state queues.old) frame queue Pop ≡ true }
    ensures free { Q.name queues.new ≡ None }
    ensures after { OnOk result (Q.state queues.new ≡ Q.state queues.old) }
{
    if queues.look(frame, queue) == answer {
        return Ok(());
    }
    Err(Wrong::Answer)
}

/// Syncs and ends a frame.
#[tactic(auto, using(crate::proofs::Allowing::joined_by_test))]
pub fn finish<Q: Queues>(queues: &mut Q, frame: u64)
    requires free { Q.name queues.old ≡ None }
    requires may { may_join (Q.state queues.old) frame ≡ true }
    ensures free { Q.name queues.new ≡ None }
    ensures after { Q.state queues.new ≡ after_finish (Q.state queues.old) frame }
{
    queues.sync(frame);
    queues.finish(frame);
}

/// Whether a list is these numbers.
fn are(list: &Values, items: &[i64]) -> bool {
    for index in 0..items.len() {
        match list.get(index) {
            Some(Value::Int(number)) if *number == items[index] => {}
            _ => return false,
        }
    }
    list.len() == items.len()
}

/// Takes the rest of a queue, which has to be these numbers.
#[tactic(auto, using(crate::proofs::Allowing::left_by_test))]
pub fn take_rest<Q: Queues>(queues: &mut Q, queue: u32, items: &[i64]) -> Result<(), Wrong>
    requires free { Q.name queues.old ≡ None }
    requires may { is_rest_left (Q.state queues.old) queue ≡ true }
    ensures free { Q.name queues.new ≡ None }
    ensures after { OnOk result (Q.state queues.new ≡ after_take_rest (Q.state queues.old) queue) }
{
    if are(&queues.take_rest(queue)?, items) {
        return Ok(());
    }
    Err(Wrong::Answer)
}
