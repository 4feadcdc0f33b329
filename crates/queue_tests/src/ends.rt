// Ends that are lent come back to their frame alone, and find what they should.
ghost use Rattle.std.specs.Prelude.{◌≡◌, ◌≢◌, true, None, IfOk};
ghost use Rattle.swan_model.specs.QueueState.{new_state};
ghost use Rattle.queue_tests.specs.Allowed.{may_make};
ghost use Rattle.queue_tests.specs.Steps.{after_steps, allows_steps};

use crate::{Step, run};
use queues::{LocalEnds, Queues};
use std::alloc::Global;
use std::test::Fail;

/// Makes the calls of a table, and lends two frames their ends: each has to get its own back, and the other's not.
#[tactic(auto, using(crate::proofs::Lending::makes_where_equal))]
pub fn lend_two<Q: Queues>(
    queues: &mut Q,
    alloc: Global,
    steps: &[Step],
    one: u64,
    two: u64,
) -> Result<(), Fail>
    // queues in which nothing was done, where the table may be called
    requires free { Q.name queues.old ≡ None }
    requires new { Q.state queues.old ≡ new_state }
    requires may { allows_steps new_state steps.now ≡ true }

    // two frames that may have their ends then
    requires one { may_make (after_steps new_state steps.now) one ≡ true }
    requires two { may_make (after_steps new_state steps.now) two ≡ true }
    requires apart { one ≢ two }
{
    match run(queues, alloc, steps) {
        Ok(()) => lend_both(queues, one, two),
        Err(wrong) => Err(wrong.into()),
    }
}

/// Lends two frames their ends: each has to get its own back, and the other's not.
#[tactic(auto, using(crate::proofs::Allowing::lent_by_test))]
fn lend_both<Q: Queues>(queues: &mut Q, one: u64, two: u64) -> Result<(), Fail>
    requires free { Q.name queues.old ≡ None }
    requires one { may_make (Q.state queues.old) one ≡ true }
    requires two { may_make (Q.state queues.old) two ≡ true }
    requires apart { one ≢ two }
{
    let of_one = queues.lend(one);
    let of_two = queues.lend(two);
    give_back(queues, one, of_one, two, of_two)
}

/// Makes the calls of a table, and lends a frame its ends: a look by them and a test by them have to find an
/// item of a queue, or both of them none, and the frame has to get the ends back.
#[tactic(auto, using(crate::proofs::Lending::makes_where_equal))]
pub fn finds_by_ends<Q: Queues>(
    queues: &mut Q,
    alloc: Global,
    steps: &[Step],
    frame: u64,
    queue: u32,
    some: bool,
) -> Result<(), Fail>
    // queues in which nothing was done, where the table may be called
    requires free { Q.name queues.old ≡ None }
    requires new { Q.state queues.old ≡ new_state }
    requires may { allows_steps new_state steps.now ≡ true }

    // a frame that may have its ends then
    requires lends { may_make (after_steps new_state steps.now) frame ≡ true }
{
    match run(queues, alloc, steps) {
        Ok(()) => finds_by_lent(queues, frame, queue, some),
        Err(wrong) => Err(wrong.into()),
    }
}

/// Lends a frame its ends: a look by them and a test by them have to find an item of a queue, or both of them
/// none, and the frame has to get the ends back.
#[tactic(auto, using(crate::proofs::Allowing::lent_by_test, crate::proofs::Lending::deeds_left))]
fn finds_by_lent<Q: Queues>(queues: &mut Q, frame: u64, queue: u32, some: bool) -> Result<(), Fail>
    requires free { Q.name queues.old ≡ None }
    requires lends { may_make (Q.state queues.old) frame ≡ true }
{
    let mut ends = queues.lend(frame);
    let found = ends.finds(queue);
    let tested = ends.test(queue);
    accept(queues, frame, ends)?;
    if found == some && tested == some {
        return Ok(());
    }
    Err("the ends found another answer".into())
}

/// Gives each of two frames the other's ends, which has to be refused, and then its own, which has to be taken.
fn give_back<Q: Queues>(
    queues: &mut Q,
    one: u64,
    of_one: Q::Ends,
    two: u64,
    of_two: Q::Ends,
) -> Result<(), Fail>
    requires free { Q.name queues.old ≡ None }
    requires own_one { (Q.Ends.name of_one ≡ Q.name queues.old) × (Q.Ends.run of_one ≡ Q.run queues.old) }
    requires own_two { (Q.Ends.name of_two ≡ Q.name queues.old) × (Q.Ends.run of_two ≡ Q.run queues.old) }
{
    let of_two = refuse(queues, one, of_two)?;
    let of_one = refuse(queues, two, of_one)?;
    accept(queues, one, of_one)?;
    accept(queues, two, of_two)
}

/// Gives ends back for a frame, which have to be refused.
fn refuse<Q: Queues>(queues: &mut Q, frame: u64, ends: Q::Ends) -> Result<Q::Ends, Fail>
    requires free { Q.name queues.old ≡ None }
    requires own { (Q.Ends.name ends ≡ Q.name queues.old) × (Q.Ends.run ends ≡ Q.run queues.old) }
    ensures same { (Q.name queues.new ≡ Q.name queues.old) × (Q.run queues.new ≡ Q.run queues.old) }
    ensures back { IfOk result (λ back. back ≡ ends) }
{
    match queues.back(frame, ends) {
        Ok(()) => Err("another frame's ends were taken".into()),
        Err(ends) => Ok(ends),
    }
}

/// Gives a frame its own ends back.
fn accept<Q: Queues>(queues: &mut Q, frame: u64, ends: Q::Ends) -> Result<(), Fail>
    requires free { Q.name queues.old ≡ None }
    requires own { (Q.Ends.name ends ≡ Q.name queues.old) × (Q.Ends.run ends ≡ Q.run queues.old) }
    ensures same { (Q.name queues.new ≡ Q.name queues.old) × (Q.run queues.new ≡ Q.run queues.old) }
{
    match queues.back(frame, ends) {
        Ok(()) => Ok(()),
        Err(_ends) => Err("the frame's own ends were refused".into()),
    }
}
