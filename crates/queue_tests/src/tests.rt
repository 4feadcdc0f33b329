// The tables on each form of hyperqueues.
ghost use Rattle.std.specs.Prelude.{◌≡◌, ◌≢◌, None, true};
ghost use Rattle.swan_model.specs.QueueState.{new_state};
ghost use Rattle.queue_tests.specs.Allowed.{may_make};
ghost use Rattle.queue_tests.specs.Steps.{after_steps, allows_steps};

use crate::*;
use queue_book::BookQueues;
use queues::{Queues, Tested, WaitFor};
use std::alloc::Global;
use std::test::Fail;
use swan_model::{Mode, RunName};

/// Hyperqueues in plain form, of a run with the free name.
fn book(alloc: Global) -> BookQueues
    ensures { result ≡ record { name = None; state = new_state } }
{
    BookQueues::new(alloc, RunName::free())
}

/// Runs a table on new hyperqueues, and answers the first call that isn't met.
fn run_of(alloc: Global, steps: &[Step]) -> Result<(), WrongStep>
    requires { allows_steps new_state steps.now ≡ true }
{
    let mut queues = book(alloc);
    let found = run(&mut queues, alloc, steps);
    drop(queues);
    found
}

/// Runs a table, in which each call has to give its answer.
fn meets(alloc: Global, steps: &[Step]) -> Result<(), Fail>
    requires { allows_steps new_state steps.now ≡ true }
{
    run_of(alloc, steps)?;
    Ok(())
}

#[test]
fn two_pushers_in_serial_order(rt: HostRuntime) -> Result<(), Fail> {
    meets(rt.alloc(), TWO_PUSHERS)
}

#[test]
fn first_items_are_popped_while_a_pusher_is_active(rt: HostRuntime) -> Result<(), Fail> {
    meets(rt.alloc(), FIRST_ITEMS)
}

#[test]
fn items_of_a_grandchild_come_between_those_of_its_parent(rt: HostRuntime) -> Result<(), Fail> {
    meets(rt.alloc(), GRANDCHILD)
}

#[test]
fn a_pusher_between_two_poppers(rt: HostRuntime) -> Result<(), Fail> {
    meets(rt.alloc(), PUSHER_BETWEEN_POPPERS)
}

#[test]
fn poppers_of_one_queue_begin_one_after_the_other(rt: HostRuntime) -> Result<(), Fail> {
    meets(rt.alloc(), POP_TURNS)
}

#[test]
fn a_queue_of_a_child_ends_with_it_and_its_number_stays_taken(rt: HostRuntime) -> Result<(), Fail> {
    meets(rt.alloc(), CHILD_QUEUE_ENDS)
}

/// Two frames that a table leaves get their ends back, and each its own alone.
fn keeps_apart(alloc: Global, steps: &[Step], one: u64, two: u64) -> Result<(), Fail>
    requires may { allows_steps new_state steps.now ≡ true }
    requires one { may_make (after_steps new_state steps.now) one ≡ true }
    requires two { may_make (after_steps new_state steps.now) two ≡ true }
    requires apart { one ≢ two }
{
    let mut queues = book(alloc);
    let kept = lend_two(&mut queues, alloc, steps, one, two);
    drop(queues);
    kept
}

#[test]
fn ends_come_back_to_their_frame_alone(rt: HostRuntime) -> Result<(), Fail> {
    keeps_apart(rt.alloc(), TWO_CHILDREN, 1, 2)
}

#[test]
fn ends_of_the_plain_form_find_no_item(rt: HostRuntime) -> Result<(), Fail> {
    let alloc = rt.alloc();
    let mut queues = book(alloc);
    let found = finds_by_ends(&mut queues, alloc, &[Step::CreateRoot(0, 7)], 0, 0, false);
    drop(queues);
    found
}

/// Lets go what may be sent to another thread.
fn let_go<T: Send + Drop>(_value: T) {}

/// Lets go so many items of one queue.
fn lets_go_of(alloc: Global, count: u32) -> Result<(), Fail> {
    let mut queues = book(alloc);
    let pushed = push_many(&mut queues, count);
    let_go(queues);
    pushed?;
    Ok(())
}

#[test]
fn a_million_items_are_let_go(rt: HostRuntime) -> Result<(), Fail> {
    lets_go_of(rt.alloc(), 1_000_000)
}

#[test]
fn queues_and_ends_may_be_sent(rt: HostRuntime) {
    let mut queues = book(rt.alloc());
    let_go(queues.lend(0));
    let_go(queues);
}

/// Runs a table in which this call alone has a wrong answer, which has to be found.
fn finds(alloc: Global, step: usize, steps: &[Step]) -> Result<(), Fail>
    requires { allows_steps new_state steps.now ≡ true }
{
    match run_of(alloc, steps) {
        Err(found) if found.step == step && found.wrong == Wrong::Answer => Ok(()),
        _ => Err("a wrong answer wasn't found".into()),
    }
}

#[test]
fn wrong_numbers_and_items_are_found(rt: HostRuntime) -> Result<(), Fail> {
    let alloc = rt.alloc();
    finds(alloc, 0, &[Step::CreateRoot(1, 7)])?;
    finds(alloc, 0, &[Step::Create(0, 1)])?;
    let pop = Step::Use(0, 0, Use::Pop(8));
    finds(alloc, 1, &[Step::CreateRoot(0, 7), pop])
}

#[test]
fn wrong_emptiness_is_found(rt: HostRuntime) -> Result<(), Fail> {
    let alloc = rt.alloc();
    let root = Step::CreateRoot(0, 7);
    let none = Step::Use(0, 0, Use::PopNone);
    finds(alloc, 1, &[root, none])?;
    let test = Step::Use(0, 0, Use::Test(Tested::Empty));
    finds(alloc, 1, &[root, test])?;
    let look = Step::Use(0, 0, Use::Look(Tested::Empty));
    finds(alloc, 1, &[root, look])
}

#[test]
fn wrong_waits_are_found(rt: HostRuntime) -> Result<(), Fail> {
    let alloc = rt.alloc();
    let wait = Step::Use(0, 0, Use::PopWait(WaitFor::Pusher(0)));
    finds(alloc, 1, &[Step::CreateRoot(0, 7), wait])?;
    let child = Step::Spawn(0, 1, 0, Mode::Push);
    finds(alloc, 2, &[Step::Create(0, 0), child, wait])
}

#[test]
fn wrong_turns_are_found(rt: HostRuntime) -> Result<(), Fail> {
    let alloc = rt.alloc();
    let root = Step::CreateRoot(0, 7);
    let one = Step::Spawn(0, 1, 0, Mode::Pop);
    let two = Step::Spawn(0, 2, 0, Mode::Pop);
    finds(alloc, 3, &[root, one, two, Step::MayStart(2, None)])?;
    finds(alloc, 3, &[root, one, two, Step::MayStart(1, Some(2))])?;
    finds(alloc, 3, &[root, one, two, Step::MayStart(2, Some(2))])
}

#[test]
fn wrong_rests_are_found(rt: HostRuntime) -> Result<(), Fail> {
    let alloc = rt.alloc();
    let rest = Step::TakeRest(0, &[]);
    finds(alloc, 2, &[Step::CreateRoot(0, 7), Step::Finish(0), rest])
}
