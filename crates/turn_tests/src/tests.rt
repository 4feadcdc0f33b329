// Tables of calls, with the answers worked out by hand.
use crate::{Step, run};
use pop_order::{Certain, PopTurns};
use std::test::Fail;
use swan_model::Mode;

#[test]
fn a_popper_waits_for_its_older_sibling(rt: HostRuntime) -> Result<(), Fail> {
    run(
        rt.alloc(),
        &[
            Step::Enlist(0, 1, 0, Mode::Pop),
            Step::Enlist(0, 2, 0, Mode::Pop),
            Step::MayStart(2, Err(1)),
            Step::Finds(0, 0, Certain::PoppingChild(1)),
            Step::PoppingChild(0, 0, Some(1)),
            Step::MayStart(1, Ok(())),
            Step::Lend(1),
            Step::Back(1),
            Step::MayStart(2, Ok(())),
            Step::PoppingChild(0, 0, Some(2)),
            Step::PoppingChild(1, 0, None),
        ],
    )
}

#[test]
fn a_pusher_between_two_poppers_is_earlier_than_the_second(rt: HostRuntime) -> Result<(), Fail> {
    run(
        rt.alloc(),
        &[
            Step::Enlist(0, 1, 0, Mode::Pop),
            Step::Enlist(0, 2, 0, Mode::Push),
            Step::Enlist(0, 3, 0, Mode::Pop),
            Step::MayStart(3, Err(1)),
            Step::Finds(1, 0, Certain::Yes),
            Step::Finds(2, 0, Certain::Yes),
            Step::Finds(3, 0, Certain::EarlierPusher(2)),
            Step::Back(1),
            Step::MayStart(3, Ok(())),
            Step::Finds(0, 0, Certain::PoppingChild(3)),
            Step::Back(2),
            Step::Finds(3, 0, Certain::Yes),
        ],
    )
}

#[test]
fn a_popper_below_a_popper_keeps_its_parent_and_no_sibling(rt: HostRuntime) -> Result<(), Fail> {
    run(
        rt.alloc(),
        &[
            Step::Enlist(0, 1, 0, Mode::Pop),
            Step::Enlist(1, 2, 0, Mode::Pop),
            Step::Enlist(0, 3, 0, Mode::Pop),
            Step::MayStart(2, Ok(())),
            Step::MayStart(3, Err(1)),
            Step::Finds(1, 0, Certain::PoppingChild(2)),
            Step::Finds(2, 0, Certain::Yes),
            Step::Back(2),
            Step::Finds(1, 0, Certain::Yes),
            Step::MayStart(3, Err(1)),
            Step::Back(1),
            Step::MayStart(3, Ok(())),
        ],
    )
}

#[test]
fn pushers_below_an_older_sibling_of_the_parent_are_earlier(rt: HostRuntime) -> Result<(), Fail> {
    run(
        rt.alloc(),
        &[
            Step::Enlist(0, 1, 0, Mode::Push),
            Step::Enlist(1, 2, 0, Mode::Push),
            Step::Enlist(0, 3, 0, Mode::PushPop),
            Step::Enlist(3, 4, 0, Mode::Pop),
            Step::Finds(1, 0, Certain::EarlierPusher(2)),
            Step::Finds(3, 0, Certain::PoppingChild(4)),
            Step::Finds(4, 0, Certain::EarlierPusher(2)),
            Step::Back(2),
            Step::Finds(4, 0, Certain::EarlierPusher(1)),
            Step::Back(1),
            Step::Finds(4, 0, Certain::Yes),
        ],
    )
}

#[test]
fn a_queue_stays_below_the_frame_that_made_it(rt: HostRuntime) -> Result<(), Fail> {
    run(
        rt.alloc(),
        &[
            Step::Enlist(0, 1, 0, Mode::Push),
            Step::Enlist(1, 2, 7, Mode::Push),
            Step::Enlist(2, 3, 7, Mode::Push),
            Step::Enlist(1, 4, 7, Mode::Pop),
            Step::Finds(0, 0, Certain::EarlierPusher(1)),
            Step::Finds(1, 7, Certain::PoppingChild(4)),
            Step::Finds(2, 7, Certain::EarlierPusher(3)),
            Step::Finds(4, 7, Certain::EarlierPusher(3)),
            Step::Back(3),
            Step::Finds(4, 7, Certain::EarlierPusher(2)),
            Step::Back(2),
            Step::Finds(4, 7, Certain::Yes),
            Step::Back(4),
            Step::Enlist(1, 5, 7, Mode::Push),
            Step::Finds(1, 7, Certain::EarlierPusher(5)),
        ],
    )
}

#[test]
fn push_and_pop_counts_as_both(rt: HostRuntime) -> Result<(), Fail> {
    run(
        rt.alloc(),
        &[
            Step::Enlist(0, 1, 0, Mode::PushPop),
            Step::Enlist(0, 2, 0, Mode::PushPop),
            Step::MayStart(2, Err(1)),
            Step::Finds(2, 0, Certain::EarlierPusher(1)),
            Step::Finds(0, 0, Certain::PoppingChild(1)),
        ],
    )
}

#[test]
fn a_child_blocks_by_any_of_its_queues(rt: HostRuntime) -> Result<(), Fail> {
    run(
        rt.alloc(),
        &[
            Step::Enlist(0, 1, 7, Mode::Pop),
            Step::Enlist(0, 2, 5, Mode::Pop),
            Step::Enlist(0, 3, 5, Mode::Pop),
            Step::Enlist(0, 3, 7, Mode::Pop),
            Step::MayStart(3, Err(1)),
            Step::Finds(0, 5, Certain::PoppingChild(2)),
            Step::Finds(0, 6, Certain::Yes),
        ],
    )
}

#[test]
fn trees_know_nothing_of_each_other(rt: HostRuntime) -> Result<(), Fail> {
    run(
        rt.alloc(),
        &[
            Step::Enlist(3, 4, 9, Mode::Push),
            Step::Enlist(0, 5, 2, Mode::Pop),
            Step::Finds(3, 9, Certain::EarlierPusher(4)),
            Step::Finds(0, 2, Certain::PoppingChild(5)),
            Step::Finds(5, 2, Certain::Yes),
            Step::MayStart(8, Ok(())),
            Step::Back(8),
            Step::MayStart(5, Ok(())),
        ],
    )
}

/// What takes a value that may be sent to another thread and let go.
fn let_go<T: Send + Drop>(_value: T) {}

#[test]
fn turns_may_be_sent_and_let_go(rt: HostRuntime) {
    let_go(PopTurns::new(rt.alloc()));
}
