// What a Sync is told out of order: how many of the task's children ended by a fault since its last one. Worked out by hand.
use crate::runs::{Order, Row, leaves, leaves_by_workers, workers_leave};
use crate::turn::FrameTurn;
use queues::WaitFor;
use std::alloc::Global;
use std::rt::Clock;
use std::sync::Wait;
use std::test::Fail;
use std::thread::Threads;

/// The plan of the row leaves what the row says from a stack, in ten orders by chance, and by several workers. A push that
/// follows a Sync pushes what the Sync is told.
fn leaves_in_each_way<T: Threads + Wait + Clock + Sync>(
    rt: &T,
    alloc: Global,
    row: &Row<'_>,
) -> Result<(), Fail> {
    leaves(alloc, row, Order::Stack)?;
    for seed in 0..10 {
        leaves(alloc, row, Order::Chance(seed))?;
    }
    workers_leave(rt, alloc, row)
}

/// So do the plans of these rows.
fn leave_in_each_way<T: Threads + Wait + Clock + Sync>(
    rt: &T,
    alloc: Global,
    rows: &[Row<'_>],
) -> Result<(), Fail> {
    for row in rows {
        leaves_in_each_way(rt, alloc, row)?;
    }
    Ok(())
}

/// Three children, of which two fail. The first Sync is told of them, and the second one of none.
const TWO_OF_THREE: Row<'static> = Row {
    tasks: &[
        "spawn:1:5: spawn:2:5: spawn:1:5: sync push:1:9 sync push:1:9",
        "work fail:7",
        "work",
    ],
    fuel: 50,
    out: "2\n0\n",
    report: "faults 2\nfault /0 9 User 7\nfault /2 9 User 7\n",
};

/// The children end in the order of their spawns, and against it. The Sync waits for each of them, and is told of both that
/// failed in each order.
#[test]
fn the_order_of_ends_tells_nothing(rt: HostRuntime) -> Result<(), Fail> {
    let as_spawned = [
        FrameTurn::Spawns(0, 0, 1),
        FrameTurn::Runs(1, 0),
        FrameTurn::Spawns(0, 0, 2),
        FrameTurn::Ends(1, 0),
        FrameTurn::Spawns(0, 0, 3),
        FrameTurn::Waits(0, 0, WaitFor::Child(2)),
        FrameTurn::Runs(2, 0),
        FrameTurn::Ends(2, 0),
        FrameTurn::Runs(3, 0),
        FrameTurn::Waits(0, 0, WaitFor::Child(3)),
        FrameTurn::Ends(3, 0),
        FrameTurn::Runs(0, 0),
        FrameTurn::Runs(0, 0),
        FrameTurn::Runs(0, 0),
        FrameTurn::Runs(0, 0),
        FrameTurn::Ends(0, 0),
    ];
    let against = [
        FrameTurn::Spawns(0, 0, 1),
        FrameTurn::Spawns(0, 0, 2),
        FrameTurn::Spawns(0, 0, 3),
        FrameTurn::Runs(3, 0),
        FrameTurn::Ends(3, 0),
        FrameTurn::Runs(2, 0),
        FrameTurn::Ends(2, 0),
        FrameTurn::Waits(0, 0, WaitFor::Child(1)),
        FrameTurn::Runs(1, 0),
        FrameTurn::Ends(1, 0),
        FrameTurn::Runs(0, 0),
        FrameTurn::Runs(0, 0),
        FrameTurn::Runs(0, 0),
        FrameTurn::Runs(0, 0),
        FrameTurn::Ends(0, 0),
    ];
    leaves(rt.alloc(), &TWO_OF_THREE, Order::Turns(&as_spawned))?;
    leaves(rt.alloc(), &TWO_OF_THREE, Order::Turns(&against))?;
    leaves_in_each_way(&rt, rt.alloc(), &TWO_OF_THREE)
}

/// A plan with 256 workers, the most that there may be.
#[test]
fn the_most_workers_leave_the_same(rt: HostRuntime) -> Result<(), Fail> {
    leaves_by_workers(&rt, rt.alloc(), &TWO_OF_THREE, 256)
}

#[test]
fn a_sync_is_told_of_the_children_since_the_last_one(rt: HostRuntime) -> Result<(), Fail> {
    leave_in_each_way(
        &rt,
        rt.alloc(),
        &[
            // no child at all
            Row {
                tasks: &["sync push:1:9"],
                fuel: 9,
                out: "0\n",
                report: "faults 0\n",
            },
            // one, then two more, and then one that ends well
            Row {
                tasks: &[
                    "spawn:1:5: sync push:1:9 spawn:1:5: spawn:1:5: sync push:1:9 spawn:2:5: sync push:1:9",
                    "fail:1",
                    "work",
                ],
                fuel: 99,
                out: "1\n2\n0\n",
                report: "faults 3\nfault /0 11 User 1\nfault /1 11 User 1\nfault /2 11 User 1\n",
            },
            // fuel that ends at the Sync, and at the push after it
            Row {
                tasks: &["spawn:1:1: sync push:1:9", "fail:1"],
                fuel: 2,
                out: "",
                report: "faults 2\nfault /0 4 User 1\nfault / 1 Fuel\n",
            },
            Row {
                tasks: &["spawn:1:1: sync push:1:9", "fail:1"],
                fuel: 3,
                out: "",
                report: "faults 2\nfault /0 4 User 1\nfault / 2 Fuel\n",
            },
            // a child that is told of its own children, and fails then
            Row {
                tasks: &[
                    "spawn:1:20:1.push sync push:1:9",
                    "spawn:2:5: spawn:3:5: sync push:0:9 fail:4",
                    "fail:1",
                    "work work work",
                ],
                fuel: 99,
                out: "1\n1\n",
                report: "faults 2\nfault /0/0 10 User 1\nfault /0 8 User 4\n",
            },
        ],
    )
}

/// The root's children end well, and theirs fail.
#[test]
fn children_of_children_do_not_count(rt: HostRuntime) -> Result<(), Fail> {
    leave_in_each_way(
        &rt,
        rt.alloc(),
        &[Row {
            tasks: &[
                "spawn:1:30: spawn:1:30: sync push:1:9",
                "spawn:2:10: spawn:2:10: sync work",
                "work fail:3",
            ],
            fuel: 99,
            out: "0\n",
            report: "faults 4\nfault /0/0 11 User 3\nfault /0/1 11 User 3\nfault /1/0 11 User 3\nfault /1/1 11 User 3\n",
        }],
    )
}

/// A child without fuel for its work, one that may not read, one that finds no item, one that gives one place twice, one that
/// can't pay for its child, two that can't go on, one that ends well, and three more that can't go on.
#[test]
fn each_kind_of_fault_counts(rt: HostRuntime) -> Result<(), Fail> {
    leave_in_each_way(
        &rt,
        rt.alloc(),
        &[Row {
            tasks: &[
                "spawn:1:1: spawn:2:5: spawn:3:5:0.pop spawn:4:5:2.inout spawn:5:5: spawn:6:5: spawn:7:5: spawn:8:5: spawn:9:5: spawn:10:5: spawn:11:5: sync push:1:9",
                "work work",
                "read:0",
                "pop:0 pop:0 pop:0",
                "spawn:8:1:0.in,0.out",
                "spawn:8:9:",
                "overflow",
                "divide",
                "work",
                "range",
                "long",
                "number",
            ],
            fuel: 99,
            out: "10\n",
            report: "faults 10\nfault /0 15 Fuel\nfault /1 17 Privilege\nfault /2 21 PopEmpty\nfault /3 23 Alias\nfault /4 25 Fuel\nfault /5 27 Overflow\nfault /6 29 DivideByZero\nfault /8 33 Range\nfault /9 35 TooLong\nfault /10 37 BadNumber\n",
        }],
    )
}

/// Adds the words of 1,000 spawns, of children that fail and of children that end well in turn.
fn push_1000_spawns(words: &mut String) -> Result<(), Fail> {
    for _ in 0..500 {
        words.push_str("spawn:1:1: spawn:2:1: ")?;
    }
    Ok(())
}

/// The words of a task with 1,000 children, of which the half fail.
fn words_of_1000_children(alloc: Global) -> Result<String, Fail> {
    let mut words = String::new(alloc);
    push_1000_spawns(&mut words)?;
    words.push_str("sync push:1:9")?;
    Ok(words)
}

#[test]
fn a_thousand_children_are_counted(rt: HostRuntime) -> Result<(), Fail> {
    let words = words_of_1000_children(rt.alloc())?;
    leave_in_each_way(
        &rt,
        rt.alloc(),
        &[Row {
            tasks: &[words.as_str(), "fail:1", ""],
            fuel: 5_000,
            out: "500\n",
            report: "fault /998 1003 User 1\n",
        }],
    )
}
