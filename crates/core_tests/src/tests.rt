// Tables of turns, with what they come to and what is left worked out by hand.
use crate::runs::{Order, Row, leaves, stops, stops_at_each_ask};
use crate::turn::FrameTurn;
use queues::WaitFor;
use std::alloc::Global;
use std::test::Fail;

/// What is left of the roots where nothing was done to them, and no fault.
const UNTOUCHED: &str = "object count int 7\nobject name bytes ab0c\nleft jobs 2\nfaults 0\n";

/// A row that leaves the roots as they were.
fn untouched<'a>(tasks: &'a [&'a str]) -> Row<'a> {
    Row {
        tasks,
        fuel: 50,
        out: "",
        report: UNTOUCHED,
    }
}

/// Each of these plans, with its fuel, leaves no output and a report that ends so, by the turns and from a stack.
fn all_end_so(alloc: Global, rows: &[(&str, u64, &str)], turns: &[FrameTurn]) -> Result<(), Fail> {
    for (root, fuel, report) in rows {
        let row = Row {
            tasks: &[*root, ""],
            fuel: *fuel,
            out: "",
            report: *report,
        };
        leaves(alloc, &row, Order::Turns(turns))?;
        leaves(alloc, &row, Order::Stack)?;
    }
    Ok(())
}

#[test]
fn each_ask_is_answered(rt: HostRuntime) -> Result<(), Fail> {
    let row = Row {
        tasks: &[
            "pop:0 push:1:0 empty:0 push:1:0 read:2 push:1:0 queue push:1:0 object:5 push:1:0 write:2:-3 work sync push:1:99",
        ],
        fuel: 100,
        out: "10\n0\n7\n4\n5\n0\n",
        report: "object count int -3\nobject name bytes ab0c\nleft jobs 1\nfaults 0\n",
    };
    let turns = [
        FrameTurn::Runs(0, 0),
        FrameTurn::Runs(0, 0),
        FrameTurn::Runs(0, 0),
        FrameTurn::Runs(0, 0),
        FrameTurn::Runs(0, 0),
        FrameTurn::Runs(0, 0),
        FrameTurn::Runs(0, 0),
        FrameTurn::Runs(0, 0),
        FrameTurn::Runs(0, 0),
        FrameTurn::Runs(0, 0),
        FrameTurn::Runs(0, 0),
        FrameTurn::Runs(0, 1),
        FrameTurn::Runs(0, 0),
        FrameTurn::Ends(0, 0),
    ];
    leaves(rt.alloc(), &row, Order::Turns(&turns))?;
    leaves(rt.alloc(), &row, Order::Stack)
}

#[test]
fn a_sync_waits_for_a_child(rt: HostRuntime) -> Result<(), Fail> {
    let row = Row {
        tasks: &["spawn:1:10: sync push:1:1", "work work"],
        fuel: 50,
        out: "0\n",
        report: UNTOUCHED,
    };
    let parent_first = [
        FrameTurn::Spawns(0, 0, 1),
        FrameTurn::Waits(0, 0, WaitFor::Child(1)),
        FrameTurn::Runs(1, 0),
        FrameTurn::Works(1, 1),
        FrameTurn::Waits(0, 0, WaitFor::Child(1)),
        FrameTurn::Ends(1, 0),
        FrameTurn::Runs(0, 0),
        FrameTurn::Runs(0, 0),
        FrameTurn::Ends(0, 0),
    ];
    let child_first = [
        FrameTurn::Spawns(0, 0, 1),
        FrameTurn::Runs(1, 0),
        FrameTurn::Ends(1, 1),
        FrameTurn::Runs(0, 0),
        FrameTurn::Runs(0, 0),
        FrameTurn::Ends(0, 0),
    ];
    leaves(rt.alloc(), &row, Order::Turns(&parent_first))?;
    leaves(rt.alloc(), &row, Order::Turns(&child_first))?;
    leaves(rt.alloc(), &row, Order::Stack)
}

#[test]
fn the_oldest_child_is_waited_for(rt: HostRuntime) -> Result<(), Fail> {
    let row = untouched(&["spawn:1:5: spawn:1:5: sync", ""]);
    let younger_first = [
        FrameTurn::Spawns(0, 0, 1),
        FrameTurn::Spawns(0, 0, 2),
        FrameTurn::Waits(0, 0, WaitFor::Child(1)),
        FrameTurn::Ends(2, 0),
        FrameTurn::Waits(0, 0, WaitFor::Child(1)),
        FrameTurn::Ends(1, 0),
        FrameTurn::Runs(0, 0),
        FrameTurn::Ends(0, 0),
    ];
    let older_first = [
        FrameTurn::Spawns(0, 0, 1),
        FrameTurn::Spawns(0, 0, 2),
        FrameTurn::Ends(1, 0),
        FrameTurn::Waits(0, 0, WaitFor::Child(2)),
        FrameTurn::Ends(2, 0),
        FrameTurn::Runs(0, 0),
        FrameTurn::Ends(0, 0),
    ];
    leaves(rt.alloc(), &row, Order::Turns(&younger_first))?;
    leaves(rt.alloc(), &row, Order::Turns(&older_first))
}

#[test]
fn each_end_waits_for_a_child(rt: HostRuntime) -> Result<(), Fail> {
    all_end_so(
        rt.alloc(),
        &[
            ("spawn:1:5:", 50, "faults 0\n"),
            ("spawn:1:5: fail:3", 50, "faults 1\nfault / 1 User 3\n"),
            ("spawn:1:5: work", 6, "faults 1\nfault / 1 Fuel\n"),
            ("spawn:1:5: push:0:1", 50, "faults 1\nfault / 1 Privilege\n"),
            (
                "spawn:1:5: spawn:1:5:1.push,1.push",
                50,
                "faults 1\nfault / 1 Alias\n",
            ),
            ("spawn:1:5: spawn:1:50:", 50, "faults 1\nfault / 1 Fuel\n"),
        ],
        &[
            FrameTurn::Spawns(0, 0, 1),
            FrameTurn::Waits(0, 0, WaitFor::Child(1)),
            FrameTurn::Ends(1, 0),
            FrameTurn::Ends(0, 0),
        ],
    )
}

#[test]
fn a_pop_of_an_empty_queue_waits_for_a_child(rt: HostRuntime) -> Result<(), Fail> {
    all_end_so(
        rt.alloc(),
        &[(
            "pop:0 pop:0 spawn:1:5: pop:0",
            50,
            "left jobs 0\nfaults 1\nfault / 3 PopEmpty\n",
        )],
        &[
            FrameTurn::Runs(0, 0),
            FrameTurn::Runs(0, 0),
            FrameTurn::Spawns(0, 0, 1),
            FrameTurn::Waits(0, 0, WaitFor::Child(1)),
            FrameTurn::Ends(1, 0),
            FrameTurn::Ends(0, 0),
        ],
    )
}

#[test]
fn each_fault_at_the_first_step_ends_the_root(rt: HostRuntime) -> Result<(), Fail> {
    all_end_so(
        rt.alloc(),
        &[
            ("work", 0, "faults 1\nfault / 0 Fuel\n"),
            ("spawn:1:50:", 50, "faults 1\nfault / 0 Fuel\n"),
            ("spawn:1:5:1.push,1.push", 50, "faults 1\nfault / 0 Alias\n"),
            ("spawn:1:5:2.in,2.out", 50, "faults 1\nfault / 0 Alias\n"),
            ("spawn:1:5:2.in,2.in,1.pop", 50, "fault / 0 Privilege\n"),
            ("fail:-5", 50, "faults 1\nfault / 0 User -5\n"),
            ("overflow", 50, "faults 1\nfault / 0 Overflow\n"),
            ("divide", 50, "faults 1\nfault / 0 DivideByZero\n"),
            ("range", 50, "faults 1\nfault / 0 Range\n"),
            ("long", 50, "faults 1\nfault / 0 TooLong\n"),
            ("number", 50, "faults 1\nfault / 0 BadNumber\n"),
        ],
        &[FrameTurn::Ends(0, 0)],
    )
}

/// Asks of a root without the right for them.
const WITHOUT_RIGHT: &str = "\
push:0:1
push:2:1
pop:1
pop:2
empty:1
empty:9
read:0
read:9
write:1:1
write:9:1
spawn:1:5:1.pop
spawn:1:5:0.push
spawn:1:5:0.pushpop
spawn:1:5:0.in
spawn:1:5:2.push
spawn:1:5:9.in";

/// A root that asks this ends at once, by a fault.
fn needs_its_right(alloc: Global, ask: &str) -> Result<(), Fail> {
    all_end_so(
        alloc,
        &[(ask, 50, "faults 1\nfault / 0 Privilege\n")],
        &[FrameTurn::Ends(0, 0)],
    )
}

#[test]
fn each_ask_needs_its_right(rt: HostRuntime) -> Result<(), Fail> {
    for ask in WITHOUT_RIGHT.lines() {
        needs_its_right(rt.alloc(), ask)?;
    }
    Ok(())
}

#[test]
fn a_later_fault_ends_the_root(rt: HostRuntime) -> Result<(), Fail> {
    all_end_so(
        rt.alloc(),
        &[
            ("work work", 1, "faults 1\nfault / 1 Fuel\n"),
            ("write:2:7 read:0", 9, "faults 1\nfault / 1 Privilege\n"),
            ("sync fail:2", 9, "faults 1\nfault / 1 User 2\n"),
        ],
        &[FrameTurn::Runs(0, 0), FrameTurn::Ends(0, 0)],
    )
}

#[test]
fn a_frame_works_by_itself_until_its_fuel_ends(rt: HostRuntime) -> Result<(), Fail> {
    all_end_so(
        rt.alloc(),
        &[("work work work work work", 4, "faults 1\nfault / 4 Fuel\n")],
        &[
            FrameTurn::Runs(0, 0),
            FrameTurn::Works(0, 2),
            FrameTurn::Ends(0, 1),
        ],
    )
}

#[test]
fn faults_are_in_serial_order_whenever_they_come(rt: HostRuntime) -> Result<(), Fail> {
    let row = Row {
        tasks: &[
            "spawn:1:20: spawn:2:5: fail:1",
            "spawn:2:5: overflow",
            "fail:2",
        ],
        fuel: 50,
        out: "",
        report: "faults 4\nfault /0/0 7 User 2\nfault /0 5 Overflow\nfault /1 7 User 2\nfault / 2 User 1\n",
    };
    let turns = [
        FrameTurn::Spawns(0, 0, 1),
        FrameTurn::Spawns(0, 0, 2),
        FrameTurn::Ends(2, 0),
        FrameTurn::Spawns(1, 0, 3),
        FrameTurn::Waits(1, 0, WaitFor::Child(3)),
        FrameTurn::Ends(3, 0),
        FrameTurn::Ends(1, 0),
        FrameTurn::Ends(0, 0),
    ];
    leaves(rt.alloc(), &row, Order::Turns(&turns))?;
    leaves(rt.alloc(), &row, Order::Stack)
}

#[test]
fn a_version_is_waited_for_at_a_read_and_at_the_start(rt: HostRuntime) -> Result<(), Fail> {
    let row = Row {
        tasks: &[
            "spawn:1:9:2.out spawn:2:9:2.in,1.push read:2 push:1:0",
            "write:0:9",
            "read:0 push:1:0",
        ],
        fuel: 50,
        out: "9\n9\n",
        report: "object count int 9\nobject name bytes ab0c\nleft jobs 2\nfaults 0\n",
    };
    let turns = [
        FrameTurn::Spawns(0, 0, 1),
        FrameTurn::Spawns(0, 0, 2),
        FrameTurn::Waits(0, 0, WaitFor::Version(1)),
        FrameTurn::Waits(2, 0, WaitFor::Version(1)),
        FrameTurn::Runs(1, 0),
        FrameTurn::Waits(2, 0, WaitFor::Version(1)),
        FrameTurn::Ends(1, 0),
        FrameTurn::Runs(0, 0),
        FrameTurn::Runs(2, 0),
        FrameTurn::Runs(0, 0),
        FrameTurn::Runs(2, 0),
        FrameTurn::Waits(0, 0, WaitFor::Child(2)),
        FrameTurn::Ends(2, 0),
        FrameTurn::Ends(0, 0),
    ];
    leaves(rt.alloc(), &row, Order::Turns(&turns))?;
    leaves(rt.alloc(), &row, Order::Stack)
}

#[test]
fn each_of_a_chain_waits_for_the_one_before(rt: HostRuntime) -> Result<(), Fail> {
    let row = Row {
        tasks: &[
            "spawn:1:9:2.inout spawn:1:9:2.inout spawn:1:9:2.inout",
            "read:0 write:0:8",
        ],
        fuel: 50,
        out: "",
        report: "object count int 8\nobject name bytes ab0c\nleft jobs 2\nfaults 0\n",
    };
    let turns = [
        FrameTurn::Spawns(0, 0, 1),
        FrameTurn::Spawns(0, 0, 2),
        FrameTurn::Spawns(0, 0, 3),
        FrameTurn::Waits(3, 0, WaitFor::Version(2)),
        FrameTurn::Waits(2, 0, WaitFor::Version(1)),
        FrameTurn::Runs(1, 0),
        FrameTurn::Runs(1, 0),
        FrameTurn::Ends(1, 0),
        FrameTurn::Waits(3, 0, WaitFor::Version(2)),
        FrameTurn::Runs(2, 0),
        FrameTurn::Runs(2, 0),
        FrameTurn::Ends(2, 0),
        FrameTurn::Runs(3, 0),
        FrameTurn::Runs(3, 0),
        FrameTurn::Ends(3, 0),
        FrameTurn::Ends(0, 0),
    ];
    leaves(rt.alloc(), &row, Order::Turns(&turns))
}

#[test]
fn a_turn_to_pop_is_waited_for_at_the_start_and_at_a_pop(rt: HostRuntime) -> Result<(), Fail> {
    let row = Row {
        tasks: &[
            "spawn:1:9:0.pop,1.push spawn:1:9:0.pop,1.push pop:0",
            "pop:0 push:1:0",
        ],
        fuel: 50,
        out: "10\n20\n",
        report: "left jobs 0\nfaults 1\nfault / 2 PopEmpty\n",
    };
    let turns = [
        FrameTurn::Spawns(0, 0, 1),
        FrameTurn::Spawns(0, 0, 2),
        FrameTurn::Waits(2, 0, WaitFor::PopTurn(1)),
        FrameTurn::Runs(1, 0),
        FrameTurn::Runs(1, 0),
        FrameTurn::Waits(2, 0, WaitFor::PopTurn(1)),
        FrameTurn::Ends(1, 0),
        FrameTurn::Waits(0, 0, WaitFor::PopTurn(2)),
        FrameTurn::Runs(2, 0),
        FrameTurn::Runs(2, 0),
        FrameTurn::Ends(2, 0),
        FrameTurn::Ends(0, 0),
    ];
    leaves(rt.alloc(), &row, Order::Turns(&turns))?;
    leaves(rt.alloc(), &row, Order::Stack)
}

#[test]
fn a_version_is_waited_for_before_a_turn_to_pop(rt: HostRuntime) -> Result<(), Fail> {
    let row = Row {
        tasks: &[
            "spawn:1:9:2.out spawn:2:9:0.pop spawn:3:9:0.pop,2.in",
            "write:0:3",
            "pop:0",
            "pop:0",
        ],
        fuel: 50,
        out: "",
        report: "object count int 3\nobject name bytes ab0c\nleft jobs 0\nfaults 0\n",
    };
    let turns = [
        FrameTurn::Spawns(0, 0, 1),
        FrameTurn::Spawns(0, 0, 2),
        FrameTurn::Spawns(0, 0, 3),
        FrameTurn::Waits(3, 0, WaitFor::Version(1)),
        FrameTurn::Runs(1, 0),
        FrameTurn::Ends(1, 0),
        FrameTurn::Waits(3, 0, WaitFor::PopTurn(2)),
        FrameTurn::Runs(2, 0),
        FrameTurn::Ends(2, 0),
        FrameTurn::Runs(3, 0),
        FrameTurn::Ends(3, 0),
        FrameTurn::Ends(0, 0),
    ];
    leaves(rt.alloc(), &row, Order::Turns(&turns))
}

#[test]
fn a_pop_and_a_test_wait_for_a_pusher(rt: HostRuntime) -> Result<(), Fail> {
    let row = Row {
        tasks: &[
            "queue spawn:1:9:4.push spawn:2:9:4.pop,1.push",
            "push:0:5 push:0:6",
            "pop:0 push:1:0 pop:0 push:1:0 empty:0 push:1:0",
        ],
        fuel: 50,
        out: "5\n6\n1\n",
        report: UNTOUCHED,
    };
    let turns = [
        FrameTurn::Runs(0, 0),
        FrameTurn::Spawns(0, 0, 1),
        FrameTurn::Spawns(0, 0, 2),
        FrameTurn::Waits(2, 0, WaitFor::Pusher(1)),
        FrameTurn::Runs(1, 0),
        FrameTurn::Runs(2, 0),
        FrameTurn::Runs(2, 0),
        FrameTurn::Waits(2, 0, WaitFor::Pusher(1)),
        FrameTurn::Runs(1, 0),
        FrameTurn::Runs(2, 0),
        FrameTurn::Runs(2, 0),
        FrameTurn::Waits(2, 0, WaitFor::Pusher(1)),
        FrameTurn::Ends(1, 0),
        FrameTurn::Runs(2, 0),
        FrameTurn::Runs(2, 0),
        FrameTurn::Ends(2, 0),
        FrameTurn::Ends(0, 0),
    ];
    leaves(rt.alloc(), &row, Order::Turns(&turns))?;
    leaves(rt.alloc(), &row, Order::Stack)
}

#[test]
fn a_pop_that_finds_nothing_waits_for_a_pusher(rt: HostRuntime) -> Result<(), Fail> {
    let row = Row {
        tasks: &["queue spawn:1:9:4.push pop:4", "work"],
        fuel: 50,
        out: "",
        report: "left jobs 2\nfaults 1\nfault / 2 PopEmpty\n",
    };
    let turns = [
        FrameTurn::Runs(0, 0),
        FrameTurn::Spawns(0, 0, 1),
        FrameTurn::Waits(0, 0, WaitFor::Pusher(1)),
        FrameTurn::Runs(1, 0),
        FrameTurn::Ends(1, 0),
        FrameTurn::Ends(0, 0),
    ];
    leaves(rt.alloc(), &row, Order::Turns(&turns))
}

/// A plan whose root gives objects and queues by each mode.
fn each_mode<'a>() -> Row<'a> {
    Row {
        tasks: &[
            "queue spawn:1:50:0.pop,1.push,2.in,3.out,4.pushpop spawn:2:20:2.inout,4.pop,1.push read:2 push:1:0 read:3",
            "pop:0 push:1:0 read:2 push:1:0 write:3:4 push:4:6 push:4:7 pop:4 push:1:0",
            "pop:1 push:2:0 read:0 push:2:0 write:0:3",
        ],
        fuel: 100,
        out: "10\n7\n6\n7\n7\n3\n",
        report: "object count int 3\nobject name int 4\nleft jobs 1\nfaults 0\n",
    }
}

#[test]
fn a_child_uses_what_it_was_given_by_each_mode(rt: HostRuntime) -> Result<(), Fail> {
    let turns = [
        FrameTurn::Runs(0, 0),
        FrameTurn::Spawns(0, 0, 1),
        FrameTurn::Spawns(0, 0, 2),
        FrameTurn::Waits(0, 0, WaitFor::Version(2)),
        FrameTurn::Waits(2, 0, WaitFor::PopTurn(1)),
        FrameTurn::Runs(1, 0),
        FrameTurn::Runs(1, 0),
        FrameTurn::Runs(1, 0),
        FrameTurn::Runs(1, 0),
        FrameTurn::Runs(1, 0),
        FrameTurn::Runs(1, 0),
        FrameTurn::Runs(1, 0),
        FrameTurn::Runs(1, 0),
        FrameTurn::Runs(1, 0),
        FrameTurn::Ends(1, 0),
        FrameTurn::Runs(2, 0),
        FrameTurn::Runs(2, 0),
        FrameTurn::Runs(2, 0),
        FrameTurn::Runs(2, 0),
        FrameTurn::Runs(2, 0),
        FrameTurn::Ends(2, 0),
        FrameTurn::Runs(0, 0),
        FrameTurn::Runs(0, 0),
        FrameTurn::Runs(0, 0),
        FrameTurn::Ends(0, 0),
    ];
    leaves(rt.alloc(), &each_mode(), Order::Turns(&turns))?;
    leaves(rt.alloc(), &each_mode(), Order::Stack)
}

/// Asks of a child that was given an object to read, a queue to pop from and one to push to.
const BEYOND_GIVEN: &str = "\
write:0:1
pop:0
push:1:1
read:2
empty:3
spawn:1:1:0.out
spawn:1:1:1.pushpop
spawn:1:1:3.pop";

/// Such a child that asks this ends at once, by a fault.
fn is_beyond_given(alloc: Global, ask: &str) -> Result<(), Fail> {
    let row = Row {
        tasks: &["spawn:1:9:2.in,0.pop,1.push", ask],
        fuel: 50,
        out: "",
        report: "left jobs 2\nfaults 1\nfault /0 2 Privilege\n",
    };
    let turns = [
        FrameTurn::Spawns(0, 0, 1),
        FrameTurn::Ends(1, 0),
        FrameTurn::Ends(0, 0),
    ];
    leaves(alloc, &row, Order::Turns(&turns))
}

#[test]
fn a_child_uses_nothing_beyond_what_it_was_given(rt: HostRuntime) -> Result<(), Fail> {
    for ask in BEYOND_GIVEN.lines() {
        is_beyond_given(rt.alloc(), ask)?;
    }
    Ok(())
}

/// The ask for a child that is this task, with so much fuel.
fn spawn_word(alloc: Global, task: u64, fuel: u64) -> Result<String, Fail> {
    let word = format!(in alloc; "spawn:{task}")?;
    Ok(format!(in alloc; "{word}:{fuel}:")?)
}

/// The tasks of a chain: each spawns the next one, but the last. So the task at depth 64 spawns too.
fn chain(alloc: Global) -> Result<Vec<String>, Fail> {
    let mut tasks = Vec::new(alloc);
    for depth in 0..65_u64 {
        tasks.push(spawn_word(alloc, depth + 1, 900 - 10 * depth)?)?;
    }
    tasks.push(String::new(alloc))?;
    Ok(tasks)
}

/// The turns of a chain. Where the parents are tried too, each has to wait for its child.
fn turns_of_chain(alloc: Global, are_tried: bool) -> Result<Vec<FrameTurn>, Fail> {
    let mut turns = Vec::new(alloc);
    for frame in 0..64_u64 {
        turns.push(FrameTurn::Spawns(frame, 0, frame + 1))?;
        if are_tried {
            turns.push(FrameTurn::Waits(frame, 0, WaitFor::Child(frame + 1)))?;
        }
    }
    for frame in 0..65_u64 {
        turns.push(FrameTurn::Ends(64 - frame, 0))?;
    }
    Ok(turns)
}

/// The end of the report of a chain.
fn report_of_chain(alloc: Global) -> Result<String, Fail> {
    let mut report = String::new(alloc);
    report.push_str("left jobs 2\nfaults 1\nfault ")?;
    for _ in 0..64 {
        report.push_str("/0")?;
    }
    report.push_str(" 128 Depth\n")?;
    Ok(report)
}

/// The tasks of a chain, whose texts are these.
fn tasks_of_chain(alloc: Global, texts: &[String]) -> Result<Vec<&str>, Fail> {
    let mut tasks = Vec::new(alloc);
    for text in texts {
        tasks.push(text.as_str())?;
    }
    Ok(tasks)
}

/// Runs of a chain of these tasks leave this, by turns and from a stack.
fn chain_leaves(alloc: Global, tasks: &[&str], report: &str) -> Result<(), Fail> {
    let row = Row {
        tasks,
        fuel: 1_000,
        out: "",
        report,
    };
    for are_tried in [false, true] {
        let turns = turns_of_chain(alloc, are_tried)?;
        leaves(alloc, &row, Order::Turns(turns.as_slice()))?;
    }
    leaves(alloc, &row, Order::Stack)
}

/// Runs of a chain of these tasks end with a fault of the task at depth 64.
fn tasks_leave(alloc: Global, tasks: &[&str]) -> Result<(), Fail> {
    let report = report_of_chain(alloc)?;
    chain_leaves(alloc, tasks, report.as_str())
}

/// The same of tasks whose texts are these.
fn texts_leave(alloc: Global, texts: &[String]) -> Result<(), Fail> {
    let tasks = tasks_of_chain(alloc, texts)?;
    tasks_leave(alloc, tasks.as_slice())
}

#[test]
fn a_frame_at_depth_64_spawns_nothing(rt: HostRuntime) -> Result<(), Fail> {
    let texts = chain(rt.alloc())?;
    texts_leave(rt.alloc(), texts.as_slice())
}

#[test]
fn after_want_of_memory_at_the_core_nothing_goes_on(rt: HostRuntime) -> Result<(), Fail> {
    let tasks = ["spawn:1:9: spawn:2:9: work", "work", "work work work"];
    let turns = [
        FrameTurn::Spawns(0, 0, 1),
        FrameTurn::Spawns(0, 0, 2),
        FrameTurn::Runs(2, 0),
        FrameTurn::NoMemory(1, 0),
        FrameTurn::NoMemory(2, 2),
        FrameTurn::NoMemory(0, 1),
    ];
    stops(rt.alloc(), &tasks, 50, 4, Order::Turns(&turns))
}

#[test]
fn after_want_of_memory_of_a_frame_the_others_go_on(rt: HostRuntime) -> Result<(), Fail> {
    let tasks = ["spawn:1:9: spawn:2:9: sync", "work", "work work work"];
    let turns = [
        FrameTurn::Spawns(0, 0, 1),
        FrameTurn::Spawns(0, 0, 2),
        FrameTurn::Runs(2, 0),
        FrameTurn::Torn(2),
        FrameTurn::Waits(0, 0, WaitFor::Child(1)),
        FrameTurn::Runs(1, 0),
        FrameTurn::Ends(1, 0),
        FrameTurn::Waits(0, 0, WaitFor::Child(2)),
    ];
    stops(rt.alloc(), &tasks, 50, 8, Order::Turns(&turns))
}

/// Each task of the plan comes to its end, so each ask is met.
#[test]
fn want_of_memory_at_any_ask_stops_a_run(rt: HostRuntime) -> Result<(), Fail> {
    stops_at_each_ask(rt.alloc(), &each_mode(), Order::Stack)?;
    for seed in 0..10 {
        stops_at_each_ask(rt.alloc(), &each_mode(), Order::Chance(seed))?;
    }
    Ok(())
}
