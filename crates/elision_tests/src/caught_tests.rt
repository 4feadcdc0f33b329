// What a Sync is told: how many of the task's children ended by a fault since its last one. Worked out by hand.
use crate::rows::leaves;
use std::alloc::Global;
use std::process::Abort;
use std::test::Fail;

/// Asks in words, the fuel, the output, and the end of the report. A push that follows a Sync pushes what the Sync is told.
#[derive(Drop)]
struct Row<'a> {
    words: &'a str,
    fuel: u64,
    out: &'a str,
    report: &'a str,
}

/// Asserts that the asks of a row leave what it says.
fn hold(rt: &impl Abort, alloc: Global, row: &Row) -> Result<(), Fail> {
    let words = row.words;
    assert!(rt;
        leaves(alloc, words, row.fuel, row.out.as_bytes(), row.report)?,
        "{words}"
    );
    Ok(())
}

/// Asserts that those of each row do.
fn run(rt: &impl Abort, alloc: Global, rows: &[Row]) -> Result<(), Fail> {
    for row in rows {
        hold(rt, alloc, row)?;
    }
    Ok(())
}

/// Children begin at the last asks of the list, and each has its fuel.
#[test]
fn a_sync_is_told_of_the_children_since_the_last_one(rt: HostRuntime) -> Result<(), Fail> {
    run(
        &rt,
        rt.alloc(),
        &[
            // no child at all
            Row {
                words: "sync push:1:9",
                fuel: 9,
                out: "0\n",
                report: "faults 0\n",
            },
            // a child's fault is told to nobody before a Sync
            Row {
                words: "spawn:3:1: push:1:9 finish fail:1",
                fuel: 9,
                out: "9\n",
                report: "faults 1\nfault /0 3 User 1\n",
            },
            // two of three, and then none
            Row {
                words: "spawn:8:1: spawn:9:1: spawn:8:1: sync push:1:9 sync push:1:9 finish fail:1",
                fuel: 99,
                out: "2\n0\n",
                report: "faults 2\nfault /0 8 User 1\nfault /2 8 User 1\n",
            },
            // one, and then two more
            Row {
                words: "spawn:8:1: sync push:1:9 spawn:8:1: spawn:8:1: sync push:1:9 finish fail:1",
                fuel: 99,
                out: "1\n2\n",
                report: "faults 3\nfault /0 8 User 1\nfault /1 8 User 1\nfault /2 8 User 1\n",
            },
            // children that end well
            Row {
                words: "spawn:4:1: spawn:4:1: sync push:1:9 finish",
                fuel: 99,
                out: "0\n",
                report: "faults 0\n",
            },
        ],
    )
}

/// A child that has no fuel, that may not read, that finds no item, that gives one place twice, that can't pay for its child, and
/// that can't go on.
#[test]
fn each_kind_of_fault_counts(rt: HostRuntime) -> Result<(), Fail> {
    run(
        &rt,
        rt.alloc(),
        &[
            Row {
                words: "spawn:4:0: sync push:1:9 finish work",
                fuel: 9,
                out: "1\n",
                report: "faults 1\nfault /0 4 Fuel\n",
            },
            Row {
                words: "spawn:4:1: sync push:1:9 finish read:0",
                fuel: 9,
                out: "1\n",
                report: "faults 1\nfault /0 4 Privilege\n",
            },
            Row {
                words: "spawn:4:3:0.pop sync push:1:9 finish pop:0 pop:0 pop:0",
                fuel: 9,
                out: "1\n",
                report: "faults 1\nfault /0 6 PopEmpty\n",
            },
            Row {
                words: "spawn:4:3:1.push sync push:1:9 finish spawn:3:1:0.push,0.push",
                fuel: 9,
                out: "1\n",
                report: "faults 1\nfault /0 4 Alias\n",
            },
            Row {
                words: "spawn:4:3: sync push:1:9 finish spawn:3:3:",
                fuel: 9,
                out: "1\n",
                report: "faults 1\nfault /0 4 Fuel\n",
            },
            Row {
                words: "spawn:8:1: spawn:9:1: spawn:10:1: spawn:11:1: spawn:12:1: sync push:1:9 finish overflow divide range long number",
                fuel: 20,
                out: "5\n",
                report: "faults 5\nfault /0 8 Overflow\nfault /1 9 DivideByZero\nfault /2 10 Range\nfault /3 11 TooLong\nfault /4 12 BadNumber\n",
            },
        ],
    )
}

/// A child ends well though its own child fails. A child that is told of its child may end well too, and may fail.
#[test]
fn children_of_children_do_not_count(rt: HostRuntime) -> Result<(), Fail> {
    run(
        &rt,
        rt.alloc(),
        &[
            Row {
                words: "spawn:4:3: sync push:1:9 finish spawn:6:1: finish fail:1",
                fuel: 9,
                out: "0\n",
                report: "faults 1\nfault /0/0 6 User 1\n",
            },
            Row {
                words: "spawn:4:9:1.push sync push:1:9 finish spawn:8:1: spawn:8:1: sync push:0:9 fail:1",
                fuel: 99,
                out: "2\n1\n",
                report: "faults 3\nfault /0/0 8 User 1\nfault /0/1 8 User 1\nfault /0 8 User 1\n",
            },
        ],
    )
}

/// A Sync without fuel is a fault, and is told nothing. With one unit it is told; with two it can be pushed.
#[test]
fn fuel_ends_at_a_sync(rt: HostRuntime) -> Result<(), Fail> {
    let words = "spawn:3:1: sync push:1:9 fail:1";
    run(
        &rt,
        rt.alloc(),
        &[
            Row {
                words,
                fuel: 2,
                out: "",
                report: "faults 2\nfault /0 3 User 1\nfault / 1 Fuel\n",
            },
            Row {
                words,
                fuel: 3,
                out: "",
                report: "faults 2\nfault /0 3 User 1\nfault / 2 Fuel\n",
            },
            Row {
                words,
                fuel: 4,
                out: "1\n",
                report: "faults 2\nfault /0 3 User 1\nfault / 3 Fuel\n",
            },
        ],
    )
}

/// Adds the words of 1,000 spawns, of children that fail and of children that end well in turn.
fn push_1000_spawns(words: &mut String) -> Result<(), Fail> {
    for _ in 0..500 {
        words.push_str("spawn:1003:1: spawn:1004:1: ")?;
    }
    Ok(())
}

/// The words of a task with 1,000 children, of which the half fail.
fn words_of_1000_children(alloc: Global) -> Result<String, Fail> {
    let mut words = String::new(alloc);
    push_1000_spawns(&mut words)?;
    words.push_str("sync push:1:9 finish fail:1")?;
    Ok(words)
}

#[test]
fn a_thousand_children_are_counted(rt: HostRuntime) -> Result<(), Fail> {
    let words = words_of_1000_children(rt.alloc())?;
    hold(
        &rt,
        rt.alloc(),
        &Row {
            words: words.as_str(),
            fuel: 5_000,
            out: "500\n",
            report: "fault /998 1003 User 1\n",
        },
    )
}

/// Adds the words of 64 tasks of which each spawns the next, waits for it, and pushes what it is told; and of a spawn by the last.
fn push_64_levels(alloc: Global, words: &mut String) -> Result<(), Fail> {
    for depth in 0..64_u64 {
        let place = if depth == 0 { 1 } else { 0 };
        let child = 4 * (depth + 1);
        let fuel = 900 - 10 * depth;
        let task = format!(in alloc;
            "spawn:{child}:{fuel}:{place}.push sync push:{place}:9 finish "
        )?;
        words.push_str(task.as_str())?;
    }
    Ok(words.push_str("spawn:0:1:")?)
}

/// The words of these tasks.
fn words_of_64_levels(alloc: Global) -> Result<String, Fail> {
    let mut words = String::new(alloc);
    push_64_levels(alloc, &mut words)?;
    Ok(words)
}

/// What they push: the last but one is told of a child that failed, and no other one is.
fn out_of_64_levels(alloc: Global) -> Result<String, Fail> {
    let mut out = String::from_str(alloc, "1\n")?;
    for _ in 0..63 {
        out.push_str("0\n")?;
    }
    Ok(out)
}

/// A task whose path has 64 parts may have no child, and its parent is told that it failed.
#[test]
fn a_fault_of_depth_counts(rt: HostRuntime) -> Result<(), Fail> {
    let words = words_of_64_levels(rt.alloc())?;
    let out = out_of_64_levels(rt.alloc())?;
    hold(
        &rt,
        rt.alloc(),
        &Row {
            words: words.as_str(),
            fuel: 1_000,
            out: out.as_str(),
            report: "/0/0 256 Depth\n",
        },
    )
}
