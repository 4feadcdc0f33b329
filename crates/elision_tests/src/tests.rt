// What elisions leave, worked out by hand from what each ask is to do.
use crate::rows::{leaves, plan_of};
use serial_elision::elide;
use std::alloc::Global;
use std::ops::Range;
use std::process::Abort;
use std::test::Fail;
use std::thread::{Threads, join};
use swan_model::{Body, NoMemory, Outcome, Plan, RunName};

/// Asserts that asks in words leave no output with this much fuel, and a report that ends so.
fn hold(rt: &impl Abort, alloc: Global, words: &str, fuel: u64, report: &str) -> Result<(), Fail> {
    assert!(rt; leaves(alloc, words, fuel, b"", report)?, "{words}");
    Ok(())
}

/// Tries rows of asks in words and of the fuel, with the end of the report; they leave no output.
fn run(rt: &impl Abort, alloc: Global, rows: &[(&str, u64, &str)]) -> Result<(), Fail> {
    for (words, fuel, report) in rows {
        hold(rt, alloc, words, *fuel, report)?;
    }
    Ok(())
}

#[test]
fn each_ask_is_answered(rt: HostRuntime) -> Result<(), Fail> {
    let words = "pop:0 push:1:0 empty:0 push:1:0 read:2 push:1:0 queue push:1:0 object:5 push:1:0 \
        read:3 push:1:0 write:2:-3 sync push:1:98 work push:1:99 finish";
    let out = b"10\n0\n7\n4\n5\n\xab\x0c\n0\n99\n";
    let report = "object count int -3\nobject name bytes ab0c\nleft jobs 1\nfaults 0\n";
    assert!(rt; leaves(rt.alloc(), words, 100, out.as_slice(), report)?);
    Ok(())
}

#[test]
fn each_fault_ends_its_task(rt: HostRuntime) -> Result<(), Fail> {
    run(
        &rt,
        rt.alloc(),
        &[
            ("work work", 1, "faults 1\nfault / 1 Fuel\n"),
            ("pop:0 pop:0 pop:0", 9, "faults 1\nfault / 2 PopEmpty\n"),
            ("push:0:1 work", 9, "faults 1\nfault / 0 Privilege\n"),
            ("work read:9", 9, "faults 1\nfault / 1 Privilege\n"),
            ("fail:-5", 9, "faults 1\nfault / 0 User -5\n"),
            ("range work", 9, "faults 1\nfault / 0 Range\n"),
            ("long work", 9, "faults 1\nfault / 0 TooLong\n"),
            ("number work", 9, "faults 1\nfault / 0 BadNumber\n"),
        ],
    )
}

#[test]
fn a_spawn_has_its_first_fault(rt: HostRuntime) -> Result<(), Fail> {
    run(
        &rt,
        rt.alloc(),
        &[
            (
                "spawn:1:10:1.pop,1.pop finish",
                10,
                "faults 1\nfault / 0 Privilege\n",
            ),
            (
                "spawn:1:10:1.push,1.push finish",
                10,
                "faults 1\nfault / 0 Alias\n",
            ),
            (
                "spawn:1:9:2.in,2.out finish",
                10,
                "faults 1\nfault / 0 Alias\n",
            ),
            ("spawn:1:10:1.push finish", 10, "faults 1\nfault / 0 Fuel\n"),
            ("spawn:1:8:2.in,2.in finish", 10, "faults 0\n"),
            (
                "spawn:1:8:2.in,2.in,2.in,2.in,2.in,2.in,2.in,2.in,2.in,2.in,2.in,2.out finish",
                10,
                "faults 1\nfault / 0 Alias\n",
            ),
            (
                "spawn:1:8:2.in,2.in,2.in,2.in,2.in,2.in,2.in,2.in,2.in,2.in,2.in,2.in finish",
                10,
                "faults 0\n",
            ),
        ],
    )
}

#[test]
fn faults_come_in_serial_order(rt: HostRuntime) -> Result<(), Fail> {
    run(
        &rt,
        rt.alloc(),
        &[(
            "spawn:3:50: spawn:5:5: fail:1 spawn:6:5: fail:2 overflow divide",
            100,
            "faults 4\nfault /0/0 6 DivideByZero\nfault /0 4 User 2\nfault /1 5 Overflow\nfault / 2 User 1\n",
        )],
    )
}

#[test]
fn a_child_holds_what_it_was_given(rt: HostRuntime) -> Result<(), Fail> {
    run(
        &rt,
        rt.alloc(),
        &[(
            "spawn:2:5:3.out,2.out,0.pop finish pop:2 write:1:8 read:1",
            100,
            "object count int 8\nobject name bytes \nleft jobs 1\nfaults 1\nfault /0 4 Privilege\n",
        )],
    )
}

#[test]
fn fuel_moves_to_the_child(rt: HostRuntime) -> Result<(), Fail> {
    run(
        &rt,
        rt.alloc(),
        &[
            (
                "spawn:6:5: work work work work work",
                10,
                "faults 1\nfault / 5 Fuel\n",
            ),
            (
                "spawn:2:1: finish work work",
                10,
                "faults 1\nfault /0 3 Fuel\n",
            ),
        ],
    )
}

/// The end of a report: this, and the fault of a root that has no fuel for a step.
fn report_of_fuel(alloc: Global, before: &str, step: u64) -> Result<String, Fail> {
    Ok(format!(in alloc; "{before}faults 1\nfault / {step} Fuel\n")?)
}

/// Whether asks in words with this much fuel leave this output, and a report of that fuel with this before it.
fn leaves_of_fuel(
    alloc: Global,
    words: &str,
    fuel: u64,
    out: &str,
    before: &str,
) -> Result<bool, Fail> {
    let report = report_of_fuel(alloc, before, fuel)?;
    leaves(alloc, words, fuel, out.as_bytes(), report.as_str())
}

/// Asserts that they do.
fn hold_of_fuel(
    rt: &impl Abort,
    alloc: Global,
    words: &str,
    fuel: u64,
    out: &str,
    before: &str,
) -> Result<(), Fail> {
    assert!(rt; leaves_of_fuel(alloc, words, fuel, out, before)?, "{fuel}");
    Ok(())
}

/// Fuel that ends inside a run of steps of work, or between asks, is a fault at the step that has none.
#[test]
fn fuel_ends_at_each_step(rt: HostRuntime) -> Result<(), Fail> {
    let words = "work work empty:0 read:2 work write:2:1 work";
    for fuel in 0..7 {
        hold_of_fuel(&rt, rt.alloc(), words, fuel, "", "")?;
    }
    Ok(())
}

/// Asserts what pushes and pops leave with these fuels: the output, and how many jobs.
fn hold_pushes_and_pops(
    rt: &impl Abort,
    alloc: Global,
    fuels: Range<u64>,
    out: &str,
    left: &str,
) -> Result<(), Fail> {
    let words = "work push:1:1 work work push:1:2 pop:0 work push:1:3 empty:0 pop:0";
    for fuel in fuels {
        hold_of_fuel(rt, alloc, words, fuel, out, left)?;
    }
    Ok(())
}

#[test]
fn fuel_ends_between_pushes(rt: HostRuntime) -> Result<(), Fail> {
    hold_pushes_and_pops(&rt, rt.alloc(), 0..2, "", "left jobs 2\n")?;
    hold_pushes_and_pops(&rt, rt.alloc(), 2..5, "1\n", "left jobs 2\n")?;
    hold_pushes_and_pops(&rt, rt.alloc(), 5..6, "1\n2\n", "left jobs 2\n")
}

#[test]
fn fuel_ends_between_pops_and_a_push(rt: HostRuntime) -> Result<(), Fail> {
    hold_pushes_and_pops(&rt, rt.alloc(), 6..8, "1\n2\n", "left jobs 1\n")?;
    hold_pushes_and_pops(&rt, rt.alloc(), 8..10, "1\n2\n3\n", "left jobs 1\n")?;
    hold_pushes_and_pops(&rt, rt.alloc(), 10..11, "1\n2\n3\n", "left jobs 0\n")
}

/// The word of a spawn, up to its fuel: its child begins at this index of the list.
fn spawn_at(alloc: Global, index: u64) -> Result<String, Fail> {
    Ok(format!(in alloc; "spawn:{index}:")?)
}

/// The words of a task that spawns such a child with this much fuel, and finishes.
fn spawn_and_finish(alloc: Global, spawn: &str, fuel: u64) -> Result<String, Fail> {
    Ok(format!(in alloc; "{spawn}{fuel}: finish ")?)
}

/// The words of a task that spawns a child at this index with this much fuel, and finishes.
fn task_of(alloc: Global, index: u64, fuel: u64) -> Result<String, Fail> {
    let spawn = spawn_at(alloc, index)?;
    spawn_and_finish(alloc, spawn.as_str(), fuel)
}

/// Adds the words of such a task.
fn push_task(alloc: Global, words: &mut String, index: u64, fuel: u64) -> Result<(), Fail> {
    let task = task_of(alloc, index, fuel)?;
    Ok(words.push_str(task.as_str())?)
}

/// Adds the words of 64 tasks of which each spawns the next, and of a spawn by the last.
fn push_65_spawns(alloc: Global, words: &mut String) -> Result<(), Fail> {
    for depth in 0..64_u64 {
        push_task(alloc, words, 2 * (depth + 1), 900 - 10 * depth)?;
    }
    Ok(words.push_str("spawn:0:1000:")?)
}

/// The words of these tasks.
fn words_of_65_spawns(alloc: Global) -> Result<String, Fail> {
    let mut words = String::new(alloc);
    push_65_spawns(alloc, &mut words)?;
    Ok(words)
}

/// The report that the last of them has no child, for its path.
fn report_of_depth(alloc: Global) -> Result<String, Fail> {
    let mut report = String::from_str(alloc, "faults 1\nfault ")?;
    for _ in 0..64 {
        report.push_str("/0")?;
    }
    report.push_str(" 128 Depth\n")?;
    Ok(report)
}

/// Whether the last of tasks in words may have no child, since its path has 64 parts.
fn leaves_of_depth(alloc: Global, words: &str) -> Result<bool, Fail> {
    let report = report_of_depth(alloc)?;
    leaves(alloc, words, 1_000, b"", report.as_str())
}

#[test]
fn no_path_has_more_than_64_parts(rt: HostRuntime) -> Result<(), Fail> {
    let words = words_of_65_spawns(rt.alloc())?;
    assert!(rt; leaves_of_depth(rt.alloc(), words.as_str())?);
    Ok(())
}

/// Elides on another thread.
fn elide_there<R: Threads + Sync, B: Body>(
    rt: &R,
    alloc: Global,
    plan: Plan<B>,
) -> Result<Outcome, NoMemory> {
    let (outcome, ()) = join(rt, move || elide(alloc, plan), || ());
    outcome
}

/// Copies a name on another thread.
fn again_there<R: Threads + Sync>(rt: &R, name: RunName) -> RunName {
    let (again, ()) = join(rt, move || name.again(), || ());
    again
}

#[test]
fn names_cross_threads(rt: HostRuntime) {
    drop(again_there(&rt, RunName::free()));
}

/// How many objects a plan leaves that is elided on another thread.
fn objects_left_there<R: Threads + Sync, B: Body>(
    rt: &R,
    alloc: Global,
    plan: Plan<B>,
) -> Result<usize, NoMemory> {
    let outcome = elide_there(rt, alloc, plan)?;
    let count = outcome.objects.len();
    drop(outcome);
    Ok(count)
}

/// The like of the plan of no asks.
fn objects_left_of_none<R: Threads + Sync>(rt: &R, alloc: Global) -> Result<usize, Fail> {
    let plan = plan_of(alloc, "", 1)?;
    Ok(objects_left_there(rt, alloc, plan)?)
}

#[test]
fn plans_and_outcomes_cross_threads(rt: HostRuntime) -> Result<(), Fail> {
    let count = objects_left_of_none(&rt, rt.alloc())?;
    assert_eq!(rt; count, 2);
    Ok(())
}
