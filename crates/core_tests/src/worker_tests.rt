// Plans by several workers: in threads, and turn by turn.
use crate::hands::{
    Entry, Hand, Told, enter_by_hands, leave_by_hands, leave_row_by_hands, stop_by_hands,
};
use crate::meeting::meet;
use crate::runs::{Row, stops_by_workers, workers_leave_the_same};
use crate::tables::{PLANS, Tasks};
use queues::WaitFor;
use std::test::Fail;

#[test]
fn each_plan_leaves_what_the_elision_leaves_by_workers(rt: HostRuntime) -> Result<(), Fail> {
    for tasks in &PLANS {
        workers_leave_the_same(&rt, rt.alloc(), tasks)?;
    }
    Ok(())
}

/// The two steps are the push and the end.
#[test]
fn turns_of_one_worker_step_and_then_are_done(rt: HostRuntime) -> Result<(), Fail> {
    let row = Row {
        tasks: &["push:1:8"],
        fuel: 100,
        out: "8\n",
        report: "object count int 7\nobject name bytes ab0c\nleft jobs 2\nfaults 0\n",
    };
    let step = Hand::of(0, Told::Stepped(1));
    let done = Hand::of(0, Told::Done);
    leave_row_by_hands(
        rt.alloc(),
        &row,
        1,
        &[step, step, done, done, done, done, done, done],
    )
}

/// Two children pop one queue, and their parent waits for both. The first worker goes on with the first child, and the second one with its
/// parent and the other child. That one sleeps under the first child, and the parent under the child that was spawned last, so each wakes once.
#[test]
fn two_workers_take_turns(rt: HostRuntime) -> Result<(), Fail> {
    let tasks = Tasks {
        name: "two that pop one queue",
        tasks: &[
            "spawn:1:9:0.pop,1.push spawn:1:9:0.pop,1.push work work sync push:1:3",
            "work pop:0 push:1:0",
        ],
        fuel: 50,
    };
    let step = Told::Stepped(1);
    leave_by_hands(
        rt.alloc(),
        &tasks,
        2,
        &[
            // the root spawns the first child
            Hand::of(0, step),
            // and the other one
            Hand::of(1, step),
            // whose first step is to wait for its turn
            Hand::of(1, Told::NotYet(WaitFor::PopTurn(1))),
            Hand::of(0, step),
            // the root works twice, and has to wait
            Hand::of(1, Told::Stepped(2)),
            Hand::of(1, Told::Idle),
            // the first child pops, pushes and ends
            Hand::of(0, step),
            Hand::of(0, step),
            Hand::of(1, Told::Idle),
            Hand::of(0, step),
            // the other one was woken, and the worker has it
            Hand::of(1, Told::Idle),
            Hand::of(0, step),
            Hand::of(0, step),
            Hand::of(0, step),
            Hand::of(1, Told::Idle),
            Hand::of(0, step),
            // so was the root, which goes on behind its sync
            Hand::of(1, Told::Idle),
            Hand::of(0, step),
            Hand::of(0, step),
            Hand::of(0, step),
            Hand::of(1, Told::Done),
            Hand::of(0, Told::Done),
            Hand::of(1, Told::Done),
        ],
    )
}

/// The gate is told the number of the worker, by its place, and the path of the frame that it goes on with.
#[test]
fn the_gate_is_told_the_worker_and_the_task(rt: HostRuntime) -> Result<(), Fail> {
    let tasks = Tasks {
        name: "two children that work",
        tasks: &["spawn:1:9: spawn:2:9: sync", "work work", "work work"],
        fuel: 50,
    };
    enter_by_hands(
        rt.alloc(),
        &tasks,
        3,
        &[
            // the root spawns the first child, with which the worker goes on, and then the second one
            Entry::of_root(2),
            Entry::of_root(1),
            Entry::of_child(2, 0),
            Entry::of_child(1, 1),
            // the third worker takes the root, which has to wait
            Entry::of_root(0),
            Entry::of_child(2, 0),
            Entry::of_child(1, 1),
        ],
    )
}

/// The second child waits for the first one, which writes what it reads, and the third one for a push of the second. That push is the first
/// step of the second child, and the third one goes on before that has ended.
#[test]
fn a_push_as_a_first_step_wakes_who_waits_for_it(rt: HostRuntime) -> Result<(), Fail> {
    let tasks = Tasks {
        name: "a push as a first step",
        tasks: &[
            "queue spawn:1:9:2.out spawn:2:9:2.in,4.push spawn:3:9:4.pop,1.push sync",
            "work write:0:5",
            "push:1:8 work",
            "pop:0 push:1:0",
        ],
        fuel: 50,
    };
    let step = Told::Stepped(1);
    leave_by_hands(
        rt.alloc(),
        &tasks,
        2,
        &[
            // the root makes the queue and spawns the first child, with which the worker goes on
            Hand::of(0, step),
            Hand::of(0, step),
            // the second one
            Hand::of(1, step),
            Hand::of(1, Told::NotYet(WaitFor::Version(1))),
            // and the third one
            Hand::of(1, step),
            Hand::of(1, Told::NotYet(WaitFor::Pusher(2))),
            Hand::of(1, Told::NotYet(WaitFor::Child(1))),
            Hand::of(1, Told::Idle),
            // the first child works, writes and ends
            Hand::of(0, step),
            Hand::of(0, step),
            Hand::of(0, step),
            // the second one pushes, and the third one pops
            Hand::of(0, step),
            Hand::of(1, step),
            // the second one works and ends
            Hand::of(0, Told::Stepped(2)),
            Hand::of(1, step),
            Hand::of(1, step),
            Hand::of(0, Told::Idle),
            // the root syncs and ends
            Hand::of(1, step),
            Hand::of(1, step),
            Hand::of(0, Told::Done),
            Hand::of(1, Told::Done),
        ],
    )
}

/// Of the list of all asks the root has the first three, with its end, and its child begins behind them. The second step of the child finds no
/// memory.
#[test]
fn a_stopped_run_stays_stopped(rt: HostRuntime) -> Result<(), Fail> {
    let tasks = Tasks {
        name: "a child without memory",
        tasks: &["spawn:1:9: sync", "work work work"],
        fuel: 50,
    };
    let step = Told::Stepped(1);
    stop_by_hands(
        rt.alloc(),
        &tasks,
        4,
        2,
        &[
            Hand::of(0, step),
            Hand::of(0, step),
            Hand::of(1, Told::NotYet(WaitFor::Child(1))),
            Hand::of(0, Told::NoMemory),
            Hand::of(1, Told::NoMemory),
            Hand::of(1, Told::NoMemory),
            Hand::of(0, Told::NoMemory),
        ],
    )
}

/// Of the list of all asks the root has the first four, with its end, and each child begins behind them. Each is met.
#[test]
fn want_of_memory_of_one_task_stops_all_workers(rt: HostRuntime) -> Result<(), Fail> {
    for fails in 0..8 {
        stops_by_workers(
            &rt,
            rt.alloc(),
            &["spawn:1:9: spawn:1:9: sync", "work work work"],
            100,
            fails,
        )?;
    }
    Ok(())
}

/// Each of two children waits in its second step of work until the other one is there too.
#[test]
fn two_frames_at_once(rt: HostRuntime) -> Result<(), Fail> {
    meet(&rt, rt.alloc())
}
