// Plans as tables of tasks.
use elision_tests::{AskList, ask_of, roots};
use std::alloc::Global;
use std::test::Fail;
use swan_model::{Ask, Child, FUEL_MOST, Plan, PlanFuel};

/// Which index of the list of all asks stands behind a task that begins at this one. Behind its own asks each task finishes.
fn behind(task: &str, begins: usize) -> Result<usize, Fail> {
    let mut next = begins;
    for _ in task.split_whitespace() {
        next = next.checked_add(1).ok_or("too long")?;
    }
    Ok(next.checked_add(1).ok_or("too long")?)
}

/// At which index of the list of all asks each task begins.
fn beginnings(alloc: Global, tasks: &[&str]) -> Result<Vec<usize>, Fail> {
    let mut beginnings = Vec::new(alloc);
    let mut next = 0usize;
    for task in tasks {
        beginnings.push(next)?;
        next = behind(*task, next)?;
    }
    Ok(beginnings)
}

/// The ask for a child that begins with a task of this table.
fn spawn_in(child: Child<usize>, beginnings: &[usize]) -> Result<Ask<usize>, Fail> {
    let Some(local) = beginnings.get(child.local) else {
        drop(child);
        return Err("no such task".into());
    };
    Ok(Ask::Spawn(Child {
        local: *local,
        gives: child.gives,
        fuel: child.fuel,
    }))
}

/// The ask of a word, in which a child begins with a task of this table.
fn ask_in(alloc: Global, word: &str, beginnings: &[usize]) -> Result<Ask<usize>, Fail> {
    match ask_of(alloc, word)? {
        Ask::Spawn(child) => spawn_in(child, beginnings),
        ask => Ok(ask),
    }
}

/// Adds an ask.
fn add_ask(asks: &mut Vec<Ask<usize>>, ask: Ask<usize>) -> Result<(), Fail> {
    Ok(asks.push(ask)?)
}

/// Adds the asks of a task.
fn add_task(
    alloc: Global,
    asks: &mut Vec<Ask<usize>>,
    task: &str,
    beginnings: &[usize],
) -> Result<(), Fail> {
    for word in task.split_whitespace() {
        add_ask(asks, ask_in(alloc, word, beginnings)?)?;
    }
    add_ask(asks, Ask::Finish)
}

/// Adds the asks of these tasks.
fn add_tasks(alloc: Global, asks: &mut Vec<Ask<usize>>, tasks: &[&str]) -> Result<(), Fail> {
    let beginnings = beginnings(alloc, tasks)?;
    for task in tasks {
        add_task(alloc, asks, *task, beginnings.as_slice())?;
    }
    Ok(())
}

/// The asks of these tasks. No memory is found at one index of the list of all asks, which has one more behind each task.
pub fn asks(alloc: Global, tasks: &[&str], fails: usize) -> Result<AskList, Fail> {
    let mut asks = Vec::new(alloc);
    add_tasks(alloc, &mut asks, tasks)?;
    Ok(AskList { asks, fails })
}

/// The plan of these tasks, of which the first is the root, with this much fuel. No memory is found at one index.
pub fn failing_plan(
    alloc: Global,
    tasks: &[&str],
    fuel: u64,
    fails: usize,
) -> Result<Plan<AskList>, Fail> {
    if fuel > FUEL_MOST {
        return Err("fuel".into());
    }
    let body = asks(alloc, tasks, fails)?;
    match roots(alloc) {
        Ok(roots) => Ok(Plan {
            body,
            root_local: 0,
            roots,
            fuel: PlanFuel::new(fuel),
        }),
        Err(fail) => {
            drop(body);
            Err(fail)
        }
    }
}

/// The plan of these tasks, of which the first is the root, with this much fuel.
pub fn plan(alloc: Global, tasks: &[&str], fuel: u64) -> Result<Plan<AskList>, Fail> {
    failing_plan(alloc, tasks, fuel, usize::MAX)
}
