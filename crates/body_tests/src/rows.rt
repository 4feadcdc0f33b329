// Steps of work in a row.
ghost use Rattle.std.specs.Prelude.{◌<◌};

use crate::asserts::{are_same, assert_none, assert_text, parts_of};
use crate::jobs::{Stepped, after_ask, main_with, step};
use job_body::{JobBody, JobLocal};
use std::alloc::Global;
use std::process::Abort;
use std::test::Fail;
use swan_model::{Answer, Body, NoMemory, Stop, Worked};

/// What stands before the statements, which begin at line 13. The first step makes the queue.
pub const HEAD: &str = "\
swan 1
object x int
output out int
task idle
do
end
task main
var v int
var n int
var b bytes
queue q bytes
do
";

/// Loops with each kind of line between, and what `v` is after them, of 200 units of fuel. A read is answered
/// by 7, a pop by `ab`, and a test by no.
pub const LOOPS: &str = "\
n = set 3; while n; n = sub n 1; v = add v 2; end => 6
n = set 3; while n; n = sub n 1; b = cat b \"x\"; end; v = len b => 3
n = set 3; while n; n = sub n 1; if n; v = add v 1; else; v = add v 10; end; end => 12
n = set 3; while n; n = sub n 1; # a note; v = or v n; end => 1
n = set 3; while n; n = sub n 1; fuel v; end => 187
n = set 3; while n; n = sub n 1; read v x; end => 7
n = set 3; while n; n = sub n 1; write x n; v = add v 1; end => 3
n = set 3; while n; n = sub n 1; push q \"ab\"; v = add v 1; end => 3
n = set 3; while n; n = sub n 1; pop b q; end; v = eq b \"ab\" => 1
n = set 3; while n; n = sub n 1; v = set 5; empty v q; end => 0
n = set 3; while n; n = sub n 1; sync; v = add v 1; end => 3
n = set 3; while n; n = sub n 1; spawn 1 idle; v = add v 1; end => 3
n = set 3; while n; n = sub n 1; end; fail n => User(0) at 17
n = set 2; while 1; n = sub n 1; v = div 6 n; end => DivideByZero at 16
n = set 4611686018427387904; while n; n = add n n; end => Overflow at 15
n = set 3; while n; n = sub n 1; end; spawn -1 idle => Range at 17";

/// A loop of 14 steps of work.
const COUNT: &str = "n = set 3; while n; n = sub n 1; v = add v 1; end";

/// The like loop with a push in it.
const PUSHES: &str = "n = set 3; while n; n = sub n 1; push q \"ab\"; end";

/// What is told of a run of a task, and after how many steps.
#[derive(Drop)]
struct Run {
    what: String,
    steps: u64,
}

/// What is told where so much fuel ends before the step of this line.
fn out_of_fuel(alloc: Global, line: u64, fuel: u64) -> Result<Run, NoMemory> {
    let what = format!(in alloc; "Fuel at {line}")?;
    Ok(Run { what, steps: fuel })
}

/// Takes steps of work in a row.
fn work<B: Body>(
    alloc: Global,
    body: &B,
    local: B::Local,
    answer: Answer,
    fuel: u64,
    budget: u64,
) -> Result<Worked<B::Local>, NoMemory>
    requires { 0 < budget }
{
    body.work(alloc, local, answer, fuel, budget)
}

/// What a row of steps comes to.
#[derive(Drop)]
enum Taken {
    /// This is told of its ask.
    Told(Run),
    /// The task goes on here, is answered this, and has so much fuel.
    GoesOn(JobLocal, Answer, u64),
}

/// What a row comes to that ended with this ask, and with so much of the fuel.
fn after_stop(
    alloc: Global,
    local: JobLocal,
    stop: &Stop<JobLocal>,
    fuel: u64,
    left: u64,
) -> Result<Taken, NoMemory> {
    let steps = fuel.saturating_sub(left);
    match after_ask(alloc, local, &stop.ask, stop.place, steps)? {
        Stepped::Told(what) => Ok(Taken::Told(Run { what, steps })),
        Stepped::GoesOn(local, answer) => Ok(Taken::GoesOn(local, answer, left)),
    }
}

/// What a row comes to that began with so much of the fuel.
fn after_row(
    alloc: Global,
    worked: Worked<JobLocal>,
    fuel: u64,
    left: u64,
) -> Result<Taken, NoMemory> {
    let Worked { local, works, stop } = worked;
    let left = left.saturating_sub(works);
    match stop {
        Some(stop) => after_stop(alloc, local, &stop, fuel, left.saturating_sub(1)),
        None => Ok(Taken::GoesOn(local, Answer::Nothing, left)),
    }
}

/// Takes a row of steps by this budget, with what is left of the fuel.
fn take_row(
    alloc: Global,
    body: &JobBody,
    local: JobLocal,
    answer: Answer,
    fuel: u64,
    left: u64,
    budget: u64,
) -> Result<Taken, NoMemory>
    requires { 0 < budget }
{
    let worked = work(alloc, body, local, answer, left, budget)?;
    after_row(alloc, worked, fuel, left)
}

/// What a task pushes first that takes its steps in rows by this budget; or the trouble by which it ends; or
/// `Fuel` where the fuel ends. With the last two the line of the step is told.
fn told_of(
    alloc: Global,
    body: &JobBody,
    root: JobLocal,
    fuel: u64,
    budget: u64,
) -> Result<Run, NoMemory>
    requires { 0 < budget }
{
    let mut local = root;
    let mut answer = Answer::Start;
    let mut left = fuel;
    for _ in 0..fuel.saturating_add(1) {
        match take_row(alloc, body, local, answer, fuel, left, budget)? {
            Taken::Told(run) => return Ok(run),
            Taken::GoesOn(moved, next, rest) => {
                local = moved;
                answer = next;
                left = rest;
            }
        }
        if left == 0 {
            break;
        }
    }
    out_of_fuel(alloc, body.place(&local), fuel)
}

/// What `main` tells with these statements.
fn told_in_rows(alloc: Global, statements: &str, fuel: u64, budget: u64) -> Result<Run, NoMemory>
    requires { 0 < budget }
{
    let (body, local) = main_with(alloc, HEAD, statements)?;
    told_of(alloc, &body, local, fuel, budget)
}

/// Whether `main` tells this with these statements by this budget.
fn is_told_in_rows(alloc: Global, statements: &str, want: &str, budget: u64) -> bool
    requires { 0 < budget }
{
    match told_in_rows(alloc, statements, 200, budget) {
        Ok(told) => are_same(told.what.as_str(), want),
        Err(_) => false,
    }
}

/// Whether a row of the table is so by this budget.
fn is_so_in_rows(alloc: Global, row: &str, budget: u64) -> bool
    requires { 0 < budget }
{
    match parts_of(row) {
        Some((statements, want)) => is_told_in_rows(alloc, statements, want, budget),
        None => false,
    }
}

/// The first loop of the table that tells something else by this budget, if there is one.
fn first_wrong_in_rows(alloc: Global, budget: u64) -> Option<&'static str>
    requires { 0 < budget }
{
    for row in LOOPS.lines() {
        if !is_so_in_rows(alloc, row, budget) {
            return Some(row);
        }
    }
    None
}

/// Whether `main` tells this by a budget of one more than so many steps, and after so many.
fn is_told_past(alloc: Global, statements: &str, want: &str, steps: u64) -> bool {
    match told_in_rows(alloc, statements, 200, steps.saturating_add(1)) {
        Ok(told) => told.steps == steps && are_same(told.what.as_str(), want),
        Err(_) => false,
    }
}

/// How many steps `main` takes with these statements, by rows of one.
fn steps_of(alloc: Global, statements: &str) -> Result<u64, NoMemory> {
    let told = told_in_rows(alloc, statements, 200, 1)?;
    Ok(told.steps)
}

/// Whether `main` tells this by a budget of one more than there are steps, and after as many steps.
fn is_told_past_its_steps(alloc: Global, statements: &str, want: &str) -> bool {
    match steps_of(alloc, statements) {
        Ok(steps) => is_told_past(alloc, statements, want, steps),
        Err(_) => false,
    }
}

/// Whether a row of the table is so by a budget of one more than there are steps, and after as many steps.
fn is_so_past_its_steps(alloc: Global, row: &str) -> bool {
    match parts_of(row) {
        Some((statements, want)) => is_told_past_its_steps(alloc, statements, want),
        None => false,
    }
}

/// The first loop of the table that tells something else by a budget of one more than there are steps, or after
/// another number of them, if there is one.
fn first_wrong_past_its_steps(alloc: Global) -> Option<&'static str> {
    for row in LOOPS.lines() {
        if !is_so_past_its_steps(alloc, row) {
            return Some(row);
        }
    }
    None
}

/// Asserts the loops of the table by this budget.
fn hold_in_rows(rt: &impl Abort, alloc: Global, budget: u64)
    requires { 0 < budget }
{
    assert_none(rt, first_wrong_in_rows(alloc, budget));
}

#[test]
fn rows_of_one_two_and_a_million_steps_tell_the_same(rt: HostRuntime) {
    hold_in_rows(&rt, rt.alloc(), 1);
    hold_in_rows(&rt, rt.alloc(), 2);
    hold_in_rows(&rt, rt.alloc(), 1_000_000);
}

#[test]
fn a_row_of_one_more_than_there_are_steps_tells_the_same(rt: HostRuntime) {
    assert_none(&rt, first_wrong_past_its_steps(rt.alloc()));
}

/// The lines at which a loop stands when its fuel ends, with 0 units and more.
fn ends(alloc: Global, statements: &str, budget: u64) -> Result<String, NoMemory>
    requires { 0 < budget }
{
    let mut all = String::new(alloc);
    for fuel in 0..16u64 {
        let told = told_in_rows(alloc, statements, fuel, budget)?;
        all.push_str(told.what.as_str())?;
        all.push_str("; ")?;
    }
    Ok(all)
}

/// Where the loop stands: before the queue's line, before the first statement, and before each line of its three turns.
const ENDS: &str =
    "Fuel at 11; Fuel at 13; Fuel at 14; Fuel at 15; Fuel at 16; Fuel at 17; Fuel at 14; Fuel at 15; \
Fuel at 16; Fuel at 17; Fuel at 14; Fuel at 15; Fuel at 16; Fuel at 17; Fuel at 14; Fuel at 18; ";

/// Asserts these lines by this budget.
fn hold_ends(rt: &impl Abort, alloc: Global, statements: &str, budget: u64) -> Result<(), Fail>
    requires { 0 < budget }
{
    let ends = ends(alloc, statements, budget)?;
    assert_text(rt, ends.as_str(), ENDS);
    Ok(())
}

/// Asserts these lines by budgets of one, two and a million steps.
fn hold_ends_by_each(rt: &impl Abort, alloc: Global, statements: &str) -> Result<(), Fail> {
    hold_ends(rt, alloc, statements, 1)?;
    hold_ends(rt, alloc, statements, 2)?;
    hold_ends(rt, alloc, statements, 1_000_000)
}

#[test]
fn fuel_ends_at_each_line_of_a_loop(rt: HostRuntime) -> Result<(), Fail> {
    hold_ends_by_each(&rt, rt.alloc(), COUNT)?;
    hold_ends_by_each(&rt, rt.alloc(), PUSHES)
}

/// How many steps of work a row has.
fn text_of_row(alloc: Global, works: u64) -> Result<String, NoMemory> {
    Ok(format!(in alloc; "{works}")?)
}

/// How many steps of work a row has, and the line of the ask that ends it.
fn text_of_ended_row(alloc: Global, works: u64, place: u64) -> Result<String, NoMemory> {
    Ok(format!(in alloc; "{works}, and an ask at {place}")?)
}

/// How many steps of work a row has, and the line of the ask that ends it, if one does.
fn counted(worked: &Worked<JobLocal>) -> (u64, Option<u64>) {
    match &worked.stop {
        Some(stop) => (worked.works, Some(stop.place)),
        None => (worked.works, None),
    }
}

/// How many steps of work a row has, and the line of the ask that ends it, if one does, as text.
fn text_of_counted(alloc: Global, works: u64, place: Option<u64>) -> Result<String, NoMemory> {
    match place {
        Some(place) => text_of_ended_row(alloc, works, place),
        None => text_of_row(alloc, works),
    }
}

/// Takes the first step of a task, and answers its local then.
fn after_first(alloc: Global, body: &JobBody, root: JobLocal) -> Result<JobLocal, NoMemory> {
    let stepped = step(alloc, body, root, Answer::Start, 199)?;
    Ok(stepped.0)
}

/// Takes the first step of a task, and then a row of steps by this budget.
fn work_after_first(
    alloc: Global,
    body: &JobBody,
    root: JobLocal,
    budget: u64,
) -> Result<Worked<JobLocal>, NoMemory>
    requires { 0 < budget }
{
    let local = after_first(alloc, body, root)?;
    work(alloc, body, local, Answer::Nothing, 199, budget)
}

/// The row of steps that the loop takes by this budget once the queue is made.
fn work_of_count(alloc: Global, budget: u64) -> Result<Worked<JobLocal>, NoMemory>
    requires { 0 < budget }
{
    let (body, local) = main_with(alloc, HEAD, COUNT)?;
    work_after_first(alloc, &body, local, budget)
}

/// How many steps of work that row has, and the line of the ask that ends it, if one does.
fn count_of_row(alloc: Global, budget: u64) -> Result<(u64, Option<u64>), NoMemory>
    requires { 0 < budget }
{
    let worked = work_of_count(alloc, budget)?;
    let count = counted(&worked);
    drop(worked);
    Ok(count)
}

/// The same, as text.
fn row(alloc: Global, budget: u64) -> Result<String, NoMemory>
    requires { 0 < budget }
{
    let (works, place) = count_of_row(alloc, budget)?;
    text_of_counted(alloc, works, place)
}

/// Asserts this of the row by this budget.
fn hold_row(rt: &impl Abort, alloc: Global, budget: u64, want: &str) -> Result<(), Fail>
    requires { 0 < budget }
{
    let row = row(alloc, budget)?;
    assert_text(rt, row.as_str(), want);
    Ok(())
}

#[test]
fn a_row_has_as_many_steps_as_its_budget(rt: HostRuntime) -> Result<(), Fail> {
    hold_row(&rt, rt.alloc(), 13, "13")?;
    hold_row(&rt, rt.alloc(), 14, "14")?;
    hold_row(&rt, rt.alloc(), 15, "14, and an ask at 18")
}
