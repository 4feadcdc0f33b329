// Outcomes of jobs whose steps are taken one by one, beside those of steps in rows.
ghost use Rattle.std.specs.Prelude.{◌≤◌};
ghost use Rattle.swan_model.specs.declared.plan.TheConstants.{FUEL_MOST};

use crate::asserts::{are_same, assert_none, assert_text, parts_of};
use crate::jobs::{plan_of_text, text_of};
use crate::rows::{HEAD, LOOPS};
use job_body::{JobBody, JobLocal};
use serial_elision::elide;
use std::alloc::Global;
use std::process::Abort;
use std::test::Fail;
use swan_model::{
    Answer, Ask, Body, FUEL_MOST, Fault, NoMemory, Outcome, Plan, PlanFuel, Record, Value, Values,
};

/// The body of a job, of which each step is asked for alone.
#[derive(Drop)]
struct OneByOne {
    body: JobBody,
}

impl Body for OneByOne {
    ghost use Rattle.job_body.specs.Steps.{next, place_of};

    type Local = JobLocal;

    ghost next = { λ it. next it.body };

    ghost place_of = { λ it. place_of it.body };

    fn advance(
        &self,
        alloc: Global,
        local: JobLocal,
        answer: Answer,
        fuel: u64,
    ) -> Result<(JobLocal, Ask<JobLocal>), NoMemory> {
        self.body.advance(alloc, local, answer, fuel)
    }

    fn place(&self, local: &JobLocal) -> u64 {
        self.body.place(local)
    }
}

/// A number, and a space after it.
fn spaced_number(alloc: Global, number: i64) -> Result<String, NoMemory> {
    Ok(format!(in alloc; "{number} ")?)
}

/// How many bytes a record has.
fn text_of_bytes(alloc: Global, record: &Record) -> Result<String, NoMemory> {
    let len = record.as_slice().len();
    Ok(format!(in alloc; "{len} bytes ")?)
}

/// A value's text.
fn text_of_value(alloc: Global, value: &Value) -> Result<String, NoMemory> {
    match value {
        Value::Int(number) => spaced_number(alloc, *number),
        Value::Bytes(record) => text_of_bytes(alloc, record),
    }
}

/// A fault's kind and line.
fn text_of_fault(alloc: Global, fault: &Fault) -> Result<String, NoMemory> {
    let kind = fault.kind;
    let place = fault.place;
    Ok(format!(in alloc; "{kind:?} at {place} ")?)
}

/// Adds the texts of values.
fn push_values(alloc: Global, all: &mut String, values: &[Value]) -> Result<(), NoMemory> {
    for value in values {
        let text = text_of_value(alloc, value)?;
        all.push_str(text.as_str())?;
    }
    Ok(())
}

/// Adds the texts of what is left of queues.
fn push_left(alloc: Global, all: &mut String, queues: &[Values]) -> Result<(), NoMemory> {
    for queue in queues {
        all.push_str("| ")?;
        push_values(alloc, all, queue.as_slice())?;
    }
    Ok(())
}

/// Adds the texts of faults.
fn push_faults(alloc: Global, all: &mut String, faults: &[Fault]) -> Result<(), NoMemory> {
    for fault in faults {
        let text = text_of_fault(alloc, fault)?;
        all.push_str(text.as_str())?;
    }
    Ok(())
}

/// Adds what an outcome tells: the objects, what is left of the queues, and each fault with its line.
fn push_outcome(alloc: Global, all: &mut String, outcome: &Outcome) -> Result<(), NoMemory> {
    push_values(alloc, all, outcome.objects.as_slice())?;
    push_left(alloc, all, outcome.queues.as_slice())?;
    push_faults(alloc, all, outcome.faults.as_slice())
}

/// What an outcome tells.
fn text_of_outcome(alloc: Global, outcome: &Outcome) -> Result<String, NoMemory> {
    let mut all = String::new(alloc);
    push_outcome(alloc, &mut all, outcome)?;
    Ok(all)
}

/// What a run of a plan leaves.
fn left<B: Body>(alloc: Global, plan: Plan<B>) -> Result<String, NoMemory> {
    let outcome = elide(alloc, plan)?;
    text_of_outcome(alloc, &outcome)
}

/// What `main` leaves with these statements and this fuel, where it takes its steps in rows.
fn left_in_rows(alloc: Global, statements: &str, fuel: u64) -> Result<String, NoMemory>
    requires { fuel ≤ FUEL_MOST }
{
    let text = text_of(alloc, HEAD, statements)?;
    let Plan {
        body,
        root_local,
        roots,
        fuel: _,
    } = plan_of_text(alloc, text.as_str())?;
    let fuel = PlanFuel::new(fuel);
    left(
        alloc,
        Plan {
            body,
            root_local,
            roots,
            fuel,
        },
    )
}

/// What it leaves where it takes them one by one.
fn left_one_by_one(alloc: Global, statements: &str, fuel: u64) -> Result<String, NoMemory>
    requires { fuel ≤ FUEL_MOST }
{
    let text = text_of(alloc, HEAD, statements)?;
    let Plan {
        body,
        root_local,
        roots,
        fuel: _,
    } = plan_of_text(alloc, text.as_str())?;
    let body = OneByOne { body };
    let fuel = PlanFuel::new(fuel);
    left(
        alloc,
        Plan {
            body,
            root_local,
            roots,
            fuel,
        },
    )
}

/// Whether these statements leave the same in rows as one by one.
fn leave_the_same(alloc: Global, statements: &str, fuel: u64) -> Result<bool, NoMemory>
    requires { fuel ≤ FUEL_MOST }
{
    let rows = left_in_rows(alloc, statements, fuel)?;
    let alone = left_one_by_one(alloc, statements, fuel)?;
    Ok(are_same(rows.as_str(), alone.as_str()))
}

/// Whether the statements of a row of the table do, with each fuel less than this.
fn leaves_the_same(alloc: Global, row: &str, most: u64) -> Result<bool, NoMemory>
    requires { most ≤ FUEL_MOST }
{
    let Some((statements, _)) = parts_of(row) else {
        return Ok(false);
    };
    for fuel in 0..most {
        if !leave_the_same(alloc, statements, fuel)? {
            return Ok(false);
        }
    }
    Ok(true)
}

/// The first loop of the table that leaves something else in rows than one by one, with some fuel less than this, if
/// there is one.
fn first_other(alloc: Global, most: u64) -> Result<Option<&'static str>, NoMemory>
    requires { most ≤ FUEL_MOST }
{
    for row in LOOPS.lines() {
        if !leaves_the_same(alloc, row, most)? {
            return Ok(Some(row));
        }
    }
    Ok(None)
}

#[test]
fn a_job_in_rows_leaves_what_it_leaves_step_by_step(rt: HostRuntime) -> Result<(), Fail> {
    assert_none(&rt, first_other(rt.alloc(), 64)?);
    Ok(())
}

/// Asserts that a sum of 6 is left, and nothing in the object.
fn hold_sum(rt: &impl Abort, left: &str) {
    assert_text(rt, left, "0 | 6 ");
}

#[test]
fn a_loop_leaves_its_sum(rt: HostRuntime) -> Result<(), Fail> {
    let sum = "n = set 3; while n; n = sub n 1; v = add v 2; end";
    let rows = left_in_rows(rt.alloc(), sum, 200)?;
    let alone = left_one_by_one(rt.alloc(), sum, 200)?;
    hold_sum(&rt, rows.as_str());
    hold_sum(&rt, alone.as_str());
    Ok(())
}
