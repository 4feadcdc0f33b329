// Running instructions.
ghost use Rattle.std.specs.Prelude.{◌≡◌, ◌++◌, ◌+◌, ◌-◌, ◌^◌, ◌<◌, ◌≤◌, suc, min, map, pos, Some, None, IfOk, OnOk, IfSome, IfNone};
ghost use Rattle.job_body.specs.Runs.{after_answer_by, after_go, ask_by, begun_in, demanded, last_of, next_by, run_of_spawn, value_of, worked};
ghost use Rattle.job_body.specs.Steps.{counted};
ghost use Rattle.swan_model.specs.Work.{ask_after, AreWork, local_after};
ghost use Rattle.swan_model.specs.declared.body.Ask.TheVariants as ask;
ghost use Rattle.swan_model.specs.declared.value.Value.TheVariants as value;
ghost use Rattle.swan_model.specs.Values.{zero_of};

use crate::JobLocal;
use crate::assignment::assign;
use crate::instruction::{Action, Demand, Instruction, Operand, Work};
use crate::operation::{is_true, reckoned};
use crate::slot::Slot;
use crate::task_index::TaskIndex;
use std::alloc::Global;
use swan_model::{Answer, Ask, Child, Gives, Kind, Listed, NoMemory, Stop, Trouble, Value, Worked};

/// The values, and after them the zeros of these kinds.
fn with_zeros(mut values: Vec<Slot>, kinds: &[Kind]) -> Result<Vec<Slot>, NoMemory>
    ensures { IfOk result (λ all. all.items ≡ values.items ++ map zero_of kinds.now) }
{
    for kind in kinds {
        values.push(Slot::new(Value::zero(*kind)))?;
    }
    Ok(values)
}

/// An activation of the task at a line, by the values of its `param` lines. `O(variables)`.
pub fn begin(
    alloc: Global,
    program: &Listed<Instruction>,
    task: &TaskIndex,
    values: Vec<Slot>,
) -> Result<JobLocal, NoMemory>
    ensures { IfOk result (λ local. local ≡ begun_in program.now task.now values.items) }
{
    let index = task.index();
    if let Some(instruction) = program.get(index as usize) {
        if let Action::Demand(Demand::Begin(kinds)) = &instruction.action {
            let values = with_zeros(values, kinds.as_slice())?;
            return JobLocal::new(alloc, index, instruction.next, values);
        }
    }
    JobLocal::new(alloc, index, index + 1, values)
}

/// Variables with the values of operands, for someone else.
fn values_of(
    alloc: Global,
    local: &mut JobLocal,
    operands: &[Operand],
) -> Result<Vec<Slot>, NoMemory>
    ensures values { IfOk result (λ values. values.items ≡ map (value_of local.old.values) operands.now) }
    ensures kept { OnOk result (local.new ≡ local.old) }
{
    let mut values = Vec::new(alloc);
    for operand in operands {
        values.push(Slot::new(local.value(operand)?))?;
    }
    Ok(values)
}

/// A spawn, by its fuel. It is taken seldom, so it is kept out of the loop of `work`, whose frame then needs no room for
/// a child.
#[inline(never)]
fn spawn(
    alloc: Global,
    program: &Listed<Instruction>,
    local: &mut JobLocal,
    to: u32,
    fuel: i64,
    task: &TaskIndex,
    params: &Listed<Operand>,
    gives: &Gives,
) -> Result<Ask<JobLocal>, NoMemory>
    ensures does { IfOk result (λ ask. (local.new, ask) ≡ run_of_spawn program.now local.old to fuel task.now params.now gives.now) }
    ensures other { IfOk result (λ it. it ≡ ask.Work → ⊥) }
{
    let Ok(fuel) = u64::try_from(fuel) else {
        return Ok(Ask::Fail(Trouble::Range));
    };
    let values = values_of(alloc, local, params.as_slice())?;
    let child = Child {
        local: begin(alloc, program, task, values)?,
        gives: gives.copy(alloc)?,
        fuel,
    };
    local.go(to);
    Ok(Ask::Spawn(child))
}

/// The local at another line, with what is asked for there.
fn go_and_ask(local: &mut JobLocal, to: u32, ask: Ask<JobLocal>) -> Ask<JobLocal>
    ensures local { local.new ≡ after_go local.old to }
    ensures ask { result ≡ ask }
{
    local.go(to);
    ask
}

/// Does what a demand says that goes on at a line. What it asks for isn't work.
#[inline(always)]
fn do_demand(
    alloc: Global,
    program: &Listed<Instruction>,
    local: &mut JobLocal,
    to: u32,
    demand: &Demand,
) -> Result<Ask<JobLocal>, NoMemory>
    ensures does { IfOk result (λ ask. (local.new, ask) ≡ demanded program.now local.old to demand.now) }
    ensures other { IfOk result (λ it. it ≡ ask.Work → ⊥) }
{
    match demand {
        Demand::Begin(_) | Demand::Finish => Ok(Ask::Finish),
        Demand::NewQueue => Ok(go_and_ask(local, to, Ask::NewQueue)),
        Demand::NewObject(kind) => Ok(go_and_ask(local, to, Ask::NewObject(Value::zero(*kind)))),
        Demand::Read(_, place) => Ok(go_and_ask(local, to, Ask::Read(*place))),
        Demand::Write(place, a) => {
            let value = local.value(a)?;
            Ok(go_and_ask(local, to, Ask::Write(*place, value)))
        }
        Demand::Push(place, a) => {
            let value = local.value(a)?;
            Ok(go_and_ask(local, to, Ask::Push(*place, value)))
        }
        Demand::Pop(_, place) => Ok(go_and_ask(local, to, Ask::Pop(*place))),
        Demand::Empty(_, place) => Ok(go_and_ask(local, to, Ask::Empty(*place))),
        Demand::Spawn(a, task, params, gives) => {
            let fuel = local.number(a);
            spawn(alloc, program, local, to, fuel, task, params, gives)
        }
        Demand::Sync => Ok(go_and_ask(local, to, Ask::Sync)),
        Demand::Fail(a) => Ok(Ask::Fail(Trouble::User(local.number(a)))),
    }
}

/// A count as a number of the language.
fn counted(count: u64) -> Value
    ensures { result ≡ counted count }
{
    Value::Int(count.min(i64::MAX as u64) as i64)
}

/// Does work that goes on at a line. It answers the trouble that it met, and has then done nothing.
#[inline(always)]
fn do_work(
    alloc: Global,
    local: &mut JobLocal,
    to: u32,
    fuel: u64,
    work: &Work,
) -> Result<Option<Trouble>, NoMemory>
    ensures { IfOk result (λ trouble. (local.new, ask_by trouble) ≡ worked local.old to fuel work.now) }
{
    match work {
        Work::Ints(op, slot, a, b) => {
            match reckoned(*op, local.number_in(*a), local.number_in(*b)) {
                Ok(number) => {
                    local.put(*slot, number);
                    local.go(to);
                }
                Err(trouble) => return Ok(Some(trouble)),
            }
        }
        Work::Branch(condition, otherwise) => {
            let to = if is_true(local.number_in(*condition)) {
                to
            } else {
                *otherwise
            };
            local.go(to);
        }
        Work::Go => local.go(to),
        Work::Assign(slot, op, a, b, c) => match assign(alloc, local, *slot, *op, a, b, c)? {
            None => local.go(to),
            Some(trouble) => return Ok(Some(trouble)),
        },
        Work::Caught(slot) => {
            let caught = counted(local.caught());
            local.set(*slot, caught);
            local.go(to);
        }
        Work::Fuel(slot) => {
            local.set(*slot, counted(fuel));
            local.go(to);
        }
    }
    Ok(None)
}

/// Tells an activation the answer to the ask of its last step.
#[inline(always)]
fn tell(program: &Listed<Instruction>, local: &mut JobLocal, answer: Answer)
    ensures { local.new ≡ after_answer_by program.now local.old answer }
{
    if let Some(last) = program.get(local.before() as usize) {
        local.tell(&last.action, answer);
    }
}

/// The most steps of work in a row.
fn most_steps(fuel: u64, budget: u64) -> u64
    ensures { result ≡ min budget fuel }
{
    budget.min(fuel)
}

/// A row of steps of work that no other step ended.
fn row(local: JobLocal, works: u64) -> Worked<JobLocal>
    ensures { result ≡ record { local = local; works = works; stop = None } }
{
    let stop = None;
    Worked { local, works, stop }
}

/// A row of steps of work that a step ended which asks for something else.
#[inline(always)]
fn stopped(local: JobLocal, works: u64, place: u64, ask: Ask<JobLocal>) -> Worked<JobLocal>
    ensures { result ≡ record { local = local; works = works; stop = Some (record { ask = ask; place = place }) } }
{
    let stop = Some(Stop { ask, place });
    Worked { local, works, stop }
}

/// Takes steps in a row, one at least and at most so many, as long as each asks for work. It is told the fuel that is
/// left once the first step has paid.
#[inline(always)]
fn steps(
    alloc: Global,
    program: &Listed<Instruction>,
    mut local: JobLocal,
    answer: Answer,
    left: u64,
    most: u64,
) -> Result<Worked<JobLocal>, NoMemory>
    requires some { 0 < most }
    requires paid { most ≤ suc left }
    ensures works { IfOk result (λ w. AreWork (next_by program.now) local answer (suc left) w.works) }

    // a row that no other step ended
    ensures all { IfOk result (λ w. IfNone w.stop (w.works ≡ most)) }
    ensures last { IfOk result (λ w. IfNone w.stop (w.local ≡ local_after (next_by program.now) local answer (suc left) w.works)) }

    // one that another step ended, which takes its unit of fuel too
    ensures stopped { IfOk result (λ w. IfSome w.stop (λ stop. w.works < most)) }
    ensures moved { IfOk result (λ w. IfSome w.stop (λ stop. w.local ≡ local_after (next_by program.now) local answer (suc left) (suc w.works))) }
    ensures ask { IfOk result (λ w. IfSome w.stop (λ stop. stop.ask ≡ ask_after (next_by program.now) local answer (suc left) w.works)) }
    ensures other { IfOk result (λ w. IfSome w.stop (λ stop. stop.ask ≡ ask.Work → ⊥)) }
    ensures place { IfOk result (λ w. IfSome w.stop (λ stop. stop.place ≡ (local_after (next_by program.now) local answer (suc left) w.works).at + 1)) }
{
    tell(program, &mut local, answer);
    for works in 0..most {
        let place = local.line();
        let fuel = left - works;
        let Some(instruction) = program.get(local.at() as usize) else {
            return Ok(stopped(local, works, place, Ask::Finish));
        };
        let to = instruction.next;
        match &instruction.action {
            Action::Work(work) => match do_work(alloc, &mut local, to, fuel, work)? {
                None => {}
                Some(trouble) => return Ok(stopped(local, works, place, Ask::Fail(trouble))),
            },
            Action::Demand(demand) => {
                let ask = do_demand(alloc, program, &mut local, to, demand)?;
                return Ok(stopped(local, works, place, ask));
            }
        }
    }
    Ok(row(local, most))
}

/// What the last step of a row leaves and asks for.
fn last_of(row: Worked<JobLocal>) -> (JobLocal, Ask<JobLocal>)
    ensures { (result.0, result.1) ≡ last_of row }
{
    let Worked { local, stop, .. } = row;
    match stop {
        None => (local, Ask::Work),
        Some(stop) => (local, stop.ask),
    }
}

/// Takes the step of the line at which an activation stands: a row of one.
pub fn step(
    alloc: Global,
    program: &Listed<Instruction>,
    local: JobLocal,
    answer: Answer,
    fuel: u64,
) -> Result<(JobLocal, Ask<JobLocal>), NoMemory>
    ensures { IfOk result (λ r. (r.0, r.1) ≡ next_by program.now local answer fuel) }
{
    Ok(last_of(steps(alloc, program, local, answer, fuel, 1)?))
}

/// Takes steps in a row, as long as each asks for work and the budget and the fuel last.
#[inline(always)]
pub fn work(
    alloc: Global,
    program: &Listed<Instruction>,
    local: JobLocal,
    answer: Answer,
    fuel: u64,
    budget: u64,
) -> Result<Worked<JobLocal>, NoMemory>
    requires { 0 < budget }
    ensures works { IfOk result (λ w. AreWork (next_by program.now) local answer fuel w.works) }

    // a row that no other step ended
    ensures all { IfOk result (λ w. IfNone w.stop (w.works ≡ min budget fuel)) }
    ensures last { IfOk result (λ w. IfNone w.stop (w.local ≡ local_after (next_by program.now) local answer fuel w.works)) }

    // one that another step ended, which takes its unit of fuel too
    ensures stopped { IfOk result (λ w. IfSome w.stop (λ stop. w.works < min budget fuel)) }
    ensures moved { IfOk result (λ w. IfSome w.stop (λ stop. w.local ≡ local_after (next_by program.now) local answer fuel (suc w.works))) }
    ensures ask { IfOk result (λ w. IfSome w.stop (λ stop. stop.ask ≡ ask_after (next_by program.now) local answer fuel w.works)) }
    ensures other { IfOk result (λ w. IfSome w.stop (λ stop. stop.ask ≡ ask.Work → ⊥)) }
    ensures place { IfOk result (λ w. IfSome w.stop (λ stop. stop.place ≡ (local_after (next_by program.now) local answer fuel w.works).at + 1)) }
{
    let most = most_steps(fuel, budget);
    if most == 0 {
        // The answer isn't told: there is no step that it could be told.
        return Ok(row(local, 0));
    }
    steps(alloc, program, local, answer, fuel - 1, most)
}
