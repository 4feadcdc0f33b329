// Plans of jobs.
ghost use Rattle.std.specs.Prelude.{◌≡◌, ◌+◌, ◌<◌, ◌≤◌, ◌⊎◌, IsTrue, ◌++◌, ◌∷◌, [], length, IfOk, IfErr, Some, None, Option};
ghost use Rattle.job_body.specs.PlanOfJob.{first_refused, input_count, items_of, or_refused, plan_of_job, refusal_of_plan, root_objects, root_queues};
ghost use Rattle.job_body.specs.RightsKept.{KeepsRights};
ghost use Rattle.job_body.specs.Tasks.{top_lines};
ghost use Rattle.job_body.specs.declared.answer.PlanAnswer.{PlanAnswer};
ghost use Rattle.job_body.specs.declared.answer.PlanAnswer.TheVariants as answer;
ghost use Rattle.swan_model.specs.Lines.{refusal_of};
ghost use Rattle.swan_model.specs.Rights.{is_queue_mode};
ghost use Rattle.swan_model.specs.Values.{zero_of};
ghost use Rattle.swan_model.specs.declared.rights.Mode.TheVariants as mode;

use crate::lines::lines;
use crate::{JobBody, PlanAnswer};
use job_reader::Line;
use privilege_check::CheckedJob;
use std::alloc::Global;
use swan_model::{
    Blob, Body, FIRST_ITEMS_MOST, FUEL_MOST, Kind, Mode, NoMemory, Plan, PlanFuel, ROOTS_MOST,
    RootQueue, Roots, Value, Values, lines_of,
};

/// How many inputs a job has.
fn input_count(lines: &[Line]) -> usize
    ensures { result ≡ input_count lines.now }
{
    let mut count = 0;
    for line in lines {
        match line {
            Line::Task(_) => break,
            Line::Input(_) => count += 1,
            _ => {}
        }
    }
    count
}

/// The roots with one more queue.
fn with_queue(mut roots: Roots, mode: Mode, items: Values) -> Result<Roots, NoMemory>
    requires room { length roots.queues + length roots.objects < ROOTS_MOST }
    requires mode { IsTrue (is_queue_mode mode) }
    requires items { length items ≤ FIRST_ITEMS_MOST }
    ensures { IfOk result (λ all. all ≡ record roots { queues = roots.queues ++ (record { mode = mode; items = items }) ∷ [] }) }
{
    match roots.push_queue(RootQueue { mode, items }) {
        Ok(()) => Ok(roots),
        Err(_) => Err(NoMemory),
    }
}

/// The roots with one more object, at the zero of its kind.
fn with_object(mut roots: Roots, kind: Kind) -> Result<Roots, NoMemory>
    requires room { length roots.queues + length roots.objects < ROOTS_MOST }
    ensures { IfOk result (λ all. all ≡ record roots { objects = roots.objects ++ zero_of kind ∷ [] }) }
{
    match roots.push_object(Value::zero(kind)) {
        Ok(()) => Ok(roots),
        Err(_) => Err(NoMemory),
    }
}

/// The items of the input with this number.
fn items_of(alloc: Global, number: u64, input: &Blob) -> Result<Values, PlanAnswer>
    ensures items { IfOk result (λ items. items ≡ items_of input.now) }
    ensures few { IfOk result (λ items. length items ≤ FIRST_ITEMS_MOST) }
    ensures accepted { IfOk result (λ _. refusal_of input.now ≡ None) }
    ensures refused { IfErr result (λ why. (why ≡ answer.NoMemory) ⊎ ((others : Option PlanAnswer) → or_refused number (refusal_of input.now) others ≡ Some why)) }
{
    match lines_of(alloc, input.as_slice()) {
        Ok(items) => Ok(items),
        Err(why) => Err(PlanAnswer::of_input(number, why)),
    }
}

/// The root queues and objects of a job over its inputs. A job has fewer lines than a plan may have of them.
fn fill(alloc: Global, lines: &[Line], inputs: &[Blob]) -> Result<Roots, PlanAnswer>
    requires inputs { length inputs.now ≡ input_count lines.now }
    requires few { length lines.now ≤ ROOTS_MOST }

    // what the roots are
    ensures queues { IfOk result (λ roots. roots.queues ≡ root_queues (top_lines lines.now) inputs.now) }
    ensures objects { IfOk result (λ roots. roots.objects ≡ root_objects (top_lines lines.now)) }

    // and when there are none
    ensures accepted { IfOk result (λ _. first_refused 1 inputs.now ≡ None) }
    ensures refused { IfErr result (λ why. (why ≡ answer.NoMemory) ⊎ (first_refused 1 inputs.now ≡ Some why)) }
{
    let mut roots = Roots::new(alloc);
    let mut next = 0;
    for line in lines {
        match line {
            Line::Task(_) => break,
            Line::Input(_) => {
                let items = items_of(alloc, next as u64 + 1, &inputs[next])?;
                roots = with_queue(roots, Mode::Pop, items)?;
                next += 1;
            }
            Line::Output(_, _) => roots = with_queue(roots, Mode::Push, Values::new(alloc))?,
            Line::Object(_, kind) => roots = with_object(roots, *kind)?,
            _ => {}
        }
    }
    Ok(roots)
}

/// The plan of a job over its inputs, with this fuel, at most `FUEL_MOST`. The root queues are the job's inputs, to pop
/// from and each with its lines, and its outputs, to push to, in the order of their lines. The objects
/// start at the zero of their kinds. In the elision of the plan no fault is Privilege and none is Alias,
/// since the check has refused each line that could meet one.
///
/// Inputs comes exactly where the number of inputs isn't the job's. Otherwise the first input, counted
/// from 1, that `lines_of` refuses is named, by RecordTooLong or by TooManyRecords. `O(n log n)` for n
/// lines, names and values of the job, and linear in the inputs: each is copied once, and its records share the copy.
pub fn plan_of(
    alloc: Global,
    job: CheckedJob,
    inputs: Vec<Blob>,
    fuel: u64,
) -> Result<Plan<JobBody>, PlanAnswer>
    requires { fuel ≤ FUEL_MOST }

    // what the plan is
    ensures plan { IfOk result (λ plan. plan ≡ plan_of_job job inputs.items fuel) }
    ensures rights { IfOk result (λ plan. KeepsRights ⟦<JobBody as Body>⟧ plan) }

    // and when there is none
    ensures accepted { IfOk result (λ _. refusal_of_plan job inputs.items ≡ None) }
    ensures refused { IfErr result (λ why. (why ≡ answer.NoMemory) ⊎ (refusal_of_plan job inputs.items ≡ Some why)) }
{
    let wanted = input_count(lines(&job));
    if inputs.len() != wanted {
        return Err(PlanAnswer::Inputs {
            wanted: wanted as u64,
            given: inputs.len() as u64,
        });
    }
    let roots = fill(alloc, lines(&job), inputs.as_slice())?;
    let body = JobBody::new(alloc, job)?;
    let root_local = body.main(alloc)?;
    Ok(Plan {
        body,
        root_local,
        roots,
        fuel: PlanFuel::new(fuel),
    })
}
