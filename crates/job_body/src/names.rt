// Names of jobs.
ghost use Rattle.std.specs.Prelude.{◌≡◌, ℕ, List, flat_map, IfOk};
ghost use Rattle.job_body.specs.NamesOfJob.{IsNaming, names_of_job, queue_name};
ghost use Rattle.job_body.specs.PlanOfJob.{plan_of_job};
ghost use Rattle.job_body.specs.Tasks.{before_task, root_object_of};

use crate::lines::lines;
use job_reader::Line;
use privilege_check::CheckedJob;
use std::alloc::Global;
use swan_model::{Names, NoMemory, QueueName, QueueNames, Shown, Word, Words};

/// The names of the inputs and outputs.
fn queue_names(alloc: Global, lines: &[Line]) -> Result<QueueNames, NoMemory>
    ensures { IfOk result (λ names. names ≡ flat_map queue_name (before_task lines.now)) }
{
    let mut names = QueueNames::new(alloc);
    for line in lines {
        let (name, shown) = match line {
            Line::Task(_) => break,
            Line::Input(name) => (name, Shown::Left),
            Line::Output(name, _) => (name, Shown::Out),
            _ => continue,
        };
        let name = Word::of(alloc, name.as_str())?;
        if names.push(QueueName { name, shown }).is_err() {
            return Err(NoMemory);
        }
    }
    Ok(names)
}

/// The names of the objects of the top level.
fn object_names(alloc: Global, lines: &[Line]) -> Result<Words, NoMemory>
    ensures { IfOk result (λ names. names ≡ flat_map root_object_of (before_task lines.now)) }
{
    let mut names = Words::new(alloc);
    for line in lines {
        match line {
            Line::Task(_) => break,
            Line::Object(name, _) => {
                if names.push(Word::of(alloc, name.as_str())?).is_err() {
                    return Err(NoMemory);
                }
            }
            _ => {}
        }
    }
    Ok(names)
}

/// The names with which the outcome of a job's plan is printed. Inputs are shown as Left and outputs
/// as Out, in the order of the plan's queues. `O(lines)`.
pub fn names_of(alloc: Global, job: &CheckedJob) -> Result<Names, NoMemory>
    ensures names { IfOk result (λ names. names ≡ names_of_job job.now) }
    ensures as_many { IfOk result (λ names. (texts : List (List ℕ)) (fuel : ℕ) → IsNaming names (plan_of_job job.now texts fuel).roots) }
{
    Ok(Names {
        queues: queue_names(alloc, lines(job))?,
        objects: object_names(alloc, lines(job))?,
    })
}
