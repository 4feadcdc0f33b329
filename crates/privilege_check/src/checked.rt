// Checked jobs.
ghost use Rattle.std.specs.Prelude.{◌≡◌, Some, None, IfOk, OnOk};
ghost use Rattle.privilege_check.specs.FirstFault.{first_fault};

use crate::checker::Checker;
use crate::refusal::CheckLine;
use job_reader::{Job, JobFault, Line};
use std::alloc::Global;
use std::marker::Model;
use swan_model::NoMemory;

/// A job that has no fault: its names are known, of the right sorts and kinds, and used as they may
/// be. Contracts see it as the list of its lines. Only `check` makes one.
#[derive(Drop)]
pub struct CheckedJob {
    job: Job,
}

impl Model for CheckedJob {
    ghost use Rattle.std.specs.Prelude.{◌≡◌, List, None};
    ghost use Rattle.job_reader.specs.declared.line.Line.{Line};
    ghost use Rattle.privilege_check.specs.FirstFault.{first_fault};

    ghost Value = { List Line };

    ghost view = { λ checked. checked.job };

    ghost invariant = { λ checked. first_fault checked.job ≡ None };
}

impl CheckedJob {
    /// The job. It takes no memory. `O(1)`.
    pub fn job(&self) -> &Job
        ensures job { result.now ≡ self.now }
        ensures faultless { first_fault self.now ≡ None }
    {
        &self.job
    }
}

/// Why there is no checked job.
#[derive(Clone, Copy, Debug, PartialEq, Eq)]
pub enum CheckJob {
    /// The job has a fault, of which this is the first.
    Refused(JobFault),
    /// Memory ran out.
    NoMemory,
}

/// The first fault of lines, if they have one.
fn first_fault(alloc: Global, lines: &[Line]) -> Result<Option<JobFault>, NoMemory>
    ensures { IfOk result (λ fault. fault ≡ first_fault lines.now) }
{
    let mut checker = Checker::new(alloc);
    for (index, line) in lines.iter().enumerate() {
        match checker.check(line) {
            Ok(()) => checker.learn(line)?,
            Err(CheckLine::NoMemory) => return Err(NoMemory),
            Err(CheckLine::Refused(kind)) => {
                let line = index as u64 + 1;
                return Ok(Some(JobFault { line, kind }));
            }
        }
    }
    Ok(checker.without_main(lines.len() as u64))
}

/// The same job, checked. Refused comes exactly where a line has a fault of names, kinds or rights,
/// or where there is no task `main`, and names the first faulty line with the first fault that it has;
/// NoMain is named at the last line, where no line has a fault. `O(n log n)` for n lines, names and values
/// of the job, and an allocation now and then for what is declared and for what spawns give. Names aren't
/// copied.
pub fn check(alloc: Global, job: Job) -> Result<CheckedJob, CheckJob>
    ensures job { IfOk result (λ checked. checked ≡ job) }
    ensures accepted { OnOk result (first_fault job ≡ None) }
    ensures refused { (fault : JobFault) → result ≡ Err (CheckJob.Refused fault) → first_fault job ≡ Some fault }
{
    match first_fault(alloc, job.as_slice()) {
        Ok(None) => Ok(CheckedJob { job }),
        Ok(Some(fault)) => Err(CheckJob::Refused(fault)),
        Err(NoMemory) => Err(CheckJob::NoMemory),
    }
}
