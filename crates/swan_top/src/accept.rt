// Accepting a job.
ghost use Rattle.std.specs.Prelude.{◌≡◌, Ok, Err, IfOk, IfErr};
ghost use Rattle.swan_top.specs.Decision.{accepted, job_line, job_refused, job_kind_text};
ghost use Rattle.swan_top.specs.Settled.{Stops, IsRefused};

use crate::Status;
use crate::verdict::WhyStopped;
use job_reader::{JobFault, JobKind, ReadJob, read_job};
use privilege_check::{CheckJob, CheckedJob, check};
use std::alloc::{AllocError, Global};
use swan_model::Blob;

// A kind of fault as it is written.
fn job_kind_text(kind: JobKind) -> &'static str
    ensures { result.now ≡ job_kind_text kind }
{
    match kind {
        JobKind::BadByte => "BadByte",
        JobKind::BadHeader => "BadHeader",
        JobKind::BadLine => "BadLine",
        JobKind::BadName => "BadName",
        JobKind::BadNumber => "BadNumber",
        JobKind::Unbalanced => "Unbalanced",
        JobKind::Limit => "Limit",
        JobKind::Duplicate => "Duplicate",
        JobKind::Unknown => "Unknown",
        JobKind::Kind => "Kind",
        JobKind::Arity => "Arity",
        JobKind::Privilege => "Privilege",
        JobKind::Alias => "Alias",
        JobKind::NoMain => "NoMain",
        JobKind::MainParams => "MainParams",
    }
}

// The line of a job's refusal.
fn refusal_line(alloc: Global, fault: JobFault) -> Result<Blob, AllocError>
    ensures { IfOk result (λ line. line ≡ job_line fault) }
{
    let line = fault.line;
    let kind = job_kind_text(fault.kind);
    let text = format!(in alloc; "refused {line} {kind}\n")?;
    Ok(Blob::new(text.into_bytes()))
}

// A job's refusal.
fn refuse_job(alloc: Global, fault: JobFault) -> WhyStopped
    ensures { Stops (λ verdict. verdict ≡ job_refused fault) result }
{
    match refusal_line(alloc, fault) {
        Ok(line) => WhyStopped::refused(line, Status::JobRefused),
        Err(_) => WhyStopped::NoMemory,
    }
}

// The job that a text is, or its refusal. The text is given up once it is read.
pub(crate) fn accept(alloc: Global, text: Vec<u8>) -> Result<CheckedJob, WhyStopped>
    ensures job { IfOk result (λ job. accepted text.items ≡ Ok job) }
    ensures refused { IfErr result (λ why. Stops (IsRefused text.items) why) }
{
    let job = match read_job(alloc, text.as_slice()) {
        Ok(job) => job,
        Err(ReadJob::Refused(fault)) => return Err(refuse_job(alloc, fault)),
        Err(ReadJob::NoMemory) => return Err(WhyStopped::NoMemory),
    };
    drop(text);
    match check(alloc, job) {
        Ok(job) => Ok(job),
        Err(CheckJob::Refused(fault)) => Err(refuse_job(alloc, fault)),
        Err(CheckJob::NoMemory) => Err(WhyStopped::NoMemory),
    }
}
