// The lines of checked jobs.
ghost use Rattle.std.specs.Prelude.{◌≡◌, None};
ghost use Rattle.job_reader.specs.Jobs.{IsJob};
ghost use Rattle.privilege_check.specs.FirstFault.{first_fault};

use job_reader::Line;
use privilege_check::CheckedJob;

/// The lines of a checked job. It takes no memory. `O(1)`.
pub fn lines(job: &CheckedJob) -> &[Line]
    ensures lines { result.now ≡ job.now }
    ensures job { IsJob job.now }
    ensures faultless { first_fault job.now ≡ None }
{
    job.job().as_slice()
}
