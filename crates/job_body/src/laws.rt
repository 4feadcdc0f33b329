// Laws of the steps of jobs, which say nothing of any call.
ghost use Rattle.std.specs.Prelude.{◌≡◌, ℕ, List, None};
ghost use Rattle.job_reader.specs.Jobs.{IsJob};
ghost use Rattle.job_reader.specs.declared.line.Line.{Line};
ghost use Rattle.privilege_check.specs.FirstFault.{first_fault};
ghost use Rattle.job_body.specs.PlanOfJob.{plan_of_job};
ghost use Rattle.job_body.specs.RightsKept.{KeepsRights};

use crate::JobBody;
use swan_model::Body;

/// The law that a job without a fault never meets a fault of rights when it runs: in the elision of its
/// plan, over any inputs and with any fuel, no fault is Privilege and none is Alias, after any number
/// of steps.
pub fn rights_are_kept()
    ensures { (job : List Line) (texts : List (List ℕ)) (fuel : ℕ) → IsJob job → first_fault job ≡ None →
        KeepsRights ⟦<JobBody as Body>⟧ (plan_of_job job texts fuel) }
{}
