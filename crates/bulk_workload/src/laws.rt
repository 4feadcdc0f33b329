// The law that the generated workload is in order.
ghost use Rattle.std.specs.Prelude.{◌≡◌, ℕ, ◌≤◌};
ghost use Rattle.bulk_workload.specs.NeverRefused.{IsNeverRefused};
ghost use Rattle.bulk_workload.specs.declared.texts.TheConstants.{BULK_MOST};

/// The law that the generated job is never refused: its text reads as a job, no line of it has a fault, and it has a
/// plan over its input.
#[tactic(auto, using(crate::proofs::Orders::never_refused))]
pub fn a_bulk_job_is_never_refused()
    ensures { (number size : ℕ) → size ≤ BULK_MOST → IsNeverRefused number size }
{}

/// The law that says of the limit of a workload which number it is.
pub fn limit_of_bulk()
    ensures { BULK_MOST ≡ 300000 }
{}
