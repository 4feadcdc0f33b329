// The law of tasks that run whole.
ghost use Rattle.std.specs.Prelude.{◌≡◌, List};
ghost use Rattle.swan_model.specs.declared.fault.Fault.{Fault};
ghost use Rattle.swan_model.specs.declared.plan.Plan.{Plan};
ghost use Rattle.swan_model.specs.Elision.{outcome, root};
ghost use Rattle.whole_runs.specs.Whole.{Contents, RunsWhole, first_contents, outcome_of};

use swan_model::Body;

/// The law of a root that runs whole: where the plan's root, over what the plan begins with, ends and leaves
/// these contents and faults, the outcome of the plan is what they say.
pub fn a_whole_run_is_the_outcome<B: Body>()
    ensures { (plan : Plan B B.Local) (after : Contents) (faults : List Fault) →
        RunsWhole B.Body plan.body (root plan) (first_contents plan.roots) after faults →
        outcome B.Body plan ≡ outcome_of plan.roots after faults }
{}
