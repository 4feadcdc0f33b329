// What is left of a run, and what shows that a core ran.
ghost use Rattle.std.specs.Prelude.{◌≡◌};

use std::marker::Model;
use swan_model::{Meaning, Outcome, Script};

/// Shows that a core ran a plan to its end. It has no bytes, and means the plan's script. Only `RunOutcome::outcome` makes
/// one.
#[derive(Drop)]
pub struct Ran {
    script: Meaning<Script>,
}

impl Model for Ran {
    ghost use Rattle.swan_model.specs.declared.script.Script.{Script as TheScript};

    ghost Value = { TheScript };

    ghost view = { λ ran. ran.script.means };
}

/// The outcome of a run out of order, which means the script of the plan that its core named. Only `Core::take_outcome` makes
/// one.
#[derive(Drop)]
pub struct RunOutcome {
    outcome: Outcome,
    script: Meaning<Script>,
}

impl RunOutcome {
    /// The outcome of a run with this script. It takes no memory. `O(1)`.
    pub(crate) fn of(outcome: Outcome, script: Meaning<Script>) -> RunOutcome
        ensures outcome { result.outcome ≡ outcome }
        ensures script { result.script.means ≡ script.means }
    {
        RunOutcome { outcome, script }
    }

    /// The outcome, and what shows that a core ran. It takes no memory. `O(1)`.
    pub fn outcome(self) -> (Outcome, Ran)
        ensures outcome { result.0 ≡ self.outcome }
        ensures ran { result.1 ≡ self.script.means }
    {
        let RunOutcome { outcome, script } = self;
        (outcome, Ran { script })
    }
}
