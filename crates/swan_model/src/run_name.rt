// Names of runs.
ghost use Rattle.std.specs.Prelude.{◌≡◌, ◌≤◌, Some, None, length};
ghost use Rattle.std.specs.Option.{ForSome};
ghost use Rattle.swan_model.specs.Script.{script};

use crate::{Body, Meaning, Means, Plan, Script};
use std::marker::Model;

/// The largest number of entries of a script: twice the largest fuel and two.
pub const ENTRIES_MOST: u64 = 8_000_000_002;

/// The name of a run. It has no bytes. It means a script, which has at most 8,000,000,002 entries, or
/// nothing. Contracts see it as that.
///
/// Whatever belongs to a run has its name, so contracts can say of which script its parts speak.
#[derive(Drop)]
pub struct RunName {
    meaning: Meaning<Option<Script>>,
}

impl Model for RunName {
    ghost use Rattle.std.specs.Prelude.{Option, ◌≤◌, length};
    ghost use Rattle.std.specs.Option.{ForSome};
    ghost use Rattle.swan_model.specs.declared.script.Script.{Script as TheScript};
    ghost use Rattle.swan_model.specs.declared.run_name.TheConstants.{ENTRIES_MOST};

    ghost Value = { Option TheScript };

    ghost view = { λ name. name.meaning.means };

    ghost invariant = { λ name. ForSome name.meaning.means (λ s. length s.entries ≤ ENTRIES_MOST) };
}

impl RunName {
    /// The name that means the plan's script. It takes no memory. `O(1)`.
    #[tactic(auto, using(crate::proofs::ScriptLength::le_script))]
    pub fn of<B: Body>(plan: &Plan<B>) -> RunName
        ensures { result ≡ Some (script B.Body plan.now) }
    {
        // Brings in the bound of the fuel, from which that of the script follows.
        let _most = plan.fuel.units();
        RunName {
            meaning: Meaning::of(&ScriptOf { plan }),
        }
    }

    /// The free name, which means nothing. It takes no memory. `O(1)`.
    pub fn free() -> RunName
        ensures { result ≡ None }
    {
        RunName {
            meaning: Meaning::of(&Nothing),
        }
    }

    /// The same name once more. It takes no memory. `O(1)`.
    pub fn again(&self) -> RunName
        ensures same { result ≡ self.now }
        ensures most { ForSome self.now (λ s. length s.entries ≤ ENTRIES_MOST) }
    {
        RunName {
            meaning: self.meaning.again(),
        }
    }
}

/// It means the plan's script.
#[derive(Drop)]
struct ScriptOf<'a, B: Body> {
    plan: &'a Plan<B>,
}

impl<B: Body> Means<Option<Script>> for ScriptOf<'_, B> {
    ghost use Rattle.std.specs.Prelude.{Some};
    ghost use Rattle.swan_model.specs.Script.{script};

    ghost means = { λ s. Some (script B.Body s.plan.now) };
}

/// It means nothing.
#[derive(Drop)]
struct Nothing;

impl Means<Option<Script>> for Nothing {
    ghost use Rattle.std.specs.Prelude.{None};

    ghost means = { λ _. None };
}
