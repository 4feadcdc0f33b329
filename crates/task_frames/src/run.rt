// Whose a frame is.
use std::marker::Model;
use swan_model::{Body, Plan};

/// Which run it is, where runs are told apart: the run of its queues. No value of it is ever made. Contracts see it
/// as a list of numbers, which is empty where runs aren't told apart.
pub struct Run {
    _never: u8,
}

impl Model for Run {
    ghost use Rattle.std.specs.Prelude.{List, ℕ, []};

    ghost Value = { List ℕ };

    ghost view = { λ _. [] };
}

/// The run of a plan: the plan, and which run of it. It is the name of a run's frames.
pub struct PlanRun<B: Body> {
    /// The plan.
    pub plan: Plan<B>,
    /// Which run.
    pub run: Run,
}
