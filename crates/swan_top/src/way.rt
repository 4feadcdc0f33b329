// The ways to run a plan.
ghost use Rattle.std.specs.Prelude.{◌≡◌};
ghost use Rattle.swan_top.specs.Elisions.{cheapest};

/// A way to run a plan. What it leaves is the same by each.
#[derive(Clone, Copy)]
pub enum Way {
    /// The serial elision: a spawn is an ordinary call.
    Elide,
    /// The runtime: a core of the run has what tasks share, and workers take the tasks' steps.
    Run {
        /// How many workers.
        workers: u32,
    },
}

impl Way {
    /// The cheapest way with so many workers: the elision for one, and the runtime for several. It takes no memory. `O(1)`.
    pub fn cheapest(workers: u32) -> Way
        ensures { result ≡ cheapest workers }
    {
        if workers <= 1 {
            Way::Elide
        } else {
            Way::Run { workers }
        }
    }
}
