// Plans: what a run begins with.
ghost use Rattle.std.specs.Prelude.{◌≡◌, ◌+◌, ◌<◌, ◌≤◌, ◌++◌, ◌∷◌, [], length, IsTrue, OnOk, OnErr, IfErr};
ghost use Rattle.swan_model.specs.Rights.{is_queue_mode};

use crate::{Body, Listed, Mode, Value, Values};
use std::alloc::Global;
use std::marker::Model;

/// The largest fuel of a plan.
pub const FUEL_MOST: u64 = 4_000_000_000;

/// The largest number of queues and objects that a plan begins with, together.
pub const ROOTS_MOST: usize = 1_000_000;

/// The largest number of items that a queue of a plan begins with.
pub const FIRST_ITEMS_MOST: usize = 1_000_000;

/// At most `FUEL_MOST` units of fuel. Contracts see it as their number.
#[derive(Clone, Copy)]
pub struct PlanFuel {
    units: u64,
}

impl Model for PlanFuel {
    ghost use Rattle.std.specs.Prelude.{ℕ, ◌≤◌};
    ghost use Rattle.swan_model.specs.declared.plan.TheConstants.{FUEL_MOST};

    ghost Value = { ℕ };

    ghost view = { λ fuel. fuel.units };

    ghost invariant = { λ fuel. fuel.units ≤ FUEL_MOST };

    ghost inverse = { λ n. record { units = n } };
}

impl PlanFuel {
    /// So many units. `O(1)`.
    pub fn new(units: u64) -> PlanFuel
        requires { units ≤ FUEL_MOST }
        ensures { result ≡ units }
    {
        PlanFuel { units }
    }

    /// How many units. `O(1)`.
    pub fn units(self) -> u64
        ensures units { result ≡ self }
        ensures most { self ≤ FUEL_MOST }
    {
        self.units
    }
}

/// A queue that is there when the root begins.
#[derive(Drop)]
pub struct RootQueue {
    /// How the root may use it.
    pub mode: Mode,
    /// Its first items, in order.
    pub items: Values,
}

/// Queues in order.
pub type RootQueues = Listed<RootQueue>;

/// The queues and the objects that a plan begins with. They are at most `ROOTS_MOST` together, each
/// queue has a mode of queues and at most `FIRST_ITEMS_MOST` items. Contracts see them as the two
/// lists.
#[derive(Drop)]
pub struct Roots {
    queues: RootQueues,
    objects: Values,
}

impl Model for Roots {
    ghost use Rattle.swan_model.specs.Roots.{RootLists, IsWithinBounds};

    ghost Value = { RootLists };

    ghost view = { λ roots. record { queues = roots.queues; objects = roots.objects } };

    ghost invariant = { λ roots. IsWithinBounds roots.queues roots.objects };
}

impl Roots {
    ghost use Rattle.swan_model.specs.Roots.{IsWithinBounds};

    /// No queues and no objects. It takes no memory. `O(1)`.
    pub fn new(alloc: Global) -> Roots
        ensures queues { result.queues ≡ [] }
        ensures objects { result.objects ≡ [] }
    {
        Roots {
            queues: Listed::new(alloc),
            objects: Listed::new(alloc),
        }
    }

    /// The queues in order. `O(1)`.
    pub fn queues(&self) -> &RootQueues
        ensures queues { result.now ≡ self.now.queues }
        ensures bounds { IsWithinBounds self.now.queues self.now.objects }
    {
        &self.queues
    }

    /// The objects' first values in order. `O(1)`.
    pub fn objects(&self) -> &Values
        ensures objects { result.now ≡ self.now.objects }
        ensures bounds { IsWithinBounds self.now.queues self.now.objects }
    {
        &self.objects
    }

    /// Adds a queue after the others. `O(1)` amortised. An Err is want of memory: it hands the queue
    /// back and leaves the lists as they were.
    pub fn push_queue(&mut self, queue: RootQueue) -> Result<(), RootQueue>
        // that there is room, and a queue that a root may have
        requires room { length self.old.queues + length self.old.objects < ROOTS_MOST }
        requires mode { IsTrue (is_queue_mode queue.mode) }
        requires items { length queue.items ≤ FIRST_ITEMS_MOST }

        // what it leaves
        ensures ok { OnOk result (self.new ≡ record self.old { queues = self.old.queues ++ queue ∷ [] }) }
        ensures err { OnErr result (self.new ≡ self.old) }
        ensures handed_back { IfErr result (λ back. back ≡ queue) }
    {
        self.queues.push(queue)
    }

    /// Adds an object with this first value after the others. `O(1)` amortised. An Err is want of
    /// memory: it hands the value back and leaves the lists as they were.
    pub fn push_object(&mut self, value: Value) -> Result<(), Value>
        requires room { length self.old.queues + length self.old.objects < ROOTS_MOST }
        ensures ok { OnOk result (self.new ≡ record self.old { objects = self.old.objects ++ value ∷ [] }) }
        ensures err { OnErr result (self.new ≡ self.old) }
        ensures handed_back { IfErr result (λ back. back ≡ value) }
    {
        self.objects.push(value)
    }

    /// The two lists, without a copy. `O(1)`.
    pub fn into_lists(self) -> (RootQueues, Values)
        ensures queues { result.0 ≡ self.queues }
        ensures objects { result.1 ≡ self.objects }
        ensures bounds { IsWithinBounds self.queues self.objects }
    {
        (self.queues, self.objects)
    }
}

/// What a run begins with. The root's places are the queues in order, held by their modes, and then
/// the objects in order, to read and write.
#[derive(Drop)]
pub struct Plan<B: Body> {
    /// The program.
    pub body: B,
    /// The local that the root begins with.
    pub root_local: B::Local,
    /// The queues and objects that are there when the root begins.
    pub roots: Roots,
    /// The root's fuel, which is all fuel of the run.
    pub fuel: PlanFuel,
}
