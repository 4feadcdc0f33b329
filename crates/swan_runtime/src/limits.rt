// The limits of shapes and sleeps, with their numbers.
ghost use Rattle.std.specs.Prelude.{◌≡◌};
ghost use Rattle.swan_runtime.specs.declared.limits.TheConstants.{FRUITLESS_MOST, SLEEP_LEAST, SLEEP_MOST};
ghost use Rattle.swan_runtime.specs.declared.shape.TheConstants.{RING_MOST, WORKERS_MOST};

/// How many turns in a row may take no step before a worker sleeps.
pub const FRUITLESS_MOST: u32 = 16;

/// How long a worker sleeps first, in microseconds.
pub const SLEEP_LEAST: u64 = 50;

/// How long a worker sleeps at most, in microseconds.
pub const SLEEP_MOST: u64 = 3200;

/// The law that says of the most workers and of the longest ring of a shape which numbers they are. The definition of shapes
/// names them, so without it other numbers would change which shapes there are.
pub fn limits_of_shapes()
    ensures workers { WORKERS_MOST ≡ 256 }
    ensures ring { RING_MOST ≡ 4096 }
{}

/// The law that says after how many turns a worker sleeps, and how long it does at least and at most.
pub fn limits_of_sleeps()
    ensures fruitless { FRUITLESS_MOST ≡ 16 }
    ensures least { SLEEP_LEAST ≡ 50 }
    ensures most { SLEEP_MOST ≡ 3200 }
{}
