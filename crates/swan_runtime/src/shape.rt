// How many workers there are.
ghost use Rattle.std.specs.Prelude.{◌≡◌, ◌≤◌, IfSome, IfNone};
ghost use Rattle.swan_runtime.specs.Workers.{IsShape};

/// The most workers that a run may have.
pub const WORKERS_MOST: u32 = 256;

/// The longest ring that an end of a queue may have.
pub const RING_MOST: u32 = 4096;

/// How many workers run a plan, and how many items the rings of its queues take, where they have rings.
#[derive(Clone, Copy, Debug, PartialEq, Eq)]
pub struct Shape {
    workers: u32,
    ring: u32,
    ghost within: { IsShape workers ring },
}

impl Shape {
    /// So many workers, of which there are 1 to `WORKERS_MOST`, and rings of 1 to `RING_MOST` items. None comes exactly where
    /// one of them is not within its limits. It takes no memory. `O(1)`.
    pub fn new(workers: u32, ring: u32) -> Option<Shape>
        ensures some { IfSome result (λ shape. (shape.workers ≡ workers) × (shape.ring ≡ ring)) }
        ensures none { IfNone result (¬ IsShape workers ring) }
    {
        if 1 <= workers && workers <= WORKERS_MOST && 1 <= ring && ring <= RING_MOST {
            Some(Shape { workers, ring })
        } else {
            None
        }
    }

    /// How many workers. It takes no memory. `O(1)`.
    pub fn workers(&self) -> u32
        ensures workers { result ≡ self.now.workers }
        ensures within { (1 ≤ result) × (result ≤ WORKERS_MOST) }
    {
        self.workers
    }
}
