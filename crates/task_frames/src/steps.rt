// Numbers of serial steps.
ghost use Rattle.std.specs.Prelude.{◌≡◌, ◌+◌, ◌<◌, ◌^◌};

/// A number of serial steps that were taken. Only the calls of this crate that take steps make one, and `add` puts two together.
#[derive(Drop)]
pub struct Steps {
    count: u64,
}

impl Steps {
    /// So many. It takes no memory. `O(1)`.
    pub(crate) fn of(count: u64) -> Steps
        ensures { result.count ≡ count }
    {
        Steps { count }
    }

    /// How many. It takes no memory. `O(1)`.
    pub fn count(&self) -> u64
        ensures { result ≡ self.now.count }
    {
        self.count
    }

    /// Both together, of which there are fewer than 2^64. It takes no memory. `O(1)`.
    pub fn add(self, other: Steps) -> Steps
        requires { self.count + other.count < 2 ^ 64 }
        ensures { result.count ≡ self.count + other.count }
    {
        Steps {
            count: self.count + other.count,
        }
    }
}
