// How long a worker sleeps that takes no step.
ghost use Rattle.std.specs.Prelude.{◌≡◌, ◌+◌, ◌-◌, ◌*◌, ◌^◌, ◌<◌, IfSome, IfNone, min};
ghost use Rattle.swan_runtime.specs.declared.limits.TheConstants.{FRUITLESS_MOST, SLEEP_LEAST, SLEEP_MOST};

use crate::{FRUITLESS_MOST, SLEEP_LEAST};

/// How often the length of a sleep doubles, from the first one to the longest.
const DOUBLINGS: u32 = 6;

/// How long a worker sleeps that has slept so often since its last step, in microseconds. It takes no memory. `O(1)`.
fn sleep_of(sleeps: u32) -> u64
    ensures { result ≡ min (SLEEP_LEAST * 2 ^ sleeps) SLEEP_MOST }
{
    SLEEP_LEAST << sleeps.min(DOUBLINGS)
}

/// What a worker has found since its last step.
#[derive(Drop)]
pub(crate) struct Backoff {
    /// How many turns in a row took no step, since the last step or sleep.
    fruitless: u32,
    /// How often it has slept since its last step.
    sleeps: u32,
    ghost few: { fruitless < FRUITLESS_MOST },
}

impl Backoff {
    /// That of a worker that has just taken a step, or is about to take its first turn. It takes no memory. `O(1)`.
    pub fn new() -> Backoff
        ensures { (result.fruitless ≡ 0) × (result.sleeps ≡ 0) }
    {
        Backoff {
            fruitless: 0,
            sleeps: 0,
        }
    }

    /// Notes a turn that took no step. The answer is how long the worker sleeps now, in microseconds; None comes where it goes on at once. It
    /// takes no memory. `O(1)`.
    pub fn notes(&mut self) -> Option<u64>
        // after so many turns in a row it sleeps, and each further time twice as long, up to the most
        ensures turns { IfSome result (λ micros. self.old.fruitless + 1 ≡ FRUITLESS_MOST) }
        ensures sleeps { IfSome result (λ micros. micros ≡ min (SLEEP_LEAST * 2 ^ self.old.sleeps) SLEEP_MOST) }
        ensures slept { IfSome result (λ micros. (self.new.fruitless ≡ 0) × (self.new.sleeps ≡ min (self.old.sleeps + 1) (2 ^ 32 - 1))) }

        // else it has one such turn more
        ensures goes_on { IfNone result ((self.new.fruitless ≡ self.old.fruitless + 1) × (self.new.sleeps ≡ self.old.sleeps)) }
    {
        if self.fruitless + 1 < FRUITLESS_MOST {
            self.fruitless += 1;
            return None;
        }
        let micros = sleep_of(self.sleeps);
        self.fruitless = 0;
        self.sleeps = self.sleeps.saturating_add(1);
        Some(micros)
    }
}
