// Seats that found nothing.
ghost use Rattle.std.specs.Prelude.{◌≡◌};

use crate::deque::Empty;
use crate::stealing::Tried;

/// Shows that a `take` found nothing. Only `PoolSeat::take` makes one, once it has popped an empty deque and has tried the others.
#[derive(Drop)]
pub struct Dry {
    _own: Empty,
    pub(crate) tried: Tried,
}

impl Dry {
    /// It is made of what the pop of the seat's own deque answered, and of what shows where a steal was tried. `O(1)`.
    pub(crate) fn new(own: Empty, tried: Tried) -> Dry
        ensures { result.tried ≡ tried }
    {
        Dry { _own: own, tried }
    }
}
