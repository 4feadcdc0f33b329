// What a frame holds at one of its places.
ghost use Rattle.std.specs.Prelude.{◌≡◌, ◌≢◌, true, false};
ghost use Rattle.swan_model.specs.SerialStep.{number_at};

use std::marker::Model;
use swan_model::Mode;

/// The object or the queue of this number in the run, held by this mode. Contracts see it as the holding of the
/// serial state.
#[derive(Clone, Copy, Debug, PartialEq, Eq)]
pub struct Holding {
    /// How it may be used.
    pub mode: Mode,
    /// Which object or queue it is.
    pub number: u32,
}

impl Model for Holding {
    ghost use Rattle.swan_model.specs.SerialState.{Holding as TheHolding};

    ghost Value = { TheHolding };

    ghost view = { λ holding. record { mode = holding.mode; number = holding.number } };

    ghost inverse = { λ held. record { mode = held.mode; number = held.number } };
}

/// The number of the object or queue at a place of one who holds this, and None exactly where it may not be
/// used so. `O(1)`.
pub(crate) fn number_at(holdings: &[Holding], place: u32, mode: Mode) -> Option<u32>
    ensures { result ≡ number_at holdings.now place mode }
{
    let holding = holdings.get(place as usize)?;
    if holding.mode.allows(mode) {
        Some(holding.number)
    } else {
        None
    }
}

/// Whether two hold the same, place by place. `O(k)` for k places; it takes no memory.
pub(crate) fn hold_same(held: &[Holding], other: &[Holding]) -> bool
    ensures yes { result ≡ true → held.now ≡ other.now }
    ensures no { result ≡ false → held.now ≢ other.now }
{
    held == other
}
