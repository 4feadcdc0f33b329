// What an activation holds at one of its places.
ghost use Rattle.std.specs.Prelude.{◌≡◌};
ghost use Rattle.swan_model.specs.SerialStep.{number_at};

use std::marker::Model;
use swan_model::Mode;

/// The cell or the queue of this number, held by this mode. Contracts see it as the holding of the
/// serial state.
#[derive(Clone, Copy)]
pub struct Holding {
    /// How it may be used.
    pub mode: Mode,
    /// Which cell or queue it is.
    pub number: usize,
}

impl Model for Holding {
    ghost use Rattle.swan_model.specs.SerialState.{Holding as TheHolding};

    ghost Value = { TheHolding };

    ghost view = { λ holding. record { mode = holding.mode; number = holding.number } };

    ghost inverse = { λ held. record { mode = held.mode; number = held.number } };
}

/// The number of the object or queue at a place of one who holds this, and None exactly where it may not be
/// used so. `O(1)`.
#[inline(always)]
pub fn number_at(holdings: &[Holding], place: u32, mode: Mode) -> Option<usize>
    ensures { result ≡ number_at holdings.now place mode }
{
    let holding = holdings.get(place as usize)?;
    if holding.mode.allows(mode) {
        Some(holding.number)
    } else {
        None
    }
}
