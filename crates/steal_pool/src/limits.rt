// The limit of seats, with its number.
ghost use Rattle.std.specs.Prelude.{◌≡◌};
ghost use Rattle.steal_pool.specs.declared.opening.TheConstants.{SEATS_MOST};

/// The law that says of the most seats of a pool which number it is.
pub fn limit_of_seats()
    ensures { SEATS_MOST ≡ 256 }
{}
