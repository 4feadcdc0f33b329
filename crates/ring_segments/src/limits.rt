// The limit of places, with its number.
ghost use Rattle.std.specs.Prelude.{◌≡◌};
ghost use Rattle.ring_segments.specs.declared.ring.TheConstants.{RING_PLACES_MOST};

/// The law that says of the most places of a segment which number it is.
pub fn limit_of_places()
    ensures { RING_PLACES_MOST ≡ 16777216 }
{}
