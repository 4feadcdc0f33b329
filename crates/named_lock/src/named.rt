// Values with a name.
ghost use Rattle.std.specs.Prelude.{Bool};

use std::marker::Send;

/// A value that means a name, and that is done or not. It has no calls: what it means is there for contracts.
pub trait Named: Drop + Send {
    /// What names are.
    type Name;

    /// The value's name.
    ghost name: { Self → Self.Name };

    /// Whether nothing is left to be done with it.
    ghost done: { Self → Bool };
}
