// Which object it is.
ghost use Rattle.std.specs.Prelude.{◌≡◌, ◌+◌};

use std::marker::Model;
use swan_model::{Meaning, Means};

/// The number of an object: how many were made before it. It has no bytes, since no code asks for it, and so it has no
/// limit. Contracts see it as the number.
#[derive(Drop)]
pub struct ObjectNumber {
    meaning: Meaning<u64>,
}

impl Model for ObjectNumber {
    ghost use Rattle.std.specs.Prelude.{ℕ};

    ghost Value = { ℕ };

    ghost view = { λ number. number.meaning.means };
}

impl ObjectNumber {
    /// The number of the first object. `O(1)`.
    pub fn first() -> ObjectNumber
        ensures { result ≡ 0 }
    {
        ObjectNumber {
            meaning: Meaning::of(&First),
        }
    }

    /// The number of the object after this one. `O(1)`.
    pub fn next(&self) -> ObjectNumber
        ensures { result ≡ self.now + 1 }
    {
        ObjectNumber {
            meaning: Meaning::of(&After { number: self }),
        }
    }

    /// The same number once more. `O(1)`.
    pub fn again(&self) -> ObjectNumber
        ensures { result ≡ self.now }
    {
        ObjectNumber {
            meaning: self.meaning.again(),
        }
    }
}

/// It means no object before.
#[derive(Drop)]
struct First;

impl Means<u64> for First {
    ghost means = { λ _. 0 };
}

/// It means one object more before.
#[derive(Drop)]
struct After<'a> {
    number: &'a ObjectNumber,
}

impl Means<u64> for After<'_> {
    ghost use Rattle.std.specs.Prelude.{◌+◌};

    ghost means = { λ after. after.number.now + 1 };
}
