// What is kept of an object at a place of a frame.
ghost use Rattle.std.specs.Prelude.{◌≡◌};

use crate::ObjectNumber;
use swan_model::{Kind, Mode};

/// An object at a place of a frame. Versions are named by their keys.
#[derive(Drop)]
pub struct PlacedObject {
    /// Which object it is. Contracts speak of it; no code asks for it.
    pub object: ObjectNumber,
    /// The kind of the object's first value.
    pub kind: Kind,
    /// How the frame may use it. Contracts speak of it; no code asks for it.
    pub mode: Mode,
    /// The version that the frame was given to read, where the frame may wait for it.
    pub given: Option<usize>,
    /// The version that the frame has now.
    pub present: usize,
    /// The version that the frame owes until it settles it, when it ends.
    pub owes: Option<usize>,
}

impl PlacedObject {
    /// The same once more. `O(1)`.
    pub fn again(&self) -> PlacedObject
        ensures { result ≡ self.now }
    {
        PlacedObject {
            object: self.object.again(),
            kind: self.kind,
            mode: self.mode,
            given: self.given,
            present: self.present,
            owes: self.owes,
        }
    }
}
