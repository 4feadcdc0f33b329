// A version, and what it is.
use crate::ObjectNumber;
use swan_model::Value;

/// What a version is.
#[derive(Drop)]
pub enum NodeState {
    /// It has this value.
    Settled(Value),
    /// The frame of this number owes it.
    Owed(u64),
}

/// A version of an object.
#[derive(Drop)]
pub struct Node {
    /// Which object it is a version of. Contracts speak of it; no code asks for it.
    pub object: ObjectNumber,
    /// Its value, or who owes it.
    pub state: NodeState,
    /// How often places refer to it, each three times at most. It is given up when none does.
    pub uses: u128,
}
