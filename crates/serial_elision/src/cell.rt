// The objects of an elision.
use std::marker::Model;
use swan_model::{Kind, Origin, Value};

/// An object. Contracts see it as the cell of the serial state.
#[derive(Drop)]
pub struct Cell {
    /// What made it.
    pub origin: Origin,
    /// The kind of its first value.
    pub kind: Kind,
    /// Its value.
    pub value: Value,
}

impl Model for Cell {
    ghost use Rattle.swan_model.specs.SerialState.{Cell as TheCell};

    ghost Value = { TheCell };

    ghost view = { λ cell. record { origin = cell.origin; kind = cell.kind; value = cell.value } };
}
