// Values, and their kinds.
ghost use Rattle.std.specs.Prelude.{◌≡◌, IfOk};
ghost use Rattle.swan_model.specs.Values.{zero_of, kind_of};

use crate::{Listed, NoMemory, Record};

/// What a value is: a number or bytes.
#[derive(Clone, Copy, Debug, PartialEq, Eq)]
pub enum Kind {
    /// A signed number of 64 bits.
    Int,
    /// A record.
    Bytes,
}

/// A number or a record.
#[derive(Drop)]
pub enum Value {
    /// A signed number of 64 bits.
    Int(i64),
    /// A record, which copies share.
    Bytes(Record),
}

/// Values in order.
pub type Values = Listed<Value>;

/// Lists of values in order.
pub type ValueLists = Listed<Values>;

impl Value {
    /// The zero of a kind: the number 0, or the empty record. It takes no memory. `O(1)`.
    pub fn zero(kind: Kind) -> Value
        ensures { result ≡ zero_of kind }
    {
        match kind {
            Kind::Int => Value::Int(0),
            Kind::Bytes => Value::Bytes(Record::empty()),
        }
    }

    /// What the value is. `O(1)`.
    pub fn kind(&self) -> Kind
        ensures { result ≡ kind_of self.now }
    {
        match self {
            Value::Int(_) => Kind::Int,
            Value::Bytes(_) => Kind::Bytes,
        }
    }

    /// The same value once more. A record shares its bytes. `O(1)`.
    pub fn copy(&self) -> Result<Value, NoMemory>
        ensures { IfOk result (λ value. value ≡ self.now) }
    {
        match self {
            Value::Int(number) => Ok(Value::Int(*number)),
            Value::Bytes(record) => Ok(Value::Bytes(record.copy()?)),
        }
    }
}
