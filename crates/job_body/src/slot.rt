// Variables.
ghost use Rattle.std.specs.Prelude.{◌≡◌, ◌≤◌, length, IfOk};
ghost use Rattle.swan_model.specs.declared.record.TheConstants.{RECORD_MOST};

use crate::operation::{part, part_of_none};
use std::marker::Model;
use std::mem;
use swan_model::{Kind, NoMemory, Record, RecordAnswer, Trouble, Value};

/// What a variable holds.
#[derive(Drop)]
enum Held {
    /// A number.
    Int(i64),
    /// A record, which others may share.
    Bytes(Record),
    /// Bytes that no one else has, with room to grow in place. They fit a record.
    Growing(Vec<u8>),
}

/// Bytes that fit a record, as a record that keeps no room to spare. `O(length)` where they have such room, else `O(1)`.
fn record_of(mut bytes: Vec<u8>) -> Result<Record, NoMemory>
    requires { length bytes.items ≤ RECORD_MOST }
    ensures { IfOk result (λ it. it ≡ bytes.items) }
{
    bytes.shrink_to_fit();
    match Record::from_vec(bytes) {
        Ok(it) => Ok(it),
        Err(RecordAnswer::TooLong) => unreachable!(),
        Err(RecordAnswer::NoMemory) => Err(NoMemory),
    }
}

/// A variable. Contracts see it as its value.
///
/// Bytes that it was joined of may grow in place, as long as no one else was given them. Whoever gives them makes them a
/// record first, without room to spare, which the variable keeps: so they are copied once at most, however often they are given.
#[derive(Drop)]
pub struct Slot {
    held: Held,
}

impl Model for Slot {
    ghost use Rattle.swan_model.specs.declared.value.Value.{Value as TheValue};
    ghost use Rattle.job_body.specs.Slots.{FitsRecord, value_held};

    ghost Value = { TheValue };

    ghost view = { λ slot. value_held slot.held };

    ghost invariant = { λ slot. FitsRecord slot.held };
}

impl Slot {
    ghost use Rattle.std.specs.Prelude.{◌≡◌, ◌≤◌, pos, length, IfOk, IfSome, IfNone, OnOk};
    ghost use Rattle.std.specs.Option.{option_copied};
    ghost use Rattle.job_body.specs.Operations.{number_of, part};
    ghost use Rattle.job_body.specs.Runs.{record_of};
    ghost use Rattle.swan_model.specs.Values.{bytes_of, kind_of, zero_of};
    ghost use Rattle.swan_model.specs.declared.record.TheConstants.{RECORD_MOST};
    ghost use Rattle.swan_model.specs.declared.value.Value.TheVariants.{Int, Bytes};

    /// A variable with this value. `O(1)`.
    #[inline(always)]
    pub fn new(value: Value) -> Slot
        ensures { result ≡ value }
    {
        match value {
            Value::Int(number) => Slot {
                held: Held::Int(number),
            },
            Value::Bytes(record) => Slot {
                held: Held::Bytes(record),
            },
        }
    }

    /// A variable with these bytes, which may grow in place. `O(1)`.
    pub fn growing(bytes: Vec<u8>) -> Slot
        requires { length bytes.items ≤ RECORD_MOST }
        ensures { result ≡ Bytes bytes.items }
    {
        Slot {
            held: Held::Growing(bytes),
        }
    }

    /// The number of the variable; 0 where it has bytes. `O(1)`.
    #[inline(always)]
    pub fn number(&self) -> i64
        ensures { result ≡ number_of self.now }
    {
        match &self.held {
            Held::Int(number) => *number,
            _ => 0,
        }
    }

    /// The bytes of the variable; None where it has a number. `O(1)`.
    pub fn bytes(&self) -> Option<&[u8]>
        ensures bytes { option_copied result ≡ record_of self.now }
        ensures most { IfSome result (λ bytes. length bytes.now ≤ RECORD_MOST) }
    {
        match &self.held {
            Held::Int(_) => None,
            Held::Bytes(record) => Some(record.as_slice()),
            Held::Growing(bytes) => Some(bytes.as_slice()),
        }
    }

    /// The kind of the variable's value. `O(1)`.
    pub fn kind(&self) -> Kind
        ensures { result ≡ kind_of self.now }
    {
        match &self.held {
            Held::Int(_) => Kind::Int,
            _ => Kind::Bytes,
        }
    }

    /// Makes the variable this number: a number is written over alone, and bytes are given up. `O(1)`.
    #[inline(always)]
    pub fn make_int(&mut self, number: i64)
        ensures { self.new ≡ Int number }
    {
        match &mut self.held {
            Held::Int(place) => *place = number,
            _ => self.held = Held::Int(number),
        }
    }

    /// The value of the variable, for someone else. Bytes are shared, and from then on they are a record without room to spare. `O(1)`,
    /// but `O(length)` for the first time after bytes were added in place. After want of memory the variable may be the number 0.
    #[inline(always)]
    pub fn give(&mut self) -> Result<Value, NoMemory>
        ensures value { IfOk result (λ it. it ≡ self.old) }
        ensures kept { OnOk result (self.new ≡ self.old) }
    {
        match &self.held {
            // A number needs no call.
            Held::Int(number) => Ok(Value::Int(*number)),
            Held::Bytes(record) => Ok(Value::Bytes(record.copy()?)),
            Held::Growing(_) => Ok(Value::Bytes(self.settle()?)),
        }
    }

    /// The bytes from the place i on up to, without, the place j. A number has none. They are shared with the variable, whose bytes
    /// are a record without room to spare from then on. `O(1)`, but `O(length)` for the first time after bytes were added in
    /// place. After want of memory the variable may be the number 0.
    pub fn part(&mut self, i: i64, j: i64) -> Result<Result<Value, Trouble>, NoMemory>
        ensures part { IfOk result (λ it. it ≡ part (bytes_of self.old) i j) }
        ensures kept { OnOk result (self.new ≡ self.old) }
    {
        match &self.held {
            Held::Int(_) => part_of_none(i, j),
            Held::Bytes(record) => part(record, i, j),
            Held::Growing(_) => part(&self.settle()?, i, j),
        }
    }

    /// The bytes of the variable as a record without room to spare, which it keeps and shares. A number has none. `O(1)`, but
    /// `O(length)` for bytes with such room. After want of memory the variable may be the number 0.
    #[inline(never)]
    fn settle(&mut self) -> Result<Record, NoMemory>
        ensures record { IfOk result (λ it. it ≡ bytes_of self.old) }
        ensures kept { OnOk result (self.new ≡ self.old) }
    {
        let record = match mem::replace(&mut self.held, Held::Int(0)) {
            Held::Int(number) => {
                self.held = Held::Int(number);
                return Ok(Record::empty());
            }
            Held::Bytes(record) => record,
            Held::Growing(bytes) => record_of(bytes)?,
        };
        let given = record.copy()?;
        self.held = Held::Bytes(record);
        Ok(given)
    }

    /// Takes out bytes that may grow in place, and leaves the number 0. There are none exactly where the variable has a number, or
    /// bytes that someone else may share. `O(1)`.
    pub fn take_growing(&mut self) -> Option<Vec<u8>>
        ensures taken { IfSome result (λ bytes. self.old ≡ Bytes bytes.items) }
        ensures left { IfSome result (λ _. self.new ≡ Int (pos 0)) }
        ensures none { IfNone result (self.new ≡ self.old) }
    {
        match mem::replace(&mut self.held, Held::Int(0)) {
            Held::Growing(bytes) => Some(bytes),
            other => {
                self.held = other;
                None
            }
        }
    }
}
