// Records of bytes.
ghost use Rattle.std.specs.Prelude.{◌≡◌, ◌<◌, ◌≤◌, [], length, slice_range, IfOk};
ghost use Rattle.std.specs.Fmt.{signed_decimal};
ghost use Rattle.swan_model.specs.declared.record.RecordAnswer.TheVariants as answer;

use crate::NoMemory;
use bytes::Bytes;
use std::alloc::{AllocError, Global};
use std::marker::Model;

/// The largest number of bytes of a record.
pub const RECORD_MOST: usize = 1_048_576;

/// At most `RECORD_MOST` bytes, which all copies share. Contracts see it as the list of its bytes.
#[derive(Drop)]
pub struct Record {
    bytes: Bytes,
}

impl Model for Record {
    ghost use Rattle.std.specs.Prelude.{List, ℕ, ◌≤◌, length};
    ghost use Rattle.swan_model.specs.declared.record.TheConstants.{RECORD_MOST};

    ghost Value = { List ℕ };

    ghost view = { λ it. it.bytes };

    ghost invariant = { λ it. length it.bytes ≤ RECORD_MOST };
}

/// Why there is no record.
#[derive(Clone, Copy, Debug, PartialEq, Eq)]
pub enum RecordAnswer {
    /// There are more bytes than a record may have.
    TooLong,
    /// Memory ran out.
    NoMemory,
}

impl From<AllocError> for RecordAnswer {
    ghost from_gives = { λ _ refusal. refusal ≡ answer.NoMemory };

    fn from(_error: AllocError) -> RecordAnswer {
        RecordAnswer::NoMemory
    }
}

impl Record {
    /// A record with a copy of these bytes. TooLong comes exactly where there are more than
    /// `RECORD_MOST` of them. `O(length)`, and one allocation or two.
    pub fn of(alloc: Global, bytes: &[u8]) -> Result<Record, RecordAnswer>
        ensures ok { IfOk result (λ it. it ≡ bytes.now) }
        ensures fits { IfOk result (λ _. length bytes.now ≤ RECORD_MOST) }
        ensures too_long { result ≡ Err answer.TooLong → RECORD_MOST < length bytes.now }
    {
        if bytes.len() > RECORD_MOST {
            return Err(RecordAnswer::TooLong);
        }
        let bytes = Bytes::copy_from_slice(alloc, bytes)?;
        Ok(Record { bytes })
    }

    /// A record of these bytes, without a copy. TooLong comes exactly where there are more than `RECORD_MOST` of them. The
    /// room of the vector stays in memory as long as the record does, what it has to spare too; a refusal lets it go. `O(1)`, and one
    /// allocation.
    pub fn from_vec(bytes: Vec<u8>) -> Result<Record, RecordAnswer>
        ensures ok { IfOk result (λ it. it ≡ bytes.items) }
        ensures fits { IfOk result (λ _. length bytes.items ≤ RECORD_MOST) }
        ensures too_long { result ≡ Err answer.TooLong → RECORD_MOST < length bytes.items }
    {
        if RECORD_MOST < bytes.len() {
            return Err(RecordAnswer::TooLong);
        }
        match Bytes::from_vec(bytes) {
            Ok(bytes) => Ok(Record { bytes }),
            Err(_) => Err(RecordAnswer::NoMemory),
        }
    }

    /// The record without bytes. It takes no memory. `O(1)`.
    pub fn empty() -> Record
        ensures { result ≡ [] }
    {
        Record {
            bytes: Bytes::new(),
        }
    }

    /// The decimal text of a number, with `-` before it where it is negative. `O(length)`.
    pub fn decimal(alloc: Global, number: i64) -> Result<Record, NoMemory>
        ensures { IfOk result (λ it. it ≡ signed_decimal number) }
    {
        let text = format!(in alloc; "{number}")?;
        match Record::of(alloc, text.as_bytes()) {
            Ok(it) => Ok(it),
            Err(RecordAnswer::TooLong) => unreachable!(),
            Err(RecordAnswer::NoMemory) => Err(NoMemory),
        }
    }

    // A record of bytes that are few enough.
    pub(crate) fn of_bytes(bytes: Bytes) -> Record
        requires { length bytes ≤ RECORD_MOST }
        ensures { result ≡ bytes }
    {
        Record { bytes }
    }

    /// The bytes. It takes no memory. `O(1)`.
    pub fn as_slice(&self) -> &[u8]
        ensures bytes { result.now ≡ self.now }
        ensures most { length self.now ≤ RECORD_MOST }
    {
        self.bytes.as_slice()
    }

    /// The bytes from one place up to, without, another, as a record that shares them: the bytes of the
    /// whole record stay in memory as long as one of its parts does. `O(1)`.
    pub fn part(&self, from: usize, to: usize) -> Result<Record, NoMemory>
        requires in_order { from ≤ to }
        requires within { to ≤ length self.now }
        ensures { IfOk result (λ it. it ≡ slice_range self.now from to) }
    {
        let bytes = self.bytes.slice(from..to)?;
        Ok(Record { bytes })
    }

    /// The same record once more. It shares the bytes. `O(1)`.
    pub fn copy(&self) -> Result<Record, NoMemory>
        ensures { IfOk result (λ it. it ≡ self.now) }
    {
        Ok(Record {
            bytes: self.bytes.clone()?,
        })
    }
}
