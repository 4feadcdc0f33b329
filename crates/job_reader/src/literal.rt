// Literals.
ghost use Rattle.std.specs.Prelude.{◌≡◌, ◌<◌, IfSome, SomeIff};
ghost use Rattle.std.specs.Char.{digit_value};
ghost use Rattle.job_reader.specs.Atoms.{decode, literal, IsDecoding};
ghost use Rattle.job_reader.specs.Faults.{IsReadAs};

use crate::JobKind;
use crate::fault::ReadLine;
use std::alloc::Global;
use swan_model::{Record, RecordAnswer};

/// Where one stands in a literal, after its first quote.
#[derive(Clone, Copy, Debug, PartialEq, Eq)]
pub enum Inside {
    /// At a byte, an escape, or the closing quote.
    Plain,
    /// After a backslash.
    Escape,
    /// Before the first of two hexadecimal digits.
    HighDigit,
    /// Before the second one, and the first has this value.
    LowDigit(u8),
    /// After the closing quote.
    Closed,
}

impl Inside {
    /// Where one stands after a byte, and the byte that is complete by it. None where the byte may not
    /// stand there.
    fn decode(self, byte: u8) -> Option<(Inside, Option<u8>)>
        requires { IsDecoding self }
        ensures decoded { result ≡ decode self byte }
        ensures decoding { IfSome result (λ step. IsDecoding step.0) }
    {
        match self {
            Inside::Plain => {
                if byte == b'"' {
                    Some((Inside::Closed, None))
                } else if byte == b'\\' {
                    Some((Inside::Escape, None))
                } else {
                    Some((Inside::Plain, Some(byte)))
                }
            }
            Inside::Escape => Inside::unescape(byte),
            Inside::HighDigit => {
                let high = digit(byte)?;
                Some((Inside::LowDigit(high), None))
            }
            Inside::LowDigit(high) => {
                let low = digit(byte)?;
                Some((Inside::Plain, Some(16 * high + low)))
            }
            Inside::Closed => None,
        }
    }

    /// What a byte after a backslash does.
    fn unescape(byte: u8) -> Option<(Inside, Option<u8>)>
        ensures { result ≡ decode Inside.Escape byte }
    {
        if byte == b'\\' || byte == b'"' {
            Some((Inside::Plain, Some(byte)))
        } else if byte == b'n' {
            Some((Inside::Plain, Some(b'\n')))
        } else if byte == b't' {
            Some((Inside::Plain, Some(b'\t')))
        } else if byte == b'x' {
            Some((Inside::HighDigit, None))
        } else {
            None
        }
    }
}

/// The value of a hexadecimal digit of either case.
fn digit(byte: u8) -> Option<u8>
    ensures { SomeIff result (digit_value byte < 16) (digit_value byte) }
{
    let value = char::from(byte).to_digit(16)?;
    Some(value as u8)
}

/// The record that a literal stands for, by what follows its first quote. BadLine comes exactly where it
/// is no literal or doesn't fit a record. `O(length)`.
pub fn read_literal(alloc: Global, rest: &[u8]) -> Result<Record, ReadLine>
    ensures { IsReadAs result (literal rest.now) }
{
    let mut bytes = Vec::new(alloc);
    let mut inside = Inside::Plain;
    for byte in rest {
        let Some((next, complete)) = inside.decode(*byte) else {
            return Err(ReadLine::Refused(JobKind::BadLine));
        };
        if let Some(byte) = complete {
            bytes.push(byte)?;
        }
        inside = next;
    }
    if inside != Inside::Closed {
        return Err(ReadLine::Refused(JobKind::BadLine));
    }
    match Record::of(alloc, bytes.as_slice()) {
        Ok(record) => Ok(record),
        Err(RecordAnswer::TooLong) => Err(ReadLine::Refused(JobKind::BadLine)),
        Err(RecordAnswer::NoMemory) => Err(ReadLine::NoMemory),
    }
}
