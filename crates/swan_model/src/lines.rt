// The lines of a text.
ghost use Rattle.std.specs.Prelude.{◌≡◌, ◌+◌, ◌<◌, ◌≤◌, ◌∷◌, ◌==◌, not, length, take, drop, map, IfOk, IfErr, ◌⊎◌, Some, None};
ghost use Rattle.std.specs.List.{prefix_len};
ghost use Rattle.swan_model.specs.declared.lines.LinesAnswer.TheVariants as answer;
ghost use Rattle.swan_model.specs.declared.value.Value.TheVariants as value;
ghost use Rattle.swan_model.specs.Lines.{lines, refusal_of};

use crate::{RECORD_MOST, Record, Value, Values};
use bytes::Bytes;
use std::alloc::{AllocError, Global};

/// The largest number of lines of one input.
pub const LINES_MOST: usize = 1_000_000;

/// Why a text has no lines to run with.
#[derive(Clone, Copy, Debug, PartialEq, Eq)]
pub enum LinesAnswer {
    /// A line has more bytes than a record may have.
    TooLong {
        /// Its number, from 1 on.
        line: u64,
    },
    /// There are more than `LINES_MOST` lines.
    TooMany,
    /// Memory ran out.
    NoMemory,
}

impl From<AllocError> for LinesAnswer {
    ghost from_gives = { λ _ refusal. refusal ≡ answer.NoMemory };

    fn from(_error: AllocError) -> LinesAnswer {
        LinesAnswer::NoMemory
    }
}

// How many bytes stand before the first line feed, or all bytes where there is none.
fn feed_position(text: &[u8]) -> usize
    ensures most { result ≤ length text.now }
    ensures position { result ≡ prefix_len (λ byte. not (byte == 10)) text.now }
{
    text.iter().take_while(|byte| **byte != b'\n').count()
}

/// How many bytes the first line has of a text that isn't empty, without its line feed; the line itself may be empty. What
/// follows the line begins after that feed, where there is one. `O(length of the line)`.
#[tactic(auto, using(crate::proofs::FirstLine::lines_front))]
pub fn first_line_len(text: &[u8]) -> usize
    requires { 0 < length text.now }
    ensures most { result ≤ length text.now }
    ensures first { lines text.now ≡ take result text.now ∷ lines (drop (result + 1) text.now) }
{
    feed_position(text)
}

// The first len bytes of a text as a record. The text loses them, and the byte after them where there is one.
fn take_line(text: &mut Bytes, len: usize) -> Result<Record, AllocError>
    requires most { len ≤ length text.old }
    requires fits { len ≤ RECORD_MOST }
    ensures line { IfOk result (λ it. it ≡ take len text.old) }
    ensures rest { IfOk result (λ _. text.new ≡ drop (len + 1) text.old) }
{
    let line = text.split_to(len)?;
    let feed = if text.is_empty() { 0 } else { 1 };
    let _feed = text.split_to(feed)?;
    Ok(Record::of_bytes(line))
}

/// The lines of a text as records, which share one copy of it. Each line feed ends a line; what follows the last one, or the
/// whole text where there is none, is a line only where it isn't empty.
///
/// TooLong names the first line that has more than `RECORD_MOST` bytes, among the first `LINES_MOST`.
/// TooMany comes where there is no such line, and more than `LINES_MOST` lines. `O(length)`.
pub fn lines_of(alloc: Global, text: &[u8]) -> Result<Values, LinesAnswer>
    ensures lines { IfOk result (λ values. values ≡ map value.Bytes (lines text.now)) }
    ensures accepted { IfOk result (λ _. refusal_of text.now ≡ None) }
    ensures refused { IfErr result (λ why. (why ≡ answer.NoMemory) ⊎ (refusal_of text.now ≡ Some why)) }
{
    let mut rest = Bytes::copy_from_slice(alloc, text)?;
    let mut values = Values::new(alloc);
    while !rest.is_empty() {
        let number = values.len();
        if number >= LINES_MOST {
            return Err(LinesAnswer::TooMany);
        }
        let len = first_line_len(rest.as_slice());
        if len > RECORD_MOST {
            return Err(LinesAnswer::TooLong {
                line: number as u64 + 1,
            });
        }
        let record = take_line(&mut rest, len)?;
        if values.push(Value::Bytes(record)).is_err() {
            return Err(LinesAnswer::NoMemory);
        }
    }
    Ok(values)
}
