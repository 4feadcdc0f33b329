// The reducer of sums.
ghost use Rattle.std.specs.Prelude.{◌≡◌, ◌≤◌, ◌+ℤ◌, pos, None, option_map, length, map, IfOk};
ghost use Rattle.std.specs.Int.{int_wrap, w128};
ghost use Rattle.std.specs.Option.{option_or};
ghost use Rattle.swan_model.specs.Values.{bytes_of};
ghost use Rattle.swan_reducers.specs.LineFolds.{bad_number, unless_part};
ghost use Rattle.swan_reducers.specs.Sums.{added_number, is_sum_part, lines_summed, narrowed, number_part, sum_of, sum_part};
ghost use Rattle.swan_reducers.specs.declared.sum_reducer.TheConstants.{PART_BYTES};

use crate::{BlockFold, EndAnswer, LineAnswer, Reducer};
use job_reader::read_number;
use line_blocks::{LineBlock, bytes_of};
use std::alloc::Global;
use swan_model::{NoMemory, Record, RecordAnswer, Trouble};

/// How many bytes a part has.
const PART_BYTES: usize = 16;

/// Adds the numbers that lines are, as a job writes numbers; any other line is a bad one. The end is the decimal text
/// of the sum, or Overflow exactly where the sum doesn't fit 64 bits with its sign.
///
/// A part is the 16 bytes of a sum of 128 bits, the highest first, so that the sum of all lines of a text is exact,
/// however far it is from 64 bits on the way. Each call is `O(length)`, and `fold_block` takes memory for the one part
/// alone, however many lines the block has.
#[derive(Drop)]
pub struct SumReducer;

/// Whether bytes are as many as a part has.
fn is_sum_part(bytes: &[u8]) -> bool
    ensures { result ≡ is_sum_part bytes.now }
{
    bytes.len() == PART_BYTES
}

/// The sum that a part stands for.
fn sum_of(part: &[u8]) -> i128
    requires { length part.now ≡ PART_BYTES }
    ensures { result ≡ sum_of part.now }
{
    match <[u8; PART_BYTES]>::try_from(part) {
        Ok(bytes) => i128::from_be_bytes(bytes),
        Err(_) => unreachable!(),
    }
}

/// A record of no more bytes than a part has.
fn record_of(alloc: Global, bytes: &[u8]) -> Result<Record, NoMemory>
    requires { length bytes.now ≤ PART_BYTES }
    ensures { IfOk result (λ it. it ≡ bytes.now) }
{
    match Record::of(alloc, bytes) {
        Ok(record) => Ok(record),
        Err(RecordAnswer::TooLong) => unreachable!(),
        Err(RecordAnswer::NoMemory) => Err(NoMemory),
    }
}

/// The part of a sum.
fn sum_part(alloc: Global, sum: i128) -> Result<Record, NoMemory>
    ensures { IfOk result (λ part. part ≡ sum_part sum) }
{
    record_of(alloc, &sum.to_be_bytes())
}

/// The sum of two sums, which wraps at 128 bits.
#[tactic(auto, using(std::proofs::lemmas::Int::wrapping_add_is))]
fn added(left: i128, right: i128) -> i128
    ensures { result ≡ int_wrap w128 (left +ℤ right) }
{
    left.wrapping_add(right)
}

/// The sum of lines, and the number of the first one that is no number.
struct LineSum {
    sum: i128,
    bad: Option<u64>,
}

/// A sum and what a line is, which adds nothing where it is no number.
fn with_number(sum: i128, read: Option<i64>) -> i128
    ensures { result ≡ added_number sum read }
{
    match read {
        Some(number) => added(sum, i128::from(number)),
        None => sum,
    }
}

/// The first bad line, after one more line with this number.
fn first_bad(bad: Option<u64>, number: u64, read: Option<i64>) -> Option<u64>
    ensures { result ≡ option_or bad (unless_part (option_map sum_part read) number None) }
{
    match read {
        Some(_) => bad,
        None => bad.or(Some(number)),
    }
}

/// The sum of a block's lines. It takes no memory. `O(length)`.
#[tactic(auto, using(crate::proofs::Joining::bad_step, swan_model::proofs::Elements::or_none))]
fn lines_summed(mut block: LineBlock) -> LineSum
    ensures sum { result.sum ≡ lines_summed (pos 0) (map bytes_of block.lines) }
    ensures bad { result.bad ≡ bad_number number_part block.number (map bytes_of block.lines) }
{
    let mut sum = 0;
    let mut bad = None;
    let mut number = block.number();
    while let Some(line) = block.take() {
        let read = read_number(bytes_of(&line));
        sum = with_number(sum, read);
        bad = first_bad(bad, number, read);
        number = block.number();
    }
    LineSum { sum, bad }
}

/// A sum as a number of 64 bits, where it fits them.
#[tactic(auto, using(crate::proofs::Narrowing::narrowed_fits, crate::proofs::Narrowing::narrowed_not))]
fn narrowed(sum: i128) -> Option<i64>
    ensures { result ≡ narrowed sum }
{
    i64::try_from(sum).ok()
}

impl Reducer for SumReducer {
    ghost use Rattle.std.specs.Prelude.{pos};
    ghost use Rattle.swan_reducers.specs.SumLaws.{sums_are_lawful};
    ghost use Rattle.swan_reducers.specs.Sums.{number_part, sum_end, summed};

    ghost is_part = { λ _. is_sum_part };

    ghost zero_part = { λ _. sum_part (pos 0) };

    ghost part_of = { λ _. number_part };

    ghost joined = { λ _. summed };

    ghost end_of = { λ _. sum_end };

    ghost laws = { λ _. sums_are_lawful };

    fn is_part(&self, record: &Record) -> bool {
        is_sum_part(record.as_slice())
    }

    fn zero(&self, alloc: Global) -> Result<Record, NoMemory> {
        sum_part(alloc, 0)
    }

    fn of_line(&self, alloc: Global, line: &Record) -> Result<Record, LineAnswer> {
        match read_number(line.as_slice()) {
            Some(number) => Ok(sum_part(alloc, i128::from(number))?),
            None => Err(LineAnswer::BadNumber),
        }
    }

    fn join(&self, alloc: Global, left: &Record, right: &Record) -> Result<Record, NoMemory> {
        let left = sum_of(left.as_slice());
        let right = sum_of(right.as_slice());
        sum_part(alloc, added(left, right))
    }

    fn end(&self, alloc: Global, whole: &Record) -> Result<Record, EndAnswer> {
        match narrowed(sum_of(whole.as_slice())) {
            Some(sum) => Ok(Record::decimal(alloc, sum)?),
            None => Err(EndAnswer::Trouble(Trouble::Overflow)),
        }
    }

    #[tactic(auto, using(crate::proofs::SumBlocks::block_sum))]
    fn fold_block(&self, alloc: Global, block: LineBlock) -> Result<BlockFold, NoMemory> {
        let LineSum { sum, bad } = lines_summed(block);
        Ok(BlockFold {
            part: sum_part(alloc, sum)?,
            bad,
        })
    }
}
