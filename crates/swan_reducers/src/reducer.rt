// Reducers: what a fold joins.
ghost use Rattle.std.specs.Prelude.{◌≡◌, ℕ, Bool, true, List, Option, Some, None, Result, Ok, Err, IfOk, map};
ghost use Rattle.std.specs.Option.{option_or};
ghost use Rattle.swan_model.specs.declared.fault.Trouble.{Trouble};
ghost use Rattle.swan_model.specs.Values.{bytes_of};
ghost use Rattle.swan_reducers.specs.Lawful.{IsLawfulReducer};
ghost use Rattle.swan_reducers.specs.LineFolds.{bad_number, joined_lines, unless_part, with_part};
ghost use Rattle.swan_reducers.specs.declared.reducer.EndAnswer.TheVariants as end_answer;
ghost use Rattle.swan_reducers.specs.declared.reducer.LineAnswer.TheVariants as line_answer;

use line_blocks::LineBlock;
use std::alloc::Global;
use swan_model::{NoMemory, Record, Trouble, Value};

/// Why a line gives no part.
#[derive(Clone, Copy, Debug, PartialEq, Eq)]
pub enum LineAnswer {
    /// The line has none: it isn't what the reducer asks of lines, as the text of a number.
    BadNumber,
    /// Memory ran out.
    NoMemory,
}

impl From<NoMemory> for LineAnswer {
    ghost from_gives = { λ _ answer. answer ≡ line_answer.NoMemory };

    fn from(_want: NoMemory) -> LineAnswer {
        LineAnswer::NoMemory
    }
}

/// Why a fold ends without a record.
#[derive(Clone, Copy, Debug, PartialEq, Eq)]
pub enum EndAnswer {
    /// What was joined has no end but this trouble.
    Trouble(Trouble),
    /// Memory ran out.
    NoMemory,
}

impl From<NoMemory> for EndAnswer {
    ghost from_gives = { λ _ answer. answer ≡ end_answer.NoMemory };

    fn from(_want: NoMemory) -> EndAnswer {
        EndAnswer::NoMemory
    }
}

/// What the lines of a block give.
#[derive(Drop)]
pub struct BlockFold {
    /// The join of their parts, in order.
    pub part: Record,
    /// The number of the first one without a part.
    pub bad: Option<u64>,
}

/// The record of a line, which is empty for a number. `O(1)`.
fn record_of(line: Value) -> Record
    ensures { result ≡ bytes_of line }
{
    match line {
        Value::Bytes(record) => record,
        Value::Int(_) => Record::empty(),
    }
}

/// What a fold joins. Each line has a part, or is a bad line; parts are joined in the order of their lines, in any
/// groups; and the join of all of them has an end, which is a record or a trouble.
///
/// Parts are records, so that they can travel through a queue. A reducer says which records are its parts. A plan asks
/// that it is `Send` and `Sync` too.
pub trait Reducer: Drop {
    /// Which records are parts.
    ghost is_part: { Self → List ℕ → Bool };

    /// The part of no line.
    ghost zero_part: { Self → List ℕ };

    /// The part of a line, which a bad line doesn't have.
    ghost part_of: { Self → List ℕ → Option (List ℕ) };

    /// The join of two parts.
    ghost joined: { Self → List ℕ → List ℕ → List ℕ };

    /// The end of a part: a record, or a trouble.
    ghost end_of: { Self → List ℕ → Result (List ℕ) Trouble };

    /// What each reducer keeps.
    ghost laws: { (reducer : Self) → IsLawfulReducer (is_part reducer) (zero_part reducer) (part_of reducer) (joined reducer) };

    /// Whether a record is a part. It takes no memory.
    fn is_part(&self, record: &Record) -> bool
        ensures { result ≡ is_part self.now «record».now };

    /// The part of no line. Err is want of memory.
    fn zero(&self, alloc: Global) -> Result<Record, NoMemory>
        ensures { IfOk result (λ part. part ≡ zero_part self.now) };

    /// The part of a line. BadNumber comes exactly where it has none.
    fn of_line(&self, alloc: Global, line: &Record) -> Result<Record, LineAnswer>
        ensures part { IfOk result (λ part. part_of self.now line.now ≡ Some part) }
        ensures bad { result ≡ Err line_answer.BadNumber → part_of self.now line.now ≡ None };

    /// The join of two parts. Err is want of memory.
    fn join(&self, alloc: Global, left: &Record, right: &Record) -> Result<Record, NoMemory>
        requires left { is_part self.now left.now ≡ true }
        requires right { is_part self.now right.now ≡ true }
        ensures { IfOk result (λ part. part ≡ joined self.now left.now right.now) };

    /// The end of a part. A trouble comes exactly where that is its end.
    fn end(&self, alloc: Global, whole: &Record) -> Result<Record, EndAnswer>
        requires { is_part self.now whole.now ≡ true }
        ensures end { IfOk result (λ end. end_of self.now whole.now ≡ Ok end) }
        ensures trouble { (trouble : Trouble) → result ≡ Err (end_answer.Trouble trouble) → end_of self.now whole.now ≡ Err trouble };

    /// What the lines so far give, with one more line, which may be a bad one. Err is want of memory.
    fn with_line(
        &self,
        alloc: Global,
        fold: BlockFold,
        number: u64,
        line: &Record,
    ) -> Result<BlockFold, NoMemory>
        requires { is_part self.now fold.part ≡ true }
        ensures part { IfOk result (λ next. next.part ≡ with_part (joined self.now) fold.part (part_of self.now line.now)) }
        ensures is_part { IfOk result (λ next. is_part self.now next.part ≡ true) }
        ensures bad { IfOk result (λ next. next.bad ≡ option_or fold.bad (unless_part (part_of self.now line.now) number None)) }
    {
        match self.of_line(alloc, line) {
            Ok(part) => Ok(BlockFold {
                part: self.join(alloc, &fold.part, &part)?,
                bad: fold.bad,
            }),
            Err(LineAnswer::BadNumber) => Ok(BlockFold {
                part: fold.part,
                bad: fold.bad.or(Some(number)),
            }),
            Err(LineAnswer::NoMemory) => Err(NoMemory),
        }
    }

    /// The fold of a block's lines, and its first bad line. Err is want of memory.
    ///
    /// Where a reducer has none of its own, this is one call of `zero`, one of `of_line` for each line, and one of `join` for
    /// each that has a part, in order. A reducer whose join copies what is joined already has a cheaper one.
    fn fold_block(&self, alloc: Global, mut block: LineBlock) -> Result<BlockFold, NoMemory>
        ensures part { IfOk result (λ fold. fold.part ≡ joined_lines (part_of self.now) (joined self.now) (zero_part self.now) (map bytes_of block.lines)) }
        ensures bad { IfOk result (λ fold. fold.bad ≡ bad_number (part_of self.now) block.number (map bytes_of block.lines)) }
    {
        let mut fold = BlockFold {
            part: self.zero(alloc)?,
            bad: None,
        };
        let mut number = block.number();
        while let Some(line) = block.take() {
            fold = self.with_line(alloc, fold, number, &record_of(line))?;
            number = block.number();
        }
        Ok(fold)
    }
}
