// Operations on values.
ghost use Rattle.std.specs.Prelude.{◌≡◌, ◌≤◌, ◌+ℤ◌, ◌-ℤ◌, ◌*ℤ◌, ◌++◌, ◌==◌, pos, [], length, drop, position, IfOk};
ghost use Rattle.job_body.specs.Operations.{number_of, flag, fitting_number, quotient, rest, is_true, byte_at, part, found, fitting_bytes, numbered, up_to, place_after};
ghost use Rattle.job_body.specs.Runs.{int_operation, valued};
ghost use Rattle.swan_model.specs.declared.value.Value.TheVariants.{Int};
ghost use Rattle.job_reader.specs.Atoms.{number};

use crate::instruction::IntOp;
use job_reader::read_number;
use std::alloc::Global;
use swan_model::{NoMemory, RECORD_MOST, Record, RecordAnswer, Trouble, Value};

/// Whether a number is true. `O(1)`.
#[inline(always)]
pub fn is_true(number: i64) -> bool
    ensures { result ≡ is_true (Int number) }
{
    number != 0
}

/// The number that says yes or no.
#[inline(always)]
pub fn yes(is_so: bool) -> i64
    ensures { Int result ≡ flag is_so }
{
    if is_so { 1 } else { 0 }
}

/// The value that says yes or no.
pub fn flag(is_so: bool) -> Value
    ensures { result ≡ flag is_so }
{
    Value::Int(yes(is_so))
}

#[inline(always)]
fn sum(a: i64, b: i64) -> Result<i64, Trouble>
    ensures { valued result ≡ fitting_number (a +ℤ b) }
{
    match a.checked_add(b) {
        Some(number) => Ok(number),
        None => Err(Trouble::Overflow),
    }
}

#[inline(always)]
fn difference(a: i64, b: i64) -> Result<i64, Trouble>
    ensures { valued result ≡ fitting_number (a -ℤ b) }
{
    match a.checked_sub(b) {
        Some(number) => Ok(number),
        None => Err(Trouble::Overflow),
    }
}

#[inline(always)]
fn product(a: i64, b: i64) -> Result<i64, Trouble>
    ensures { valued result ≡ fitting_number (a *ℤ b) }
{
    match a.checked_mul(b) {
        Some(number) => Ok(number),
        None => Err(Trouble::Overflow),
    }
}

fn quotient(a: i64, b: i64) -> Result<i64, Trouble>
    ensures { valued result ≡ quotient a b }
{
    if b == 0 {
        return Err(Trouble::DivideByZero);
    }
    match a.checked_div(b) {
        Some(number) => Ok(number),
        None => Err(Trouble::Overflow),
    }
}

fn rest(a: i64, b: i64) -> Result<i64, Trouble>
    ensures { valued result ≡ rest a b }
{
    if b == 0 {
        return Err(Trouble::DivideByZero);
    }
    if b == -1 {
        return Ok(0);
    }
    Ok(a % b)
}

/// The number of an operation on numbers, or its trouble. `O(1)`.
#[inline(always)]
pub fn reckoned(op: IntOp, a: i64, b: i64) -> Result<i64, Trouble>
    ensures { valued result ≡ int_operation op a b }
{
    match op {
        IntOp::Add => sum(a, b),
        IntOp::Sub => difference(a, b),
        IntOp::Mul => product(a, b),
        IntOp::Div => quotient(a, b),
        IntOp::Rem => rest(a, b),
        IntOp::Lt => Ok(yes(a < b)),
        IntOp::Le => Ok(yes(a <= b)),
        IntOp::And => Ok(yes(is_true(a) && is_true(b))),
        IntOp::Or => Ok(yes(is_true(a) || is_true(b))),
        IntOp::Not => Ok(yes(!is_true(a))),
    }
}

/// A number that isn't negative and at most this.
fn up_to(most: usize, number: i64) -> Option<usize>
    ensures { result ≡ up_to most number }
{
    let number = usize::try_from(number).ok()?;
    if number <= most { Some(number) } else { None }
}

/// The byte at a place, as a number.
pub fn byte_at(bytes: &[u8], i: i64) -> Result<i64, Trouble>
    ensures { valued result ≡ byte_at bytes.now i }
{
    let Ok(i) = usize::try_from(i) else {
        return Err(Trouble::Range);
    };
    match bytes.get(i) {
        Some(byte) => Ok(i64::from(*byte)),
        None => Err(Trouble::Range),
    }
}

/// The bytes from the place i on up to, without, the place j. They are shared. `O(1)`.
pub fn part(whole: &Record, i: i64, j: i64) -> Result<Result<Value, Trouble>, NoMemory>
    ensures { IfOk result (λ it. it ≡ part whole.now i j) }
{
    let Some(to) = up_to(whole.as_slice().len(), j) else {
        return Ok(Err(Trouble::Range));
    };
    let Some(from) = up_to(to, i) else {
        return Ok(Err(Trouble::Range));
    };
    Ok(Ok(Value::Bytes(whole.part(from, to)?)))
}

/// The part of no bytes, as `part`. `O(1)`.
pub fn part_of_none(i: i64, j: i64) -> Result<Result<Value, Trouble>, NoMemory>
    ensures { IfOk result (λ it. it ≡ part [] i j) }
{
    part(&Record::empty(), i, j)
}

/// The first place at which a byte stands.
fn first_place(bytes: &[u8], byte: usize) -> Option<usize>
    ensures { result ≡ position (λ other. other == byte) bytes.now }
{
    bytes.iter().position(|other| usize::from(*other) == byte)
}

/// The least place from `from` on at which a byte stands, or -1.
fn place_from(bytes: &[u8], byte: usize, from: usize) -> i64
    requires fits { length bytes.now ≤ RECORD_MOST }
    requires within { from ≤ length bytes.now }
    ensures { result ≡ place_after from (position (λ other. other == byte) (drop from bytes.now)) }
{
    match first_place(&bytes[from..], byte) {
        Some(place) => (from + place) as i64,
        None => -1,
    }
}

/// The least place from i on at which the byte c stands, or -1.
pub fn found(bytes: &[u8], c: i64, i: i64) -> Result<i64, Trouble>
    requires { length bytes.now ≤ RECORD_MOST }
    ensures { valued result ≡ found bytes.now c i }
{
    let Some(byte) = up_to(255, c) else {
        return Err(Trouble::Range);
    };
    let Some(from) = up_to(bytes.len(), i) else {
        return Err(Trouble::Range);
    };
    Ok(place_from(bytes, byte, from))
}

/// How many bytes there are.
pub fn length_of(bytes: &[u8]) -> i64
    requires { length bytes.now ≤ RECORD_MOST }
    ensures { result ≡ pos (length bytes.now) }
{
    bytes.len() as i64
}

/// Both, joined, with no room to spare. `O(length)`, and one allocation.
pub fn joined(alloc: Global, a: &[u8], b: &[u8]) -> Result<Vec<u8>, NoMemory>
    requires first { length a.now ≤ RECORD_MOST }
    requires second { length b.now ≤ RECORD_MOST }
    ensures { IfOk result (λ both. both.items ≡ a.now ++ b.now) }
{
    let mut both = Vec::with_capacity(alloc, a.len() + b.len())?;
    both.extend_from_slice(a)?;
    both.extend_from_slice(b)?;
    Ok(both)
}

/// The number that bytes are the text of.
pub fn numbered(bytes: &[u8]) -> Result<i64, Trouble>
    ensures { valued result ≡ numbered (number bytes.now) }
{
    match read_number(bytes) {
        Some(number) => Ok(number),
        None => Err(Trouble::BadNumber),
    }
}
