// Assignments.
ghost use Rattle.std.specs.Prelude.{◌≡◌, ◌++◌, true, false, IfOk, OnOk};
ghost use Rattle.job_reader.specs.declared.op.Op.TheVariants.{Cat};
ghost use Rattle.swan_model.specs.Values.{bytes_of};
ghost use Rattle.job_body.specs.Operations.{fitting_bytes, is_equal, number_of, operation};
ghost use Rattle.job_body.specs.Runs.{assigned, gives_number, int_operation, value_of, valued};

use crate::JobLocal;
use crate::instruction::{IntOp, Operand};
use crate::operation::{byte_at, found, length_of, numbered, reckoned, yes};
use job_reader::Op;
use std::alloc::Global;
use swan_model::{NoMemory, RECORD_MOST, Record, Trouble, Value};

/// Whether two operands mean the same.
fn is_equal(local: &JobLocal, a: &Operand, b: &Operand) -> bool
    ensures { result ≡ is_equal (value_of local.now.values a.now) (value_of local.now.values b.now) }
{
    match (local.bytes_if_any(a), local.bytes_if_any(b)) {
        (None, None) => local.number(a) == local.number(b),
        (Some(a), Some(b)) => a == b,
        _ => false,
    }
}

/// The number of an operation on the numbers that two operands mean, or its trouble. `O(1)`.
fn of_numbers(local: &JobLocal, op: IntOp, a: &Operand, b: &Operand) -> Result<i64, Trouble>
    ensures { valued result ≡ int_operation op (number_of (value_of local.now.values a.now)) (number_of (value_of local.now.values b.now)) }
{
    reckoned(op, local.number(a), local.number(b))
}

/// Sets a slot to the bytes of two operands, joined, or answers the trouble that they are too many, and has then done nothing.
/// `O(length)`; but `O(length of what is added)`, amortised, where the slot is that of the first operand, and no one
/// else was given the bytes in it since they were joined there.
fn join(
    alloc: Global,
    local: &mut JobLocal,
    slot: Option<u32>,
    a: &Operand,
    b: &Operand,
) -> Result<Option<Trouble>, NoMemory>
    ensures { IfOk result (λ trouble. (local.new, trouble) ≡ assigned local.old slot
        (fitting_bytes (bytes_of (value_of local.old.values a.now) ++ bytes_of (value_of local.old.values b.now)))) }
{
    if local.bytes(a).len() + local.bytes(b).len() > RECORD_MOST {
        return Ok(Some(Trouble::TooLong));
    }
    local.join(alloc, slot, a, b)?;
    Ok(None)
}

/// The number of an operation on operands that gives one, or its trouble. It takes no memory. `O(1)`, but `O(length)` for one
/// that looks at all bytes.
fn number_of_operation(
    local: &JobLocal,
    op: Op,
    a: &Operand,
    b: &Operand,
    c: &Operand,
) -> Result<i64, Trouble>
    requires { gives_number op ≡ true }
    ensures { valued result ≡ operation op (value_of local.now.values a.now) (value_of local.now.values b.now) (value_of local.now.values c.now) }
{
    match op {
        Op::Add => of_numbers(local, IntOp::Add, a, b),
        Op::Sub => of_numbers(local, IntOp::Sub, a, b),
        Op::Mul => of_numbers(local, IntOp::Mul, a, b),
        Op::Div => of_numbers(local, IntOp::Div, a, b),
        Op::Rem => of_numbers(local, IntOp::Rem, a, b),
        Op::Lt => of_numbers(local, IntOp::Lt, a, b),
        Op::Le => of_numbers(local, IntOp::Le, a, b),
        Op::Eq => Ok(yes(is_equal(local, a, b))),
        Op::And => of_numbers(local, IntOp::And, a, b),
        Op::Or => of_numbers(local, IntOp::Or, a, b),
        Op::Not => of_numbers(local, IntOp::Not, a, b),
        Op::Len => Ok(length_of(local.bytes(a))),
        Op::At => byte_at(local.bytes(a), local.number(b)),
        Op::Find => found(local.bytes(a), local.number(b), local.number(c)),
        Op::Num => numbered(local.bytes(a)),
        Op::Set | Op::Slice | Op::Cat | Op::Text => unreachable!(),
    }
}

/// The value of `set`, `slice` or `text` of operands, or its trouble. No bytes are copied but those of a slot that grew in place
/// and are given or cut. `O(1)`, but `O(length)` for such a copy.
fn value_of_operation(
    alloc: Global,
    local: &mut JobLocal,
    op: Op,
    a: &Operand,
    b: &Operand,
    c: &Operand,
) -> Result<Result<Value, Trouble>, NoMemory>
    requires number { gives_number op ≡ false }
    requires cat { op ≡ Cat → ⊥ }
    ensures outcome { IfOk result (λ it. it ≡ operation op (value_of local.old.values a.now) (value_of local.old.values b.now) (value_of local.old.values c.now)) }
    ensures kept { OnOk result (local.new ≡ local.old) }
{
    match op {
        Op::Set => Ok(Ok(local.value(a)?)),
        Op::Slice => {
            let i = local.number(b);
            let j = local.number(c);
            local.part(a, i, j)
        }
        Op::Text => Ok(Ok(Value::Bytes(Record::decimal(alloc, local.number(a))?))),
        _ => unreachable!(),
    }
}

/// Sets a slot to the value of an operation on operands, or answers its trouble, and has then done nothing. It costs what the
/// operation does: see `join`, `value_of_operation` and `number_of_operation`.
pub fn assign(
    alloc: Global,
    local: &mut JobLocal,
    slot: Option<u32>,
    op: Op,
    a: &Operand,
    b: &Operand,
    c: &Operand,
) -> Result<Option<Trouble>, NoMemory>
    ensures { IfOk result (λ trouble. (local.new, trouble) ≡ assigned local.old slot
        (operation op (value_of local.old.values a.now) (value_of local.old.values b.now) (value_of local.old.values c.now))) }
{
    match op {
        Op::Cat => join(alloc, local, slot, a, b),
        Op::Set | Op::Slice | Op::Text => {
            match value_of_operation(alloc, local, op, a, b, c)? {
                Ok(value) => {
                    local.set(slot, value);
                    Ok(None)
                }
                Err(trouble) => Ok(Some(trouble)),
            }
        }
        _ => match number_of_operation(local, op, a, b, c) {
            Ok(number) => {
                local.set_number(slot, number);
                Ok(None)
            }
            Err(trouble) => Ok(Some(trouble)),
        },
    }
}
