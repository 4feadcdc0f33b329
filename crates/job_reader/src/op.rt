// Operations.
ghost use Rattle.std.specs.Prelude.{◌≡◌};
ghost use Rattle.job_reader.specs.Words.{arity, op_named, op_text};

use crate::words::is_text;

/// An operation of an assignment.
#[derive(Clone, Copy, Debug, PartialEq, Eq)]
pub enum Op {
    /// The value itself.
    Set,
    /// The sum.
    Add,
    /// The difference.
    Sub,
    /// The product.
    Mul,
    /// The truncated quotient.
    Div,
    /// The rest of the division.
    Rem,
    /// 1 where the first number is less, else 0.
    Lt,
    /// 1 where the first number isn't more, else 0.
    Le,
    /// 1 where both values are equal, else 0.
    Eq,
    /// 1 where both numbers aren't 0, else 0.
    And,
    /// 1 where one of the numbers isn't 0, else 0.
    Or,
    /// 1 where the number is 0, else 0.
    Not,
    /// How many bytes there are.
    Len,
    /// The byte at a position, as a number.
    At,
    /// The bytes between two positions.
    Slice,
    /// Both, joined.
    Cat,
    /// The position of a byte, from a position on.
    Find,
    /// The number that a text is.
    Num,
    /// The decimal text of a number.
    Text,
}

impl Op {
    /// The word of the operation. `O(1)`.
    pub(crate) fn text(self) -> &'static str
        ensures { result.now ≡ op_text self }
    {
        match self {
            Op::Set => "set",
            Op::Add => "add",
            Op::Sub => "sub",
            Op::Mul => "mul",
            Op::Div => "div",
            Op::Rem => "rem",
            Op::Lt => "lt",
            Op::Le => "le",
            Op::Eq => "eq",
            Op::And => "and",
            Op::Or => "or",
            Op::Not => "not",
            Op::Len => "len",
            Op::At => "at",
            Op::Slice => "slice",
            Op::Cat => "cat",
            Op::Find => "find",
            Op::Num => "num",
            Op::Text => "text",
        }
    }

    /// How many atoms the operation takes. `O(1)`.
    pub(crate) fn arity(self) -> usize
        ensures { result ≡ arity self }
    {
        match self {
            Op::Set | Op::Not | Op::Len | Op::Num | Op::Text => 1,
            Op::Slice | Op::Find => 3,
            _ => 2,
        }
    }

    /// The operation with this word, if it is one.
    pub(crate) fn named(token: &[u8]) -> Option<Op>
        ensures { result ≡ op_named token.now }
    {
        OPS.iter().copied().find(|op| is_text(token, op.text()))
    }
}

/// All operations.
pub const OPS: [Op; 19] = [
    Op::Set,
    Op::Add,
    Op::Sub,
    Op::Mul,
    Op::Div,
    Op::Rem,
    Op::Lt,
    Op::Le,
    Op::Eq,
    Op::And,
    Op::Or,
    Op::Not,
    Op::Len,
    Op::At,
    Op::Slice,
    Op::Cat,
    Op::Find,
    Op::Num,
    Op::Text,
];
