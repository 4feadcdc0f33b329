// Instructions.
use crate::task_index::TaskIndex;
use job_reader::Op;
use swan_model::{Gives, Kind, Listed, Record};

/// What stands in a line in the place of a value.
#[derive(Drop)]
pub enum Operand {
    /// A number.
    Int(i64),
    /// Bytes.
    Bytes(Record),
    /// The variable in this slot.
    Variable(u32),
}

/// A number, or that of the variable in a slot; 0 where that has bytes.
#[derive(Clone, Copy)]
pub enum Num {
    /// A number.
    Const(i64),
    /// The number of the variable in this slot.
    Slot(u32),
}

/// An operation on two numbers, which gives a number.
#[derive(Clone, Copy)]
pub enum IntOp {
    /// The sum.
    Add,
    /// The difference.
    Sub,
    /// The product.
    Mul,
    /// The truncated quotient.
    Div,
    /// The rest of the division.
    Rem,
    /// 1 where the first number is less, else 0.
    Lt,
    /// 1 where the first number isn't more, else 0.
    Le,
    /// 1 where both numbers aren't 0, else 0.
    And,
    /// 1 where one of the numbers isn't 0, else 0.
    Or,
    /// 1 where the first number is 0, else 0.
    Not,
}

/// What a line does that is the task's own work. A slot is the place of a variable among those of its
/// task, and None that of a name that isn't known.
#[derive(Drop)]
pub enum Work {
    /// It sets a slot to the number of an operation on numbers.
    Ints(IntOp, u32, Num, Num),
    /// It goes on at this line where a number is false.
    Branch(Num, u32),
    /// Nothing.
    Go,
    /// It sets a slot to the value of an operation.
    Assign(Option<u32>, Op, Operand, Operand, Operand),
    /// It sets a slot to the number of children that failed, by the last sync.
    Caught(Option<u32>),
    /// It sets a slot to the fuel that is left.
    Fuel(Option<u32>),
}

/// What a line asks of the run. A place is that of an object or a queue among those of its task.
#[derive(Drop)]
pub enum Demand {
    /// A task begins here: its `var` lines have these kinds. As a step it ends the task.
    Begin(Listed<Kind>),
    /// It makes a queue.
    NewQueue,
    /// It makes an object of this kind.
    NewObject(Kind),
    /// It reads the object at a place into a slot.
    Read(Option<u32>, u32),
    /// It writes an object.
    Write(u32, Operand),
    /// It pushes to a queue.
    Push(u32, Operand),
    /// It pops from the queue at a place into a slot.
    Pop(Option<u32>, u32),
    /// It tests whether the queue at a place is empty, into a slot.
    Empty(Option<u32>, u32),
    /// It spawns, with this fuel, the task at this line, with these values and gives.
    Spawn(Operand, TaskIndex, Listed<Operand>, Gives),
    /// It waits for all children.
    Sync,
    /// It ends the task with a fault.
    Fail(Operand),
    /// It ends the task.
    Finish,
}

/// What a line does.
#[derive(Drop)]
pub enum Action {
    /// The task's own work.
    Work(Work),
    /// Something that it asks of the run.
    Demand(Demand),
}

/// What a line does, and the line at which the task goes on.
#[derive(Drop)]
pub struct Instruction {
    /// What it does.
    pub action: Action,
    /// The index of the line.
    pub next: u32,
}
