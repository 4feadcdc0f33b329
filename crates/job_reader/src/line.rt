// Lines of a job.
use crate::{Atom, Atoms, Op};
use swan_model::{Kind, Mode, Word};

/// An edition of the language. The second has all that the first has, and the statement `caught`.
#[derive(Clone, Copy, Debug, PartialEq, Eq)]
pub enum Edition {
    /// `swan 1`.
    One,
    /// `swan 2`.
    Two,
}

/// A line of a job. `Object` stands at the top level and in a task.
#[derive(Drop)]
pub enum Line {
    /// A note: nothing, or its text from `#` on, which has no space at its end.
    Note(Word),
    /// The first line, `swan 1` or `swan 2`.
    Header(Edition),
    /// `input NAME`.
    Input(Word),
    /// `output NAME KIND`.
    Output(Word, Kind),
    /// `object NAME KIND`.
    Object(Word, Kind),
    /// `task NAME`, which opens a task.
    Task(Word),
    /// `param NAME KIND`.
    Param(Word, Kind),
    /// `in`, `out`, `inout`, `push`, `pop` or `pushpop`, and `NAME KIND`.
    Access(Mode, Word, Kind),
    /// `var NAME KIND`.
    Var(Word, Kind),
    /// `queue NAME KIND`.
    Queue(Word, Kind),
    /// `do`, which ends a task's declarations.
    Do,
    /// `v = OP atoms`.
    Assign(Word, Op, Atoms),
    /// `read v o`: the value of an object.
    Read(Word, Word),
    /// `write o a`.
    Write(Word, Atom),
    /// `push q a`.
    Push(Word, Atom),
    /// `pop v q`: the first item of a queue.
    Pop(Word, Word),
    /// `empty v q`: whether a queue is empty.
    Empty(Word, Word),
    /// `spawn F TASK args`: the child's fuel, its task, and what it is given.
    Spawn(Atom, Word, Atoms),
    /// `sync`.
    Sync,
    /// `caught v`: how many children failed, in a job of the second edition.
    Caught(Word),
    /// `fuel v`: the fuel that is left.
    Fuel(Word),
    /// `fail a`.
    Fail(Atom),
    /// `if a`, which opens a block.
    If(Atom),
    /// `else` of an `if`.
    Else,
    /// `while a`, which opens a block.
    While(Atom),
    /// `end`, which closes the innermost open block, or else the task.
    End,
}
