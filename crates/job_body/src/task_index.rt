// Where tasks begin, by the index of a line.
use std::marker::Model;

/// The index of the line at which a task begins, or the number of lines where there is no such task. It is at most
/// 2^32 - 2. Contracts see it as the number.
#[derive(Drop)]
pub struct TaskIndex {
    index: u32,
}

impl Model for TaskIndex {
    ghost use Rattle.std.specs.Prelude.{◌<◌, ◌-◌, ◌^◌, ℕ};

    ghost Value = { ℕ };

    ghost view = { λ it. it.index };

    ghost invariant = { λ it. it.index < 2 ^ 32 - 1 };
}

impl TaskIndex {
    ghost use Rattle.std.specs.Prelude.{◌≡◌, ◌<◌};

    /// The index. `O(1)`.
    pub fn new(index: u32) -> TaskIndex
        requires { index < u32.MAX }
        ensures { result ≡ index }
    {
        TaskIndex { index }
    }

    /// The index of the task's line, from 0 on. `O(1)`.
    pub fn index(&self) -> u32
        ensures index { result ≡ self.now }
        ensures few { result < u32.MAX }
    {
        self.index
    }
}
