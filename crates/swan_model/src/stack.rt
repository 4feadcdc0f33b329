// A stack.
ghost use Rattle.std.specs.Prelude.{◌≡◌, ◌∷◌, ◌↔◌, [], slice_get, IfNone, IsTrue, MatchOption, OnOk};
ghost use Rattle.std.specs.Option.{option_copied};

use crate::NoMemory;
use std::alloc::Global;
use std::marker::Model;

/// A stack of items. Contracts see it as the list of them, the top one first.
#[derive(Drop)]
pub struct Stack<T> {
    upwards: Vec<T>,
}

impl<T> Model for Stack<T> {
    ghost use Rattle.std.specs.Prelude.{List, reverse};

    ghost Value = { List T };

    ghost view = { λ stack. reverse stack.upwards.items };
}

impl<T> Stack<T> {
    /// The empty stack, which takes no memory. `O(1)`.
    pub fn new(alloc: Global) -> Self
        ensures { result ≡ [] }
    {
        Stack {
            upwards: Vec::new(alloc),
        }
    }

    /// Whether there is no item. `O(1)`.
    pub fn is_empty(&self) -> bool
        ensures { IsTrue result ↔ (self.now ≡ []) }
    {
        self.upwards.is_empty()
    }

    /// The top item, and None exactly where the stack is empty. `O(1)`.
    pub fn top(&self) -> Option<&T>
        ensures { option_copied result ≡ slice_get self.now 0 }
    {
        self.upwards.last()
    }

    /// Puts an item on top. `O(1)` amortised. Err is want of memory, and gives the item up.
    pub fn push(&mut self, item: T) -> Result<(), NoMemory>
    where
        T: Drop,
        ensures { OnOk result (self.new ≡ item ∷ self.old) }
    {
        self.upwards.push(item)?;
        Ok(())
    }

    /// Takes the top item off, and None exactly where the stack is empty. `O(1)`.
    pub fn pop(&mut self) -> Option<T>
        ensures top { MatchOption result (self.old ≡ []) (λ top. self.old ≡ top ∷ self.new) }
        ensures empty { IfNone result (self.new ≡ self.old) }
    {
        self.upwards.pop()
    }

    /// Takes all items off. `O(1)` for each.
    pub fn clear(&mut self)
    where
        T: Drop,
        ensures { self.new ≡ [] }
    {
        self.upwards.clear();
    }
}
