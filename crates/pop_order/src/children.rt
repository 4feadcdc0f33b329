// Children by parent and queue.
ghost use Rattle.std.specs.Prelude.{◌≡◌, ℕ, true, false, [], IfSome, IfNone, OnOk};
ghost use Rattle.pop_order.specs.Children.{has, IsNotAfter, IsOldest, IsWith, IsWithout};

use std::alloc::Global;
use std::collections::BTreeSet;
use std::marker::Model;
use swan_model::NoMemory;

/// A set of children, each with its parent and a queue. It finds the oldest child of a parent for a
/// queue, which is the one of the least number.
#[derive(Drop)]
pub struct Children {
    entries: BTreeSet<(u64, u32, u64)>,
}

impl Model for Children {
    ghost use Rattle.std.specs.Prelude.{List, ℕ};

    ghost Value = { List (ℕ × ℕ × ℕ) };

    ghost view = { λ children. children.entries.keys };
}

impl Children {
    /// The empty set. It takes no memory. `O(1)`.
    pub fn new(alloc: Global) -> Children
        ensures { result ≡ [] }
    {
        Children {
            entries: BTreeSet::new(alloc),
        }
    }

    /// Whether the child is in the set. `O(log n)`.
    #[tactic(auto, unfolding(crate::specs::Children::has))]
    pub fn has(&self, parent: u64, queue: u32, child: u64) -> bool
        ensures { result ≡ has self.now parent queue child }
    {
        self.entries.contains(&(parent, queue, child))
    }

    /// Puts a child in. Err is want of memory, and leaves the set as it was. `O(log n)`.
    #[tactic(auto, unfolding(crate::specs::Children::has))]
    pub fn insert(&mut self, parent: u64, queue: u32, child: u64) -> Result<(), NoMemory>
        ensures { OnOk result (IsWith self.old parent queue child self.new) }
    {
        let _is_new = self.entries.insert((parent, queue, child))?;
        Ok(())
    }

    /// Takes a child out. `O(log n)`; it takes no memory.
    #[tactic(auto, unfolding(crate::specs::Children::has))]
    pub fn remove(&mut self, parent: u64, queue: u32, child: u64)
        ensures { IsWithout self.old parent queue child self.new }
    {
        self.entries.remove(&(parent, queue, child));
    }

    /// Takes all children out. `O(n)`.
    pub fn clear(&mut self)
        ensures { self.new ≡ [] }
    {
        self.entries.clear();
    }

    /// The oldest child of the parent for the queue. `O(log n)`.
    #[tactic(auto, using(crate::proofs::Entries::of_one_parent))]
    pub fn oldest(&self, parent: u64, queue: u32) -> Option<u64>
        ensures oldest { IfSome result (IsOldest self.now parent queue) }
        ensures none { IfNone result ((child : ℕ) → has self.now parent queue child ≡ false) }
    {
        match self.first_from(parent, queue) {
            Some(&(found_parent, found_queue, child))
                if found_parent == parent && found_queue == queue => { Some(child) }
            _ => None,
        }
    }

    /// The first entry from those of the parent and the queue on.
    #[tactic(auto, unfolding(crate::specs::Children::has, crate::specs::Children::IsNotAfter))]
    fn first_from(&self, parent: u64, queue: u32) -> Option<&(u64, u32, u64)>
        ensures found { IfSome result (λ e. has self.now e.now.0 e.now.1 e.now.2 ≡ true) }
        ensures from { IfSome result (λ e. IsNotAfter (parent, queue, 0) e.now) }
        ensures first { IfSome result (λ e. (child : ℕ) → has self.now parent queue child ≡ true → IsNotAfter e.now (parent, queue, child)) }
        ensures none { IfNone result ((child : ℕ) → has self.now parent queue child ≡ false) }
    {
        match self.entries.range((parent, queue, 0)..).next() {
            Some(first) => Some(first),
            None => None,
        }
    }
}
