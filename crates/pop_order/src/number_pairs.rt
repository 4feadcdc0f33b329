// Pairs of numbers.
ghost use Rattle.std.specs.Prelude.{◌≡◌, ℕ, ◌≤◌, true, false, [], IfSome, IfNone, OnOk, OnErr};
ghost use Rattle.pop_order.specs.NumberPairs.{has_pair, IsPairNotAfter, IsNext, IsWithPair, IsWithoutPair};

use std::alloc::Global;
use std::collections::BTreeSet;
use std::marker::Model;
use swan_model::NoMemory;

/// A set of pairs of numbers. It finds the second numbers behind a first one, by rising numbers.
#[derive(Drop)]
pub struct NumberPairs {
    entries: BTreeSet<(u64, u64)>,
}

impl Model for NumberPairs {
    ghost use Rattle.std.specs.Prelude.{List};
    ghost use Rattle.pop_order.specs.NumberPairs.{NumberPair};

    ghost Value = { List NumberPair };

    ghost view = { λ pairs. pairs.entries.keys };
}

impl NumberPairs {
    /// The empty set. It takes no memory. `O(1)`.
    pub fn new(alloc: Global) -> NumberPairs
        ensures { result ≡ [] }
    {
        NumberPairs {
            entries: BTreeSet::new(alloc),
        }
    }

    /// Puts a pair in. Err is want of memory, and leaves the set as it was. `O(log n)`.
    #[tactic(auto, unfolding(crate::specs::NumberPairs::has_pair))]
    pub fn insert(&mut self, first: u64, second: u64) -> Result<(), NoMemory>
        ensures with { OnOk result (IsWithPair self.old first second self.new) }
        ensures kept { OnErr result (self.new ≡ self.old) }
    {
        let _is_new = self.entries.insert((first, second))?;
        Ok(())
    }

    /// Takes a pair out. `O(log n)`; it takes no memory.
    #[tactic(auto, unfolding(crate::specs::NumberPairs::has_pair))]
    pub fn remove(&mut self, first: u64, second: u64)
        ensures { IsWithoutPair self.old first second self.new }
    {
        self.entries.remove(&(first, second));
    }

    /// Takes all pairs out. `O(n)`.
    pub fn clear(&mut self)
        ensures { self.new ≡ [] }
    {
        self.entries.clear();
    }

    /// The least number, from a given one on, that stands behind a first number; None exactly where there is none. `O(log n)`; it takes no
    /// memory.
    #[tactic(auto, using(crate::proofs::PairOrder::of_one_first))]
    pub fn next(&self, first: u64, from: u64) -> Option<u64>
        ensures next { IfSome result (IsNext self.now first from) }
        ensures none { IfNone result ((number : ℕ) → from ≤ number → has_pair self.now first number ≡ false) }
    {
        match self.next_pair(first, from) {
            Some(&(found, number)) if found == first => Some(number),
            _ => None,
        }
    }

    /// The first pair from this one on.
    #[tactic(auto, unfolding(crate::specs::NumberPairs::has_pair, crate::specs::NumberPairs::IsPairNotAfter))]
    fn next_pair(&self, first: u64, from: u64) -> Option<&(u64, u64)>
        ensures found { IfSome result (λ e. has_pair self.now e.now.0 e.now.1 ≡ true) }
        ensures from { IfSome result (λ e. IsPairNotAfter (first, from) e.now) }
        ensures least { IfSome result (λ e. (number : ℕ) → from ≤ number → has_pair self.now first number ≡ true → IsPairNotAfter e.now (first, number)) }
        ensures none { IfNone result ((number : ℕ) → from ≤ number → has_pair self.now first number ≡ false) }
    {
        match self.entries.range((first, from)..).next() {
            Some(pair) => Some(pair),
            None => None,
        }
    }
}
