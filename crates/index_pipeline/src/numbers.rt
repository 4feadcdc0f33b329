// The numbers of a word.
ghost use Rattle.std.specs.Prelude.{◌≡◌, ◌+◌, ◌-◌, ◌^◌, ◌<◌, ◌≤◌, ◌∷◌, [], true, drop, length, nat_lt, slice_get, IfNone, IfSome, MatchOption, OnOk};
ghost use Rattle.std.specs.BTreeSet.{insert_key};
ghost use Rattle.std.specs.List.{insert};
ghost use Rattle.std.specs.List.Sorted.{IsStrictlySortedBy};
ghost use Rattle.std.specs.Ordering.{nat_cmp};

use std::alloc::Global;
use std::marker::Model;
use swan_model::NoMemory;

/// Numbers in rising order, each once. Contracts see it as their list.
#[derive(Drop)]
pub struct Numbers {
    rising: Vec<u64>,
}

impl Model for Numbers {
    ghost use Rattle.std.specs.Prelude.{List, ℕ};
    ghost use Rattle.std.specs.List.Sorted.{IsStrictlySortedBy};
    ghost use Rattle.std.specs.Ordering.{nat_cmp};

    ghost Value = { List ℕ };

    ghost view = { λ numbers. numbers.rising.items };

    ghost invariant = { λ numbers. IsStrictlySortedBy nat_cmp numbers.rising.items };
}

/// Whether a number is above the last one of these, and true where there is none. `O(1)`.
fn is_past_last(numbers: &[u64], number: u64) -> bool
    ensures { MatchOption (slice_get numbers.now (length numbers.now - 1)) (result ≡ true) (λ last. result ≡ nat_lt last number) }
{
    match numbers.last() {
        Some(last) => *last < number,
        None => true,
    }
}

/// Where a number goes among rising ones, and None exactly where it is there. `O(1)` where it is above all others, and
/// else `O(log numbers)`.
fn place_of(rising: &[u64], number: u64) -> Option<usize>
    requires { IsStrictlySortedBy nat_cmp rising.now }
    ensures there { IfNone result (insert_key nat_cmp rising.now number ≡ rising.now) }
    ensures within { IfSome result (λ place. place ≤ length rising.now) }
    ensures goes { IfSome result (λ place. insert_key nat_cmp rising.now number ≡ insert rising.now place number) }
{
    if is_past_last(rising, number) {
        return Some(rising.len());
    }
    rising.binary_search(&number).err()
}

/// The number at an index, and None exactly past the end.
fn number_at(rising: &[u64], index: usize) -> Option<u64>
    ensures { result ≡ slice_get rising.now index }
{
    rising.get(index).copied()
}

impl Numbers {
    /// No number. It takes no memory. `O(1)`.
    pub fn new(alloc: Global) -> Numbers
        ensures { result ≡ [] }
    {
        Numbers {
            rising: Vec::new(alloc),
        }
    }

    /// Adds a number unless it is there. `O(1)` amortised where it is above all others, `O(log numbers)` where it is
    /// there, and else `O(numbers)`.
    pub fn add(&mut self, number: u64) -> Result<(), NoMemory>
        ensures { OnOk result (self.new ≡ insert_key nat_cmp self.old number) }
    {
        match place_of(self.rising.as_slice(), number) {
            Some(place) => self.rising.insert(place, number)?,
            None => {}
        }
        Ok(())
    }

    /// The number at an index from 0 on, and None exactly past the end. `O(1)`.
    pub fn get(&self, index: usize) -> Option<u64>
        ensures number { MatchOption result (drop index self.now ≡ []) (λ number. drop index self.now ≡ number ∷ drop (index + 1) self.now) }
        ensures few { length self.now < 2 ^ 63 }
    {
        number_at(self.rising.as_slice(), index)
    }
}
