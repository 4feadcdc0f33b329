// Words as the keys of a map.
ghost use Rattle.std.specs.Prelude.{◌≡◌, ℕ, ◌<◌, [], Some, IfOk, OnOk};
ghost use Rattle.std.specs.Cmp.Lexicographic.{slice_cmp};
ghost use Rattle.std.specs.List.{slice_index_or};
ghost use Rattle.std.specs.Ordering.{nat_cmp};
ghost use Rattle.index_pipeline.specs.Keys.{front_value};

use std::alloc::Global;
use std::cmp::Ordering;
use std::marker::Model;
use swan_model::NoMemory;

/// A word as a key of a map. Contracts see it as its bytes, and so does its order. Its first eight bytes stand beside it as
/// one number, so that most comparisons need not look where the word's bytes stand.
#[derive(Drop)]
pub struct Key {
    front: u64,
    word: Vec<u8>,
}

impl Model for Key {
    ghost use Rattle.std.specs.Prelude.{List, ℕ, ◌≡◌};
    ghost use Rattle.index_pipeline.specs.Keys.{front_value};

    ghost Value = { List ℕ };

    ghost view = { λ key. key.word.items };

    ghost invariant = { λ key. key.front ≡ front_value 8 key.word.items };
}

/// The byte at an index, and 0 past the end.
fn byte_at(word: &[u8], index: usize) -> u64
    ensures byte { result ≡ slice_index_or word.now index 0 }
    ensures small { result < 256 }
{
    match word.get(index) {
        Some(byte) => u64::from(*byte),
        None => 0,
    }
}

/// The first eight bytes as one number, the first one highest; bytes that a word lacks are 0.
#[tactic(auto, using(crate::proofs::KeyOrder::eight_bytes))]
fn front_of(word: &[u8]) -> u64
    ensures { result ≡ front_value 8 word.now }
{
    let front = byte_at(word, 0);
    let front = front * 256 + byte_at(word, 1);
    let front = front * 256 + byte_at(word, 2);
    let front = front * 256 + byte_at(word, 3);
    let front = front * 256 + byte_at(word, 4);
    let front = front * 256 + byte_at(word, 5);
    let front = front * 256 + byte_at(word, 6);
    front * 256 + byte_at(word, 7)
}

/// The order of two words, of which the numbers of their first bytes are known.
fn order_of(front: u64, word: &[u8], other_front: u64, other: &[u8]) -> Ordering
    requires own { front ≡ front_value 8 word.now }
    requires others { other_front ≡ front_value 8 other.now }
    requires bytes { (k : ℕ) → slice_index_or word.now k 0 < 256 }
    requires other_bytes { (k : ℕ) → slice_index_or other.now k 0 < 256 }
    ensures { result ≡ slice_cmp nat_cmp word.now other.now }
{
    if front < other_front {
        return Ordering::Less;
    }
    if other_front < front {
        return Ordering::Greater;
    }
    word.cmp(other)
}

impl Key {
    /// The empty word. It takes no memory. `O(1)`.
    pub fn new(alloc: Global) -> Key
        ensures { result ≡ [] }
    {
        Key {
            front: 0,
            word: Vec::new(alloc),
        }
    }

    /// Another word in place of this one, in the same memory where that is enough. `O(length)`.
    pub fn set(&mut self, word: &[u8]) -> Result<(), NoMemory>
        ensures { OnOk result (self.new ≡ word.now) }
    {
        self.front = 0;
        self.word.clear();
        self.word.extend_from_slice(word)?;
        self.front = front_of(word);
        Ok(())
    }

    /// The same word, in memory of its own. `O(length)`.
    pub fn again(&self, alloc: Global) -> Result<Key, NoMemory>
        ensures { IfOk result (λ key. key ≡ self.now) }
    {
        Ok(Key {
            front: self.front,
            word: self.word.as_slice().to_vec(alloc)?,
        })
    }

    /// The word. `O(1)`.
    pub fn as_slice(&self) -> &[u8]
        ensures { result.now ≡ self.now }
    {
        self.word.as_slice()
    }
}

impl PartialEq for Key {
    ghost use Rattle.std.specs.Cmp.{partial_equiv_from_equiv};
    ghost use Rattle.std.specs.Cmp.Lexicographic.{nat_list_eq_equiv, pointwise};
    ghost use Rattle.std.specs.Prelude.{nat_eq};

    ghost eq = { pointwise nat_eq };

    ghost laws = { partial_equiv_from_equiv nat_list_eq_equiv };

    fn eq(&self, other: &Key) -> bool {
        self.word.as_slice() == other.word.as_slice()
    }
}

impl Eq for Key {
    ghost use Rattle.std.specs.Cmp.Lexicographic.{nat_list_eq_equiv};

    ghost laws = { nat_list_eq_equiv };
}

impl PartialOrd for Key {
    ghost use Rattle.std.specs.Cmp.Lexicographic.{slice_cmp, texts_po};
    ghost use Rattle.std.specs.Ordering.{nat_cmp};

    ghost partial_cmp = { λ x y. Some (slice_cmp nat_cmp x y) };

    ghost laws = { texts_po };

    fn partial_cmp(&self, other: &Key) -> Option<Ordering> {
        Some(self.cmp(other))
    }
}

impl Ord for Key {
    ghost use Rattle.std.specs.Prelude.{refl};
    ghost use Rattle.std.specs.Cmp.Lexicographic.{nat_list_cmp_total, slice_cmp, texts_ties};
    ghost use Rattle.std.specs.Ordering.{nat_cmp};

    ghost cmp = { slice_cmp nat_cmp };

    ghost total = { nat_list_cmp_total };

    ghost matches_partial_cmp = { λ x y. refl };

    ghost matches_eq = { texts_ties };

    fn cmp(&self, other: &Key) -> Ordering {
        let word = self.word.as_slice();
        let other_word = other.word.as_slice();
        order_of(self.front, word, other.front, other_word)
    }
}
