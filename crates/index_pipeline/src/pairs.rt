// The set of pairs that the collector keeps.
ghost use Rattle.std.specs.Prelude.{◌≡◌, [], map, IfOk, OnOk};
ghost use Rattle.std.specs.BTreeSet.{insert_key};
ghost use Rattle.index_pipeline.specs.KeptPairs.{kept_pairs};
ghost use Rattle.index_pipeline.specs.Pairs.{pair_of, pair_order};
ghost use Rattle.index_pipeline.specs.Records.{record_of};

use crate::key::Key;
use crate::numbers::Numbers;
use crate::pair::{ToldPair, told};
use crate::pairs_left::{PairsLeft, pairs_of};
use std::alloc::Global;
use std::collections::BTreeMap;
use std::marker::Model;
use swan_model::NoMemory;

/// The numbers of each word.
#[derive(Drop)]
struct NumbersByWord {
    // the numbers of each word, by the words
    words: BTreeMap<Key, Numbers>,
    // where a word is written that is looked up
    asked: Key,
}

impl NumbersByWord {
    /// Adds the pair that this text tells, unless it is there.
    fn add(&mut self, alloc: Global, text: &[u8]) -> Result<(), NoMemory>
        ensures { OnOk result (kept_pairs self.new.words.entries ≡ insert_key pair_order (kept_pairs self.old.words.entries) (pair_of text.now)) }
    {
        let ToldPair { word, line } = told(text);
        self.asked.set(word)?;
        if let Some(numbers) = self.words.get_mut(&self.asked) {
            numbers.add(line)?;
            return Ok(());
        }
        let mut numbers = Numbers::new(alloc);
        numbers.add(line)?;
        self.words.insert(self.asked.again(alloc)?, numbers)?;
        Ok(())
    }
}

/// A set of pairs. Contracts see it as its pairs in their order. It is small, since what a task keeps is moved at each of
/// its steps.
#[derive(Drop)]
pub struct Pairs {
    kept: Box<NumbersByWord>,
}

impl Model for Pairs {
    ghost use Rattle.std.specs.Prelude.{List};
    ghost use Rattle.index_pipeline.specs.KeptPairs.{kept_pairs};
    ghost use Rattle.index_pipeline.specs.Pairs.{Pair};

    ghost Value = { List Pair };

    ghost view = { λ pairs. kept_pairs pairs.kept.value.words.entries };
}

impl Pairs {
    /// No pair. It allocates once. `O(1)`.
    pub fn new(alloc: Global) -> Result<Pairs, NoMemory>
        ensures { IfOk result (λ pairs. pairs ≡ []) }
    {
        let kept = NumbersByWord {
            words: BTreeMap::new(alloc),
            asked: Key::new(alloc),
        };
        Ok(Pairs {
            kept: Box::new(alloc, kept)?,
        })
    }

    /// Adds the pair that this text tells, unless it is there. Memory is taken for a word or a number that is new.
    /// `O(length + log words)`, and linear in the numbers of the word where this one is new and not above all others, which is
    /// so in no run.
    pub fn add(&mut self, alloc: Global, text: &[u8]) -> Result<(), NoMemory>
        ensures { OnOk result (self.new ≡ insert_key pair_order self.old (pair_of text.now)) }
    {
        self.kept.add(alloc, text)
    }

    /// The pairs in order, to push. It allocates once. `O(1)`.
    pub fn into_left(self, alloc: Global) -> Result<PairsLeft, NoMemory>
        ensures { IfOk result (λ left. left ≡ map record_of self) }
    {
        let NumbersByWord { words, asked: _ } = Box::into_inner(self.kept);
        pairs_of(alloc, words)
    }
}
