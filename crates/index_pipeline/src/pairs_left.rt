// The pairs that are left to push.
ghost use Rattle.std.specs.Prelude.{◌≡◌, map, drop, length, IfOk};
ghost use Rattle.index_pipeline.specs.KeptPairs.{kept_pairs, pairs_from_word};
ghost use Rattle.index_pipeline.specs.Records.{record_of};

use crate::batch::BatchWriter;
use crate::batches::{Batches, RecordSource};
use crate::key::Key;
use crate::numbers::Numbers;
use std::alloc::Global;
use std::collections::BTreeMap;
use swan_model::NoMemory;

/// Words in order with their numbers, of which some are taken already.
#[derive(Drop)]
pub struct NumbersLeft {
    // the word whose numbers are taken
    word: Key,
    // its numbers
    numbers: Numbers,
    // how many of them are taken
    taken: usize,
    // the words after it
    words: BTreeMap<Key, Numbers>,
}

impl RecordSource for NumbersLeft {
    ghost left = { λ it. map record_of (pairs_from_word it.word (drop it.taken it.numbers) it.words.entries) };

    ghost word_len = { λ it. length it.word };

    /// Writes the next pair's record. A word's memory is given up with its last number. `O(length)`, and `O(log words)`
    /// more for the first number of a word.
    fn write_next(&mut self, batch: &mut BatchWriter) -> Result<bool, NoMemory> {
        loop {
            if let Some(line) = self.numbers.get(self.taken) {
                if !batch.has_room(self.word.as_slice().len()) {
                    return Ok(false);
                }
                batch.push_word(self.word.as_slice(), line)?;
                self.taken += 1;
                return Ok(true);
            }
            match self.words.pop_first() {
                Some((word, numbers)) => {
                    self.word = word;
                    self.numbers = numbers;
                    self.taken = 0;
                }
                None => return Ok(false),
            }
        }
    }
}

/// The pairs that are left, as their records.
pub type PairsLeft = Batches<NumbersLeft>;

/// All pairs of these words. It allocates once. `O(1)`.
pub fn pairs_of(alloc: Global, words: BTreeMap<Key, Numbers>) -> Result<PairsLeft, NoMemory>
    ensures { IfOk result (λ left. left ≡ map record_of (kept_pairs words.entries)) }
{
    let word = Key::new(alloc);
    let numbers = Numbers::new(alloc);
    Batches::of(
        alloc,
        NumbersLeft {
            word,
            numbers,
            taken: 0,
            words,
        },
    )
}
