// Records that share one buffer.
ghost use Rattle.std.specs.Prelude.{◌≡◌, ◌+◌, ◌∷◌, ◌++◌, [], true, length, nat_le, slice_get, IfOk, OnOk, MatchOption};
ghost use Rattle.index_pipeline.specs.Batches.{has_room};
ghost use Rattle.index_pipeline.specs.Records.{record_of};
ghost use Rattle.index_pipeline.specs.Words.{word_of};
ghost use Rattle.index_pipeline.specs.declared.batch.TheConstants.{BATCH_MOST, NUMBER_MOST};
ghost use Rattle.index_pipeline.specs.declared.word.TheConstants.{WORD_MOST};

use crate::pair::write_number;
use crate::word::write_word;
use std::alloc::Global;
use std::marker::Model;
use swan_model::{NoMemory, Record, Value};

/// The largest number of bytes that a record of the index has beside its word: a space, and a number of 64 bits in decimal.
const NUMBER_MOST: usize = 21;

/// The largest number of bytes of a batch of more than one record. Records may be longer, but a batch's buffer lives as long as
/// one of its records does, so a larger one would be held for a word.
const BATCH_MOST: usize = 65_535;

/// Whether a word of so many bytes has room with its number after what is written, all in one batch.
fn is_within(written: usize, word_len: usize) -> bool
    ensures { result ≡ nat_le (written + word_len + NUMBER_MOST) BATCH_MOST }
{
    written.saturating_add(word_len) <= BATCH_MOST - NUMBER_MOST
}

/// Records that are written one after the other into one buffer. Contracts see it as these records, in order. They have at most
/// `BATCH_MOST` bytes together, unless there is only one.
#[derive(Drop)]
pub struct BatchWriter {
    // the records' bytes, and then what was written of a record before memory ran out
    bytes: Vec<u8>,
    // how many bytes each record has
    lens: Vec<usize>,
    // how many they have together
    written: usize,
}

impl Model for BatchWriter {
    ghost use Rattle.std.specs.Prelude.{List, ◌≡◌, ◌≤◌, ◌⊎◌, length};
    ghost use Rattle.std.specs.List.{sum};
    ghost use Rattle.swan_model.specs.declared.value.Value.{Value as TheValue};
    ghost use Rattle.index_pipeline.specs.Batches.{cuts};
    ghost use Rattle.index_pipeline.specs.declared.batch.TheConstants.{BATCH_MOST};

    ghost Value = { List TheValue };

    ghost view = { λ writer. cuts writer.lens.items writer.bytes.items };

    ghost invariant = { λ writer. (writer.written ≡ sum writer.lens.items) × (writer.written ≤ length writer.bytes.items) × ((length writer.lens.items ≤ 1) ⊎ (writer.written ≤ BATCH_MOST)) };
}

impl BatchWriter {
    /// No record. It takes no memory. `O(1)`.
    pub fn new(alloc: Global) -> BatchWriter
        ensures { result ≡ [] }
    {
        BatchWriter {
            bytes: Vec::new(alloc),
            lens: Vec::new(alloc),
            written: 0,
        }
    }

    /// Whether the record of a word of so many bytes has room beside those that are there, all in one batch. Where
    /// none is there it has. `O(1)`.
    pub fn has_room(&self, word_len: usize) -> bool
        ensures { result ≡ has_room self.now word_len }
    {
        self.lens.is_empty() || is_within(self.written, word_len)
    }

    /// Adds the record of the word of a run. There is room for the longest word. `O(1)` amortised: the word is copied
    /// once.
    pub fn push_run(&mut self, run: &[u8], line: u64) -> Result<(), NoMemory>
        requires { has_room self.old WORD_MOST ≡ true }
        ensures { OnOk result (self.new ≡ self.old ++ record_of (record { word = word_of run.now; line = line }) ∷ []) }
    {
        self.bytes.truncate(self.written);
        write_word(&mut self.bytes, run)?;
        write_number(&mut self.bytes, line)?;
        self.lens.push(self.bytes.len() - self.written)?;
        self.written = self.bytes.len();
        Ok(())
    }

    /// Adds the record of a word. There is room for it. `O(length)` amortised: the word is copied once.
    pub fn push_word(&mut self, word: &[u8], line: u64) -> Result<(), NoMemory>
        requires { has_room self.old (length word.now) ≡ true }
        ensures { OnOk result (self.new ≡ self.old ++ record_of (record { word = word.now; line = line }) ∷ []) }
    {
        self.bytes.truncate(self.written);
        self.bytes.extend_from_slice(word)?;
        write_number(&mut self.bytes, line)?;
        self.lens.push(self.bytes.len() - self.written)?;
        self.written = self.bytes.len();
        Ok(())
    }

    /// The records, to be taken. A record that is alone and longer than records may be is answered as want of memory: no
    /// word of a text is so long. `O(1)`, or one copy of the bytes where the buffer has room to spare, which is given up.
    pub fn into_batch(self) -> Result<Batch, NoMemory>
        ensures { IfOk result (λ batch. batch ≡ self) }
    {
        let BatchWriter {
            mut bytes,
            lens,
            written: _,
        } = self;
        bytes.shrink_to_fit();
        let Ok(bytes) = Record::from_vec(bytes) else {
            return Err(NoMemory);
        };
        Ok(Batch {
            bytes,
            taken: 0,
            lens,
            next: 0,
        })
    }
}

/// The length at an index, and None exactly past the end.
fn len_at(lens: &[usize], index: usize) -> Option<usize>
    ensures { result ≡ slice_get lens.now index }
{
    lens.get(index).copied()
}

/// Records that share one buffer, of which some are taken already. Contracts see it as those that are left, in
/// order.
#[derive(Drop)]
pub struct Batch {
    // the bytes of all records
    bytes: Record,
    // how many of them are taken
    taken: usize,
    // how many bytes each record has
    lens: Vec<usize>,
    // how many records are taken
    next: usize,
}

impl Model for Batch {
    ghost use Rattle.std.specs.Prelude.{List, ◌≤◌, ◌+◌, drop, length};
    ghost use Rattle.std.specs.List.{sum};
    ghost use Rattle.swan_model.specs.declared.record.TheConstants.{RECORD_MOST};
    ghost use Rattle.swan_model.specs.declared.value.Value.{Value as TheValue};
    ghost use Rattle.index_pipeline.specs.Batches.{cuts};

    ghost Value = { List TheValue };

    ghost view = { λ batch. cuts (drop batch.next batch.lens.items) (drop batch.taken batch.bytes) };

    ghost invariant = { λ batch. (batch.taken + sum (drop batch.next batch.lens.items) ≤ length batch.bytes) × (batch.next ≤ length batch.lens.items) × (length batch.bytes ≤ RECORD_MOST) };
}

impl Batch {
    /// No record. `O(1)`.
    pub fn none(alloc: Global) -> Result<Batch, NoMemory>
        ensures { IfOk result (λ batch. batch ≡ []) }
    {
        BatchWriter::new(alloc).into_batch()
    }

    /// Takes the next record, and None exactly where no record is left. It shares the buffer's bytes. `O(1)`.
    pub fn take(&mut self) -> Result<Option<Value>, NoMemory>
        ensures { IfOk result (λ taken. MatchOption taken (self.old ≡ []) (λ item. self.old ≡ item ∷ self.new)) }
    {
        let Some(len) = len_at(self.lens.as_slice(), self.next) else {
            return Ok(None);
        };
        let to = self.taken + len;
        let record = self.bytes.part(self.taken, to)?;
        self.taken = to;
        self.next += 1;
        Ok(Some(Value::Bytes(record)))
    }
}
