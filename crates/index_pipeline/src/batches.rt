// Records that are pushed one by one, and made in batches.
ghost use Rattle.std.specs.Prelude.{◌≡◌, ℕ, ◌<◌, ◌∷◌, ◌++◌, ◌⊎◌, [], List, length, true, false, IfOk, OnOk, MatchOption};
ghost use Rattle.swan_model.specs.declared.value.Value.{Value as TheValue};
ghost use Rattle.index_pipeline.specs.Batches.{has_room};

use crate::batch::{Batch, BatchWriter};
use std::alloc::Global;
use std::marker::Model;
use swan_model::{NoMemory, Value};

/// What records are made of, one after the other.
pub trait RecordSource: Drop {
    /// The records that are left to make, in order.
    ghost left: { Self → List TheValue };

    /// The length of a word for whose record it wants room in a batch.
    ghost word_len: { Self → ℕ };

    /// Writes the next record behind those of a batch. It answers false, and writes nothing, exactly where no record is
    /// left or the batch has no room for one more.
    fn write_next(&mut self, batch: &mut BatchWriter) -> Result<bool, NoMemory>
        ensures records { OnOk result (batch.new ++ left self.new ≡ batch.old ++ left self.old) }
        ensures goes_on { IfOk result (λ more. more ≡ true → length (left self.new) < length (left self.old)) }
        ensures had_room { IfOk result (λ more. more ≡ true → has_room batch.old (word_len self.new) ≡ true) }
        ensures same { IfOk result (λ more. more ≡ false → batch.new ≡ batch.old) }
        ensures full { IfOk result (λ more. more ≡ false → (left self.new ≡ []) ⊎ (has_room batch.old (word_len self.new) ≡ false)) };
}

/// A batch, and what later records are made of.
#[derive(Drop)]
struct Ready<S: RecordSource> {
    batch: Batch,
    source: S,
}

impl<S: RecordSource> Ready<S> {
    /// Writes records as long as there is one that has room.
    fn fill(&mut self, batch: &mut BatchWriter) -> Result<(), NoMemory>
        ensures records { OnOk result (batch.new ++ S.left self.new.source ≡ batch.old ++ S.left self.old.source) }
        ensures full { OnOk result ((S.left self.new.source ≡ []) ⊎ (has_room batch.new (S.word_len self.new.source) ≡ false)) }
    {
        loop {
            let more = self.source.write_next(batch)?;
            if !more {
                return Ok(());
            }
        }
    }

    /// Makes the next batch, of as many records as have room in one. None is left before.
    fn refill(&mut self, alloc: Global) -> Result<(), NoMemory>
        ensures records { OnOk result (self.new.batch ++ S.left self.new.source ≡ S.left self.old.source) }
        ensures full { OnOk result ((S.left self.new.source ≡ []) ⊎ (has_room self.new.batch (S.word_len self.new.source) ≡ false)) }
    {
        let mut batch = BatchWriter::new(alloc);
        self.fill(&mut batch)?;
        self.batch = batch.into_batch()?;
        Ok(())
    }

    /// Takes the next record, and None exactly where no record is left.
    fn take(&mut self, alloc: Global) -> Result<Option<Value>, NoMemory>
        ensures { IfOk result (λ taken. MatchOption taken (self.old.batch ++ S.left self.old.source ≡ [])
            (λ item. self.old.batch ++ S.left self.old.source ≡ item ∷ (self.new.batch ++ S.left self.new.source))) }
    {
        if let Some(record) = self.batch.take()? {
            return Ok(Some(record));
        }
        self.refill(alloc)?;
        self.batch.take()
    }
}

/// Records that are left to push. Contracts see it as these, in order. They are made in batches, each in one buffer.
/// It is small, since what a task keeps is moved at each of its steps.
#[derive(Drop)]
pub struct Batches<S: RecordSource> {
    ready: Box<Ready<S>>,
}

impl<S: RecordSource> Model for Batches<S> {
    ghost use Rattle.std.specs.Prelude.{List, ◌++◌};
    ghost use Rattle.swan_model.specs.declared.value.Value.{Value as TheValue};

    ghost Value = { List TheValue };

    ghost view = { λ left. left.ready.value.batch ++ S.left left.ready.value.source };
}

impl<S: RecordSource> Batches<S> {
    /// All records of a source. It allocates once. `O(1)`.
    pub fn of(alloc: Global, source: S) -> Result<Batches<S>, NoMemory>
        ensures { IfOk result (λ left. left ≡ S.left source) }
    {
        let ready = Ready {
            batch: Batch::none(alloc)?,
            source,
        };
        Ok(Batches {
            ready: Box::new(alloc, ready)?,
        })
    }

    /// Takes the next record, and None exactly where no record is left. It costs what making the records costs.
    pub fn take(&mut self, alloc: Global) -> Result<Option<Value>, NoMemory>
        ensures { IfOk result (λ taken. MatchOption taken (self.old ≡ []) (λ item. self.old ≡ item ∷ self.new)) }
    {
        self.ready.take(alloc)
    }
}
