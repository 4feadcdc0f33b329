// The words of a line that are left.
ghost use Rattle.std.specs.Prelude.{◌≡◌, ◌<◌, ◌++◌, [], length, true, false, IfOk, OnOk};
ghost use Rattle.swan_model.specs.Values.{bytes_of};
ghost use Rattle.index_pipeline.specs.Batches.{has_room};
ghost use Rattle.index_pipeline.specs.Records.{line_records};
ghost use Rattle.index_pipeline.specs.declared.word.TheConstants.{WORD_MOST};

use crate::batch::BatchWriter;
use crate::word::first_run;
use line_blocks::bytes_of;
use std::marker::Model;
use swan_model::{NoMemory, Value};

/// A line, of which some words are taken already. Contracts see it as the records of the words that are
/// left, in order.
#[derive(Drop)]
pub struct LineLeft {
    number: u64,
    line: Value,
    // how many bytes stand before what is left
    taken: usize,
}

impl Model for LineLeft {
    ghost use Rattle.std.specs.Prelude.{List, ◌≤◌, drop, length};
    ghost use Rattle.swan_model.specs.declared.value.Value.{Value as TheValue};
    ghost use Rattle.swan_model.specs.Values.{bytes_of};
    ghost use Rattle.index_pipeline.specs.Records.{line_records};

    ghost Value = { List TheValue };

    ghost view = { λ left. line_records left.number (drop left.taken (bytes_of left.line)) };

    ghost invariant = { λ left. left.taken ≤ length (bytes_of left.line) };
}

impl LineLeft {
    /// No word. It takes no memory. `O(1)`.
    pub fn none() -> LineLeft
        ensures { result ≡ [] }
    {
        LineLeft::of(0, Value::Int(0))
    }

    /// All words of a line with this number. It takes no memory. `O(1)`.
    pub fn of(number: u64, line: Value) -> LineLeft
        ensures { result ≡ line_records number (bytes_of line) }
    {
        LineLeft {
            number,
            line,
            taken: 0,
        }
    }

    /// Writes the next word's record behind those of a batch, which has room for the longest word, and answers false
    /// exactly where no word is left. `O(1)` amortised over the bytes of the line.
    #[tactic(auto, using(crate::proofs::Taking::line_more, crate::proofs::Taking::line_over))]
    pub fn write_next(&mut self, batch: &mut BatchWriter) -> Result<bool, NoMemory>
        requires { has_room batch.old WORD_MOST ≡ true }

        // that a word goes from the line to the batch
        ensures records { OnOk result (batch.new ++ self.new ≡ batch.old ++ self.old) }
        ensures shorter { IfOk result (λ more. more ≡ true → length self.new < length self.old) }
        ensures written { IfOk result (λ more. more ≡ true → batch.new ≡ [] → ⊥) }

        // where none is left
        ensures none { IfOk result (λ more. more ≡ false → self.new ≡ []) }
        ensures same { IfOk result (λ more. more ≡ false → (self.new ≡ self.old) × (batch.new ≡ batch.old)) }
    {
        let left = bytes_of(&self.line).split_at(self.taken).1;
        let Some(run) = first_run(left) else {
            return Ok(false);
        };
        batch.push_run(&left[run.from..run.to], self.number)?;
        self.taken += run.to;
        Ok(true)
    }
}
