// The plan of the index, and its names.
ghost use Rattle.std.specs.Prelude.{◌≡◌, ◌≤◌, ◌⊎◌, length, IfOk, IfErr, Some, None};
ghost use Rattle.swan_model.specs.declared.lines.LinesAnswer.TheVariants as answer;
ghost use Rattle.swan_model.specs.Lines.{refusal_of};
ghost use Rattle.line_blocks.specs.TextRoots.{text_names};
ghost use Rattle.index_pipeline.specs.Plans.{index_plan};

use crate::{IndexBody, IndexLocal};
use line_blocks::{TEXT_MOST, line_roots, text_lines, text_names};
use std::alloc::Global;
use swan_model::{LinesAnswer, Names, NoMemory, Plan, PlanFuel};

/// The plan of the index of a text, of at most `TEXT_MOST` bytes. It is refused as `lines_of` refuses the text. `O(length)`.
pub fn index_plan(alloc: Global, text: &[u8]) -> Result<Plan<IndexBody>, LinesAnswer>
    requires { length text.now ≤ TEXT_MOST }
    ensures plan { IfOk result (λ plan. plan ≡ index_plan text.now) }
    ensures accepted { IfOk result (λ _. refusal_of text.now ≡ None) }
    ensures refused { IfErr result (λ why. (why ≡ answer.NoMemory) ⊎ (refusal_of text.now ≡ Some why)) }
{
    let lines = text_lines(alloc, text)?;
    let bytes = text.len() as u64;
    Ok(Plan {
        body: IndexBody::new(3 * bytes + 8),
        root_local: IndexLocal::Begins,
        roots: line_roots(alloc, lines)?,
        fuel: PlanFuel::new(16 * bytes + 64),
    })
}

/// The names with which the outcome of the index's plan is printed: how many lines are left in `input`, and
/// the items of `output`. `O(1)`.
pub fn index_names(alloc: Global) -> Result<Names, NoMemory>
    ensures { IfOk result (λ names. names ≡ text_names) }
{
    text_names(alloc)
}
