// The plan of a fold, and its names.
ghost use Rattle.std.specs.Prelude.{◌≡◌, ◌⊎◌, IfOk, IfErr, Some, None};
ghost use Rattle.swan_model.specs.declared.lines.LinesAnswer.TheVariants as answer;
ghost use Rattle.swan_model.specs.Lines.{refusal_of};
ghost use Rattle.line_blocks.specs.TextRoots.{text_names};
ghost use Rattle.swan_reducers.specs.Plans.{fold_plan};

use crate::{FoldBody, FoldLocal, Reducer};
use line_blocks::{BLOCK_LINES, line_roots, text_lines, text_names};
use std::alloc::Global;
use std::marker::{Send, Sync};
use swan_model::{LinesAnswer, Names, NoMemory, Plan, PlanFuel};

/// The plan of the fold of a text's lines by a reducer. It is refused as `lines_of` refuses the text. `O(length)`.
pub fn fold_plan<R: Reducer + Send + Sync>(
    alloc: Global,
    reducer: R,
    text: &[u8],
) -> Result<Plan<FoldBody<R>>, LinesAnswer>
    ensures plan { IfOk result (λ plan. plan ≡ fold_plan reducer text.now) }
    ensures accepted { IfOk result (λ _. refusal_of text.now ≡ None) }
    ensures refused { IfErr result (λ why. (why ≡ answer.NoMemory) ⊎ (refusal_of text.now ≡ Some why)) }
{
    let lines = text_lines(alloc, text)?;
    let count = lines.len() as u64;
    let blocks = count.div_ceil(BLOCK_LINES as u64);
    Ok(Plan {
        body: FoldBody::new(reducer, 2 * blocks + 3),
        root_local: FoldLocal::Begins,
        roots: line_roots(alloc, lines)?,
        fuel: PlanFuel::new(8 * count + 16),
    })
}

/// The names with which the outcome of a fold's plan is printed: how many lines are left in `input`, and the
/// items of `output`. `O(1)`.
pub fn fold_names(alloc: Global) -> Result<Names, NoMemory>
    ensures { IfOk result (λ names. names ≡ text_names) }
{
    text_names(alloc)
}
