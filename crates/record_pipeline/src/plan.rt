// The plan of the conversion, and its names.
ghost use Rattle.std.specs.Prelude.{◌≡◌, ◌≤◌, ◌⊎◌, length, IfOk, IfErr, Some, None};
ghost use Rattle.swan_model.specs.declared.lines.LinesAnswer.TheVariants as answer;
ghost use Rattle.swan_model.specs.Lines.{refusal_of};
ghost use Rattle.line_blocks.specs.TextRoots.{text_names};
ghost use Rattle.record_pipeline.specs.Plans.{first_width, record_plan};

use crate::fields::field_count;
use crate::{RecordBody, RecordLocal};
use line_blocks::{
    HeldLines, QueueReader, TEXT_MOST, bytes_of, line_roots, text_lines, text_names,
};
use std::alloc::Global;
use swan_model::{LinesAnswer, Names, NoMemory, Plan, PlanFuel, Values};

/// How many fields the first line has, and 0 where there is no line.
#[tactic(auto, using(crate::proofs::Widths::width_some, crate::proofs::Widths::width_none))]
fn first_width(lines: &Values) -> u64
    ensures { result ≡ first_width lines.now }
{
    match lines.get(0) {
        Some(line) => field_count(bytes_of(line)),
        None => 0,
    }
}

/// The plan of the conversion of a text, of at most `TEXT_MOST` bytes. It is refused as `lines_of` refuses the text. `O(length)`.
#[tactic(auto, using(crate::proofs::Widths::width_is))]
pub fn record_plan(alloc: Global, text: &[u8]) -> Result<Plan<RecordBody>, LinesAnswer>
    requires { length text.now ≤ TEXT_MOST }
    ensures plan { IfOk result (λ plan. plan ≡ record_plan text.now) }
    ensures accepted { IfOk result (λ _. refusal_of text.now ≡ None) }
    ensures refused { IfErr result (λ why. (why ≡ answer.NoMemory) ⊎ (refusal_of text.now ≡ Some why)) }
{
    let lines = text_lines(alloc, text)?;
    let width = first_width(&lines);
    Ok(Plan {
        body: RecordBody::new(width),
        root_local: RecordLocal::Reads(QueueReader::Looks(HeldLines::new(alloc))),
        roots: line_roots(alloc, lines)?,
        fuel: PlanFuel::new(8 * text.len() as u64 + 8),
    })
}

/// The names with which the outcome of the conversion's plan is printed: how many lines are left in `input`,
/// and the items of `output`. `O(1)`.
pub fn record_names(alloc: Global) -> Result<Names, NoMemory>
    ensures { IfOk result (λ names. names ≡ text_names) }
{
    text_names(alloc)
}
