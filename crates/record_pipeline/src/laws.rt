// The law of the conversion.
ghost use Rattle.std.specs.Prelude.{ℕ, ◌≤◌, List, length};
ghost use Rattle.swan_model.specs.Elision.{outcome};
ghost use Rattle.line_blocks.specs.declared.text_roots.TheConstants.{TEXT_MOST};
ghost use Rattle.record_pipeline.specs.Converted.{IsConverted};
ghost use Rattle.record_pipeline.specs.Plans.{record_plan};

use crate::RecordBody;
use swan_model::Body;

/// The law that the outcome of the conversion's plan is the conversion: no line is left in the input, the records
/// of the output, each with a line feed, are the conversion of the text, and there is one fault for each line
/// that is left out, in order, and no other. So the fuel of the plan is enough.
#[tactic(auto, using(crate::proofs::Converting::is_converted))]
pub fn the_outcome_is_the_conversion()
    ensures { (text : List ℕ) → length text ≤ TEXT_MOST → IsConverted text (outcome ⟦<RecordBody as Body>⟧ (record_plan text)) }
{}
