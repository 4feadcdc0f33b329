// The laws of folds.
ghost use Rattle.std.specs.Prelude.{◌≡◌, ◌≤◌, ℕ, None, List, length};
ghost use Rattle.swan_model.specs.declared.lines.TheConstants.{LINES_MOST};
ghost use Rattle.swan_model.specs.Elision.{outcome};
ghost use Rattle.swan_model.specs.Lines.{lines, refusal_of};
ghost use Rattle.swan_reducers.specs.declared.join_reducer.JoinReducer.{JoinReducer};
ghost use Rattle.swan_reducers.specs.declared.join_reducer.TheConstants.{JOIN_MOST};
ghost use Rattle.swan_reducers.specs.declared.sum_reducer.SumReducer.{SumReducer};
ghost use Rattle.swan_reducers.specs.declared.sum_reducer.TheConstants.{PART_BYTES};
ghost use Rattle.swan_reducers.specs.Fold.{fold_of};
ghost use Rattle.swan_reducers.specs.Folded.{IsFolded};
ghost use Rattle.swan_reducers.specs.Joins.{all_bytes, join_end, whole_text};
ghost use Rattle.swan_reducers.specs.Plans.{fold_plan};
ghost use Rattle.swan_reducers.specs.Sums.{decimal_text, sum_end, total};
ghost use Rattle.swan_reducers.specs.declared.body.TheConstants.{PARTS};

use crate::{FoldBody, JoinReducer, Reducer, SumReducer};
use std::marker::{Send, Sync};
use swan_model::Body;

/// The law that the outcome of a fold's plan is the fold, for each reducer and each text that isn't refused: no line is
/// left in the input; the output is the end of the fold, or nothing where that is a trouble; and there is exactly one
/// fault for each block with a line without a part, in order, and then that trouble. So the fuel of the plan is enough, and
/// what is written is the end with a line feed, or nothing.
pub fn the_outcome_is_the_fold<R: Reducer + Send + Sync>()
    ensures { (reducer : R) (text : List ℕ) → refusal_of text ≡ None → IsFolded R.Reducer reducer text (outcome ⟦<FoldBody<R> as Body>⟧ (fold_plan reducer text)) }
{}

/// The law that the fold of lines by the reducer of sums ends with the decimal text of the sum of those that are
/// numbers, and by Overflow exactly where this sum doesn't fit 64 bits with its sign: what is kept on the way is exact. A part
/// of such a fold has `PART_BYTES` bytes, which is 16.
pub fn sums_are_exact()
    ensures exact { (reducer : SumReducer) (ls : List (List ℕ)) → length ls ≤ LINES_MOST → sum_end (fold_of ⟦<SumReducer as Reducer>⟧ reducer ls) ≡ decimal_text (total ls) }
    ensures part { PART_BYTES ≡ 16 }
{}

/// The law that the fold of lines by the reducer of joins ends with the bytes of the lines, and by TooLong exactly where
/// they are more than `JOIN_MOST`, which is 65,535.
pub fn joins_are_whole()
    ensures whole { (reducer : JoinReducer) (ls : List (List ℕ)) → join_end (fold_of ⟦<JoinReducer as Reducer>⟧ reducer ls) ≡ whole_text (all_bytes ls) }
    ensures most { JOIN_MOST ≡ 65535 }
{}

/// The law that says of the place of the parts which number it is. The definitions name it, so without it another number would
/// change what they mean.
pub fn place_of_the_parts()
    ensures { PARTS ≡ 2 }
{}
