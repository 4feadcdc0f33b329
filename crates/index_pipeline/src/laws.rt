// The laws of the index.
ghost use Rattle.std.specs.Prelude.{◌≡◌, ℕ, ◌≤◌, ◌↔◌, List, length};
ghost use Rattle.std.specs.List.{Contains};
ghost use Rattle.std.specs.List.Sorted.{IsStrictlySortedBy};
ghost use Rattle.swan_model.specs.Elision.{outcome};
ghost use Rattle.line_blocks.specs.declared.text_roots.TheConstants.{TEXT_MOST};
ghost use Rattle.index_pipeline.specs.Index.{index_pairs};
ghost use Rattle.index_pipeline.specs.Indexed.{IsIndexed};
ghost use Rattle.index_pipeline.specs.Members.{StandsOn};
ghost use Rattle.index_pipeline.specs.Pairs.{Pair, pair_order};
ghost use Rattle.index_pipeline.specs.Plans.{index_plan};
ghost use Rattle.index_pipeline.specs.declared.batch.TheConstants.{BATCH_MOST, NUMBER_MOST};
ghost use Rattle.index_pipeline.specs.declared.body.TheConstants.{WORDS};
ghost use Rattle.index_pipeline.specs.declared.word.TheConstants.{WORD_MOST};

use crate::IndexBody;
use swan_model::Body;

/// The law that the outcome of the index's plan is the index: no line is left in the input, there is no fault,
/// and the records of the output, each with a line feed, are the index of the text. So the fuel of the plan is
/// enough.
#[tactic(auto, using(crate::proofs::Indexing::is_indexed))]
pub fn the_outcome_is_the_index()
    ensures { (text : List ℕ) → length text ≤ TEXT_MOST → IsIndexed text (outcome ⟦<IndexBody as Body>⟧ (index_plan text)) }
{}

/// The law that the index is a sorted set: its pairs rise strictly, by the words' bytes and then by the numbers,
/// and they are exactly those of a word and the number of a line on which it stands.
#[tactic(auto, using(crate::proofs::Rising::rises))]
pub fn the_index_is_a_sorted_set()
    ensures rises { (lines : List (List ℕ)) → IsStrictlySortedBy pair_order (index_pairs lines) }
    ensures members { (lines : List (List ℕ)) (pair : Pair) → Contains (index_pairs lines) pair ↔ StandsOn lines pair }
{}

/// The law that says of each limit of the index, and of the place of the words, which number it is. The definitions name them, so
/// without it another number would change what they mean.
pub fn limits_of_the_index()
    ensures word { WORD_MOST ≡ 64 }
    ensures number { NUMBER_MOST ≡ 21 }
    ensures batch { BATCH_MOST ≡ 65535 }
    ensures words { WORDS ≡ 2 }
{}
