// The limits of blocks and texts, and the places of the root, each with its number.
ghost use Rattle.std.specs.Prelude.{◌≡◌};
ghost use Rattle.line_blocks.specs.declared.line_block.TheConstants.{BLOCK_LINES};
ghost use Rattle.line_blocks.specs.declared.text_roots.TheConstants.{INPUT, OUTPUT, TEXT_MOST};

/// The law that says of each limit of this crate which number it is. The definitions name the limits, so without
/// it another number would change what they mean.
pub fn limits_of_blocks_and_texts()
    ensures block { BLOCK_LINES ≡ 64 }
    ensures text { TEXT_MOST ≡ 67108864 }
{}

/// The law that says of each place of a pipeline's root which number it is.
pub fn places_of_a_root()
    ensures input { INPUT ≡ 0 }
    ensures output { OUTPUT ≡ 1 }
{}
