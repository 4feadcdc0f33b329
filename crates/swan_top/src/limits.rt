// The limits of words, each with its number.
ghost use Rattle.std.specs.Prelude.{◌≡◌};
ghost use Rattle.swan_runtime.specs.declared.shape.TheConstants.{WORKERS_MOST};
ghost use Rattle.swan_top.specs.declared.command.TheConstants.{FUEL_WORD_MOST, NUMBER_WORD_MOST};

/// The law that says of each limit of words which number it is. The definition of commands names the limits, so
/// without it another number would change what words mean. The limit of lines of a generated input is told by
/// `bulk_workload::limit_of_bulk`.
pub fn limits_of_words()
    ensures fuel { FUEL_WORD_MOST ≡ 1000000000 }
    ensures number { NUMBER_WORD_MOST ≡ 1000000000 }
    ensures workers { WORKERS_MOST ≡ 256 }
{}
