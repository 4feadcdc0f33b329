// The limits of values and plans, each with its number.
ghost use Rattle.std.specs.Prelude.{◌≡◌};
ghost use Rattle.swan_model.specs.declared.lines.TheConstants.{LINES_MOST};
ghost use Rattle.swan_model.specs.declared.path.TheConstants.{PATH_MOST};
ghost use Rattle.swan_model.specs.declared.plan.TheConstants.{FIRST_ITEMS_MOST, FUEL_MOST, ROOTS_MOST};
ghost use Rattle.swan_model.specs.declared.record.TheConstants.{RECORD_MOST};
ghost use Rattle.swan_model.specs.declared.rights.TheConstants.{GIVES_MOST};
ghost use Rattle.swan_model.specs.declared.run_name.TheConstants.{ENTRIES_MOST};

/// The law that says of each limit that the code has as a constant which number it is. The definitions name these limits, so
/// without it another number would change what they mean. (Those that definitions alone have stand as numbers in `Values` and
/// `QueueState`.)
pub fn limits_of_values_and_plans()
    // of values, lines and paths
    ensures record { RECORD_MOST ≡ 1048576 }
    ensures lines { LINES_MOST ≡ 1000000 }
    ensures path { PATH_MOST ≡ 64 }

    // of plans
    ensures gives { GIVES_MOST ≡ 1000000 }
    ensures roots { ROOTS_MOST ≡ 1000000 }
    ensures first_items { FIRST_ITEMS_MOST ≡ 1000000 }
    ensures fuel { FUEL_MOST ≡ 4000000000 }

    // of scripts
    ensures entries { ENTRIES_MOST ≡ 8000000002 }
{}
