// The limits of files and pieces, each with its number.
ghost use Rattle.std.specs.Prelude.{◌≡◌};
ghost use Rattle.swan_outside.specs.declared.files.TheConstants.{FILE_MOST};
ghost use Rattle.swan_outside.specs.declared.os_sink.TheConstants.{ERR_PIECE_MOST};
ghost use Rattle.swan_outside.specs.declared.sink.TheConstants.{PIECE_MOST};

/// The law that says of each limit of this crate which number it is. The definitions name the limits,
/// so without it another number would change what they mean.
pub fn limits_of_files_and_sinks()
    ensures file { FILE_MOST ≡ 67108864 }
    ensures piece { PIECE_MOST ≡ 65536 }
    ensures err_piece { ERR_PIECE_MOST ≡ 1024 }
{}
