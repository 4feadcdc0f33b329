// Bytes that may stand in a line, and outer spaces.
ghost use Rattle.std.specs.Prelude.{◌≡◌};
ghost use Rattle.std.specs.List.{list_all};
ghost use Rattle.job_reader.specs.Characters.{is_allowed};
ghost use Rattle.job_reader.specs.Tokens.{trimmed, without_front_spaces, without_end_spaces};

/// Whether a byte may stand in a line.
pub fn is_allowed(byte: u8) -> bool
    ensures { result ≡ is_allowed byte }
{
    32 <= byte && byte <= 126
}

/// Whether each byte may stand in a line. `O(length)`.
pub fn are_allowed(bytes: &[u8]) -> bool
    ensures { result ≡ list_all is_allowed bytes.now }
{
    bytes.iter().all(|byte| is_allowed(*byte))
}

/// The line without the spaces at its front. `O(length)`.
fn without_front_spaces(line: &[u8]) -> &[u8]
    ensures { result.now ≡ without_front_spaces line.now }
{
    let mut rest = line;
    while let Some((first, others)) = rest.split_first() {
        if *first != b' ' {
            return rest;
        }
        rest = others;
    }
    rest
}

/// The line without the spaces at its end. `O(length)`.
fn without_end_spaces(line: &[u8]) -> &[u8]
    ensures { result.now ≡ without_end_spaces line.now }
{
    let mut rest = line;
    while let Some((last, others)) = rest.split_last() {
        if *last != b' ' {
            return rest;
        }
        rest = others;
    }
    rest
}

/// The line without its outer spaces. `O(length)`.
pub fn trimmed(line: &[u8]) -> &[u8]
    ensures { result.now ≡ trimmed line.now }
{
    without_end_spaces(without_front_spaces(line))
}
