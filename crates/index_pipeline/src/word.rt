// Words in bytes.
ghost use Rattle.std.specs.Prelude.{◌≡◌, ◌<◌, ◌≤◌, ◌∷◌, ◌++◌, [], length, take, drop, slice_range, not, OnOk, IfNone, IfSome};
ghost use Rattle.std.specs.Char.{is_ascii_alphanumeric};
ghost use Rattle.std.specs.List.{prefix_len};
ghost use Rattle.index_pipeline.specs.Words.{runs, word_of};

use std::alloc::AllocError;

/// The largest number of bytes of a word in the index.
pub const WORD_MOST: usize = 64;

/// How many bytes stand before the first one of a word.
fn gap_len(bytes: &[u8]) -> usize
    ensures most { result ≤ length bytes.now }
    ensures gap { result ≡ prefix_len (λ byte. not (is_ascii_alphanumeric byte)) bytes.now }
{
    bytes
        .iter()
        .take_while(|byte| !byte.is_ascii_alphanumeric())
        .count()
}

/// How many bytes of a word stand in front.
fn run_len(bytes: &[u8]) -> usize
    ensures most { result ≤ length bytes.now }
    ensures run { result ≡ prefix_len is_ascii_alphanumeric bytes.now }
{
    bytes
        .iter()
        .take_while(|byte| byte.is_ascii_alphanumeric())
        .count()
}

/// Where a run of bytes stands in a line.
#[derive(Clone, Copy)]
pub struct Span {
    /// The first byte.
    pub from: usize,
    /// The byte after the last one.
    pub to: usize,
}

/// Where the first run of a line stands, and None exactly where there is none. `O(to)`.
#[tactic(auto, using(crate::proofs::Runs::first_run_range, crate::proofs::Runs::no_run_is))]
pub fn first_run(line: &[u8]) -> Option<Span>
    ensures none { IfNone result (runs line.now ≡ []) }
    ensures in_order { IfSome result (λ run. run.from ≤ run.to) }
    ensures within { IfSome result (λ run. run.to ≤ length line.now) }
    ensures first { IfSome result (λ run. runs line.now ≡ slice_range line.now run.from run.to ∷ runs (drop run.to line.now)) }
{
    let from = gap_len(line);
    let len = run_len(line.split_at(from).1);
    if len == 0 {
        return None;
    }
    Some(Span {
        from,
        to: from + len,
    })
}

/// Writes the word of a run behind what stands there. `O(1)`: a run's first `WORD_MOST` bytes are taken, in one copy,
/// and lowered where they stand.
pub fn write_word(text: &mut Vec<u8>, run: &[u8]) -> Result<(), AllocError>
    ensures word { OnOk result (text.new.items ≡ text.old.items ++ word_of run.now) }
    ensures front { text.old.items ≡ take (length text.old.items) text.new.items }
{
    let len = WORD_MOST.min(run.len());
    let from = text.len();
    text.extend_from_slice(&run[..len])?;
    text[from..].make_ascii_lowercase();
    Ok(())
}
