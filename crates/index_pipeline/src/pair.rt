// The texts of pairs of a word and a line's number.
ghost use Rattle.std.specs.Prelude.{◌≡◌, ◌≤◌, ◌+◌, ◌∷◌, ◌++◌, length, take, drop, OnOk};
ghost use Rattle.std.specs.Fmt.{decimal};
ghost use Rattle.index_pipeline.specs.Pairs.{number_of, pair_of, word_len};

use itoa::Buffer;
use std::alloc::AllocError;

/// A word and the number of a line on which it stands, as a text tells them.
#[derive(Clone, Copy)]
pub struct ToldPair<'a> {
    /// The word.
    pub word: &'a [u8],
    /// The number.
    pub line: u64,
}

/// How many bytes stand before the first space, or all bytes where there is none.
fn word_len(text: &[u8]) -> usize
    ensures most { result ≤ length text.now }
    ensures word { result ≡ word_len text.now }
{
    text.iter().take_while(|byte| **byte != b' ').count()
}

/// The number that these digits are.
fn number_of(digits: &[u8]) -> u64
    ensures { result ≡ number_of digits.now }
{
    let mut number: u64 = 0;
    for digit in digits {
        number = number
            .wrapping_mul(10)
            .wrapping_add(u64::from(digit.wrapping_sub(b'0')));
    }
    number
}

/// What stands after a number of bytes and one more.
fn after(text: &[u8], len: usize) -> &[u8]
    requires { len ≤ length text.now }
    ensures { result.now ≡ drop (len + 1) text.now }
{
    if len == text.len() {
        return &[];
    }
    &text[len + 1..]
}

/// The pair that a text tells. It takes no memory. `O(length)`.
pub fn told(text: &[u8]) -> ToldPair<'_>
    ensures word { result.word.now ≡ (pair_of text.now).word }
    ensures line { result.line ≡ (pair_of text.now).line }
{
    let len = word_len(text);
    ToldPair {
        word: &text[..len],
        line: number_of(after(text, len)),
    }
}

/// Writes a space and a number behind what stands there. `O(1)` amortised.
pub fn write_number(text: &mut Vec<u8>, number: u64) -> Result<(), AllocError>
    ensures number { OnOk result (text.new.items ≡ text.old.items ++ 32 ∷ decimal number) }
    ensures front { text.old.items ≡ take (length text.old.items) text.new.items }
{
    text.push(b' ')?;
    text.extend_from_slice(Buffer::new().format(number).as_bytes())?;
    Ok(())
}
