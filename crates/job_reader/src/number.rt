// Numbers.
ghost use Rattle.std.specs.Prelude.{◌≡◌, ◌∷◌, IsUtf8};
ghost use Rattle.std.specs.Char.{is_ascii_digit};
ghost use Rattle.std.specs.Int.{w64};
ghost use Rattle.std.specs.List.{list_all};
ghost use Rattle.std.specs.Str.Parse.{ParsesSigned};
ghost use Rattle.job_reader.specs.Atoms.{is_natural, negative_number, number, plain_number};
ghost use Rattle.job_reader.specs.Characters.{minus};

use std::num::ParseIntError;

/// Whether all bytes are digits. `O(length)`.
fn are_digits(bytes: &[u8]) -> bool
    ensures { result ≡ list_all is_ascii_digit bytes.now }
{
    bytes.iter().all(|byte| byte.is_ascii_digit())
}

/// Whether bytes are a number without a sign: `0`, or digits that begin with 1 to 9. `O(length)`.
fn is_natural(digits: &[u8]) -> bool
    ensures { result ≡ is_natural digits.now }
{
    match digits.split_first() {
        Some((first, others)) => are_digits(digits) && (*first != b'0' || others.is_empty()),
        None => false,
    }
}

/// What std reads of a text of UTF-8. `O(length)`.
fn parse(text: &[u8]) -> Result<i64, ParseIntError>
    requires { IsUtf8 text.now }
    ensures { ParsesSigned w64 10 text.now result }
{
    match str::from_utf8(text) {
        Ok(text) => text.parse(),
        Err(_) => unreachable!(),
    }
}

/// The number of a text without a sign. `O(length)`.
fn plain_number(text: &[u8]) -> Option<i64>
    ensures { result ≡ plain_number text.now }
{
    if is_natural(text) {
        parse(text).ok()
    } else {
        None
    }
}

/// The number of a text that is a minus and these digits. `O(length)`.
fn negative_number(text: &[u8], digits: &[u8]) -> Option<i64>
    requires { text.now ≡ minus ∷ digits.now }
    ensures { result ≡ negative_number digits.now }
{
    if !is_natural(digits) {
        return None;
    }
    let Some(number) = parse(text).ok() else {
        return None;
    };
    if number == 0 {
        return None;
    }
    Some(number)
}

/// The number that a text is, as a job writes numbers: `0`, or an optional `-` and digits that begin
/// with 1 to 9, which fits 64 bits with its sign. None where it is none. It takes no memory.
/// `O(length)`.
pub fn read_number(text: &[u8]) -> Option<i64>
    ensures { result ≡ number text.now }
{
    match text.split_first() {
        Some((b'-', digits)) => negative_number(text, digits),
        Some(_) => plain_number(text),
        None => None,
    }
}
