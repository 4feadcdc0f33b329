// The lines of a text.
ghost use Rattle.std.specs.Prelude.{◌≡◌, ◌∷◌, ◌<◌, length};
ghost use Rattle.swan_model.specs.Lines.{lines};

use swan_model::first_line_len;

/// The first line of a text that isn't empty, without its line feed, and what follows it. `O(length of
/// the line)`.
pub fn first_line(text: &[u8]) -> (&[u8], &[u8])
    requires { 0 < length text.now }
    ensures split { lines text.now ≡ result.0.now ∷ lines result.1.now }
    ensures shorter { length result.1.now < length text.now }
{
    let len = first_line_len(text);
    let line = &text[..len];
    if len < text.len() {
        (line, &text[len + 1..])
    } else {
        (line, &[])
    }
}
