// Fields of lines, and their netstrings.
ghost use Rattle.std.specs.Prelude.{◌≡◌, ◌≤◌, ◌+◌, ◌++◌, ◌==◌, not, length, IfOk, OnOk};
ghost use Rattle.std.specs.List.{prefix_len};
ghost use Rattle.record_pipeline.specs.Netstrings.{fields, netstring, netstrings};

use itoa::Buffer;
use std::alloc::Global;
use swan_model::{NoMemory, RECORD_MOST};

/// How many bytes a netstring has beyond its field and the TAB that ends it, at most: five digits, and one more byte.
const NETSTRING_MORE: usize = 6;

/// The same in a line of fewer than 100 bytes.
const SHORT_NETSTRING_MORE: usize = 3;

/// How many fields a line has. `O(length)`.
#[tactic(auto, using(crate::proofs::FieldByField::number_of_fields))]
pub fn field_count(line: &[u8]) -> u64
    requires { length line.now ≤ RECORD_MOST }
    ensures count { result ≡ length (fields line.now) }
    ensures most { result ≤ RECORD_MOST + 1 }
{
    line.iter().filter(|byte| **byte == b'\t').count() as u64 + 1
}

/// How many bytes the first field has.
fn field_len(line: &[u8]) -> usize
    ensures most { result ≤ length line.now }
    ensures field { result ≡ prefix_len (λ byte. not (byte == 9)) line.now }
{
    line.iter().take_while(|byte| **byte != b'\t').count()
}

/// Adds the netstring of a field. `O(length)` amortised.
fn push_netstring(text: &mut Vec<u8>, field: &[u8]) -> Result<(), NoMemory>
    ensures { OnOk result (text.new.items ≡ text.old.items ++ netstring field.now) }
{
    let len = field.len();
    text.extend_from_slice(Buffer::new().format(len).as_bytes())?;
    text.push(b':')?;
    text.extend_from_slice(field)?;
    text.push(b',')?;
    Ok(())
}

/// The netstrings of a line's fields, of which there are so many, joined. There is room for all of them at once; what is left
/// of it is at most a byte a field where the line has fewer than 100 bytes, and else four. `O(length)`.
pub fn netstrings(alloc: Global, line: &[u8], count: u64) -> Result<Vec<u8>, NoMemory>
    requires line { length line.now ≤ RECORD_MOST }
    requires count { count ≡ length (fields line.now) }
    requires most { count ≤ RECORD_MOST + 1 }
    ensures { IfOk result (λ text. text.items ≡ netstrings line.now) }
{
    let more = if line.len() < 100 {
        SHORT_NETSTRING_MORE
    } else {
        NETSTRING_MORE
    };
    let room = line.len() + 1 + more * count as usize;
    let mut text = Vec::with_capacity(alloc, room)?;
    let mut rest = line;
    let mut len = field_len(rest);
    while len < rest.len() {
        push_netstring(&mut text, &rest[..len])?;
        rest = rest.split_at(len + 1).1;
        len = field_len(rest);
    }
    push_netstring(&mut text, rest)?;
    Ok(text)
}
