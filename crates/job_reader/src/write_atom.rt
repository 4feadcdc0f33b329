// The canonical text of atoms.
ghost use Rattle.std.specs.Prelude.{◌≡◌, ◌++◌, ◌∷◌, [], OnOk, flat_map};
ghost use Rattle.job_reader.specs.CanonicalText.{atom_text, escaped, literal_text};
ghost use Rattle.job_reader.specs.Characters.{is_allowed, space};

use crate::Atom;
use crate::trim::is_allowed;
use std::alloc::Global;
use swan_model::NoMemory;

/// Adds bytes. `O(length)`.
pub fn push(out: &mut Vec<u8>, bytes: &[u8]) -> Result<(), NoMemory>
    ensures { OnOk result (out.new.items ≡ out.old.items ++ bytes.now) }
{
    out.extend_from_slice(bytes)?;
    Ok(())
}

/// Adds a space and a token. `O(length)`.
pub fn push_token(out: &mut Vec<u8>, token: &[u8]) -> Result<(), NoMemory>
    ensures { OnOk result (out.new.items ≡ out.old.items ++ space ∷ token.now) }
{
    out.push(b' ')?;
    push(out, token)
}

/// Adds a byte of a literal. `O(1)`.
fn push_escaped(out: &mut Vec<u8>, byte: u8) -> Result<(), NoMemory>
    ensures { OnOk result (out.new.items ≡ out.old.items ++ escaped byte) }
{
    if byte == b'"' {
        push(out, b"\\\"")
    } else if byte == b'\\' {
        push(out, b"\\\\")
    } else if byte == b'\n' {
        push(out, b"\\n")
    } else if byte == b'\t' {
        push(out, b"\\t")
    } else if is_allowed(byte) {
        push(out, &[byte])
    } else {
        let mut digits = [0; 2];
        hex::encode_to_slice([byte], &mut digits).unwrap();
        push(out, b"\\x")?;
        push(out, &digits)
    }
}

/// Adds the bytes of a literal. `O(length)`.
fn push_all_escaped(out: &mut Vec<u8>, bytes: &[u8]) -> Result<(), NoMemory>
    ensures { OnOk result (out.new.items ≡ out.old.items ++ flat_map escaped bytes.now) }
{
    for byte in bytes {
        push_escaped(out, *byte)?;
    }
    Ok(())
}

/// Adds a literal. `O(length)`.
fn push_literal(out: &mut Vec<u8>, bytes: &[u8]) -> Result<(), NoMemory>
    ensures { OnOk result (out.new.items ≡ out.old.items ++ literal_text bytes.now) }
{
    push(out, b"\"")?;
    push_all_escaped(out, bytes)?;
    push(out, b"\"")
}

/// Adds the text of an atom. `O(length)`.
fn push_text(alloc: Global, out: &mut Vec<u8>, atom: &Atom) -> Result<(), NoMemory>
    ensures { OnOk result (out.new.items ≡ out.old.items ++ atom_text atom.now) }
{
    match atom {
        Atom::Int(number) => {
            let text = format!(in alloc; "{number}")?;
            push(out, text.as_bytes())
        }
        Atom::Bytes(record) => push_literal(out, record.as_slice()),
        Atom::Name(name) => push(out, name.as_str().as_bytes()),
    }
}

/// Adds a space and an atom. `O(length)`.
pub fn push_atom(alloc: Global, out: &mut Vec<u8>, atom: &Atom) -> Result<(), NoMemory>
    ensures { OnOk result (out.new.items ≡ out.old.items ++ space ∷ atom_text atom.now) }
{
    out.push(b' ')?;
    push_text(alloc, out, atom)
}

/// Adds a space and an atom for each of these. `O(length)`.
pub fn push_atoms(alloc: Global, out: &mut Vec<u8>, atoms: &[Atom]) -> Result<(), NoMemory>
    ensures { OnOk result (out.new.items ≡ out.old.items ++ flat_map (λ atom. space ∷ atom_text atom) atoms.now) }
{
    for atom in atoms {
        push_atom(alloc, out, atom)?;
    }
    Ok(())
}
