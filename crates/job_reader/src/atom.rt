// Atoms: what stands in a statement in the position of a value.
ghost use Rattle.std.specs.Prelude.{◌≡◌, IfOk};
ghost use Rattle.std.specs.List.{list_all};
ghost use Rattle.std.specs.Prelude.{IsUtf8};
ghost use Rattle.job_reader.specs.Atoms.{atom, atoms, is_name, is_name_byte, name};
ghost use Rattle.job_reader.specs.Faults.{IsReadAs, named};
ghost use Rattle.job_reader.specs.Texts.{texts};

use crate::JobKind;
use crate::fault::{ReadLine, both};
use crate::literal::read_literal;
use crate::number::read_number;
use std::alloc::Global;
use swan_model::{Listed, NoMemory, Record, Word};

/// The largest number of bytes of a name.
pub(crate) const NAME_MOST: usize = 32;

/// What stands in a statement in the position of a value.
#[derive(Drop)]
pub enum Atom {
    /// A number.
    Int(i64),
    /// A literal, as the bytes that it stands for.
    Bytes(Record),
    /// The name of a variable, an object or a queue.
    Name(Word),
}

/// Atoms in order.
pub type Atoms = Listed<Atom>;

/// Whether a byte may stand in a name, after its first.
fn is_name_byte(byte: u8) -> bool
    ensures { result ≡ is_name_byte byte }
{
    byte.is_ascii_lowercase() || byte.is_ascii_digit() || byte == b'_'
}

/// Whether all bytes may stand in a name, after its first. `O(length)`.
fn are_name_bytes(bytes: &[u8]) -> bool
    ensures { result ≡ list_all is_name_byte bytes.now }
{
    bytes.iter().all(|byte| is_name_byte(*byte))
}

/// Whether a token is a name. `O(length)`.
fn is_name(token: &[u8]) -> bool
    ensures { result ≡ is_name token.now }
{
    match token.split_first() {
        Some((first, others)) => {
            first.is_ascii_lowercase() && are_name_bytes(others) && token.len() <= NAME_MOST
        }
        None => false,
    }
}

/// A word with a copy of this text, which is one of UTF-8. `O(length)`, one allocation.
pub fn word(alloc: Global, text: &[u8]) -> Result<Word, NoMemory>
    requires { IsUtf8 text.now }
    ensures { IfOk result (λ it. it ≡ text.now) }
{
    match str::from_utf8(text) {
        Ok(text) => Word::of(alloc, text),
        Err(_) => unreachable!(),
    }
}

/// The atom that a token is. `O(length)`.
pub fn read_atom(alloc: Global, token: &[u8]) -> Result<Atom, ReadLine>
    ensures { IsReadAs result (atom token.now) }
{
    let Some((first, others)) = token.split_first() else {
        return Err(ReadLine::Refused(JobKind::BadName));
    };
    if *first == b'"' {
        return Ok(Atom::Bytes(read_literal(alloc, others)?));
    }
    if first.is_ascii_digit() || *first == b'-' {
        return match read_number(token) {
            Some(number) => Ok(Atom::Int(number)),
            None => Err(ReadLine::Refused(JobKind::BadNumber)),
        };
    }
    if is_name(token) {
        Ok(Atom::Name(word(alloc, token)?))
    } else {
        Err(ReadLine::Refused(JobKind::BadName))
    }
}

/// The name that a token in a name's position is. `O(length)`.
pub fn read_name(alloc: Global, token: &[u8]) -> Result<Word, ReadLine>
    ensures { IsReadAs result (name token.now) }
{
    match read_atom(alloc, token) {
        Ok(Atom::Name(name)) => Ok(name),
        Ok(Atom::Int(_) | Atom::Bytes(_)) => Err(ReadLine::Refused(JobKind::BadName)),
        Err(ReadLine::Refused(JobKind::BadLine)) => Err(ReadLine::Refused(JobKind::BadLine)),
        Err(ReadLine::Refused(_)) => Err(ReadLine::Refused(JobKind::BadName)),
        Err(ReadLine::NoMemory) => Err(ReadLine::NoMemory),
    }
}

/// The one of the kinds that is named, where there may be one already. `O(1)`.
fn first_of(kind: Option<JobKind>, next: JobKind) -> JobKind
    ensures { result ≡ named kind next }
{
    match kind {
        None => next,
        Some(kind) => kind.first(next),
    }
}

/// The atoms that tokens are. `O(length)`.
pub fn read_atoms(alloc: Global, tokens: &[&[u8]]) -> Result<Atoms, ReadLine>
    ensures { IsReadAs result (atoms (texts tokens.now)) }
{
    let mut read = Listed::new(alloc);
    let mut kind = None;
    for token in tokens {
        match read_atom(alloc, token) {
            Ok(atom) => {
                let Ok(()) = read.push(atom) else {
                    return Err(ReadLine::NoMemory);
                };
            }
            Err(ReadLine::Refused(next)) => kind = Some(first_of(kind, next)),
            Err(ReadLine::NoMemory) => return Err(ReadLine::NoMemory),
        }
    }
    match kind {
        None => Ok(read),
        Some(kind) => Err(ReadLine::Refused(kind)),
    }
}
