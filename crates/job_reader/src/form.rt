// The line that a text is at a position.
ghost use Rattle.std.specs.Prelude.{◌≡◌, ◌∷◌, length, true, false, MatchOption, IsUtf8};
ghost use Rattle.std.specs.List.{list_all};
ghost use Rattle.job_reader.specs.Characters.{is_allowed};
ghost use Rattle.job_reader.specs.Faults.{IsReadAs};
ghost use Rattle.job_reader.specs.LineShape.{after_equals, assigned, assignment, form, formed, header, is_assignment, is_note, shape, statement};
ghost use Rattle.job_reader.specs.Texts.{texts};
ghost use Rattle.job_reader.specs.Tokens.{tokens};

use crate::atom::{read_atoms, read_name, word};
use crate::fault::{ReadLine, both};
use crate::position::Position;
use crate::shape::{do_line, outside_line, task_line, top_line};
use crate::words::{DoWord, TaskWord, TopWord, edition_named, is_text};
use crate::{Edition, JobKind, Line, Op};
use std::alloc::Global;

/// The first line.
fn header(first: &[u8], rest: &[&[u8]]) -> Result<Line, ReadLine>
    ensures { IsReadAs result (header (first.now ∷ texts rest.now)) }
{
    match rest {
        [second] if is_text(first, "swan") => match edition_named(second) {
            Some(edition) => Ok(Line::Header(edition)),
            None => Err(ReadLine::Refused(JobKind::BadHeader)),
        },
        _ => Err(ReadLine::Refused(JobKind::BadHeader)),
    }
}

/// What follows the `=` of an assignment, by the tokens after its first. None exactly where it is none.
pub fn after_equals<'a, 'b>(tokens: &'a [&'b [u8]]) -> Option<&'a [&'b [u8]]>
    ensures { MatchOption result (is_assignment (texts tokens.now) ≡ false)
        (λ rest. (is_assignment (texts tokens.now) ≡ true) × (texts rest.now ≡ after_equals (texts tokens.now))) }
{
    let (equals, rest) = tokens.split_first()?;
    if is_text(equals, "=") {
        Some(rest)
    } else {
        None
    }
}

/// An assignment by an operation.
fn assigned(alloc: Global, variable: &[u8], op: Op, args: &[&[u8]]) -> Result<Line, ReadLine>
    ensures { IsReadAs result (assigned variable.now op (texts args.now)) }
{
    if args.len() != op.arity() {
        return Err(ReadLine::Refused(JobKind::BadLine));
    }
    let (variable, args) = both(read_name(alloc, variable), read_atoms(alloc, args))?;
    Ok(Line::Assign(variable, op, args))
}

/// An assignment, by what follows its `=`.
fn assignment(alloc: Global, variable: &[u8], tokens: &[&[u8]]) -> Result<Line, ReadLine>
    ensures { IsReadAs result (assignment variable.now (texts tokens.now)) }
{
    let Some((op, args)) = tokens.split_first() else {
        return Err(ReadLine::Refused(JobKind::BadLine));
    };
    match Op::named(op) {
        Some(op) => assigned(alloc, variable, op, args),
        None => Err(ReadLine::Refused(JobKind::BadLine)),
    }
}

/// A statement of an edition.
fn statement(
    alloc: Global,
    edition: Edition,
    first: &[u8],
    rest: &[&[u8]],
) -> Result<Line, ReadLine>
    ensures { IsReadAs result (statement edition first.now (texts rest.now)) }
{
    match after_equals(rest) {
        Some(tokens) => assignment(alloc, first, tokens),
        None => match DoWord::named(first) {
            Some(word) => do_line(alloc, edition, word, rest),
            None => Err(ReadLine::Refused(JobKind::BadLine)),
        },
    }
}

/// The line that tokens make at a position in a job of an edition.
fn form(
    alloc: Global,
    edition: Edition,
    position: &Position,
    first: &[u8],
    rest: &[&[u8]],
) -> Result<Line, ReadLine>
    ensures { IsReadAs result (form edition position.now first.now (texts rest.now)) }
{
    match position {
        Position::First => header(first, rest),
        Position::Top(_) => match TopWord::named(first) {
            Some(word) => top_line(alloc, word, rest),
            None => Err(ReadLine::Refused(JobKind::BadLine)),
        },
        Position::InTask => match TaskWord::named(first) {
            Some(word) => task_line(alloc, word, rest),
            None => Err(ReadLine::Refused(JobKind::BadLine)),
        },
        Position::InDo(_) => statement(alloc, edition, first, rest),
        Position::Outside => match TopWord::named(first) {
            Some(word) => outside_line(alloc, word, rest),
            None => Err(ReadLine::Refused(JobKind::BadLine)),
        },
    }
}

/// Whether a text without outer spaces is a note, where it isn't the first line.
fn is_note(text: &[u8]) -> bool
    ensures { result ≡ is_note text.now }
{
    match text.first() {
        Some(byte) => *byte == b'#',
        None => true,
    }
}

/// The line that a text without outer spaces is at a position in a job of an edition, by its tokens.
/// `O(length)`.
pub fn shape(
    alloc: Global,
    edition: Edition,
    position: &Position,
    text: &[u8],
    found: &[&[u8]],
) -> Result<Line, ReadLine>
    requires tokens { texts found.now ≡ tokens text.now }
    requires utf8 { IsUtf8 text.now }
    ensures { IsReadAs result (shape edition position.now text.now) }
{
    if is_note(text) && !position.is_first() {
        return Ok(Line::Note(word(alloc, text)?));
    }
    match found.split_first() {
        Some((first, rest)) => form(alloc, edition, position, first, rest),
        None => Err(ReadLine::Refused(JobKind::BadHeader)),
    }
}
