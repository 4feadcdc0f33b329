// The line that tokens make at a position.
ghost use Rattle.std.specs.Prelude.{◌≡◌, ◌∷◌};
ghost use Rattle.job_reader.specs.Faults.{IsReadAs};
ghost use Rattle.job_reader.specs.LineShape.{or_bad_line, name_and_atom, name_and_kind, nothing, one_atom, one_name, spawned, two_names};
ghost use Rattle.job_reader.specs.LineShape.{caught_form, do_form, outside_form, task_form, top_form};
ghost use Rattle.job_reader.specs.Texts.{texts};
ghost use Rattle.job_reader.specs.Words.{kind_named};

use crate::atom::{read_atom, read_atoms, read_name};
use crate::fault::{ReadLine, both};
use crate::words::{DoWord, TaskWord, TopWord, kind_named};
use crate::{Atom, Atoms, Edition, JobKind, Line};
use std::alloc::Global;
use swan_model::{Kind, Mode, Word};

/// A line that is a word alone.
fn bare(tokens: &[&[u8]], line: Line) -> Result<Line, ReadLine>
    ensures { IsReadAs result (nothing line (texts tokens.now)) }
{
    match tokens {
        [] => Ok(line),
        _ => {
            // by a call, since what ends with its block is checked variant by variant
            drop(line);
            Err(ReadLine::Refused(JobKind::BadLine))
        }
    }
}

/// A name and nothing else.
fn one_name(alloc: Global, tokens: &[&[u8]]) -> Result<Word, ReadLine>
    ensures { IsReadAs result (one_name (texts tokens.now)) }
{
    match tokens {
        [token] => read_name(alloc, token),
        _ => Err(ReadLine::Refused(JobKind::BadLine)),
    }
}

/// An atom and nothing else.
fn one_atom(alloc: Global, tokens: &[&[u8]]) -> Result<Atom, ReadLine>
    ensures { IsReadAs result (one_atom (texts tokens.now)) }
{
    match tokens {
        [token] => read_atom(alloc, token),
        _ => Err(ReadLine::Refused(JobKind::BadLine)),
    }
}

/// The kind that a token names. BadLine where it names none.
fn known_kind(token: &[u8]) -> Result<Kind, ReadLine>
    ensures { IsReadAs result (or_bad_line (kind_named token.now)) }
{
    kind_named(token).ok_or(ReadLine::Refused(JobKind::BadLine))
}

/// A name, a kind and nothing else.
fn name_and_kind(alloc: Global, tokens: &[&[u8]]) -> Result<(Word, Kind), ReadLine>
    ensures { IsReadAs result (name_and_kind (texts tokens.now)) }
{
    match tokens {
        [name, kind] => both(read_name(alloc, name), known_kind(kind)),
        _ => Err(ReadLine::Refused(JobKind::BadLine)),
    }
}

/// Two names and nothing else.
fn two_names(alloc: Global, tokens: &[&[u8]]) -> Result<(Word, Word), ReadLine>
    ensures { IsReadAs result (two_names (texts tokens.now)) }
{
    match tokens {
        [first, second] => both(read_name(alloc, first), read_name(alloc, second)),
        _ => Err(ReadLine::Refused(JobKind::BadLine)),
    }
}

/// A name, an atom and nothing else.
fn name_and_atom(alloc: Global, tokens: &[&[u8]]) -> Result<(Word, Atom), ReadLine>
    ensures { IsReadAs result (name_and_atom (texts tokens.now)) }
{
    match tokens {
        [name, atom] => both(read_name(alloc, name), read_atom(alloc, atom)),
        _ => Err(ReadLine::Refused(JobKind::BadLine)),
    }
}

/// What follows the word of a spawn: the fuel, the task, and what it is given.
fn spawned(alloc: Global, tokens: &[&[u8]]) -> Result<(Atom, (Word, Atoms)), ReadLine>
    ensures { IsReadAs result (spawned (texts tokens.now)) }
{
    match tokens {
        [fuel, task, given @ ..] => both(
            read_atom(alloc, fuel),
            both(read_name(alloc, task), read_atoms(alloc, given)),
        ),
        _ => Err(ReadLine::Refused(JobKind::BadLine)),
    }
}

/// A line at the top level before the first task.
pub fn top_line(alloc: Global, word: TopWord, rest: &[&[u8]]) -> Result<Line, ReadLine>
    ensures { IsReadAs result (top_form word (texts rest.now)) }
{
    match word {
        TopWord::Input => Ok(Line::Input(one_name(alloc, rest)?)),
        TopWord::Output => {
            let (name, kind) = name_and_kind(alloc, rest)?;
            Ok(Line::Output(name, kind))
        }
        TopWord::Object => {
            let (name, kind) = name_and_kind(alloc, rest)?;
            Ok(Line::Object(name, kind))
        }
        TopWord::Task => Ok(Line::Task(one_name(alloc, rest)?)),
    }
}

/// A line after a task.
pub fn outside_line(alloc: Global, word: TopWord, rest: &[&[u8]]) -> Result<Line, ReadLine>
    ensures { IsReadAs result (outside_form word (texts rest.now)) }
{
    match word {
        TopWord::Task => top_line(alloc, TopWord::Task, rest),
        TopWord::Input | TopWord::Output | TopWord::Object => {
            Err(ReadLine::Refused(JobKind::BadLine))
        }
    }
}

/// A line of a task before its statements.
pub fn task_line(alloc: Global, word: TaskWord, rest: &[&[u8]]) -> Result<Line, ReadLine>
    ensures { IsReadAs result (task_form word (texts rest.now)) }
{
    if let TaskWord::Do = word {
        return bare(rest, Line::Do);
    }
    let (name, kind) = name_and_kind(alloc, rest)?;
    Ok(match word {
        TaskWord::Param => Line::Param(name, kind),
        TaskWord::In => Line::Access(Mode::In, name, kind),
        TaskWord::Out => Line::Access(Mode::Out, name, kind),
        TaskWord::InOut => Line::Access(Mode::InOut, name, kind),
        TaskWord::Push => Line::Access(Mode::Push, name, kind),
        TaskWord::Pop => Line::Access(Mode::Pop, name, kind),
        TaskWord::PushPop => Line::Access(Mode::PushPop, name, kind),
        TaskWord::Var => Line::Var(name, kind),
        TaskWord::Queue => Line::Queue(name, kind),
        TaskWord::Object => Line::Object(name, kind),
        TaskWord::Do => unreachable!(),
    })
}

/// A `caught`, which the first edition doesn't have.
fn caught(alloc: Global, edition: Edition, rest: &[&[u8]]) -> Result<Line, ReadLine>
    ensures { IsReadAs result (caught_form edition (texts rest.now)) }
{
    match edition {
        Edition::One => Err(ReadLine::Refused(JobKind::BadLine)),
        Edition::Two => Ok(Line::Caught(one_name(alloc, rest)?)),
    }
}

/// A statement of an edition that is no assignment.
pub fn do_line(
    alloc: Global,
    edition: Edition,
    word: DoWord,
    rest: &[&[u8]],
) -> Result<Line, ReadLine>
    ensures { IsReadAs result (do_form edition word (texts rest.now)) }
{
    match word {
        DoWord::Read => {
            let (variable, object) = two_names(alloc, rest)?;
            Ok(Line::Read(variable, object))
        }
        DoWord::Write => {
            let (object, value) = name_and_atom(alloc, rest)?;
            Ok(Line::Write(object, value))
        }
        DoWord::Push => {
            let (queue, value) = name_and_atom(alloc, rest)?;
            Ok(Line::Push(queue, value))
        }
        DoWord::Pop => {
            let (variable, queue) = two_names(alloc, rest)?;
            Ok(Line::Pop(variable, queue))
        }
        DoWord::Empty => {
            let (variable, queue) = two_names(alloc, rest)?;
            Ok(Line::Empty(variable, queue))
        }
        DoWord::Spawn => {
            let (fuel, (task, given)) = spawned(alloc, rest)?;
            Ok(Line::Spawn(fuel, task, given))
        }
        DoWord::Caught => caught(alloc, edition, rest),
        DoWord::Fuel => Ok(Line::Fuel(one_name(alloc, rest)?)),
        DoWord::Fail => Ok(Line::Fail(one_atom(alloc, rest)?)),
        DoWord::If => Ok(Line::If(one_atom(alloc, rest)?)),
        DoWord::While => Ok(Line::While(one_atom(alloc, rest)?)),
        DoWord::Sync => bare(rest, Line::Sync),
        DoWord::Else => bare(rest, Line::Else),
        DoWord::End => bare(rest, Line::End),
    }
}
