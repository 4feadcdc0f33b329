// Writing a job.
ghost use Rattle.std.specs.Prelude.{◌≡◌, ◌++◌, ◌∷◌, ◌*◌, [], OnOk, IfOk, replicate};
ghost use Rattle.job_reader.specs.CanonicalText.{atom_text, indentation, is_blank, line_text, mode_text, text_of, whole_line};
ghost use Rattle.job_reader.specs.Characters.{space};
ghost use Rattle.job_reader.specs.FirstFault.{job_of};
ghost use Rattle.job_reader.specs.Words.{edition_text, kind_text};

use crate::position::Position;
use crate::words::{edition_text, kind_text};
use crate::write_atom::{push, push_atom, push_atoms, push_token};
use crate::{Atom, Atoms, Edition, Job, Line, Op};
use std::alloc::Global;
use swan_model::{Kind, Mode, NoMemory, Word};

/// The word of an access line.
fn mode_text(mode: Mode) -> &'static str
    ensures { result.now ≡ mode_text mode }
{
    match mode {
        Mode::In => "in",
        Mode::Out => "out",
        Mode::InOut => "inout",
        Mode::Push => "push",
        Mode::Pop => "pop",
        Mode::PushPop => "pushpop",
    }
}

/// Adds a word alone.
fn bare(out: &mut Vec<u8>, word: &str) -> Result<(), NoMemory>
    ensures { OnOk result (out.new.items ≡ out.old.items ++ word.now) }
{
    push(out, word.as_bytes())
}

/// Adds the first line of a job of an edition.
fn header(out: &mut Vec<u8>, edition: Edition) -> Result<(), NoMemory>
    ensures { OnOk result (out.new.items ≡ out.old.items ++ line_text (Line.Header edition)) }
{
    push(out, b"swan")?;
    push_token(out, edition_text(edition).as_bytes())
}

/// Adds a word and a name.
fn named(out: &mut Vec<u8>, word: &str, name: &Word) -> Result<(), NoMemory>
    ensures { OnOk result (out.new.items ≡ out.old.items ++ (word.now ++ space ∷ name.now)) }
{
    push(out, word.as_bytes())?;
    push_token(out, name.as_str().as_bytes())
}

/// Adds a word, a name and a kind.
fn declared(out: &mut Vec<u8>, word: &str, name: &Word, kind: Kind) -> Result<(), NoMemory>
    ensures { OnOk result (out.new.items ≡ out.old.items ++ (word.now ++ space ∷ (name.now ++ space ∷ kind_text kind))) }
{
    named(out, word, name)?;
    push_token(out, kind_text(kind).as_bytes())
}

/// Adds a word and two names.
fn paired(out: &mut Vec<u8>, word: &str, first: &Word, second: &Word) -> Result<(), NoMemory>
    ensures { OnOk result (out.new.items ≡ out.old.items ++ (word.now ++ space ∷ (first.now ++ space ∷ second.now))) }
{
    named(out, word, first)?;
    push_token(out, second.as_str().as_bytes())
}

/// Adds a word and an atom.
fn valued(alloc: Global, out: &mut Vec<u8>, word: &str, atom: &Atom) -> Result<(), NoMemory>
    ensures { OnOk result (out.new.items ≡ out.old.items ++ (word.now ++ space ∷ atom_text atom.now)) }
{
    push(out, word.as_bytes())?;
    push_atom(alloc, out, atom)
}

/// Adds a word, a name and an atom.
fn given(
    alloc: Global,
    out: &mut Vec<u8>,
    word: &str,
    name: &Word,
    atom: &Atom,
) -> Result<(), NoMemory>
    ensures { OnOk result (out.new.items ≡ out.old.items ++ (word.now ++ space ∷ (name.now ++ space ∷ atom_text atom.now))) }
{
    named(out, word, name)?;
    push_atom(alloc, out, atom)
}

/// Adds an assignment.
fn assigned(
    alloc: Global,
    out: &mut Vec<u8>,
    variable: &Word,
    op: Op,
    args: &Atoms,
) -> Result<(), NoMemory>
    ensures { OnOk result (out.new.items ≡ out.old.items ++ line_text (Line.Assign variable.now op args.now)) }
{
    push(out, variable.as_str().as_bytes())?;
    push_token(out, b"=")?;
    push_token(out, op.text().as_bytes())?;
    push_atoms(alloc, out, args.as_slice())
}

/// Adds a spawn.
fn spawned(
    alloc: Global,
    out: &mut Vec<u8>,
    fuel: &Atom,
    task: &Word,
    given: &Atoms,
) -> Result<(), NoMemory>
    ensures { OnOk result (out.new.items ≡ out.old.items ++ line_text (Line.Spawn fuel.now task.now given.now)) }
{
    valued(alloc, out, "spawn", fuel)?;
    push_token(out, task.as_str().as_bytes())?;
    push_atoms(alloc, out, given.as_slice())
}

/// Adds a line without its indentation and line feed. `O(length)`.
fn push_line(alloc: Global, out: &mut Vec<u8>, line: &Line) -> Result<(), NoMemory>
    ensures { OnOk result (out.new.items ≡ out.old.items ++ line_text line.now) }
{
    match line {
        Line::Note(text) => bare(out, text.as_str()),
        Line::Header(edition) => header(out, *edition),
        Line::Input(name) => named(out, "input", name),
        Line::Output(name, kind) => declared(out, "output", name, *kind),
        Line::Object(name, kind) => declared(out, "object", name, *kind),
        Line::Task(name) => named(out, "task", name),
        Line::Param(name, kind) => declared(out, "param", name, *kind),
        Line::Access(mode, name, kind) => declared(out, mode_text(*mode), name, *kind),
        Line::Var(name, kind) => declared(out, "var", name, *kind),
        Line::Queue(name, kind) => declared(out, "queue", name, *kind),
        Line::Do => bare(out, "do"),
        Line::Assign(variable, op, args) => assigned(alloc, out, variable, *op, args),
        Line::Read(variable, object) => paired(out, "read", variable, object),
        Line::Write(object, value) => given(alloc, out, "write", object, value),
        Line::Push(queue, value) => given(alloc, out, "push", queue, value),
        Line::Pop(variable, queue) => paired(out, "pop", variable, queue),
        Line::Empty(variable, queue) => paired(out, "empty", variable, queue),
        Line::Spawn(fuel, task, args) => spawned(alloc, out, fuel, task, args),
        Line::Sync => bare(out, "sync"),
        Line::Caught(variable) => named(out, "caught", variable),
        Line::Fuel(variable) => named(out, "fuel", variable),
        Line::Fail(value) => valued(alloc, out, "fail", value),
        Line::If(value) => valued(alloc, out, "if", value),
        Line::Else => bare(out, "else"),
        Line::While(value) => valued(alloc, out, "while", value),
        Line::End => bare(out, "end"),
    }
}

/// Whether a line is a note that says nothing.
fn is_blank(line: &Line) -> bool
    ensures { result ≡ is_blank line.now }
{
    match line {
        Line::Note(text) => text.as_str().is_empty(),
        _ => false,
    }
}

/// How many steps of indentation a line has at a position. `O(1)`.
fn indentation(position: &Position, line: &Line) -> usize
    ensures { result ≡ indentation position.now line.now }
{
    if is_blank(line) {
        0
    } else {
        position.depth(line)
    }
}

/// Adds steps of indentation. `O(steps)`.
fn push_indentation(out: &mut Vec<u8>, steps: usize) -> Result<(), NoMemory>
    ensures { OnOk result (out.new.items ≡ out.old.items ++ replicate (2 * steps) space) }
{
    for _step in 0..steps {
        push(out, b"  ")?;
    }
    Ok(())
}

/// Adds a line at a position, with its indentation and line feed. `O(length)`.
fn push_whole_line(
    alloc: Global,
    out: &mut Vec<u8>,
    position: &Position,
    line: &Line,
) -> Result<(), NoMemory>
    ensures { OnOk result (out.new.items ≡ out.old.items ++ whole_line position.now line.now) }
{
    push_indentation(out, indentation(position, line))?;
    push_line(alloc, out, line)?;
    push(out, b"\n")
}

/// The canonical text of a job, which reads back as the same job. `O(length)`, an allocation for each
/// number, one for each task that has blocks, and those by which the text grows.
pub fn write_job(alloc: Global, job: &Job) -> Result<Vec<u8>, NoMemory>
    ensures text { IfOk result (λ text. text.items ≡ text_of job.now) }
    ensures reads_back { IfOk result (λ text. job_of text.items ≡ Ok job.now) }
{
    let mut text = Vec::new(alloc);
    let mut position = Position::First;
    for line in job.as_slice() {
        push_whole_line(alloc, &mut text, &position, line)?;
        position = position.after(alloc, line)?;
    }
    Ok(text)
}
