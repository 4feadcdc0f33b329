// Reading a job.
ghost use Rattle.std.specs.Prelude.{◌≡◌, IfOk, Some, if◌then◌else◌};
ghost use Rattle.job_reader.specs.Faults.{IsReadAs};
ghost use Rattle.job_reader.specs.FirstFault.{balanced, edition_after, first_fault, is_one_too_many, job_of, line_alone, line_at, opens_block, with_position};
ghost use Rattle.job_reader.specs.Texts.{texts};

use crate::fault::ReadLine;
use crate::form::{after_equals, shape};
use crate::job::JOB_LINES_MOST;
use crate::lines::first_line;
use crate::position::{BLOCKS_MOST, Position};
use crate::scan::tokens;
use crate::trim::{are_allowed, trimmed};
use crate::words::is_text;
use crate::{Edition, Job, JobFault, JobKind, Line, ReadJob};
use std::alloc::Global;

/// The largest number of bytes of a line without its outer spaces.
pub(crate) const LINE_MOST: usize = 4_096;

/// Whether tokens open a block after a `do`, by the first two.
fn opens_block(first: &[u8], rest: &[&[u8]]) -> bool
    ensures { result ≡ opens_block first.now (texts rest.now) }
{
    (is_text(first, "if") || is_text(first, "while")) && after_equals(rest).is_none()
}

/// Whether tokens are one input or one block too many at a position.
fn is_one_too_many(position: &Position, tokens: &[&[u8]]) -> bool
    ensures { result ≡ is_one_too_many position.now (texts tokens.now) }
{
    let Some((first, rest)) = tokens.split_first() else {
        return false;
    };
    match position {
        Position::Top(inputs_left) => *inputs_left == 0 && is_text(first, "input"),
        Position::InDo(blocks) => blocks.len() >= BLOCKS_MOST && opens_block(first, rest),
        _ => false,
    }
}

/// The line that bytes are at a position in a job of an edition, by their number in the text, but for its
/// balance. `O(length)`.
fn line_alone(
    alloc: Global,
    edition: Edition,
    number: u64,
    position: &Position,
    bytes: &[u8],
) -> Result<Line, ReadLine>
    ensures { IsReadAs result (line_alone edition number position.now bytes.now) }
{
    if !are_allowed(bytes) {
        return Err(ReadLine::Refused(JobKind::BadByte));
    }
    let text = trimmed(bytes);
    if number > JOB_LINES_MOST as u64 || text.len() > LINE_MOST {
        return Err(ReadLine::Refused(JobKind::Limit));
    }
    let tokens = tokens(alloc, text)?;
    if is_one_too_many(position, &tokens) {
        return Err(ReadLine::Refused(JobKind::Limit));
    }
    shape(alloc, edition, position, text, &tokens)
}

/// A line and the position after it, where the line is in balance. `O(1)` amortised.
fn balanced(
    alloc: Global,
    is_last: bool,
    position: Position,
    line: Line,
) -> Result<(Line, Position), ReadLine>
    ensures { IsReadAs result (with_position position (balanced is_last position line)) }
{
    let is_stray = position.is_stray_else(&line);
    let Ok(next) = position.after(alloc, &line) else {
        // by a call, since what ends with its block is checked variant by variant
        drop(line);
        return Err(ReadLine::NoMemory);
    };
    let leaves_open = is_last && next.is_open();
    in_balance(is_stray || leaves_open, line, next)
}

/// A line and the position after it, where it isn't out of balance.
fn in_balance(is_out: bool, line: Line, next: Position) -> Result<(Line, Position), ReadLine>
    ensures { IsReadAs result (if is_out then Err JobKind.Unbalanced else Ok (line, next)) }
{
    if is_out {
        // by calls, as above
        drop(line);
        drop(next);
        Err(ReadLine::Refused(JobKind::Unbalanced))
    } else {
        Ok((line, next))
    }
}

/// The line that bytes are at a position in a job of an edition, by their number in the text, and the position
/// after it. `O(length)`.
fn read_line(
    alloc: Global,
    edition: Edition,
    number: u64,
    is_last: bool,
    position: Position,
    bytes: &[u8],
) -> Result<(Line, Position), ReadLine>
    ensures { IsReadAs result (with_position position (line_at edition number is_last position bytes.now)) }
{
    let line = line_alone(alloc, edition, number, &position, bytes)?;
    balanced(alloc, is_last, position, line)
}

/// The edition of a job after a line, where it was this before it. `O(1)`.
fn edition_after(edition: Edition, line: &Line) -> Edition
    ensures { result ≡ edition_after edition line.now }
{
    match line {
        Line::Header(named) => *named,
        _ => edition,
    }
}

/// Reads the text of a job. Refused comes exactly where the text has a fault, and names the first faulty
/// line and the first kind of fault that it has. It goes from line to line and looks at nothing after
/// that one. `O(length)`, an allocation or two for each name, note and literal, and a few more a line.
pub fn read_job(alloc: Global, bytes: &[u8]) -> Result<Job, ReadJob>
    ensures ok { IfOk result (λ job. job_of bytes.now ≡ Ok job) }
    ensures refused { (fault : JobFault) → result ≡ Err (ReadJob.Refused fault) → first_fault bytes.now ≡ Some fault }
{
    if bytes.is_empty() {
        return Err(refused(1, JobKind::BadHeader));
    }
    let mut lines = Vec::new(alloc);
    let mut edition = Edition::One;
    let mut position = Position::First;
    let mut rest = bytes;
    let mut number = 0;
    while !rest.is_empty() {
        number += 1;
        let (line, more) = first_line(rest);
        match read_line(alloc, edition, number, more.is_empty(), position, line) {
            Ok((line, next)) => {
                edition = edition_after(edition, &line);
                lines.push(line)?;
                position = next;
            }
            Err(ReadLine::Refused(kind)) => return Err(refused(number, kind)),
            Err(ReadLine::NoMemory) => return Err(ReadJob::NoMemory),
        }
        rest = more;
    }
    Ok(Job::of(lines))
}

/// The refusal of a line.
fn refused(line: u64, kind: JobKind) -> ReadJob
    ensures { result ≡ ReadJob.Refused (record { line = line; kind = kind }) }
{
    ReadJob::Refused(JobFault { line, kind })
}
