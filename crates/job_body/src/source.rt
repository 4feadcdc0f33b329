// The lines of a job, with the steps among them.
ghost use Rattle.std.specs.Prelude.{◌≡◌, ◌≤◌, length, IfOk};
ghost use Rattle.job_body.specs.Firsts.{firsts_of};
ghost use Rattle.job_body.specs.Tasks.{is_executed};

use job_reader::Line;
use std::alloc::Global;
use std::marker::Model;
use swan_model::{GIVES_MOST, NoMemory};

/// Whether a line is a step.
#[tactic(auto, unfolding(crate::specs::Tasks::is_executed))]
fn is_executed(line: &Line) -> bool
    ensures { result ≡ is_executed line.now }
{
    match line {
        Line::Note(_) | Line::Header(_) | Line::Input(_) | Line::Output(_, _) | Line::Task(_) =>
            false,
        Line::Param(_, _) | Line::Access(_, _, _) | Line::Var(_, _) | Line::Do => false,
        _ => true,
    }
}

/// The index of the first step from each line on. `O(lines)`.
pub fn firsts_of(alloc: Global, lines: &[Line]) -> Result<Vec<u32>, NoMemory>
    requires few { length lines.now ≤ GIVES_MOST }
    ensures { IfOk result (λ all. all.items ≡ firsts_of lines.now) }
{
    let mut all = Vec::new(alloc);
    let mut index = lines.len() as u32;
    let mut first = index;
    while index > 0 {
        index -= 1;
        if is_executed(&lines[index as usize]) {
            first = index;
        }
        all.push(first)?;
    }
    all.as_mut_slice().reverse();
    Ok(all)
}

/// The lines of a job, with the index of the first step from each of them on. Contracts see it as the
/// list of the lines.
#[derive(Drop)]
pub struct Source<'a> {
    lines: &'a [Line],
    firsts: Vec<u32>,
}

impl<'a> Model for Source<'a> {
    ghost use Rattle.std.specs.Prelude.{◌≡◌, List};
    ghost use Rattle.job_reader.specs.declared.line.Line.{Line};
    ghost use Rattle.job_body.specs.Firsts.{firsts_of};

    ghost Value = { List Line };

    ghost view = { λ source. source.lines.now };

    ghost invariant = { λ source. source.firsts.items ≡ firsts_of source.lines.now };
}

impl<'a> Source<'a> {
    ghost use Rattle.std.specs.Prelude.{◌≡◌};
    ghost use Rattle.job_body.specs.Firsts.{firsts_of};
    ghost use Rattle.job_body.specs.Tasks.{executed_from};

    /// The source of these lines, by the first step from each of them on. `O(1)`.
    pub fn new(lines: &'a [Line], firsts: Vec<u32>) -> Source<'a>
        requires { firsts.items ≡ firsts_of lines.now }
        ensures { result ≡ lines.now }
    {
        Source { lines, firsts }
    }

    /// The lines. `O(1)`.
    pub fn lines(&self) -> &[Line]
        ensures { result.now ≡ self.now }
    {
        self.lines
    }

    /// The index of the first step from this index on. `O(1)`.
    pub fn step_from(&self, from: u32) -> u32
        ensures { result ≡ executed_from self.now from }
    {
        let at = from as usize;
        if at >= self.firsts.len() {
            return from;
        }
        self.firsts[at]
    }
}
