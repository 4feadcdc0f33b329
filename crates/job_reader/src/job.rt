// Jobs.
ghost use Rattle.std.specs.Prelude.{◌≡◌, length, slice_get};
ghost use Rattle.std.specs.Option.{option_copied};

use crate::Line;
use std::marker::Model;

/// The largest number of lines of a job.
pub(crate) const JOB_LINES_MOST: usize = 20_000;

/// A job: the lines of a text that has no fault. The line with number n stands at index n - 1. It keeps
/// all that its text needs to be read back: each line has its shape, with names, notes and literals
/// that may stand in a text; each stands where it may in a job of its edition; no line, input or block
/// is one too many; and no task is open at the end. Contracts see it as the list of its lines.
#[derive(Drop)]
pub struct Job {
    lines: Vec<Line>,
}

impl Model for Job {
    ghost use Rattle.std.specs.Prelude.{List};
    ghost use Rattle.job_reader.specs.declared.line.Line.{Line};

    ghost Value = { List Line };

    ghost view = { λ job. job.lines.items };

    ghost use Rattle.job_reader.specs.Jobs.{IsJob};

    ghost invariant = { λ job. IsJob job.lines.items };
}

impl Job {
    ghost use Rattle.job_reader.specs.Jobs.{IsJob};

    /// The job of these lines. It takes no memory. `O(1)`.
    pub(crate) fn of(lines: Vec<Line>) -> Job
        requires { IsJob lines.items }
        ensures { result ≡ lines.items }
    {
        Job { lines }
    }

    /// The line at an index from 0 on, and None exactly past the end. It takes no memory. `O(1)`.
    pub fn line(&self, index: usize) -> Option<&Line>
        ensures { option_copied result ≡ slice_get self.now index }
    {
        self.lines.get(index)
    }

    /// How many lines there are. It takes no memory. `O(1)`.
    pub fn len(&self) -> usize
        ensures { result ≡ length self.now }
    {
        self.lines.len()
    }

    /// The lines in order, to go over. It takes no memory. `O(1)`.
    pub fn as_slice(&self) -> &[Line]
        ensures lines { result.now ≡ self.now }
        ensures job { IsJob self.now }
    {
        self.lines.as_slice()
    }
}
