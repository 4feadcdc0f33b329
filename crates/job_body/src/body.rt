// The body of a job.
ghost use Rattle.std.specs.Prelude.{◌≡◌, ◌≤◌, codes, length};
ghost use Rattle.job_body.specs.Tasks.{task_index};

use crate::JobLocal;
use crate::compile::program_of;
use crate::instruction::Instruction;
use crate::lines::lines;
use crate::run::{begin, step, work};
use crate::task_index::TaskIndex;
use job_reader::Line;
use privilege_check::{CheckedJob, is_main};
use std::alloc::Global;
use std::marker::Model;
use swan_model::{Answer, Ask, Body, Listed, NoMemory, Worked};

/// The program of a job. Contracts see it as the list of the job's lines.
#[derive(Drop)]
pub struct JobBody {
    job: CheckedJob,
    program: Listed<Instruction>,
}

impl Model for JobBody {
    ghost use Rattle.std.specs.Prelude.{◌≡◌, List};
    ghost use Rattle.job_reader.specs.declared.line.Line.{Line};

    ghost Value = { List Line };

    ghost use Rattle.job_body.specs.Compiled.{program_of};

    ghost view = { λ body. body.job };

    ghost invariant = { λ body. body.program ≡ program_of body.job };
}

/// The index of the `task` line of `main`, or the number of lines where there is none.
fn main_index(lines: &[Line]) -> usize
    ensures index { result ≡ task_index lines.now (codes "main") }
    ensures within { result ≤ length lines.now }
{
    let mut index = 0;
    for line in lines {
        if let Line::Task(name) = line {
            if is_main(name) {
                break;
            }
        }
        index += 1;
    }
    index
}

impl JobBody {
    ghost use Rattle.std.specs.Prelude.{◌≡◌, [], codes, IfOk};
    ghost use Rattle.job_body.specs.Steps.{begun};
    ghost use Rattle.job_body.specs.Tasks.{task_index};

    /// The program of a job. `O(n log n)` for n lines, names and values of it.
    pub(crate) fn new(alloc: Global, job: CheckedJob) -> Result<JobBody, NoMemory>
        ensures { IfOk result (λ body. body ≡ job) }
    {
        let program = program_of(alloc, lines(&job))?;
        Ok(JobBody { job, program })
    }

    /// An activation of the task `main` before its first step. `O(lines)`.
    pub(crate) fn main(&self, alloc: Global) -> Result<JobLocal, NoMemory>
        ensures { IfOk result (λ local. local ≡ begun self.now (task_index self.now (codes "main")) []) }
    {
        let main = TaskIndex::new(main_index(lines(&self.job)) as u32);
        begin(alloc, &self.program, &main, Vec::new(alloc))
    }
}

impl Body for JobBody {
    ghost use Rattle.job_body.specs.Steps.{next, place_of};

    type Local = JobLocal;

    ghost next = { next };

    ghost place_of = { place_of };

    /// Takes the step of the line at which the activation stands. `O(1)` but for what an operation
    /// does with bytes, and for a spawn, which is linear in what the child is given and begins with.
    fn advance(
        &self,
        alloc: Global,
        local: JobLocal,
        answer: Answer,
        fuel: u64,
    ) -> Result<(JobLocal, Ask<JobLocal>), NoMemory> {
        step(alloc, &self.program, local, answer, fuel)
    }

    /// Takes steps in a row, as long as each asks for work and the budget and the fuel last. The local
    /// stays where it is, and a step of a line on numbers takes no memory.
    #[inline(always)]
    fn work(
        &self,
        alloc: Global,
        local: JobLocal,
        answer: Answer,
        fuel: u64,
        budget: u64,
    ) -> Result<Worked<JobLocal>, NoMemory> {
        work(alloc, &self.program, local, answer, fuel, budget)
    }

    /// The number of the line at which the activation stands. It takes no memory. `O(1)`.
    fn place(&self, local: &JobLocal) -> u64 {
        local.line()
    }
}
