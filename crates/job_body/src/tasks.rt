// The tasks of a job.
use crate::name_table::{NAMES_MOST, NameTable};
use crate::take::Take;
use crate::task_index::TaskIndex;
use job_reader::Line;
use std::alloc::Global;
use swan_model::{GIVES_MOST, Listed, NoMemory, Word};

/// A task: the index of its `task` line, and what it takes, in order.
#[derive(Drop)]
pub struct Task {
    /// The index.
    pub index: TaskIndex,
    /// What it takes.
    pub takes: Listed<Take>,
}

/// The tasks of a job by their names.
#[derive(Drop)]
pub struct Tasks {
    /// The names.
    pub names: NameTable,
    /// The tasks, in the order of the names.
    pub tasks: Listed<Task>,
}

impl Task {
    ghost use Rattle.std.specs.Prelude.{◌≡◌, IfOk};
    ghost use Rattle.job_body.specs.Tasks.{before_task, takes};

    /// What the task takes whose lines stand first among these.
    fn takes_of(alloc: Global, lines: &[Line]) -> Result<Listed<Take>, NoMemory>
        ensures { IfOk result (λ all. all ≡ takes (before_task lines.now)) }
    {
        let mut all = Listed::new(alloc);
        for line in lines {
            let take = match line {
                Line::Task(_) => break,
                Line::Param(_, _) => Take::Param,
                Line::Access(mode, _, _) => Take::Access(*mode),
                _ => continue,
            };
            if all.push(take).is_err() {
                return Err(NoMemory);
            }
        }
        Ok(all)
    }
}

impl Tasks {
    ghost use Rattle.std.specs.Prelude.{◌≡◌, ◌∷◌, ◌++◌, ◌<◌, ◌≤◌, [], length, IfOk, OnOk};
    ghost use Rattle.std.specs.Option.{option_copied};
    ghost use Rattle.job_body.specs.Compiled.{task_of_name, tasks_of};

    /// Adds a task of this name after the others. An Err is want of memory, and the names tell nothing then.
    fn add(&mut self, alloc: Global, name: &Word, task: Task) -> Result<(), NoMemory>
        requires { length self.old.names < NAMES_MOST }
        ensures { OnOk result (self.new ≡ record { names = self.old.names ++ name.now ∷ []; tasks = self.old.tasks ++ task ∷ [] }) }
    {
        if self.names.add(alloc, name).is_err() {
            drop(task);
            return Err(NoMemory);
        }
        match self.tasks.push(task) {
            Ok(()) => Ok(()),
            Err(back) => {
                drop(back);
                Err(NoMemory)
            }
        }
    }

    /// The tasks of a job. `O(lines log tasks)`.
    pub fn of(alloc: Global, lines: &[Line]) -> Result<Tasks, NoMemory>
        requires few { length lines.now ≤ GIVES_MOST }
        ensures { IfOk result (λ tasks. tasks ≡ tasks_of lines.now) }
    {
        let mut all = Tasks {
            names: NameTable::new(alloc),
            tasks: Listed::new(alloc),
        };
        for (index, line) in lines.iter().enumerate() {
            if let Line::Task(name) = line {
                let takes = Task::takes_of(alloc, &lines[index + 1..])?;
                let index = TaskIndex::new(index as u32);
                all.add(alloc, name, Task { index, takes })?;
            }
        }
        Ok(all)
    }

    /// The task of this name, and None where there is none. `O(log tasks)`.
    pub fn find(&self, name: &Word) -> Option<&Task>
        ensures { option_copied result ≡ task_of_name self.now name.now }
    {
        match self.names.place(name) {
            Some(place) => self.tasks.get(place as usize),
            None => None,
        }
    }
}
