// What a check has found out.
ghost use Rattle.std.specs.Prelude.{◌≡◌, Some, OnOk, bytes_eq, codes};
ghost use Rattle.std.specs.Map.{update};
ghost use Rattle.std.specs.Option.{option_copied};
ghost use Rattle.privilege_check.specs.Checking.{by_name, before_of};
ghost use Rattle.privilege_check.specs.Names.{after_line, before_first_line, after_declare, is_main, known, after_open, after_declare_taken, with_next, with_taken};
ghost use Rattle.privilege_check.specs.FirstFault.{has_main, is_in_main};

use crate::declaration::Declaration;
use job_reader::{JobFault, JobKind, Line};
use std::alloc::Global;
use std::collections::BTreeMap;
use swan_model::{Kind, Listed, Mode, NoMemory, Word};

/// What the lines so far say. Names are those of the lines, which aren't copied.
#[derive(Drop)]
pub struct Checker<'a> {
    alloc: Global,
    /// The names of the top level.
    top: BTreeMap<&'a str, Declaration>,
    /// The task that was opened last.
    open_task: Option<&'a Word>,
    /// The names that it declares.
    own: BTreeMap<&'a str, Declaration>,
    /// What each task takes.
    tasks: BTreeMap<&'a str, Listed<Declaration>>,
}

/// Whether a task of this name is `main`. It takes no memory. `O(1)`.
pub fn is_main(task: &Word) -> bool
    ensures { result ≡ is_main task.now }
{
    task.as_str() == "main"
}

/// Sets what a name stands for. `O(log names)`, and an allocation now and then.
fn set<'a, V: Drop>(
    names: &mut BTreeMap<&'a str, V>,
    name: &'a Word,
    value: V,
) -> Result<(), NoMemory>
    ensures { OnOk result (by_name names.new ≡ update bytes_eq (by_name names.old) name.now (Some value)) }
{
    names.insert(name.as_str(), value)?;
    Ok(())
}

/// Adds to what a task takes, if it is known. `O(log tasks)`.
fn take_next<'a>(
    tasks: &mut BTreeMap<&'a str, Listed<Declaration>>,
    task: &Word,
    declaration: Declaration,
) -> Result<(), NoMemory>
    ensures { OnOk result (by_name tasks.new ≡ with_next task.now declaration (by_name tasks.old)) }
{
    let Some(takes) = tasks.get_mut(task.as_str()) else {
        return Ok(());
    };
    match takes.push(declaration) {
        Ok(()) => Ok(()),
        Err(_) => Err(NoMemory),
    }
}

impl<'a> Checker<'a> {
    /// Before the first line. It takes no memory. `O(1)`.
    pub fn new(alloc: Global) -> Checker<'a>
        ensures { before_of result ≡ before_first_line }
    {
        Checker {
            alloc,
            top: BTreeMap::new(alloc),
            open_task: None,
            own: BTreeMap::new(alloc),
            tasks: BTreeMap::new(alloc),
        }
    }

    /// Where memory comes from.
    pub fn allocator(&self) -> Global
        ensures { result ≡ self.now.alloc }
    {
        self.alloc
    }

    /// What a name stands for, if it is known. `O(log names)`.
    pub fn declaration(&self, name: &Word) -> Option<Declaration>
        ensures { result ≡ known (before_of self.now) name.now }
    {
        let Some(task) = self.open_task else {
            return self.top.get(name.as_str()).copied();
        };
        match self.own.get(name.as_str()) {
            Some(declaration) => Some(*declaration),
            None if is_main(task) => self.top.get(name.as_str()).copied(),
            None => None,
        }
    }

    /// Whether main is open.
    pub fn is_in_main(&self) -> bool
        ensures { result ≡ is_in_main (before_of self.now).open_task }
    {
        match self.open_task {
            None => false,
            Some(task) => is_main(task),
        }
    }

    /// What a task takes, if it is known. `O(log tasks)`.
    pub fn takes(&self, task: &str) -> Option<&Listed<Declaration>>
        ensures { option_copied result ≡ (before_of self.now).tasks task.now }
    {
        self.tasks.get(task)
    }

    /// NoMain at the last line, exactly where there is no task `main`.
    pub fn without_main(&self, last: u64) -> Option<JobFault>
        ensures { result ≡ has_main last ((before_of self.now).tasks (codes "main")) }
    {
        match self.tasks.get("main") {
            Some(_) => None,
            None => Some(JobFault {
                line: last,
                kind: JobKind::NoMain,
            }),
        }
    }

    /// Adds what a line says. `O(log names)`, and an allocation now and then.
    pub fn learn(&mut self, line: &'a Line) -> Result<(), NoMemory>
        ensures { OnOk result (before_of self.new ≡ after_line (before_of self.old) line.now) }
    {
        match line {
            Line::Input(name) => self.declare(name, Declaration::Held(Mode::Pop, Kind::Bytes)),
            Line::Output(name, kind) => self.declare(name, Declaration::Held(Mode::Push, *kind)),
            Line::Object(name, kind) => self.declare(name, Declaration::Held(Mode::InOut, *kind)),
            Line::Task(name) => self.open(name),
            Line::Param(name, kind) => self.declare_taken(name, Declaration::Variable(*kind)),
            Line::Access(mode, name, kind) => self.declare_taken(
                name,
                Declaration::Held(*mode, *kind),
            ),
            Line::Var(name, kind) => self.declare(name, Declaration::Variable(*kind)),
            Line::Queue(name, kind) => self.declare(name, Declaration::Held(Mode::PushPop, *kind)),
            _ => Ok(()),
        }
    }

    /// Adds a name at the top level, or to the open task.
    fn declare(&mut self, name: &'a Word, declaration: Declaration) -> Result<(), NoMemory>
        ensures { OnOk result (before_of self.new ≡ after_declare name.now declaration (before_of self.old)) }
    {
        if self.open_task.is_some() {
            set(&mut self.own, name, declaration)
        } else {
            set(&mut self.top, name, declaration)
        }
    }

    /// Adds to what the open task takes.
    fn take(&mut self, declaration: Declaration) -> Result<(), NoMemory>
        ensures { OnOk result (before_of self.new ≡ with_taken declaration (before_of self.old)) }
    {
        let Some(task) = self.open_task else {
            return Ok(());
        };
        take_next(&mut self.tasks, task, declaration)?;
        Ok(())
    }

    /// Adds a name that the open task takes.
    fn declare_taken(&mut self, name: &'a Word, declaration: Declaration) -> Result<(), NoMemory>
        ensures { OnOk result (before_of self.new ≡ after_declare_taken name.now declaration (before_of self.old)) }
    {
        self.declare(name, declaration)?;
        self.take(declaration)?;
        Ok(())
    }

    /// Opens a task.
    fn open(&mut self, task: &'a Word) -> Result<(), NoMemory>
        ensures { OnOk result (before_of self.new ≡ after_open task.now (before_of self.old)) }
    {
        set(&mut self.tasks, task, Listed::new(self.alloc))?;
        self.open_task = Some(task);
        self.own = BTreeMap::new(self.alloc);
        Ok(())
    }
}
