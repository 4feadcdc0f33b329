// Spawns.
ghost use Rattle.std.specs.Prelude.{◌≡◌, IfOk, length};
ghost use Rattle.privilege_check.specs.Checking.{IsCheckedAs, before_of};
ghost use Rattle.privilege_check.specs.Names.{known};
ghost use Rattle.privilege_check.specs.Spawns.{argument, arguments, is_lent_twice, lent, spawn, spawn_arguments};

use crate::checker::{Checker, is_main};
use crate::declaration::Declaration;
use crate::lent::is_lent_twice;
use crate::refusal::CheckLine;
use job_reader::{Atom, JobKind};
use swan_model::{Kind, Word};

impl Checker<'_> {
    /// An argument for what a task takes: an atom for a variable, and else a name with the rights.
    /// `O(log names)`.
    fn argument(&self, taken: Declaration, atom: &Atom) -> Result<Kind, JobKind>
        ensures { result ≡ argument (known (before_of self.now)) taken atom.now }
    {
        match (taken, atom) {
            (Declaration::Variable(kind), _) => self.value(Some(kind), atom),
            (Declaration::Held(mode, kind), Atom::Name(name)) => self.held(Some(kind), mode, name),
            _ => Err(JobKind::Kind),
        }
    }

    /// Arguments in their order. `O(arguments · log names)`.
    fn arguments(&self, takes: &[Declaration], args: &[Atom]) -> Result<(), JobKind>
        ensures { result ≡ arguments (known (before_of self.now)) takes.now args.now }
    {
        for (taken, atom) in takes.iter().zip(args) {
            self.argument(*taken, atom)?;
        }
        Ok(())
    }

    /// What a task is given: as many arguments as it takes, each as it takes it, and nothing twice.
    /// `O(arguments · log names)`.
    fn spawn_arguments(&self, takes: &[Declaration], args: &[Atom]) -> Result<(), CheckLine>
        ensures { IsCheckedAs result (spawn_arguments (known (before_of self.now)) args.now takes.now) }
    {
        if args.len() != takes.len() {
            return Err(CheckLine::Refused(JobKind::Arity));
        }
        self.arguments(takes, args)?;
        if is_lent_twice(self.allocator(), takes, args)? {
            return Err(CheckLine::Refused(JobKind::Alias));
        }
        Ok(())
    }

    /// A spawn: the child's fuel, its task, and what it is given. `O(n log names)` for n arguments, and an
    /// allocation now and then for its objects and queues.
    pub fn spawn(&self, fuel: &Atom, task: &Word, args: &[Atom]) -> Result<(), CheckLine>
        ensures { IsCheckedAs result (spawn (before_of self.now) fuel.now task.now args.now) }
    {
        self.value(Some(Kind::Int), fuel)?;
        let Some(takes) = self.takes(task.as_str()) else {
            return Err(CheckLine::Refused(JobKind::Unknown));
        };
        if is_main(task) {
            return Err(CheckLine::Refused(JobKind::MainParams));
        }
        self.spawn_arguments(takes.as_slice(), args)
    }
}
