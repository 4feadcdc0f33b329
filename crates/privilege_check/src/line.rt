// Lines.
ghost use Rattle.std.specs.Prelude.{◌≡◌};
ghost use Rattle.privilege_check.specs.Checking.{IsCheckedAs, before_of};
ghost use Rattle.privilege_check.specs.FirstFault.{check_line, kind_dropped, emptiness, fresh, fresh_taken, plain, put_in, taken_out};
ghost use Rattle.privilege_check.specs.Names.{known};
ghost use Rattle.privilege_check.specs.Uses.{value, variable};

use crate::checker::Checker;
use crate::refusal::CheckLine;
use job_reader::{Atom, JobKind, Line};
use swan_model::{Kind, Mode, Word};

impl Checker<'_> {
    /// A name that is declared. Duplicate comes exactly where it is known. `O(log names)`.
    fn fresh(&self, name: &Word) -> Result<(), JobKind>
        ensures { result ≡ fresh (known (before_of self.now) name.now) }
    {
        match self.declaration(name) {
            None => Ok(()),
            Some(_) => Err(JobKind::Duplicate),
        }
    }

    /// A task that is declared. Duplicate comes exactly where it is known. `O(log tasks)`.
    fn fresh_task(&self, name: &Word) -> Result<(), JobKind>
        ensures { result ≡ fresh ((before_of self.now).tasks name.now) }
    {
        match self.takes(name.as_str()) {
            None => Ok(()),
            Some(_) => Err(JobKind::Duplicate),
        }
    }

    /// A name that the open task takes. Duplicate comes exactly where it is known, and else MainParams
    /// where the task is main.
    fn fresh_taken(&self, name: &Word) -> Result<(), JobKind>
        ensures { result ≡ fresh_taken (known (before_of self.now)) (before_of self.now).open_task name.now }
    {
        self.fresh(name)?;
        if self.is_in_main() {
            Err(JobKind::MainParams)
        } else {
            Ok(())
        }
    }

    /// What goes from an object or a queue into a variable: the variable, and then the other, which is
    /// of its kind.
    fn taken_out(&self, variable: &Word, mode: Mode, name: &Word) -> Result<(), JobKind>
        ensures { result ≡ taken_out (known (before_of self.now)) variable.now mode name.now }
    {
        let kind = self.variable(None, variable)?;
        self.held(Some(kind), mode, name)?;
        Ok(())
    }

    /// What goes into an object or a queue: the object or queue, and then the atom, which is of its kind.
    fn put_in(&self, mode: Mode, name: &Word, atom: &Atom) -> Result<(), JobKind>
        ensures { result ≡ put_in (known (before_of self.now)) mode name.now atom.now }
    {
        let kind = self.held(None, mode, name)?;
        self.value(Some(kind), atom)?;
        Ok(())
    }

    /// An emptiness test: the variable, which is a number, and then the queue.
    fn emptiness(&self, variable: &Word, queue: &Word) -> Result<(), JobKind>
        ensures { result ≡ emptiness (known (before_of self.now)) variable.now queue.now }
    {
        self.variable(Some(Kind::Int), variable)?;
        self.held(None, Mode::Pop, queue)?;
        Ok(())
    }

    /// A number.
    fn number(&self, atom: &Atom) -> Result<(), JobKind>
        ensures { result ≡ kind_dropped (value (known (before_of self.now)) (Some Kind.Int) atom.now) }
    {
        self.value(Some(Kind::Int), atom)?;
        Ok(())
    }

    /// A variable that a number goes into.
    fn number_variable(&self, name: &Word) -> Result<(), JobKind>
        ensures { result ≡ kind_dropped (variable (known (before_of self.now)) (Some Kind.Int) name.now) }
    {
        self.variable(Some(Kind::Int), name)?;
        Ok(())
    }

    /// A declaration, or a statement that names neither a task nor an operation. `O(log names)`.
    fn plain(&self, line: &Line) -> Result<(), JobKind>
        ensures { result ≡ plain (known (before_of self.now)) (before_of self.now).open_task line.now }
    {
        match line {
            Line::Input(name) | Line::Output(name, _) | Line::Object(name, _) => self.fresh(name),
            Line::Param(name, _) | Line::Access(_, name, _) => self.fresh_taken(name),
            Line::Var(name, _) | Line::Queue(name, _) => self.fresh(name),
            Line::Read(variable, object) => self.taken_out(variable, Mode::In, object),
            Line::Write(object, atom) => self.put_in(Mode::Out, object, atom),
            Line::Push(queue, atom) => self.put_in(Mode::Push, queue, atom),
            Line::Pop(variable, queue) => self.taken_out(variable, Mode::Pop, queue),
            Line::Empty(variable, queue) => self.emptiness(variable, queue),
            Line::Caught(variable) | Line::Fuel(variable) => self.number_variable(variable),
            Line::Fail(atom) | Line::If(atom) | Line::While(atom) => self.number(atom),
            _ => Ok(()),
        }
    }

    /// A line, by what the lines before it say. Refused comes exactly with its first fault.
    /// `O(log names)` for each of its names, and for a spawn an allocation now and then for its objects and queues.
    pub fn check(&self, line: &Line) -> Result<(), CheckLine>
        ensures { IsCheckedAs result (check_line (before_of self.now) line.now) }
    {
        match line {
            Line::Task(name) => self.fresh_task(name)?,
            Line::Assign(variable, op, atoms) => {
                self.check_assignment(variable, *op, atoms.as_slice())?;
            }
            Line::Spawn(fuel, task, args) => self.spawn(fuel, task, args.as_slice())?,
            _ => self.plain(line)?,
        }
        Ok(())
    }
}
