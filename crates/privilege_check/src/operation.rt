// Assignments.
ghost use Rattle.std.specs.Prelude.{◌≡◌};
ghost use Rattle.privilege_check.specs.Checking.{before_of};
ghost use Rattle.privilege_check.specs.Names.{known};
ghost use Rattle.privilege_check.specs.Operations.{check_assignment, first_operand_kind, later_operand_kind, operands, result_kind, values};
ghost use Rattle.privilege_check.specs.Uses.{held, value, variable};

use crate::checker::Checker;
use crate::declaration::of_kind;
use job_reader::{Atom, JobKind, Op};
use swan_model::{Kind, Mode, Word};

/// The kind of what an operation gives. `set` has any.
fn result_kind(op: Op) -> Option<Kind>
    ensures { result ≡ result_kind op }
{
    match op {
        Op::Set => None,
        Op::Slice | Op::Cat | Op::Text => Some(Kind::Bytes),
        _ => Some(Kind::Int),
    }
}

/// The kind that the first atom of an operation is asked to have, where the variable is of this kind.
fn first_operand_kind(op: Op, variable: Kind) -> Option<Kind>
    ensures { result ≡ first_operand_kind op variable }
{
    match op {
        Op::Set => Some(variable),
        Op::Eq => None,
        Op::Len | Op::At | Op::Slice | Op::Cat | Op::Find | Op::Num => Some(Kind::Bytes),
        _ => Some(Kind::Int),
    }
}

/// The kind that the other atoms are asked to have, where the first is of this kind.
fn later_operand_kind(op: Op, first: Kind) -> Kind
    ensures { result ≡ later_operand_kind op first }
{
    match op {
        Op::Eq => first,
        Op::Cat => Kind::Bytes,
        _ => Kind::Int,
    }
}

impl Checker<'_> {
    /// The kind of a variable. Unknown or Kind comes exactly where the name isn't one of the kind that
    /// is asked. `O(log names)`.
    pub fn variable(&self, asked: Option<Kind>, name: &Word) -> Result<Kind, JobKind>
        ensures { result ≡ variable (known (before_of self.now)) asked name.now }
    {
        match self.declaration(name) {
            None => Err(JobKind::Unknown),
            Some(declaration) => declaration.as_variable(asked),
        }
    }

    /// The kind of an object or a queue that is used by a mode. Unknown, Kind or Privilege comes exactly
    /// where the name isn't one of the kind that is asked or may not be used so. `O(log names)`.
    pub fn held(&self, asked: Option<Kind>, mode: Mode, name: &Word) -> Result<Kind, JobKind>
        ensures { result ≡ held (known (before_of self.now)) asked mode name.now }
    {
        match self.declaration(name) {
            None => Err(JobKind::Unknown),
            Some(declaration) => declaration.as_held(asked, mode),
        }
    }

    /// The kind of an atom. Unknown or Kind comes exactly where it isn't of the kind that is asked.
    /// `O(log names)`.
    pub fn value(&self, asked: Option<Kind>, atom: &Atom) -> Result<Kind, JobKind>
        ensures { result ≡ value (known (before_of self.now)) asked atom.now }
    {
        match atom {
            Atom::Int(_) => of_kind(asked, Kind::Int),
            Atom::Bytes(_) => of_kind(asked, Kind::Bytes),
            Atom::Name(name) => self.variable(asked, name),
        }
    }

    /// Whether atoms are all of a kind. `O(atoms · log names)`.
    fn values(&self, kind: Kind, atoms: &[Atom]) -> Result<(), JobKind>
        ensures { result ≡ values (known (before_of self.now)) kind atoms.now }
    {
        for atom in atoms {
            self.value(Some(kind), atom)?;
        }
        Ok(())
    }

    /// Whether atoms are of the kinds that an operation takes, where its variable is of this kind.
    fn operands(&self, op: Op, variable: Kind, atoms: &[Atom]) -> Result<(), JobKind>
        ensures { result ≡ operands (known (before_of self.now)) op variable atoms.now }
    {
        let Some((first, others)) = atoms.split_first() else {
            return Ok(());
        };
        let kind = self.value(first_operand_kind(op, variable), first)?;
        self.values(later_operand_kind(op, kind), others)
    }

    /// An assignment: the variable, and then the atoms. `O(atoms · log names)`.
    pub fn check_assignment(&self, variable: &Word, op: Op, atoms: &[Atom]) -> Result<(), JobKind>
        ensures { result ≡ check_assignment (known (before_of self.now)) variable.now op atoms.now }
    {
        let kind = self.variable(result_kind(op), variable)?;
        self.operands(op, kind, atoms)
    }
}
