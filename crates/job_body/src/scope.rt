// What is known in tasks.
ghost use Rattle.std.specs.Prelude.{◌≡◌, ◌+◌, ◌<◌, ◌≤◌, ℕ, IfOk, IfSome};
ghost use Rattle.job_body.specs.Names.{joined_slot};

use crate::block::{BlockWithLine, close};
use crate::instruction::Operand;
use crate::name_table::{NAMES_MOST, NameTable};
use job_reader::{Atom, Line};
use privilege_check::is_main;
use std::alloc::Global;
use swan_model::{NoMemory, Stack, Word};

/// What is known at a line of a task, by the lines before it.
#[derive(Drop)]
pub struct Scope {
    /// The names of the root queues and then of the root objects.
    pub roots: NameTable,
    /// Whether the task is `main`.
    pub is_main: bool,
    /// The names of its `param` lines.
    pub params: NameTable,
    /// The names of its `var` lines.
    pub vars: NameTable,
    /// The names of its access lines.
    pub accesses: NameTable,
    /// The names of the queues and objects that it makes.
    pub made: NameTable,
    /// The open blocks.
    pub blocks: Stack<BlockWithLine>,
}

// The place in two lists of names, one after the other, by the place in each and the number of names in
// the first.
fn joined(first: Option<u32>, count: u32, second: Option<u32>) -> Option<u32>
    requires { IfSome second (λ place. count + place ≤ u32.MAX) }
    ensures place { result ≡ joined_slot first count second }
    ensures few { (most : ℕ) → IfSome first (λ place. place < most) → IfSome second (λ place. count + place < most) → IfSome result (λ place. place < most) }
{
    match (first, second) {
        (Some(place), _) => Some(place),
        (None, Some(place)) => Some(count + place),
        (None, None) => None,
    }
}

impl Scope {
    ghost use Rattle.std.specs.Prelude.{◌≡◌, ◌<◌, ◌≤◌, ◌+◌, ◌++◌, length, IfOk, IfSome, OnOk};
    ghost use Rattle.job_body.specs.Compiled.{KnowsFew, scope_past, scope_past_task, operand_of, place_in, atom_place_in, places_in, roots_in, scope_before, slot_in};
    ghost use Rattle.job_body.specs.Names.{slot};
    ghost use Rattle.privilege_check.specs.Names.{is_main};

    /// What is known before the first line. `O(1)`.
    pub fn new(alloc: Global, roots: NameTable) -> Scope
        ensures { result ≡ scope_before roots }
    {
        Scope {
            roots,
            is_main: false,
            params: NameTable::new(alloc),
            vars: NameTable::new(alloc),
            accesses: NameTable::new(alloc),
            made: NameTable::new(alloc),
            blocks: Stack::new(alloc),
        }
    }

    /// Goes on past the `task` line of a task: of what was known, the roots stay.
    fn enter_task(&mut self, alloc: Global, name: &Word)
        ensures { self.new ≡ scope_past_task self.old.roots name.now }
    {
        self.is_main = is_main(name);
        self.params = NameTable::new(alloc);
        self.vars = NameTable::new(alloc);
        self.accesses = NameTable::new(alloc);
        self.made = NameTable::new(alloc);
        self.blocks = Stack::new(alloc);
    }

    /// Goes on past a line with this index. An Err is want of memory, and what is known then tells nothing. `O(log names)`.
    pub fn enter(&mut self, alloc: Global, index: u32, line: &Line) -> Result<(), NoMemory>
        requires few { KnowsFew self.old index }
        requires within { index < NAMES_MOST }
        ensures { OnOk result (self.new ≡ scope_past index self.old line.now) }
    {
        match line {
            Line::Task(name) => self.enter_task(alloc, name),
            Line::Param(name, _) => self.params.add(alloc, name)?,
            Line::Var(name, _) => self.vars.add(alloc, name)?,
            Line::Access(_, name, _) => self.accesses.add(alloc, name)?,
            Line::Queue(name, _) | Line::Object(name, _) => self.made.add(alloc, name)?,
            Line::If(_) => self.blocks.push(BlockWithLine::If)?,
            Line::While(_) => self.blocks.push(BlockWithLine::While(index))?,
            Line::End => close(&mut self.blocks),
            _ => {}
        }
        Ok(())
    }

    /// The slot of a variable, and None where the name isn't known. `O(log names)`.
    #[tactic(auto, using(crate::proofs::NameLemmas::slot_joined))]
    pub fn slot(&self, name: &Word) -> Option<u32>
        ensures { result ≡ slot_in self.now name.now }
    {
        joined(
            self.params.place(name),
            self.params.len(),
            self.vars.place(name),
        )
    }

    /// How many root places there are.
    fn root_count(&self) -> u32
        ensures count { result ≡ length (roots_in self.now) }
        ensures most { result ≤ NAMES_MOST }
    {
        if self.is_main { self.roots.len() } else { 0 }
    }

    /// The root place of a name.
    fn root_place(&self, name: &Word) -> Option<u32>
        ensures { result ≡ slot (roots_in self.now) name.now }
    {
        if self.is_main {
            self.roots.place(name)
        } else {
            None
        }
    }

    /// The place of a name among those that the task takes and makes.
    #[tactic(auto, using(crate::proofs::NameLemmas::slot_joined))]
    fn own_place(&self, name: &Word) -> Option<u32>
        ensures place { result ≡ slot (self.now.accesses ++ self.now.made) name.now }
        ensures few { IfSome result (λ place. place < NAMES_MOST + NAMES_MOST) }
    {
        joined(
            self.accesses.place(name),
            self.accesses.len(),
            self.made.place(name),
        )
    }

    /// The place of an object or a queue among those that are known.
    #[tactic(auto, using(crate::proofs::NameLemmas::slot_joined))]
    fn known_place(&self, name: &Word) -> Option<u32>
        ensures { result ≡ slot (places_in self.now) name.now }
    {
        joined(
            self.root_place(name),
            self.root_count(),
            self.own_place(name),
        )
    }

    /// The number of places, which is the place of what isn't there.
    #[tactic(auto, using(crate::proofs::NameLemmas::length_places))]
    fn no_place(&self) -> u32
        ensures { result ≡ length (places_in self.now) }
    {
        self.root_count() + self.accesses.len() + self.made.len()
    }

    /// The place of an object or a queue; the number of places where the name isn't known.
    /// `O(log names)`.
    pub fn place(&self, name: &Word) -> u32
        ensures { result ≡ place_in self.now name.now }
    {
        match self.known_place(name) {
            Some(place) => place,
            None => self.no_place(),
        }
    }

    /// The place that an atom names. `O(log names)`.
    pub fn place_of(&self, atom: &Atom) -> u32
        ensures { result ≡ atom_place_in self.now atom.now }
    {
        match atom {
            Atom::Name(name) => self.place(name),
            _ => self.no_place(),
        }
    }

    /// An atom as an operand. A record shares its bytes. `O(log names)`.
    pub fn operand(&self, atom: &Atom) -> Result<Operand, NoMemory>
        ensures { IfOk result (λ operand. operand ≡ operand_of self.now atom.now) }
    {
        match atom {
            Atom::Int(number) => Ok(Operand::Int(*number)),
            Atom::Bytes(record) => Ok(Operand::Bytes(record.copy()?)),
            Atom::Name(name) => match self.slot(name) {
                Some(slot) => Ok(Operand::Variable(slot)),
                None => Ok(Operand::Int(0)),
            },
        }
    }
}
