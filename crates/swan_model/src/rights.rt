// How a task may use an object or a queue, and what it gives to a child.
ghost use Rattle.std.specs.Prelude.{◌≡◌, ◌<◌, ◌≤◌, ◌++◌, ◌∷◌, [], length, OnOk, OnErr, IfOk, IfErr, slice_get};
ghost use Rattle.std.specs.Option.{option_copied};
ghost use Rattle.swan_model.specs.Rights.{allows, is_queue_mode};

use crate::{Listed, NoMemory};
use std::alloc::Global;
use std::marker::Model;

/// How a task may use an object (In, Out, InOut) or a queue (Push, Pop, PushPop).
#[derive(Clone, Copy, Debug, PartialEq, Eq)]
pub enum Mode {
    /// Read an object.
    In,
    /// Write an object.
    Out,
    /// Read and write an object.
    InOut,
    /// Push to a queue.
    Push,
    /// Pop from a queue, and test whether it is empty.
    Pop,
    /// Push to a queue, pop from it, and test whether it is empty.
    PushPop,
}

impl Mode {
    /// Whether who holds an object or a queue by this mode may use it by the other. `O(1)`.
    #[inline]
    pub fn allows(self, other: Mode) -> bool
        ensures { result ≡ allows self other }
    {
        match (self, other) {
            (Mode::In, Mode::In) | (Mode::Out, Mode::Out) => true,
            (Mode::InOut, Mode::In | Mode::Out | Mode::InOut) => true,
            (Mode::Push, Mode::Push) | (Mode::Pop, Mode::Pop) => true,
            (Mode::PushPop, Mode::Push | Mode::Pop | Mode::PushPop) => true,
            _ => false,
        }
    }

    /// Whether it is a mode of queues. `O(1)`.
    #[inline]
    pub fn is_of_queues(self) -> bool
        ensures { result ≡ is_queue_mode self }
    {
        matches!(self, Mode::Push | Mode::Pop | Mode::PushPop)
    }
}

/// The largest number of gives of one spawn.
pub const GIVES_MOST: usize = 1_000_000;

/// What a parent gives to a child: the object or queue at one of the parent's places, and how the
/// child may use it.
#[derive(Clone, Copy, Debug, PartialEq, Eq)]
pub struct Give {
    /// A place of the parent, from 0 on.
    pub place: u32,
    /// How the child may use what stands there.
    pub mode: Mode,
}

/// At most `GIVES_MOST` gives, in the order of the child's places. Contracts see it as the list.
#[derive(Drop)]
pub struct Gives {
    items: Listed<Give>,
}

impl Model for Gives {
    ghost use Rattle.std.specs.Prelude.{List, ◌≤◌, length};
    ghost use Rattle.swan_model.specs.declared.rights.Give.{Give as TheGive};
    ghost use Rattle.swan_model.specs.declared.rights.TheConstants.{GIVES_MOST};

    ghost Value = { List TheGive };

    ghost view = { λ gives. gives.items };

    ghost invariant = { λ gives. length gives.items ≤ GIVES_MOST };
}

impl Gives {
    /// No gives. It takes no memory. `O(1)`.
    pub fn new(alloc: Global) -> Gives
        ensures { result ≡ [] }
    {
        Gives {
            items: Listed::new(alloc),
        }
    }

    /// How many gives there are. `O(1)`.
    pub fn len(&self) -> usize
        ensures len { result ≡ length self.now }
        ensures most { length self.now ≤ GIVES_MOST }
    {
        self.items.len()
    }

    /// The give at an index from 0 on, and None exactly past the end. `O(1)`.
    pub fn get(&self, index: usize) -> Option<&Give>
        ensures { option_copied result ≡ slice_get self.now index }
    {
        self.items.get(index)
    }

    /// Adds a give at the end. `O(1)` amortised. An Err is want of memory: it hands the give back
    /// and leaves the list as it was.
    pub fn push(&mut self, give: Give) -> Result<(), Give>
        requires { length self.old < GIVES_MOST }
        ensures ok { OnOk result (self.new ≡ self.old ++ give ∷ []) }
        ensures err { OnErr result (self.new ≡ self.old) }
        ensures handed_back { IfErr result (λ back. back ≡ give) }
    {
        self.items.push(give)
    }

    /// The same gives once more. `O(length)`, and one allocation at most.
    pub fn copy(&self, alloc: Global) -> Result<Gives, NoMemory>
        ensures { IfOk result (λ gives. gives ≡ self.now) }
    {
        let items = Vec::from_slice(alloc, self.items.as_slice())?;
        Ok(Gives {
            items: Listed::from_vec(items),
        })
    }

    /// The gives in order, to go over. `O(1)`.
    pub fn as_slice(&self) -> &[Give]
        ensures { result.now ≡ self.now }
    {
        self.items.as_slice()
    }

    /// The gives as a vector, without a copy. `O(1)`.
    pub fn into_vec(self) -> Vec<Give>
        ensures { result.items ≡ self }
    {
        self.items.into_vec()
    }
}
