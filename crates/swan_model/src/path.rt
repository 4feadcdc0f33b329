// Paths of tasks.
ghost use Rattle.std.specs.Prelude.{◌≡◌, ◌<◌, ◌≤◌, ◌++◌, ◌∷◌, [], length, IfOk};

use crate::NoMemory;
use std::alloc::Global;
use std::marker::Model;

/// The largest number of parts of a path.
pub const PATH_MOST: usize = 64;

/// Where a task stands in the tree of tasks: for each step down from the root, how many older
/// siblings the task there has. Contracts see it as the list of its parts.
#[derive(Drop)]
pub struct Path {
    parts: Vec<u32>,
}

impl Model for Path {
    ghost use Rattle.std.specs.Prelude.{List, ℕ, ◌≤◌, length};
    ghost use Rattle.swan_model.specs.declared.path.TheConstants.{PATH_MOST};

    ghost Value = { List ℕ };

    ghost view = { λ path. path.parts.items };

    ghost invariant = { λ path. length path.parts.items ≤ PATH_MOST };
}

impl Path {
    /// The path of the root, which has no part. It takes no memory. `O(1)`.
    pub fn root(alloc: Global) -> Path
        ensures { result ≡ [] }
    {
        Path {
            parts: Vec::new(alloc),
        }
    }

    /// The parts. It takes no memory. `O(1)`.
    pub fn parts(&self) -> &[u32]
        ensures parts { result.now ≡ self.now }
        ensures most { length self.now ≤ PATH_MOST }
    {
        self.parts.as_slice()
    }

    /// The path of the child that has `number` older siblings. `O(depth)`, one allocation or two.
    pub fn child(&self, number: u32) -> Result<Path, NoMemory>
        requires { length self.now < PATH_MOST }
        ensures { IfOk result (λ path. path ≡ self.now ++ number ∷ []) }
    {
        let mut parts = self.parts.clone()?;
        parts.push(number)?;
        Ok(Path { parts })
    }

    /// The same path once more. `O(depth)`, one allocation.
    pub fn copy(&self) -> Result<Path, NoMemory>
        ensures { IfOk result (λ path. path ≡ self.now) }
    {
        Ok(Path {
            parts: self.parts.clone()?,
        })
    }
}
