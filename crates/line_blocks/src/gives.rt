// Gives of a child.
ghost use Rattle.std.specs.Prelude.{◌≡◌, ◌≤◌, length, IfOk};

use std::alloc::Global;
use swan_model::{GIVES_MOST, Give, Gives, NoMemory};

/// These gives, in order. `O(n)`.
pub fn gives_of(alloc: Global, all: &[Give]) -> Result<Gives, NoMemory>
    requires { length all.now ≤ GIVES_MOST }
    ensures { IfOk result (λ gives. gives ≡ all.now) }
{
    let mut gives = Gives::new(alloc);
    for give in all {
        if gives.push(*give).is_err() {
            return Err(NoMemory);
        }
    }
    Ok(gives)
}
