//! Tasks that run whole: the elision told from tasks, and not from steps.
//!
//! A task that is on top of the elision's stack runs with all that it spawns, until it has ended and what stood
//! below it is on top again. `specs/Whole.antt` says what it leaves, by the values of objects and the items of
//! queues alone: no count of steps shows in it, and nobody's name. So the run of a task is told from those of its
//! children, and a whole plan from its root. What stood below a task stays, but that its parent has one more failed
//! child where the task ended by a fault; so a parent goes on with whatever number of failed children.
//!
//! Promised, and proved of each plan and each body: where the root runs whole, what it leaves is the outcome of
//! the plan, by the law `a_whole_run_is_the_outcome`.
//!
//! The lemmas in `proofs/` are for the proofs of pipelines: `WholeSteps` has a rule for each ask, `Pushers` the
//! run of a task that pushes a list, `BlockReaders` that of a task that reads a queue to its end, and `Blocks` that
//! of a task that reads it in blocks and gives each to a child. `CollectedParts` has the queues of a plan in which what
//! the blocks push is collected.
#![tactic(auto)]

mod laws;

pub use laws::a_whole_run_is_the_outcome;
