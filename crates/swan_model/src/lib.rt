//! The values, bodies and plans of a run, and what a run means.
//!
//! A program is a tree of tasks over objects and hyperqueues. Its meaning is its serial elision, in
//! which each spawn is an ordinary call. This crate has the types that every other crate speaks of,
//! and in `specs/` the definitions that a reader must believe, on two shelves. The first has what the
//! headline speaks of: values, rights, what a plan begins with, the serial state, the serial step, the
//! elision, the texts that are printed of its outcome, and the lines of a text. The second is for runs out
//! of order: scripts and what they tell, serial time, rights counted from a script, how tasks lie in each
//! other, ripe items, lawful scripts, readings, what renamed objects and hyperqueues keep of such a run,
//! what a segment owes, and true frames.
//! They are meant to be read in the order of `specs/Lib.antt`, with no code beside them but the types here. `RunName`
//! is a name that means a script.
//!
//! The crate runs nothing. Each of its calls is proved to answer exactly what its clauses say; the
//! one answer that is free everywhere is want of memory.
#![tactic(auto)]

mod body;
mod fault;
mod limits;
mod lines;
mod listed;
mod meaning;
mod memory;
mod origin;
mod outcome;
mod path;
mod plan;
mod record;
mod rights;
mod run_name;
mod script;
mod stack;
mod text;
mod value;

pub use body::{Answer, Ask, Body, Child, Stop, Worked};
pub use fault::{Fault, FaultKind, Faults, Trouble};
pub use limits::limits_of_values_and_plans;
pub use lines::{LINES_MOST, LinesAnswer, first_line_len, lines_of};
pub use listed::Listed;
pub use meaning::{Meaning, Means};
pub use memory::NoMemory;
pub use origin::Origin;
pub use outcome::{Names, Outcome, QueueName, QueueNames, Shown};
pub use path::{PATH_MOST, Path};
pub use plan::{
    FIRST_ITEMS_MOST, FUEL_MOST, Plan, PlanFuel, ROOTS_MOST, RootQueue, RootQueues, Roots,
};
pub use record::{RECORD_MOST, Record, RecordAnswer};
pub use rights::{GIVES_MOST, Give, Gives, Mode};
pub use run_name::RunName;
pub use script::{Deed, Entries, Entry, OriginGive, OriginGives, Script};
pub use stack::Stack;
pub use text::{Blob, Word, Words};
pub use value::{Kind, Value, ValueLists, Values};
