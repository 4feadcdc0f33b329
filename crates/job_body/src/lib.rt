//! Steps of a job: its body, its plan and its names.
//!
//! A checked job is a program of tasks. Its plan begins with the task `main`, over a queue for each
//! input and output and an object for each object of the top level, and an activation takes one step
//! for each executed line.
//!
//! What a step means is a definition over the lines of the job, in `specs/`: it speaks of lines, names
//! and values. Its files come first in `specs/Lib.antt`, and are meant to be read in that order without
//! any code beside them. By the files after them the code alone is stated.
//! When the plan is made, the lines become instructions, which know the places of their variables,
//! objects and queues and the lines at which they go on. So a step costs the same in a long job as in a
//! short one. An instruction is work of the task's own, or a demand on the run. Work is done in rows, in which
//! the activation stays where it is, and numbers are taken from where they stand.
//!
//! A checked job keeps to the rights of its tasks: in the elision of its plan no fault is one of rights.
//! `plan_of` says so of each plan, and the law `rights_are_kept` of each job that has no fault.
//!
//! Each call answers exactly what its clauses say; the one answer that is free everywhere is want of
//! memory.
#![tactic(auto)]

mod answer;
mod assignment;
mod block;
mod body;
mod compile;
mod exit;
mod exits;
mod instruction;
mod laws;
mod lines;
mod local;
mod name_table;
mod names;
mod operation;
mod plan;
mod roots;
mod run;
mod scope;
mod slot;
mod source;
mod take;
mod task_index;
mod tasks;

pub use answer::PlanAnswer;
pub use body::JobBody;
pub use laws::rights_are_kept;
pub use local::JobLocal;
pub use names::names_of;
pub use plan::plan_of;
