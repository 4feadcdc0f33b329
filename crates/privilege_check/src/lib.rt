//! The check of a job's names, kinds and rights.
//!
//! A job's text says line by line what it declares and what it does. This crate refuses a job in which
//! a name isn't known, is declared twice, stands in a place for another sort or kind, or is used without
//! the right to it, and a spawn that gives a task other things than it takes. So what passes can't meet
//! a fault of rights when it runs, and who wrote a job that doesn't pass is told the line and what is
//! wrong with it before anything runs.
//!
//! What is wrong with a line is a function of the lines before it, in `specs/`, which is meant to be
//! read in the order of `specs/Lib.antt` up to the first fault of a job. `check` answers exactly that
//! fault, or hands the same job back as a `CheckedJob`, whose type keeps that there is none. The one
//! answer that is free is want of memory.
//!
//! Whether a job reads its own data rightly isn't asked: it may pop from an empty queue, divide by
//! zero or run out of fuel.
//!
//! Names are found in maps: a job with n names and values is checked in `O(n log n)`.
#![tactic(auto)]

mod checked;
mod checker;
mod declaration;
mod lent;
mod line;
mod operation;
mod refusal;
mod spawn;

pub use checked::{CheckJob, CheckedJob, check};
pub use checker::is_main;
