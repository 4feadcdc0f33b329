//! Tests of the reader and of the checker of jobs (crates `job_reader` and `privilege_check`): tables in which each
//! row is a text and what is wrong with it, and texts that are written back. The first job and its fronts serve the
//! tests of other crates too.
#![tactic(auto)]

#[cfg(test)]
mod checker;
#[cfg(test)]
mod example_texts;
mod fronts;
#[cfg(test)]
mod reader;
#[cfg(test)]
mod texts;

pub use fronts::{FIRST_JOB, REFUSED_FRONTS};
