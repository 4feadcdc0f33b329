//! Tests of the bodies of jobs (crate `job_body`): small jobs, and what their tasks do; and of the texts of generated
//! workloads (crate `bulk_workload`).
//!
//! A row of a table has statements and what is told of them, which was worked out by hand. All rows of a table go through
//! one function, so a row costs nothing to prove.
#![tactic(auto)]

#[cfg(test)]
mod asserts;
#[cfg(test)]
mod bulk;
#[cfg(test)]
mod caught;
#[cfg(test)]
mod growth;
#[cfg(test)]
mod jobs;
#[cfg(test)]
mod left;
#[cfg(test)]
mod lines;
#[cfg(test)]
mod operations;
#[cfg(test)]
mod outcomes;
#[cfg(test)]
mod plans;
#[cfg(test)]
mod rows;
