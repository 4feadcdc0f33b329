//! A generated workload, by which runs can be measured: a job, and an input for it of as many lines as are asked for.
//!
//! The input has a number below 1000 on each line. The job reads it in blocks of 100 lines, gives each block to a task
//! that pushes its numbers, and sums them all in one last task, which writes the sum and the count.
//!
//! Promised, and proved: `bulk_job` and `bulk_input` answer exactly the texts of `specs/Bulk.antt`, and by the law
//! `a_bulk_job_is_never_refused` the job is read, checked and planned over its input without a refusal. The one
//! answer that is free is want of memory.
#![tactic(auto)]

mod laws;
mod texts;

pub use laws::{a_bulk_job_is_never_refused, limit_of_bulk};
pub use texts::{BULK_MOST, bulk_fuel, bulk_input, bulk_job};
