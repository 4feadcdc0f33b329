//! Tests of the top call (crate `swan_top`), and of what runs its plans (crate `swan_runtime`), over jobs in the language of
//! jobs. Each expected text was worked out by hand from what the commands are to do.
//!
//! - Rows of words with what they write: commands, runs and elisions of known jobs, indexes and conversions, the generated
//!   job, failing reads and writes, and limits. All rows go through one call, so a row costs nothing to prove.
//! - Which way a command goes, calls over files and sinks that never fail, and two workers that go on with two tasks at once.
//! - Scripts of known jobs, and runs of them by workers and rings of several numbers.
#![tactic(auto)]

#[cfg(test)]
mod generated;
#[cfg(test)]
mod helpers;
#[cfg(test)]
mod honest;
#[cfg(test)]
mod jobs;
#[cfg(test)]
mod limits;
#[cfg(test)]
mod pipelines;
#[cfg(test)]
mod rows;
#[cfg(test)]
mod scripts;
#[cfg(test)]
mod shapes;
#[cfg(test)]
mod together;
#[cfg(test)]
mod ways;
