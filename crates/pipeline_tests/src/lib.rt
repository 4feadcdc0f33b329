//! Tests of pipelines (crates `index_pipeline`, `record_pipeline`, `swan_reducers`) from outside, as tables: all rows of a
//! table go through one function, so a row costs little to prove.
//!
//! - Step by step: what their tasks ask for where they are told what they haven't asked for. A row is what a plan's root is
//!   told, and what its last child is told, in words.
//! - Refusals of texts past the limits of lines, by each pipeline.
//! - Indexes, conversions and folds of whole texts, against answers worked out by hand. Some texts are hard on what the tasks
//!   keep: words that begin alike, and records that fill a buffer.
#![tactic(auto)]

#[cfg(test)]
mod asks;
#[cfg(test)]
mod fold_tests;
#[cfg(test)]
mod index_tests;
#[cfg(test)]
mod plans;
#[cfg(test)]
mod record_tests;
#[cfg(test)]
mod refusal_tests;
#[cfg(test)]
mod tests;
#[cfg(test)]
mod texts;
