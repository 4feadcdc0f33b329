//! Tests of renamed objects (crate `object_versions`), as tables.
//!
//! A test is a list of steps, each a call with the answer that it has to have. `run` takes them one after
//! the other and stops at the first that answers otherwise. What each call asks of the objects before it is
//! computed from the table alone (definition `allows_steps`), so a table that breaks it is refused by the
//! check, however long it is.
#![tactic(auto)]

#[cfg(test)]
mod harness;
mod step;
#[cfg(test)]
mod tests;

#[cfg(test)]
pub use harness::run;
pub use step::Step;
