//! Tests of the serial elision: lists of asks, and what their elisions leave.
//!
//! A row is a list of asks in words, the fuel, and what is left: the two texts, or the deeds of the script. What is
//! left was worked out by hand from what each ask is to do. All rows go through one function, so a row costs nothing
//! to prove. The lists, their words and their roots serve the tests of other crates too.
#![tactic(auto)]

mod ask_list;
#[cfg(test)]
mod caught_tests;
mod firsts;
#[cfg(test)]
mod rows;
#[cfg(test)]
mod scripts;
#[cfg(test)]
mod tests;
mod words;

pub use ask_list::AskList;
pub use firsts::{printed, roots};
pub use words::ask_of;
