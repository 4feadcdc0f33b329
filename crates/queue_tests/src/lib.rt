//! Tests of hyperqueues: tables of calls with the answers that each form of them has to give.
//!
//! A table is a list of `Step`s, each a call and its answer, worked out by hand. `run` makes the calls on new
//! hyperqueues of the free name, whatever their form, and fails at the first answer that is another one. That each
//! call may be made there is computed from the table alone: what calls ask for, and what they make of the state,
//! doesn't depend on the form. So each form is tried by the same tables, and a test costs little to prove, however long
//! its table is.
#![tactic(auto)]

#[cfg(test)]
mod calls;
#[cfg(test)]
mod ends;
#[cfg(test)]
mod harness;
#[cfg(test)]
mod many;
mod step;
#[cfg(test)]
mod tables;
#[cfg(test)]
mod tests;
#[cfg(test)]
mod wrong;

#[cfg(test)]
pub use ends::{finds_by_ends, lend_two};
#[cfg(test)]
pub use harness::run;
#[cfg(test)]
pub use many::push_many;
pub use step::{Step, Use};
#[cfg(test)]
pub use tables::{
    CHILD_QUEUE_ENDS, FIRST_ITEMS, GRANDCHILD, POP_TURNS, PUSHER_BETWEEN_POPPERS, TWO_CHILDREN,
    TWO_PUSHERS,
};
#[cfg(test)]
pub use wrong::{Wrong, WrongStep};
