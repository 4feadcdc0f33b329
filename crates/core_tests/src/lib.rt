//! Tests of the core (crates `task_frames` and `swan_runtime`): small plans, of which the frames are tried by hand in
//! several orders, in orders by chance, and from a stack.
//!
//! A plan is a table of tasks, each a list of asks in words. A test by hand is a table of turns: which frame is tried
//! next, and what it comes to. Each turn goes through one function, so a table costs nothing to prove. So does each call of a frame that takes
//! steps by itself. The same plans are run by 1, 2, 3, 4 and 64 workers in threads, one of them by 256, and some by one or two
//! workers whose turns a table says. What is left was worked out by hand from what each ask is to do, and is compared with the
//! elision of the same plan too.
//!
//! Where a core may end in several places, it is given up by `drop`, which is a call: what ends with its block is checked part by part in each
//! place where it may end, which costs the check more.
#![tactic(auto)]

#[cfg(test)]
mod caught_tests;
#[cfg(test)]
mod hands;
#[cfg(test)]
mod local_steps;
#[cfg(test)]
mod meeting;
#[cfg(test)]
mod noting;
#[cfg(test)]
mod order_tests;
#[cfg(test)]
mod orders;
#[cfg(test)]
mod plans;
#[cfg(test)]
mod runs;
#[cfg(test)]
mod stale;
#[cfg(test)]
mod tables;
#[cfg(test)]
mod tests;
#[cfg(test)]
mod turn;
#[cfg(test)]
mod turns;
#[cfg(test)]
mod worker_tests;
