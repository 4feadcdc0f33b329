//! Tests of segments (crate `ring_segments`) with the free name: calls in one thread, as tables with the answers worked
//! out by hand, and the two ends in two threads.
#![tactic(auto)]

#[cfg(test)]
mod calls;
#[cfg(test)]
mod helpers;
#[cfg(test)]
mod tags;
#[cfg(test)]
mod threads;
