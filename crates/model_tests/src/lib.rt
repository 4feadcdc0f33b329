//! Tests of the values, lines, plans and names of runs (crate `swan_model`): what no clause says, that each call which takes
//! memory succeeds where there is enough, and that the clauses mean what they should at known values.
#![tactic(auto)]

#[cfg(test)]
mod calls;
#[cfg(test)]
mod names;
