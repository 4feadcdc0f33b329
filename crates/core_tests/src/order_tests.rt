// Plans in orders by chance, and from a stack.
use crate::runs::{leave_the_same, stop_where_the_elision_stops};
use crate::tables::PLANS;
use std::test::Fail;

#[test]
fn each_plan_leaves_what_the_elision_leaves_in_any_order(rt: HostRuntime) -> Result<(), Fail> {
    for tasks in &PLANS {
        leave_the_same(rt.alloc(), tasks)?;
    }
    Ok(())
}

/// Of some plans a fault ends tasks before all their asks, and the others are never met.
#[test]
fn want_of_memory_stops_each_plan_where_it_stops_the_elision(rt: HostRuntime) -> Result<(), Fail> {
    for tasks in &PLANS {
        stop_where_the_elision_stops(rt.alloc(), tasks)?;
    }
    Ok(())
}
