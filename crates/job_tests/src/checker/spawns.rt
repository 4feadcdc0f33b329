// Each place of a spawn: its fuel, its task, the number of its arguments, and the arguments.
use super::*;

/// The fuel, and then the task. `main` stands further down, so that it isn't known yet.
const FUEL_AND_TASK: &str = "\
accepted spawn 1 nothing
accepted spawn -1 nothing
accepted spawn var_int nothing
Unknown spawn z nothing
Kind spawn \"a\" nothing
Kind spawn var_bytes nothing
Kind spawn in_int nothing
Kind spawn queue_int nothing
Unknown spawn 1 z
Unknown spawn 1 var_int
Unknown spawn 1 queue_int
Unknown spawn 1 main";

/// Too many arguments, and too few.
const ARITY: &str = "\
Arity spawn 1 nothing 1
Arity spawn 1 nothing z
Arity spawn 1 number
Arity spawn 1 number 1 1
Arity spawn 1 reader
Arity spawn 1 reader in_int in_int
Arity spawn 1 several 1 in_int push_int pop_int
accepted spawn 1 several 1 in_int push_int pop_int \"a\"
Arity spawn 1 several 1 in_int push_int pop_int \"a\" 1
Arity spawn 1 holder
accepted spawn 1 holder 1 in_int out_int inout_int push_int pop_int pushpop_int in_bytes out_bytes push_bytes pop_bytes";

/// What a `param` line takes.
const VALUES: &str = "\
accepted spawn 1 number 1
accepted spawn 1 number param_int
Unknown spawn 1 number z
Kind spawn 1 number \"a\"
Kind spawn 1 number var_bytes
Kind spawn 1 number object_int
Kind spawn 1 number queue_int
accepted spawn 1 record \"a\"
accepted spawn 1 record var_bytes
Unknown spawn 1 record z
Kind spawn 1 record 1
Kind spawn 1 record var_int
Kind spawn 1 record object_bytes
Kind spawn 1 record queue_bytes";

/// What `in`, `out` and `inout` take.
const OBJECTS: &str = "\
accepted spawn 1 reader in_int
Privilege spawn 1 reader out_int
accepted spawn 1 reader inout_int
accepted spawn 1 reader object_int
Unknown spawn 1 reader z
Kind spawn 1 reader 1
Kind spawn 1 reader \"a\"
Kind spawn 1 reader var_int
Kind spawn 1 reader pop_int
Kind spawn 1 reader queue_int
Kind spawn 1 reader in_bytes
Privilege spawn 1 writer in_int
accepted spawn 1 writer out_int
accepted spawn 1 writer inout_int
accepted spawn 1 writer object_int
Unknown spawn 1 writer z
Kind spawn 1 writer 1
Kind spawn 1 writer var_int
Kind spawn 1 writer push_int
Kind spawn 1 writer out_bytes
Privilege spawn 1 owner in_int
Privilege spawn 1 owner out_int
accepted spawn 1 owner inout_int
accepted spawn 1 owner object_int
Unknown spawn 1 owner z
Kind spawn 1 owner 1
Kind spawn 1 owner var_int
Kind spawn 1 owner pushpop_int
Kind spawn 1 owner object_bytes
Privilege spawn 1 note in_bytes
Privilege spawn 1 note out_bytes
accepted spawn 1 note object_bytes
Kind spawn 1 note \"a\"
Kind spawn 1 note var_bytes
Kind spawn 1 note queue_bytes
Kind spawn 1 note inout_int";

/// What `push`, `pop` and `pushpop` take.
const QUEUES: &str = "\
accepted spawn 1 pusher push_int
Privilege spawn 1 pusher pop_int
accepted spawn 1 pusher pushpop_int
accepted spawn 1 pusher queue_int
Unknown spawn 1 pusher z
Kind spawn 1 pusher 1
Kind spawn 1 pusher \"a\"
Kind spawn 1 pusher var_int
Kind spawn 1 pusher out_int
Kind spawn 1 pusher object_int
Kind spawn 1 pusher push_bytes
Privilege spawn 1 popper push_int
accepted spawn 1 popper pop_int
accepted spawn 1 popper pushpop_int
accepted spawn 1 popper queue_int
Unknown spawn 1 popper z
Kind spawn 1 popper 1
Kind spawn 1 popper var_int
Kind spawn 1 popper in_int
Kind spawn 1 popper pop_bytes
Privilege spawn 1 both push_int
Privilege spawn 1 both pop_int
accepted spawn 1 both pushpop_int
accepted spawn 1 both queue_int
Unknown spawn 1 both z
Kind spawn 1 both 1
Kind spawn 1 both var_int
Kind spawn 1 both inout_int
Kind spawn 1 both queue_bytes
Privilege spawn 1 page push_bytes
Privilege spawn 1 page pop_bytes
accepted spawn 1 page queue_bytes
Kind spawn 1 page \"a\"
Kind spawn 1 page var_bytes
Kind spawn 1 page object_bytes
Kind spawn 1 page pushpop_int";

#[test]
fn the_fuel_is_a_number_and_the_task_stands_above(rt: HostRuntime) {
    hold_statements(&rt, rt.alloc(), FUEL_AND_TASK);
}

#[test]
fn a_task_is_given_as_many_as_it_takes(rt: HostRuntime) {
    hold_statements(&rt, rt.alloc(), ARITY);
}

#[test]
fn a_param_takes_an_atom_of_its_kind(rt: HostRuntime) {
    hold_statements(&rt, rt.alloc(), VALUES);
}

#[test]
fn an_object_is_given_with_no_more_than_its_holder_may(rt: HostRuntime) {
    hold_statements(&rt, rt.alloc(), OBJECTS);
}

#[test]
fn a_queue_is_given_with_no_more_than_its_holder_may(rt: HostRuntime) {
    hold_statements(&rt, rt.alloc(), QUEUES);
}
