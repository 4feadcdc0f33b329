// Each name and atom of each statement but assignments and spawns.
use super::*;

/// `read v o`: v, its sort, then o, its sort, its kind, and its right.
const READ: &str = "\
accepted read var_int in_int
accepted read param_int inout_int
accepted read var_int object_int
accepted read var_bytes in_bytes
accepted read var_bytes object_bytes
Unknown read z in_int
Kind read in_int in_int
Kind read push_int in_int
Unknown read var_int z
Kind read var_int var_int
Kind read var_int pop_int
Kind read var_int in_bytes
Kind read var_bytes in_int
Privilege read var_int out_int
Privilege read var_bytes out_bytes";

/// `write o a`: o, its sort and its right, then a, its sort and its kind.
const WRITE: &str = "\
accepted write out_int 1
accepted write inout_int var_int
accepted write object_int param_int
accepted write out_bytes \"a\"
accepted write object_bytes var_bytes
Unknown write z 1
Kind write var_int 1
Kind write push_int 1
Privilege write in_int 1
Privilege write in_bytes \"a\"
Unknown write out_int z
Kind write out_int out_int
Kind write out_int push_int
Kind write out_int \"a\"
Kind write out_int var_bytes
Kind write out_bytes 1
Kind write out_bytes var_int";

/// `push q a`: q, its sort and its right, then a, its sort and its kind.
const PUSH: &str = "\
accepted push push_int 1
accepted push pushpop_int var_int
accepted push queue_int param_int
accepted push push_bytes \"a\"
accepted push queue_bytes var_bytes
Unknown push z 1
Kind push var_int 1
Kind push out_int 1
Privilege push pop_int 1
Privilege push pop_bytes \"a\"
Unknown push push_int z
Kind push push_int in_int
Kind push push_int push_int
Kind push push_int \"a\"
Kind push push_int var_bytes
Kind push push_bytes 1
Kind push push_bytes var_int";

/// `pop v q`: v, its sort, then q, its sort, its kind, and its right.
const POP: &str = "\
accepted pop var_int pop_int
accepted pop param_int pushpop_int
accepted pop var_int queue_int
accepted pop var_bytes pop_bytes
accepted pop var_bytes queue_bytes
Unknown pop z pop_int
Kind pop in_int pop_int
Kind pop pop_int pop_int
Unknown pop var_int z
Kind pop var_int var_int
Kind pop var_int in_int
Kind pop var_int pop_bytes
Kind pop var_bytes pop_int
Privilege pop var_int push_int
Privilege pop var_bytes push_bytes";

/// `empty v q`: v, its sort and its kind, then q, of either kind, its sort and its right.
const EMPTY: &str = "\
accepted empty var_int pop_int
accepted empty param_int pop_bytes
accepted empty var_int pushpop_int
accepted empty var_int queue_bytes
Unknown empty z pop_int
Kind empty in_int pop_int
Kind empty pop_int pop_int
Kind empty var_bytes pop_int
Kind empty var_bytes pop_bytes
Unknown empty var_int z
Kind empty var_int var_int
Kind empty var_int in_int
Privilege empty var_int push_int
Privilege empty var_int push_bytes";

/// `sync`, `fuel v`, `fail a`, `if a` and `while a`.
const NUMBERS: &str = "\
accepted sync
accepted fuel var_int
accepted fuel param_int
Unknown fuel z
Kind fuel in_int
Kind fuel pop_int
Kind fuel var_bytes
accepted fail 1
accepted fail var_int
Unknown fail z
Kind fail in_int
Kind fail pop_int
Kind fail var_bytes
Kind fail \"a\"
accepted if 0/else/end
accepted if param_int/end
Unknown if z/end
Kind if in_int/end
Kind if pop_int/end
Kind if var_bytes/end
Kind if \"a\"/end
accepted while 0/end
accepted while var_int/end
Unknown while z/end
Kind while in_int/end
Kind while pop_int/end
Kind while var_bytes/end
Kind while \"a\"/end";

#[test]
fn a_read_takes_a_variable_and_an_object_that_may_be_read(rt: HostRuntime) {
    hold_statements(&rt, rt.alloc(), READ);
}

#[test]
fn a_write_takes_an_object_that_may_be_written_and_an_atom(rt: HostRuntime) {
    hold_statements(&rt, rt.alloc(), WRITE);
}

#[test]
fn a_push_takes_a_queue_that_may_be_pushed_to_and_an_atom(rt: HostRuntime) {
    hold_statements(&rt, rt.alloc(), PUSH);
}

#[test]
fn a_pop_takes_a_variable_and_a_queue_that_may_be_popped(rt: HostRuntime) {
    hold_statements(&rt, rt.alloc(), POP);
}

#[test]
fn an_emptiness_test_takes_a_number_and_a_queue_that_may_be_popped(rt: HostRuntime) {
    hold_statements(&rt, rt.alloc(), EMPTY);
}

#[test]
fn fuel_fail_if_and_while_take_a_number(rt: HostRuntime) {
    hold_statements(&rt, rt.alloc(), NUMBERS);
}
