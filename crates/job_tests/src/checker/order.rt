// Which of several faults is named.
use super::*;

/// Statements with two faults: the first from left to right is named, and of one name the first of
/// Unknown, Kind and Privilege. A spawn has its arity after its task, and Alias last.
const TWO_IN_A_LINE: &str = "\
Unknown read z y
Kind read in_int z
Kind read var_bytes out_int
Unknown read z out_int
Privilege read var_int out_int
Unknown write z y
Kind write var_int z
Privilege write in_int z
Privilege write in_int \"a\"
Privilege push pop_int \"a\"
Unknown push z y
Unknown pop z push_int
Kind pop queue_int push_int
Kind pop var_bytes push_int
Unknown empty z push_int
Kind empty var_bytes push_int
Kind empty var_bytes z
Kind var_bytes = add z \"a\"
Unknown z = add \"a\" 1
Kind var_int = add \"a\" z
Unknown var_int = add z \"a\"
Unknown var_int = eq z y
Kind var_int = eq queue_int z
Kind in_int = set z
Kind spawn \"a\" z
Kind spawn \"a\" number z
Unknown spawn z main
Unknown spawn z number
Unknown spawn 1 z y
Arity spawn 1 number z \"a\"
Arity spawn 1 reader
Unknown spawn 1 several z out_int push_int pop_int \"a\"
Kind spawn 1 several \"a\" z push_int pop_int 1
Privilege spawn 1 several 1 out_int z pop_int \"a\"
Kind spawn 1 several 1 out_bytes pop_int push_int \"a\"
Privilege spawn 1 several 1 in_int pop_int push_int 1
Unknown spawn 1 several 1 in_int push_int z 1
Kind spawn 1 several 1 in_int queue_int queue_int 1
Unknown spawn 1 several 1 in_int queue_int queue_int z
Alias spawn 1 several 1 in_int queue_int queue_int \"a\"
Privilege spawn 1 several 1 in_int pop_int pop_int \"a\"
Kind spawn 1 several 1 in_int in_int pop_int \"a\"";

/// Jobs with several faulty lines, after the line `swan 1`: the first line is named, and a line that
/// the text can't have goes before them all.
const TWO_LINES: &str = "\
3.Duplicate input a/input a/task t/do/push q 1/end
4.Unknown task t/do/push q 1/fail \"a\"/end
4.Kind task t/do/fail \"a\"/push q 1/end
3.MainParams task main/param a int/param a int/do/end
4.Duplicate task main/var a int/param a int/do/end
4.Unknown task t/do/push q 1/end/task t/do/end
7.Unknown task t/do/end/task t2/do/push q 1/end
4.BadLine task t/do/sync z/end
7.BadLine task t/do/push q 1/end/task u/frob/do/end
5.BadName task t/do/push q 1/fuel A/end
4.Unbalanced task t/do/push q 1";

#[test]
fn the_first_fault_of_a_line_is_named(rt: HostRuntime) {
    hold_statements(&rt, rt.alloc(), TWO_IN_A_LINE);
}

#[test]
fn the_first_faulty_line_is_named_and_the_text_goes_first(rt: HostRuntime) {
    hold_texts(&rt, rt.alloc(), TWO_LINES);
}
