// Each operation with the kinds that it takes, and with another kind in the place of each of them.
use super::*;

/// The variable, the first atom and the second: their names and sorts.
const NAMES: &str = "\
accepted var_int = add param_int var_int
Unknown z = add 1 1
Kind in_int = add 1 1
Kind queue_int = add 1 1
Unknown var_int = add z 1
Kind var_int = add in_int 1
Kind var_int = add queue_int 1
Unknown var_int = add 1 z
Kind var_int = add 1 in_int
Kind var_int = add 1 queue_int
Unknown var_bytes = slice z 0 0
Unknown var_bytes = slice \"\" z 0
Unknown var_bytes = slice \"\" 0 z
Kind var_bytes = slice \"\" 0 object_int
Unknown var_int = set z
Kind var_int = set object_int
Kind var_int = set queue_int";

/// Of numbers alone.
const OF_NUMBERS: &str = "\
Kind var_bytes = add 1 1
Kind var_int = add \"\" 1
Kind var_int = add 1 \"\"
accepted var_int = sub 1 1
Kind var_bytes = sub 1 1
Kind var_int = sub \"\" 1
Kind var_int = sub 1 \"\"
accepted var_int = mul 1 1
Kind var_bytes = mul 1 1
Kind var_int = mul \"\" 1
Kind var_int = mul 1 \"\"
accepted var_int = div 1 0
Kind var_bytes = div 1 1
Kind var_int = div \"\" 1
Kind var_int = div 1 \"\"
accepted var_int = rem 1 1
Kind var_bytes = rem 1 1
Kind var_int = rem \"\" 1
Kind var_int = rem 1 \"\"
accepted var_int = lt 1 1
Kind var_bytes = lt 1 1
Kind var_int = lt \"\" 1
Kind var_int = lt 1 \"\"
accepted var_int = le 1 1
Kind var_bytes = le 1 1
Kind var_int = le \"\" 1
Kind var_int = le 1 \"\"
accepted var_int = and 1 1
Kind var_bytes = and 1 1
Kind var_int = and \"\" 1
Kind var_int = and 1 \"\"
accepted var_int = or 1 1
Kind var_bytes = or 1 1
Kind var_int = or \"\" 1
Kind var_int = or 1 \"\"
accepted var_int = not 1
Kind var_bytes = not 1
Kind var_int = not \"\"";

/// Of either kind, of records, and between both.
const OF_RECORDS: &str = "\
accepted var_int = set 1
accepted var_bytes = set \"\"
Kind var_int = set \"\"
Kind var_bytes = set 1
Kind var_int = set var_bytes
Kind var_bytes = set var_int
accepted var_int = eq 1 var_int
accepted var_int = eq \"\" var_bytes
Kind var_bytes = eq 1 1
Kind var_bytes = eq \"\" \"\"
Kind var_int = eq 1 \"\"
Kind var_int = eq var_bytes 1
accepted var_int = len \"\"
Kind var_bytes = len \"\"
Kind var_int = len 1
accepted var_int = at \"\" 0
Kind var_bytes = at \"\" 0
Kind var_int = at 1 0
Kind var_int = at \"\" \"\"
accepted var_bytes = slice \"\" 0 0
Kind var_int = slice \"\" 0 0
Kind var_bytes = slice 1 0 0
Kind var_bytes = slice \"\" \"\" 0
Kind var_bytes = slice \"\" 0 \"\"
accepted var_bytes = cat \"\" \"\"
Kind var_int = cat \"\" \"\"
Kind var_bytes = cat 1 \"\"
Kind var_bytes = cat \"\" 1
accepted var_int = find \"\" 0 0
Kind var_bytes = find \"\" 0 0
Kind var_int = find 1 0 0
Kind var_int = find \"\" \"\" 0
Kind var_int = find \"\" 0 \"\"
accepted var_int = num \"\"
Kind var_bytes = num \"\"
Kind var_int = num 1
accepted var_bytes = text 1
Kind var_int = text 1
Kind var_bytes = text \"\"";

#[test]
fn an_assignment_takes_a_variable_and_atoms(rt: HostRuntime) {
    hold_statements(&rt, rt.alloc(), NAMES);
}

#[test]
fn operations_of_numbers_take_and_give_numbers(rt: HostRuntime) {
    hold_statements(&rt, rt.alloc(), OF_NUMBERS);
}

#[test]
fn operations_of_records_take_and_give_their_kinds(rt: HostRuntime) {
    hold_statements(&rt, rt.alloc(), OF_RECORDS);
}
