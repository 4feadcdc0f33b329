// Each operation, at its edges too.
use crate::jobs::hold_one_by_one;

/// Operations on numbers, and what each gives.
const NUMBERS: &str = "\
set -9223372036854775808 => -9223372036854775808
add 2 3 => 5
add 9223372036854775806 1 => 9223372036854775807
add 9223372036854775807 1 => Overflow at 12
add -9223372036854775808 -1 => Overflow at 12
sub 2 5 => -3
sub -9223372036854775807 1 => -9223372036854775808
sub 0 -9223372036854775808 => Overflow at 12
mul -4 3 => -12
mul 4611686018427387904 -2 => -9223372036854775808
mul 4611686018427387904 2 => Overflow at 12
div 7 2 => 3
div -7 2 => -3
div 7 -2 => -3
div 1 0 => DivideByZero at 12
div -9223372036854775808 -1 => Overflow at 12
rem 7 -2 => 1
rem -7 2 => -1
rem 1 0 => DivideByZero at 12
rem -9223372036854775808 -1 => 0";

/// Comparisons, and what each gives.
const COMPARISONS: &str = "\
lt 1 2 => 1
lt 2 2 => 0
lt -9223372036854775808 9223372036854775807 => 1
le 2 2 => 1
le 3 2 => 0
eq 5 5 => 1
eq -5 5 => 0
eq \"\" \"\" => 1
eq \"ab\" \"ab\" => 1
eq \"ab\" \"ba\" => 0
eq \"a\" \"ab\" => 0
and 1 -1 => 1
and 1 0 => 0
or 0 2 => 1
or 0 0 => 0
not 0 => 1
not -3 => 0";

/// Operations on bytes that give numbers, and what each gives.
const BYTES: &str = "\
len \"\" => 0
len \"a\\n\\xff\" => 3
at \"ab\" 1 => 98
at \"\\xff\" 0 => 255
at \"ab\" 2 => Range at 12
at \"ab\" -1 => Range at 12
at \"\" 0 => Range at 12
find \"abca\" 97 0 => 0
find \"abca\" 97 1 => 3
find \"abc\" 122 0 => -1
find \"abc\" 99 3 => -1
find \"abc\" 99 4 => Range at 12
find \"abc\" 99 -1 => Range at 12
find \"\\xff\" 255 0 => 0
find \"abc\" 256 0 => Range at 12
find \"abc\" -1 0 => Range at 12";

/// Texts of numbers and others, and what `num` gives.
const TEXTS: &str = "\
num \"0\" => 0
num \"-12\" => -12
num \"9223372036854775807\" => 9223372036854775807
num \"-9223372036854775808\" => -9223372036854775808
num \"9223372036854775808\" => BadNumber at 12
num \"-9223372036854775809\" => BadNumber at 12
num \"-0\" => BadNumber at 12
num \"00\" => BadNumber at 12
num \"01\" => BadNumber at 12
num \"-\" => BadNumber at 12
num \"\" => BadNumber at 12
num \"+1\" => BadNumber at 12
num \" 1\" => BadNumber at 12
num \"1 \" => BadNumber at 12
num \"1x\" => BadNumber at 12
num \"--1\" => BadNumber at 12
num \"\\xb2\" => BadNumber at 12";

/// Operations that give bytes, as statements, and the number that they leave.
const MADE: &str = "\
b = slice \"abc\" 1 3; v = eq b \"bc\" => 1
b = slice \"abc\" 3 3; v = eq b \"\" => 1
b = slice \"abc\" 0 3; v = eq b \"abc\" => 1
b = slice \"\" 0 0; v = len b => 0
b = slice \"abc\" 1 4 => Range at 12
b = slice \"abc\" 2 1 => Range at 12
b = slice \"abc\" -1 2 => Range at 12
b = cat \"ab\" \"c\"; v = eq b \"abc\" => 1
b = cat \"\" \"\"; v = eq b \"\" => 1
b = set \"ab\"; b = slice b 1 2; b = cat b b; v = eq b \"bb\" => 1
b = text 0; v = eq b \"0\" => 1
b = text -9223372036854775808; v = eq b \"-9223372036854775808\" => 1";

/// A record of 1,048,575 bytes, 1 + 2 + 4 .. of them, one byte more, which is the most, and what comes of yet one more.
const LONGEST: &str = "\
v = set 20; while v; b = cat b b; b = cat b \"x\"; v = sub v 1; end; v = len b => 1048575
v = set 20; while v; b = cat b b; b = cat b \"x\"; v = sub v 1; end; b = cat b \"y\"; v = len b => 1048576
v = set 20; while v; b = cat b b; b = cat b \"x\"; v = sub v 1; end; b = cat \"y\" b; v = len b => 1048576
v = set 20; while v; b = cat b b; b = cat b \"x\"; v = sub v 1; end; b = cat b \"y\"; b = cat b \"\"; v = len b => 1048576
v = set 20; while v; b = cat b b; b = cat b \"x\"; v = sub v 1; end; b = cat b \"y\"; v = at b 1048575 => 121
v = set 20; while v; b = cat b b; b = cat b \"x\"; v = sub v 1; end; b = cat b \"yz\" => TooLong at 18
v = set 20; while v; b = cat b b; b = cat b \"x\"; v = sub v 1; end; b = cat b \"y\"; b = cat b \"z\" => TooLong at 19
v = set 20; while v; b = cat b b; b = cat b \"x\"; v = sub v 1; end; b = cat b b => TooLong at 18";

#[test]
fn numbers_are_reckoned_with(rt: HostRuntime) {
    hold_one_by_one(&rt, rt.alloc(), NUMBERS, "v = ");
}

#[test]
fn values_are_compared(rt: HostRuntime) {
    hold_one_by_one(&rt, rt.alloc(), COMPARISONS, "v = ");
}

#[test]
fn bytes_are_looked_at(rt: HostRuntime) {
    hold_one_by_one(&rt, rt.alloc(), BYTES, "v = ");
}

#[test]
fn texts_of_numbers_are_read(rt: HostRuntime) {
    hold_one_by_one(&rt, rt.alloc(), TEXTS, "v = ");
}

#[test]
fn bytes_are_made(rt: HostRuntime) {
    hold_one_by_one(&rt, rt.alloc(), MADE, "");
}

#[test]
fn the_longest_record_takes_no_more(rt: HostRuntime) {
    hold_one_by_one(&rt, rt.alloc(), LONGEST, "");
}
