// Lines, operations and literals: what is accepted, and what is refused.
use super::{At, hold_refused, hold_written, number_of, refused_at, text_with};
use crate::texts::{joined, three_parts_of};
use job_reader::read_number;
use std::alloc::Global;
use std::process::Abort;

/// Lines: where they stand, what is wrong with them, and their text.
const LINES: &str = r#"Top Ok input a_b9
Top BadLine input
Top BadLine input a b
Top BadName input A
Top BadName input 9a
Top BadName input -a
Top BadName input "a"
Top BadLine input "a
Top BadName input +1
Top Ok input abcdefghijklmnopqrstuvwxyz_12345
Top BadName input abcdefghijklmnopqrstuvwxyz_123456
Top Ok output a int
Top Ok output a bytes
Top BadLine output a
Top BadLine output a text
Top BadLine output A text
Top BadLine output a int 1
Top Ok object a int
Top BadLine frob
Top BadLine do
Top BadLine end
Top BadLine v = set 1
Top BadLine param a int
Top Ok 
Top Ok    #if "
Task Ok param a int
Task Ok in a bytes
Task Ok out a int
Task Ok inout a int
Task Ok push a int
Task Ok pop a int
Task Ok pushpop a int
Task Ok var a int
Task Ok queue a bytes
Task Ok object a bytes
Task BadLine task u
Task BadLine frob
Task BadLine input a
Task BadLine output a int
Task BadLine v = set 1
Task BadLine read v o
Task BadLine write o 1
Task BadLine push q 1
Task BadLine pop v q
Task BadLine empty v q
Task BadLine spawn 1 t
Task BadLine sync
Task BadLine fuel v
Task BadLine fail 1
Task BadLine if 1
Task BadLine else
Task BadLine while 1
Task BadLine end
Do Ok read v o
Do BadName read v 1
Do BadLine read v
Do Ok write o "a b"
Do BadName write 1 00
Do BadName write 00 A
Do Ok push q int
Do Ok pop v q
Do Ok empty v q
Do BadLine empty v q r
Do Ok spawn 1 t
Do Ok spawn f t a "b" -3
Do BadName spawn 1 2
Do BadLine spawn 1
Do BadName spawn 00 t A
Do BadLine spawn 1 t 00 "
Do Ok sync
Do BadLine sync 1
Do Ok fuel v
Do BadName fuel 1
Do Ok fail -1
Do BadLine fail
Do BadLine if
Do BadLine while 1 2
Do BadLine do
Do BadLine frob
Do BadLine input a
Do BadLine output a int
Do BadLine param a int
Do BadLine in a int
Do BadLine out a int
Do BadLine inout a int
Do Ok push a int
Do Ok pop a int
Do BadLine pushpop a int
Do BadLine var a int
Do BadLine queue a int
Do BadLine object a int
Do BadLine task u
Do Ok v = set 1
Do Ok if = add 1 2
Do Ok end = set 3
Do BadLine v = frob 1
Do BadLine v =
Do BadLine v "=" set 1
Do BadName 1 = set 00
Do BadNumber v = set -0
Do BadNumber v = set 00
Do BadNumber v = set 01
Do BadNumber v = set -
Do BadNumber v = set 1x
Do BadNumber v = set --1
Do BadName v = set +1
Do Ok v = set -9223372036854775808
Do BadNumber v = set -9223372036854775809
Do Ok v = set 9223372036854775807
Do BadNumber v = set 9223372036854775808
Do BadName v = set ab"c
Do BadName v = cat ab"c d"
Do BadLine v = set "a"b
Do BadLine v = set "abc\"
Do Ok v = set "\\"
Do BadLine v = set "\q"
Do BadLine v = set "\x1"
Do BadLine v = set "\xg0"
Do Unbalanced else
Do BadLine v = set
Do Ok v = set 1
Do BadLine v = set 1 a
Do BadLine v = add 1
Do Ok v = add 1 a
Do BadLine v = add 1 a " "
Do BadLine v = sub 1
Do Ok v = sub 1 a
Do BadLine v = sub 1 a " "
Do BadLine v = mul 1
Do Ok v = mul 1 a
Do BadLine v = mul 1 a " "
Do BadLine v = div 1
Do Ok v = div 1 a
Do BadLine v = div 1 a " "
Do BadLine v = rem 1
Do Ok v = rem 1 a
Do BadLine v = rem 1 a " "
Do BadLine v = lt 1
Do Ok v = lt 1 a
Do BadLine v = lt 1 a " "
Do BadLine v = le 1
Do Ok v = le 1 a
Do BadLine v = le 1 a " "
Do BadLine v = eq 1
Do Ok v = eq 1 a
Do BadLine v = eq 1 a " "
Do BadLine v = and 1
Do Ok v = and 1 a
Do BadLine v = and 1 a " "
Do BadLine v = or 1
Do Ok v = or 1 a
Do BadLine v = or 1 a " "
Do BadLine v = not
Do Ok v = not 1
Do BadLine v = not 1 a
Do BadLine v = len
Do Ok v = len 1
Do BadLine v = len 1 a
Do BadLine v = at 1
Do Ok v = at 1 a
Do BadLine v = at 1 a " "
Do BadLine v = slice 1 a
Do Ok v = slice 1 a " "
Do BadLine v = slice 1 a " " -7
Do BadLine v = cat 1
Do Ok v = cat 1 a
Do BadLine v = cat 1 a " "
Do BadLine v = find 1 a
Do Ok v = find 1 a " "
Do BadLine v = find 1 a " " -7
Do BadLine v = num
Do Ok v = num 1
Do BadLine v = num 1 a
Do BadLine v = text
Do Ok v = text 1
Do BadLine v = text 1 a"#;

/// Literals, and how they are written.
const LITERALS: &str = r#""" => ""
"a b" => "a b"
"\\" => "\\"
"\x5C" => "\\"
"\"" => "\""
"\x22" => "\""
"\n\x0a\x0A" => "\n\n\n"
"\t\x09" => "\t\t"
"\x41\x7e " => "A~ "
"\x00\xfF\x7F\x1b" => "\x00\xff\x7f\x1b""#;

/// Asserts a row of a place, what is wrong, and a line.
fn hold_line(rt: &impl Abort, alloc: Global, row: &str) {
    let (place, kind, line) = three_parts_of(rt, row);
    let at = At::named(place);
    let expected = refused_at(number_of(at), kind);
    let text = text_with(rt, alloc, at, line);
    hold_refused(rt, alloc, text.as_str(), expected, row);
}

#[test]
fn each_line_is_read_or_refused_where_it_stands(rt: HostRuntime) {
    for row in LINES.lines() {
        hold_line(&rt, rt.alloc(), row);
    }
}

/// A text with a literal in a line that begins with these spaces.
fn text_of_literal(rt: &impl Abort, alloc: Global, spaces: &str, literal: &str) -> String {
    let line = joined(rt, alloc, &[spaces, "v = set ", literal]);
    text_with(rt, alloc, At::Do, line.as_str())
}

/// Asserts how a literal is written.
fn hold_literal(rt: &impl Abort, alloc: Global, given: &str, expected: &str) {
    let text = text_of_literal(rt, alloc, "", given);
    let wanted = text_of_literal(rt, alloc, "  ", expected);
    hold_written(rt, alloc, text.as_str(), wanted.as_str());
}

/// Asserts a row of a literal and how it is written.
fn hold_literal_row(rt: &impl Abort, alloc: Global, row: &str) {
    match row.split_once(" => ") {
        Some((given, expected)) => hold_literal(rt, alloc, given, expected),
        None => panic!(rt; "no literal"),
    }
}

#[test]
fn literals_are_written_in_the_one_canonical_form(rt: HostRuntime) {
    for row in LITERALS.lines() {
        hold_literal_row(&rt, rt.alloc(), row);
    }
}

#[test]
fn a_number_is_read(rt: HostRuntime) {
    assert_eq!(rt; read_number(b"-12"), Some(-12));
}
