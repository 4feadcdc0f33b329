// What jobs write, with `run` by so many workers and with `elide`.
use crate::helpers::{Ended, Over, assert_code, assert_text, called, hold};
use crate::jobs::{NAMES, TEXTS};
use std::process::Abort;
use std::test::Fail;

/// Fuel, job and inputs; then the output, the report and the code.
const RUNS: &str = "\
100 a|hi~|faults 0~|0
1 a|hi~|faults 1~fault / 6 Fuel~|1
5 b empty||left text 0~faults 0~|0
2003 c|10~11~20~21~|faults 0~|0
123 d five|a~b~c~--~d~e~|left lines 0~faults 0~|0
15 e|1~|faults 0~|0
22 f|before~after~|faults 1~fault /0 9 PopEmpty~|1
15 g|1~5~|faults 0~|0
23 h|1~2~3~|faults 0~|0
20 i|4~9~|object x int 9~faults 0~|0
5 j||object x int 0~faults 0~|0
3 j||object x int 4~faults 1~fault / 10 Fuel~|1
9 k||object x int 0~faults 1~fault / 6 Overflow~|1
9 least||object x int 0~faults 1~fault / 6 Overflow~|1
9 zero||object x int 0~faults 1~fault / 6 DivideByZero~|1
1002 n||faults 1~fault /0/0/0/0/0/0/0/0/0/0/0/0/0/0/0/0/0/0/0/0/0/0/0/0/0/0/0/0/0/0/0/0/0/0/0/0/0/0/0/0/0/0/0/0/0/0/0/0/0/0/0/0/0/0/0/0/0/0/0/0/0/0/0/0 7 Depth~|1
9 range||faults 1~fault / 5 Range~|1
30 much||faults 1~fault / 26 TooLong~|1
9 word||faults 1~fault / 5 BadNumber~|1
9 user||faults 1~fault / 4 User -3~|1
5 b three||left text 3~faults 0~|0
9 hex||object r bytes 68690a~faults 0~|0
9 minus|-1~|faults 0~|0
9 over||faults 1~fault / 6 Overflow~|1
5 b three three||inputs 1 2~|7
5 b||inputs 1 0~|7
25 p|2~0~|faults 2~fault /0 6 User 7~fault /2 6 User 8~|1
5 p1||refused 18 BadLine~|3
5 p2||refused 18 Kind~|3
5 frob||refused 2 BadLine~|3
5 int||refused 5 Kind~|3
5 missing||read failed missing~|4
5 b missing||read failed missing~|4
1000000000 a|hi~|faults 0~|0
1000000001 a||usage~|2
0 a||usage~|2
05 a||usage~|2
+5 a||usage~|2
-5 a||usage~|2
5||usage~|2
5 -||usage~|2
5 a -||usage~|2";

#[test]
fn run_writes_what_the_elision_writes(rt: HostRuntime) -> Result<(), Fail> {
    for command in ["run 1", "run 2", "run 3", "run 4", "run 64"] {
        hold(&rt, rt.alloc(), NAMES, &TEXTS, command, RUNS)?;
    }
    Ok(())
}

#[test]
fn elide_writes_the_same(rt: HostRuntime) -> Result<(), Fail> {
    hold(&rt, rt.alloc(), NAMES, &TEXTS, "elide", RUNS)
}

/// Whole command lines.
const COMMANDS: &str = "\
check l||refused 9 Privilege~|3
check m||refused 17 Alias~|3
check p|swan 2~output out int~task bad~  param a int~  do~  fail a~end~task fine~  do~end~task main~  var n int~  do~  spawn 5 bad 7~  spawn 5 fine~  spawn 5 bad 8~  sync~  caught n~  push out n~  sync~  caught n~  push out n~end~|checked~|0
check p1||refused 18 BadLine~|3
check p2||refused 18 Kind~|3
check once|swan 1~task two~  push a int~  push b int~  do~end~task both~  in a int~  in b int~  do~end~task main~  queue q int~  object x int~  do~  spawn 1 both x x~end~|checked~|0
check empty||refused 1 BadHeader~|3
check frob||refused 2 BadLine~|3
check tab||refused 4 BadByte~|3
check big||refused 5 BadNumber~|3
check int||refused 5 Kind~|3
check a|swan 1~output out bytes~task main~  do~  push out \"hi\"~end~|checked~|0
check a a||usage~|2
check||usage~|2
check -||usage~|2
Check a||usage~|2
||usage~|2
run||usage~|2
run 1||usage~|2
run 64 5 a|hi~|faults 0~|0
run 256 5 a|hi~|faults 0~|0
run 256 2003 c|10~11~20~21~|faults 0~|0
run 0 5 a||usage~|2
run 257 5 a||usage~|2
run 01 5 a||usage~|2
run +1 5 a||usage~|2
run -1 5 a||usage~|2
run 4294967297 5 a||usage~|2
--help --help||usage~|2
--version a||usage~|2
help||usage~|2
--version|swan 0.1.0~||0";

#[test]
fn commands_are_their_words(rt: HostRuntime) -> Result<(), Fail> {
    hold(&rt, rt.alloc(), NAMES, &TEXTS, "", COMMANDS)
}

/// What the help says of commands, numbers and statuses, and its example.
const HELP_SAYS: &str = "\
check JOB
elide FUEL JOB INPUT*
run WORKERS FUEL JOB INPUT*
index WORKERS INPUT
convert WORKERS INPUT
of fields than the first one, or with netstrings of more than 1048576 bytes, is a fault
bulk NUMBER SIZE WORKERS
--help
--version
FUEL is 1 to 1000000000, and WORKERS 1 to 256.
NUMBER is 0 to 1000000000, and SIZE 0 to 300000.
0 where the run has no fault
1 where it has one
2 where the words are no
3 where the job is refused
4 where a file can't be read or is too long
5 where a text
6 where memory runs out
7 where the inputs are refused
For example: swan run 1 100 examples/hello.swan";

// Asserts that a text has each of these parts, which stand on lines of their own.
fn assert_parts(rt: &impl Abort, text: &str, parts: &str) {
    for part in parts.lines() {
        assert!(rt; text.contains(part), "{part}");
    }
}

// Asserts that a call ended with the help.
fn assert_help(rt: &impl Abort, got: &Ended) {
    assert_parts(rt, got.out.as_str(), HELP_SAYS);
    assert_text(rt, got.report.as_str(), "", "the report", "--help");
    assert_code(rt, got.status.code(), "0", "--help");
}

#[test]
fn the_help_lists_each_command_range_and_status(rt: HostRuntime) -> Result<(), Fail> {
    let over = Over::files(Vec::new(rt.alloc()));
    let got = called(&rt, rt.alloc(), "--help", over)?;
    assert_help(&rt, &got);
    Ok(())
}
