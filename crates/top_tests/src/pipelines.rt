// What `index` and `convert` write.
use crate::helpers::{Machine, cut_at_space, hold, hold_over_files};
use crate::limits::hold_inputs;
use std::alloc::Global;
use std::test::Fail;

/// The names of the files, in order.
const NAMES: &str = "cats tabs empty words wide";

/// Their contents.
const TEXTS: [&str; 5] = [
    "The cat\na dog, the CAT!\ncat cat 7up\n",
    "ab\tc\nx\ty\tz\n\t\nw\n",
    "",
    "z\nb a\nb",
    "a\nb\tb\nc\n",
];

/// A command; then its input, the output, the report and the code.
const CALLS: &str = "\
index cats|7up 3~a 2~cat 1~cat 2~cat 3~dog 2~the 1~the 2~|left input 0~faults 0~|0
index empty||left input 0~faults 0~|0
index words|a 2~b 2~b 3~z 1~|left input 0~faults 0~|0
index tabs|ab 1~c 1~w 4~x 2~y 2~z 2~|left input 0~faults 0~|0
convert tabs|2:ab,1:c,~0:,0:,~|left input 0~faults 2~fault /0/1 2 User 1~fault /0/3 4 User 1~|1
convert empty||left input 0~faults 0~|0
convert words|1:z,~3:b a,~1:b,~|left input 0~faults 0~|0
convert wide|1:a,~1:c,~|left input 0~faults 1~fault /0/1 2 User 1~|1
index missing||read failed missing~|4
convert missing||read failed missing~|4";

// Asserts a row of the calls, by so many workers.
fn hold_by(rt: &impl Machine, alloc: Global, workers: u32, row: &str) -> Result<(), Fail> {
    let (command, row) = cut_at_space(row)?;
    let command = format!(in alloc; "{command} {workers}")?;
    hold_over_files(rt, alloc, NAMES, &TEXTS, command.as_str(), row)
}

#[test]
fn an_index_and_a_conversion_write_what_they_are(rt: HostRuntime) -> Result<(), Fail> {
    for workers in [1u32, 2, 3, 4, 8, 64] {
        for row in CALLS.lines() {
            hold_by(&rt, rt.alloc(), workers, row)?;
        }
    }
    Ok(())
}

/// Whole command lines that are no commands.
const NO_COMMANDS: &str = "\
index||usage~|2
index 1||usage~|2
index 1 -||usage~|2
index 1 cats words||usage~|2
index 0 cats||usage~|2
index 257 cats||usage~|2
index 01 cats||usage~|2
index +1 cats||usage~|2
index cats||usage~|2
Index 1 cats||usage~|2
convert||usage~|2
convert 1||usage~|2
convert 1 -||usage~|2
convert 1 tabs tabs||usage~|2
convert 0 tabs||usage~|2
convert 257 tabs||usage~|2
convert 01 tabs||usage~|2
convert +1 tabs||usage~|2";

#[test]
fn other_words_are_no_index_and_no_conversion(rt: HostRuntime) -> Result<(), Fail> {
    hold(&rt, rt.alloc(), NAMES, &TEXTS, "", NO_COMMANDS)
}

/// A text as its first bytes, then so many copies of some, and its last bytes; then the report and the code of its
/// index, with ~ for each line feed.
const UNFIT: &str = "\
|,|1048576|~|left input 0~faults 0~|0
|,|1048577|~|long line 1 1~|7
~|,|1048577|~,|long line 1 2~|7
|~|1000000||left input 0~faults 0~|0
|~|1000000|~|too many lines 1~|7";

/// The same of a conversion.
const UNFIT_TO_CONVERT: &str = "\
|x|1048576|~|left input 0~faults 1~fault /0/0 1 TooLong~|1
|x|1048577|~|long line 1 1~|7
|~|1000000|~|too many lines 1~|7";

#[test]
fn a_text_is_refused_as_an_input_is(rt: HostRuntime) -> Result<(), Fail> {
    hold_inputs(&rt, rt.alloc(), "index 1 x", UNFIT)?;
    hold_inputs(&rt, rt.alloc(), "convert 1 x", UNFIT_TO_CONVERT)
}
