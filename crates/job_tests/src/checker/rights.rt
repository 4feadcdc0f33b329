// What main may do with the names of the top level.
use super::*;

/// Names of the top level. 5 lines.
const TOP: &str = "input lines
output ints int
output texts bytes
object count int
object remark bytes
";

/// Statements of main, whose variables are i and t.
const OF_MAIN: &str = "\
accepted pop t lines
accepted empty i lines
Privilege push lines t
Privilege push lines \"a\"
Kind pop i lines
accepted push ints i
accepted push texts t
Privilege pop i ints
Privilege pop t texts
Privilege empty i ints
Privilege empty i texts
Kind push ints t
Kind push texts i
Kind pop t ints
accepted read i count
accepted write count i
accepted read t remark
accepted write remark t
Kind read t count
Kind write remark 1
Kind read i lines
Kind write ints 1
Kind push count 1
Kind pop i count
Kind empty i remark
Kind i = set ints
Kind count = set 1
Kind fail count
accepted spawn 1 pusher ints
Privilege spawn 1 popper ints
Privilege spawn 1 both ints
Kind spawn 1 pusher texts
Kind spawn 1 popper lines
Privilege spawn 1 page lines
Privilege spawn 1 page texts
accepted spawn 1 reader count
accepted spawn 1 writer count
accepted spawn 1 owner count
accepted spawn 1 note remark
Kind spawn 1 owner remark
Kind spawn 1 number count
Kind spawn 1 pusher count
Kind spawn 1 reader ints
MainParams spawn 1 main
MainParams spawn 1 main 1
MainParams spawn i main z
Unknown spawn z main
Kind spawn t main
Unknown push q 1
Unknown i = set n";

/// What stands before the statement.
const BEFORE: &str = "task main\nvar i int\nvar t bytes\ndo\n";

/// A job with a statement of main.
fn text_of_main(rt: &impl Abort, alloc: Global, statement: &str) -> String {
    let texts = ["swan 1\n", TOP, CHILDREN, BEFORE, statement, "\nend\n"];
    joined(rt, alloc, &texts)
}

/// Asserts a row of what is said of a statement of main.
fn hold_of_main(rt: &impl Abort, alloc: Global, row: &str) {
    let (said, statement) = parts_of(rt, row);
    let text = text_of_main(rt, alloc, statement);
    hold_at(rt, alloc, text.as_str(), "62", said, row);
}

#[test]
fn main_uses_the_names_of_the_top_level_as_they_may_be(rt: HostRuntime) {
    for row in OF_MAIN.lines() {
        hold_of_main(&rt, rt.alloc(), row);
    }
}
