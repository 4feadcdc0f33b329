// How many children failed, in jobs of the second edition.
use crate::jobs::hold_in_edition;
use crate::left::hold_left;

/// Statements, and what `v` is then. The n-th statement is the n-th step from 1 on, and a sync of the n-th step is told
/// that n children failed. A write is told that 9 did, and nobody asked.
const TOLD: &str = "\
caught v => 0
sync; caught v => 1
v = set 5; sync; caught v => 2
sync; caught v; caught v => 1
sync; sync; caught v => 2
sync; caught v; sync; caught v => 3
sync; write x 3; caught v => 1
write x 3; caught v => 0
sync; read v x; caught v => 1
sync; pop b q; caught v => 1
sync; push q \"ab\"; caught v => 1
sync; spawn 5 idle; caught v => 1
if 1; sync; end; caught v => 2";

/// What stands before the statements of tasks that have children.
const HEAD: &str = "\
swan 2
output out bytes
task bad
do
fail 7
end
task fine
do
end
task parent
do
spawn 5 bad
end
task main
var v bytes
var n int
do
";

/// Statements, and what is left in `out` once `v` was pushed to it.
const CHILDREN: &str = "\
caught n; v = text n => 0
sync; caught n; v = text n => 0
spawn 5 bad; caught n; v = text n => 0
spawn 5 bad; spawn 5 fine; spawn 5 bad; sync; caught n; v = text n => 2
spawn 5 bad; sync; spawn 5 bad; spawn 5 bad; caught n; v = text n => 1
spawn 5 bad; sync; spawn 5 bad; spawn 5 bad; sync; caught n; v = text n => 2
spawn 5 bad; sync; sync; caught n; v = text n => 0
spawn 9 parent; sync; caught n; v = text n => 0
spawn 0 fine; sync; caught n; v = text n => 1";

#[test]
fn caught_tells_what_the_last_sync_was_told(rt: HostRuntime) {
    hold_in_edition(&rt, rt.alloc(), "swan 2", TOLD, "");
}

#[test]
fn a_sync_is_told_of_the_children_since_the_last_one(rt: HostRuntime) {
    hold_left(&rt, rt.alloc(), HEAD, CHILDREN);
}
