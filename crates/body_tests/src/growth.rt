// Records that grow in place, and what others see of them.
use crate::left::hold_left;

/// What stands before the statements.
const HEAD: &str = "\
swan 1
object x bytes
output out bytes
task taker
push to bytes
param p bytes
do
p = cat p \"+\"
push to p
end
task main
var v bytes
var w bytes
var n int
do
";

/// Statements, and the items that the queue `out` has in the end, once `v` was pushed to it too.
const GROWN: &str = "\
v = cat v \"ab\"; v = cat v \"c\"; v = cat v \"de\" => abcde
v = cat v \"ab\"; v = cat v \"c\"; v = cat v \"\"; v = cat v \"d\" => abcd
v = cat v \"ab\"; v = cat v v; v = cat v v => abababab
v = cat v \"ab\"; v = cat v \"c\"; v = cat v v; v = cat v \"d\" => abcabcd
v = cat v \"ab\"; v = cat v \"c\"; push out v; v = cat v v => abc abcabc
v = cat v \"ab\"; v = cat v \"c\"; push out v; push out v; v = cat v \"d\"; push out v; v = cat v \"e\" => abc abc abcd abcde
v = cat v \"ab\"; v = cat v \"c\"; w = set v; v = cat v \"x\"; push out w => abc abcx
v = cat v \"ab\"; v = cat v \"c\"; w = set v; w = cat w \"y\"; v = cat v \"x\"; push out w => abcy abcx
v = cat v \"ab\"; v = cat v \"c\"; v = set v; v = cat v \"d\" => abcd
v = cat v \"ab\"; v = cat v \"c\"; v = set \"z\"; v = cat v \"d\" => zd
v = cat v \"ab\"; v = cat v \"cd\"; w = slice v 1 3; v = cat v \"x\"; push out w => bc abcdx
v = cat v \"ab\"; v = cat v \"cd\"; v = slice v 1 3; v = cat v \"x\" => bcx
v = cat v \"ab\"; v = cat v \"c\"; write x v; v = cat v \"d\"; read w x; push out w => abc abcd
v = cat v \"ab\"; v = cat v \"c\"; read v x; v = cat v \"d\" => d
v = cat v \"ab\"; v = cat v \"c\"; spawn 9 taker out v; v = cat v \"d\" => abc+ abcd
v = cat v \"ab\"; v = cat v \"c\"; w = cat v \"x\"; push out w; v = cat v \"d\" => abcx abcd
v = cat v \"ab\"; v = cat v \"c\"; v = cat \"x\" v; v = cat v \"d\" => xabcd
w = cat w \"ab\"; w = cat w \"c\"; v = cat w \"x\"; v = cat v w; push out w => abc abcxabc
v = cat v \"ab\"; v = cat v \"c\"; n = len v; w = text n; push out w; v = cat v \"d\" => 3 abcd
v = cat v \"ab\"; v = cat v \"c\"; n = at v 2; w = text n; push out w; v = cat v \"d\" => 99 abcd
v = cat v \"ab\"; v = cat v \"c\"; n = find v 99 0; w = text n; push out w; v = cat v \"d\" => 2 abcd
v = cat v \"12\"; v = cat v \"3\"; n = num v; w = text n; push out w; v = cat v \"4\" => 123 1234
w = cat w \"a\"; w = cat w \"b\"; v = cat v \"a\"; v = cat v \"b\"; n = eq v w; w = text n; push out w => 1 ab
w = cat w \"a\"; w = cat w \"b\"; v = cat v \"a\"; v = cat v \"c\"; n = eq v w; w = text n; push out w => 0 ac";

#[test]
fn what_grows_leaves_what_was_given_as_it_was(rt: HostRuntime) {
    hold_left(&rt, rt.alloc(), HEAD, GROWN);
}
