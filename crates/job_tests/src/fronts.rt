// The first job, and its fronts.

/// The first of the whole jobs, which writes a line: 59 bytes and 6 lines.
pub const FIRST_JOB: &str = "swan 1
output out bytes
task main
  do
  push out \"hi\"
end
";

/// From which length to which the fronts of that job are refused, and how.
pub const REFUSED_FRONTS: &str = "\
0 5 1 BadHeader
6 7 1 NoMain
8 22 2 BadLine
23 24 2 NoMain
25 29 3 BadLine
30 34 3 Unbalanced
35 36 4 Unbalanced
37 37 4 BadLine
38 39 4 Unbalanced
40 41 5 Unbalanced
42 53 5 BadLine
54 55 5 Unbalanced
56 57 6 BadLine";
