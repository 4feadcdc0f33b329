// Jobs and inputs that the rows are over.
use job_tests::FIRST_JOB;

/// A job that leaves its input as it is.
pub const LEAVES: &str = "swan 1\ninput text\ntask main\n  do\nend\n";

/// The names of the files, in order.
pub const NAMES: &str =
    "a b c d e f g h i j k least zero l m once n empty five three frob int minus over hex tab big range much word user p p1 p2";

/// Their contents.
pub const TEXTS: [&str; 34] = [
    FIRST_JOB,
    LEAVES,
    "swan 1\noutput out int\ntask count\n  param n int\n  param base int\n  push out int\n  var i int\n  var go int\n  do\n  go = lt i n\n  while go\n    i = add i 1\n    go = lt i n\n  end\n  push out base\n  i = add base 1\n  push out i\nend\ntask main\n  do\n  spawn 1000 count 200 10 out\n  spawn 1000 count 0 20 out\nend\n",
    "swan 1\ninput lines\noutput out bytes\ntask three\n  pop src bytes\n  push out bytes\n  var s bytes\n  do\n  pop s src\n  push out s\n  pop s src\n  push out s\n  pop s src\n  push out s\n  push out \"--\"\nend\ntask rest\n  pop src bytes\n  push out bytes\n  var s bytes\n  var none int\n  var more int\n  do\n  empty none src\n  more = not none\n  while more\n    pop s src\n    push out s\n    empty none src\n    more = not none\n  end\nend\ntask main\n  do\n  spawn 20 three lines out\n  spawn 100 rest lines out\nend\n",
    "swan 1\noutput out int\ntask idle\n  push q int\n  var i int\n  do\n  i = add i 1\nend\ntask main\n  queue q int\n  var none int\n  do\n  spawn 10 idle q\n  empty none q\n  push out none\nend\n",
    "swan 1\noutput out bytes\ntask bad\n  pop q bytes\n  push out bytes\n  var s bytes\n  do\n  push out \"before\"\n  pop s q\n  push out \"never\"\nend\ntask good\n  push out bytes\n  do\n  push out \"after\"\nend\ntask main\n  queue q bytes\n  do\n  spawn 9 bad q out\n  spawn 9 good out\nend\n",
    "swan 1\noutput out int\ntask look\n  pop q int\n  push out int\n  var none int\n  do\n  empty none q\n  push out none\nend\ntask main\n  queue q int\n  var n int\n  do\n  spawn 9 look q out\n  push q 5\n  pop n q\n  push out n\nend\n",
    "swan 1\noutput out int\ntask leaf\n  push q int\n  do\n  push q 1\nend\ntask mid\n  push q int\n  do\n  spawn 5 leaf q\n  push q 2\nend\ntask main\n  do\n  spawn 20 mid out\n  push out 3\nend\n",
    "swan 1\noutput out int\nobject x int\ntask show\n  in x int\n  push out int\n  var v int\n  do\n  read v x\n  push out v\nend\ntask set9\n  out x int\n  do\n  write x 9\nend\ntask main\n  do\n  write x 4\n  spawn 5 show x out\n  spawn 5 set9 x\n  spawn 5 show x out\nend\n",
    "swan 1\nobject x int\ntask quiet\n  out x int\n  do\nend\ntask main\n  do\n  write x 4\n  spawn 2 quiet x\nend\n",
    "swan 1\nobject x int\ntask main\n  var v int\n  do\n  v = add 9223372036854775807 1\n  write x v\nend\n",
    "swan 1\nobject x int\ntask main\n  var v int\n  do\n  v = div -9223372036854775808 -1\n  write x v\nend\n",
    "swan 1\nobject x int\ntask main\n  var v int\n  do\n  v = div 1 0\n  write x v\nend\n",
    "swan 1\ntask eat\n  pop q int\n  do\nend\ntask feed\n  push q int\n  do\n  spawn 1 eat q\nend\ntask main\n  do\nend\n",
    "swan 1\ntask two\n  push a int\n  push b int\n  do\nend\ntask both\n  in a int\n  in b int\n  do\nend\ntask main\n  queue q int\n  object x int\n  do\n  spawn 1 both x x\n  spawn 1 two q q\nend\n",
    "swan 1\ntask two\n  push a int\n  push b int\n  do\nend\ntask both\n  in a int\n  in b int\n  do\nend\ntask main\n  queue q int\n  object x int\n  do\n  spawn 1 both x x\nend\n",
    "swan 1\ntask down\n  var f int\n  do\n  fuel f\n  f = sub f 3\n  spawn f down\nend\ntask main\n  do\n  spawn 1000 down\nend\n",
    "",
    "a\nb\nc\nd\ne\n",
    "a\n\nb",
    "swan 1\nfrob\noutput out bytes\ntask main\n  do\n  push out \"hi\"\nend\n",
    "swan 1\noutput out int\ntask main\n  do\n  push out \"hi\"\nend\n",
    "swan 1\noutput out int\ntask main\n  var v int\n  do\n  v = add -2 1\n  push out v\nend\n",
    "swan 1\noutput out int\ntask main\n  var v int\n  do\n  v = add 9223372036854775807 1\n  push out v\nend\n",
    "swan 1\nobject r bytes\ntask main\n  do\n  write r \"hi\\n\"\nend\n",
    "swan 1\noutput out bytes\ntask main\n\tdo\n  push out \"hi\"\nend\n",
    "swan 1\noutput out int\ntask main\n  do\n  push out 9223372036854775808\nend\n",
    "swan 1\ntask main\n  var s bytes\n  do\n  s = slice \"abc\" 2 4\nend\n",
    "swan 1\ntask main\n  var s bytes\n  do\n  s = set \"x\"\n  s = cat s s\n  s = cat s s\n  s = cat s s\n  s = cat s s\n  s = cat s s\n  s = cat s s\n  s = cat s s\n  s = cat s s\n  s = cat s s\n  s = cat s s\n  s = cat s s\n  s = cat s s\n  s = cat s s\n  s = cat s s\n  s = cat s s\n  s = cat s s\n  s = cat s s\n  s = cat s s\n  s = cat s s\n  s = cat s s\n  s = cat s s\nend\n",
    "swan 1\ntask main\n  var n int\n  do\n  n = num \"1x\"\nend\n",
    "swan 1\ntask main\n  do\n  fail -3\nend\n",
    "swan 2\noutput out int\ntask bad\n  param a int\n  do\n  fail a\nend\ntask fine\n  do\nend\ntask main\n  var n int\n  do\n  spawn 5 bad 7\n  spawn 5 fine\n  spawn 5 bad 8\n  sync\n  caught n\n  push out n\n  sync\n  caught n\n  push out n\nend\n",
    "swan 1\noutput out int\ntask bad\n  param a int\n  do\n  fail a\nend\ntask fine\n  do\nend\ntask main\n  var n int\n  do\n  spawn 5 bad 7\n  spawn 5 fine\n  spawn 5 bad 8\n  sync\n  caught n\n  push out n\n  sync\n  caught n\n  push out n\nend\n",
    "swan 2\noutput out int\ntask bad\n  param a int\n  do\n  fail a\nend\ntask fine\n  do\nend\ntask main\n  var n int\n  do\n  spawn 5 bad 7\n  spawn 5 fine\n  spawn 5 bad 8\n  sync\n  caught out\n  push out n\n  sync\n  caught n\n  push out n\nend\n",
];
