// The example jobs, in their canonical text.
use crate::FIRST_JOB;

/// A job with every kind of line, and notes at the top, in a task and in a block.
pub const EVERY_LINE: &str = "swan 1
# what a job may say
input lines
output text bytes
object total int

task helper
  # what it takes
  param count int
  in seen int
  out done int
  inout both bytes
  push left bytes
  pop right bytes
  pushpop ring int
  var number int
  var word bytes
  queue own int
  object last bytes
  do
  read number seen
  write done number
  push left \"a\"
  pop word right
  empty number ring
  number = slice word 0 -1
  spawn 3 helper
  sync
  fuel number
  if number
    # not 0
    fail 4
  else

    while count
      pop number own
    end
  end
end
# between
task main
  do
end
";

/// A task that holds a queue to push gives it to one that pops, in line 9.
pub const GIVES_POP_FROM_PUSH: &str = "swan 1
task eat
  pop q int
  do
end
task feed
  push q int
  do
  spawn 1 eat q
end
task main
  do
end
";

/// One object is read by both arguments, and one queue is pushed to by both, in line 17.
pub const GIVES_TWICE: &str = "swan 1
task two
  push a int
  push b int
  do
end
task both
  in a int
  in b int
  do
end
task main
  queue q int
  object x int
  do
  spawn 1 both x x
  spawn 1 two q q
end
";

/// A job of the second edition: its main task counts the children that failed before each `sync`. 23 lines.
pub const COUNTS_FAILED: &str = "swan 2
output out int
task bad
  param a int
  do
  fail a
end
task fine
  do
end
task main
  var n int
  do
  spawn 5 bad 7
  spawn 5 fine
  spawn 5 bad 8
  sync
  caught n
  push out n
  sync
  caught n
  push out n
end
";

/// Whole jobs of the first edition. The last two stand in docs/LANGUAGE.md.
pub const JOBS: [&str; 18] = [
    FIRST_JOB,
    "swan 1
input text
task main
  do
end
",
    "swan 1
output out int
task count
  param n int
  param base int
  push out int
  var i int
  var go int
  do
  go = lt i n
  while go
    i = add i 1
    go = lt i n
  end
  push out base
  i = add base 1
  push out i
end
task main
  do
  spawn 1000 count 200 10 out
  spawn 1000 count 0 20 out
end
",
    "swan 1
input lines
output out bytes
task three
  pop src bytes
  push out bytes
  var s bytes
  do
  pop s src
  push out s
  pop s src
  push out s
  pop s src
  push out s
  push out \"--\"
end
task rest
  pop src bytes
  push out bytes
  var s bytes
  var none int
  var more int
  do
  empty none src
  more = not none
  while more
    pop s src
    push out s
    empty none src
    more = not none
  end
end
task main
  do
  spawn 20 three lines out
  spawn 100 rest lines out
end
",
    "swan 1
output out int
task idle
  push q int
  var i int
  do
  i = add i 1
end
task main
  queue q int
  var none int
  do
  spawn 10 idle q
  empty none q
  push out none
end
",
    "swan 1
output out bytes
task bad
  pop q bytes
  push out bytes
  var s bytes
  do
  push out \"before\"
  pop s q
  push out \"never\"
end
task good
  push out bytes
  do
  push out \"after\"
end
task main
  queue q bytes
  do
  spawn 9 bad q out
  spawn 9 good out
end
",
    "swan 1
output out int
task look
  pop q int
  push out int
  var none int
  do
  empty none q
  push out none
end
task main
  queue q int
  var n int
  do
  spawn 9 look q out
  push q 5
  pop n q
  push out n
end
",
    "swan 1
output out int
task leaf
  push q int
  do
  push q 1
end
task mid
  push q int
  do
  spawn 5 leaf q
  push q 2
end
task main
  do
  spawn 20 mid out
  push out 3
end
",
    "swan 1
output out int
object x int
task show
  in x int
  push out int
  var v int
  do
  read v x
  push out v
end
task set9
  out x int
  do
  write x 9
end
task main
  do
  write x 4
  spawn 5 show x out
  spawn 5 set9 x
  spawn 5 show x out
end
",
    "swan 1
object x int
task quiet
  out x int
  do
end
task main
  do
  write x 4
  spawn 2 quiet x
end
",
    "swan 1
object x int
task main
  var v int
  do
  v = add 9223372036854775807 1
  write x v
end
",
    GIVES_POP_FROM_PUSH,
    GIVES_TWICE,
    "swan 1
task down
  var f int
  do
  fuel f
  f = sub f 3
  spawn f down
end
task main
  do
  spawn 1000 down
end
",
    "swan 1
# How many lines an input has, as a number.
input text
output count int
task main
  var line bytes
  var none int
  var more int
  var n int
  do
  empty none text
  more = not none
  while more
    pop line text
    n = add n 1
    empty none text
    more = not none
  end
  push count n
end
",
    "swan 1
input lines
output summary int
object total int
object count int
task parse
  param block bytes
  push nums int
  var from int
  var to int
  var piece bytes
  var n int
  var size int
  var more int
  do
  size = len block
  more = lt from size
  while more
    to = find block 32 from
    piece = slice block from to
    n = num piece
    push nums n
    from = add to 1
    more = lt from size
  end
end
task fold
  pop nums int
  out total int
  out count int
  push summary int
  var n int
  var sum int
  var items int
  var none int
  var more int
  do
  empty none nums
  more = not none
  while more
    pop n nums
    sum = add sum n
    items = add items 1
    empty none nums
    more = not none
  end
  write total sum
  write count items
  push summary sum
  push summary items
end
task main
  queue nums int
  var block bytes
  var line bytes
  var held int
  var none int
  var more int
  var full int
  do
  empty none lines
  more = not none
  while more
    pop line lines
    block = cat block line
    block = cat block \" \"
    held = add held 1
    full = eq held 100
    if full
      spawn 1000 parse block nums
      block = set \"\"
      held = set 0
    end
    empty none lines
    more = not none
  end
  spawn 1000 parse block nums
  spawn 7008 fold nums total count summary
end
",
    "swan 1
output greetings bytes
task main
  do
  push greetings \"Hello, world\"
end
",
    "swan 1
output squares int
task square
  param n int
  push result int
  var s int
  do
  s = mul n n
  push result s
end
task main
  do
  spawn 10 square 1 squares
  spawn 10 square 2 squares
  push squares 0
end
",
];
