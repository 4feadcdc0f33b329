// Each line, in one task and in a child.
use crate::asserts::are_same;
use crate::jobs::{hold_one_by_one, main_of, step, text_of_number, told_one_by_one};
use job_body::{JobBody, JobLocal};
use std::alloc::Global;
use std::test::Fail;
use swan_model::{Answer, Ask, Body, Child, NoMemory, Record, Value};

/// Statements of a task that has a number `v`, bytes `b` and an object `x`, and what `v` is then. A read is
/// answered by 7, a pop by `ab`, and a test in the first statement by yes and in a later one by no.
const STATEMENTS: &str = "\
v = add v 0 => 0
v = len b => 0
v = eq b \"\" => 1
read v x => 7
empty v q => 1
v = set 5; empty v q => 0
pop b q; v = eq b \"ab\" => 1
push q \"ab\" => 0
write x 3 => 0
sync => 0
v = set 5; sync; write x 3 => 5
fuel v => 198
v = set 1; fuel v => 197
fail -4 => User(-4) at 12
v = set 5; fail v => User(5) at 13
spawn -1 idle => Range at 12
spawn 5 idle => 0";

/// Blocks, and what `v` is after them.
const BLOCKS: &str = "\
if 1; v = set 1; else; v = set 2; end => 1
if 0; v = set 1; else; v = set 2; end => 2
if -1; v = set 1; end => 1
if 0; v = set 1; end => 0
if 0; v = set 1; # a note; else; # a note; end; # a note => 0
while v; fail 9; end; fuel v => 197
v = set 3; while v; v = sub v 1; end => 0
v = set 2; while v; if 1; v = sub v 1; else; fail 1; end; end => 0
if 1; while v; end; else; v = set 4; end => 0
fail 1; # a note => User(1) at 12
# a note; fail 1 => User(1) at 13";

#[test]
fn lines_do_what_they_say(rt: HostRuntime) {
    hold_one_by_one(&rt, rt.alloc(), STATEMENTS, "");
}

#[test]
fn blocks_go_on_where_they_should(rt: HostRuntime) {
    hold_one_by_one(&rt, rt.alloc(), BLOCKS, "");
}

/// A statement so many times, with a separator before each.
fn repeated(alloc: Global, statement: &str, count: u32) -> Result<String, NoMemory> {
    let one = format!(in alloc; "; {statement}")?;
    let mut all = String::new(alloc);
    for _ in 0..count {
        all.push_str(one.as_str())?;
    }
    Ok(all)
}

/// The heads of blocks 32 deep: the outermost, and the others.
fn heads_32_deep(alloc: Global, outermost: &str, others: &str) -> Result<String, NoMemory> {
    let others = repeated(alloc, others, 31)?;
    Ok(format!(in alloc; "{outermost}{others}")?)
}

/// A statement in blocks with these heads, 32 deep.
fn in_blocks(alloc: Global, heads: &str, statement: &str) -> Result<String, NoMemory> {
    let ends = repeated(alloc, "end", 32)?;
    Ok(format!(in alloc; "{heads}; {statement}{ends}")?)
}

/// A statement in blocks 32 deep, the outermost and the others of these forms.
fn blocks_32_deep(
    alloc: Global,
    outermost: &str,
    others: &str,
    statement: &str,
) -> Result<String, NoMemory> {
    let heads = heads_32_deep(alloc, outermost, others)?;
    in_blocks(alloc, heads.as_str(), statement)
}

/// What is told of such blocks.
fn told_32_deep(
    alloc: Global,
    outermost: &str,
    others: &str,
    statement: &str,
) -> Result<String, NoMemory> {
    let statements = blocks_32_deep(alloc, outermost, others, statement)?;
    told_one_by_one(alloc, statements.as_str())
}

/// Whether this is told of them.
fn is_told_32_deep(
    alloc: Global,
    outermost: &str,
    others: &str,
    statement: &str,
    want: &str,
) -> bool {
    match told_32_deep(alloc, outermost, others, statement) {
        Ok(told) => are_same(told.as_str(), want),
        Err(_) => false,
    }
}

#[test]
fn conditions_stand_32_deep(rt: HostRuntime) {
    assert!(rt; is_told_32_deep(rt.alloc(), "if 1", "if 1", "v = set 5", "5"));
    assert!(rt; is_told_32_deep(rt.alloc(), "if 0", "if 1", "v = set 5", "0"));
}

#[test]
fn loops_stand_32_deep(rt: HostRuntime) {
    assert!(rt;
        is_told_32_deep(
            rt.alloc(),
            "v = set 1; while v",
            "while v",
            "v = set 0",
            "0"
        )
    );
    assert!(rt; is_told_32_deep(rt.alloc(), "while v", "while 1", "fail 9", "0"));
}

/// A task that makes an object and a queue, and pushes bytes.
const MAKER: &str = "\
swan 1
output out bytes
task main
  object kept int
  queue mine bytes
  do
  push out \"ab\"
  push mine \"\"
end
";

/// A task that spawns itself with one less, and gives its queue on.
const RECURSION: &str = "\
swan 1
output out int
task down
  push to int
  param n int
  var less int
  do
  less = sub n 1
  push to n
  spawn 5 down to less
end
task main
  queue mine int
  do
  spawn 20 down mine 3
end
";

/// A record, in words.
fn words_of_bytes(alloc: Global, record: &Record) -> Result<String, NoMemory> {
    let length = record.as_slice().len();
    Ok(format!(in alloc; "of {length} bytes")?)
}

/// A value, in words.
fn words_of_value(alloc: Global, value: &Value) -> Result<String, NoMemory> {
    match value {
        Value::Int(number) => text_of_number(alloc, *number),
        Value::Bytes(record) => words_of_bytes(alloc, record),
    }
}

/// A push, in words.
fn words_of_push(alloc: Global, place: u32, value: &Value) -> Result<String, NoMemory> {
    let value = words_of_value(alloc, value)?;
    Ok(format!(in alloc; "push {place} {value}")?)
}

/// An object that is asked for with a number, in words.
fn words_of_object(alloc: Global, number: i64) -> Result<String, NoMemory> {
    Ok(format!(in alloc; "object {number}")?)
}

/// A child's fuel, and how many gives it has, in words.
fn words_of_spawn(alloc: Global, child: &Child<JobLocal>) -> Result<String, NoMemory> {
    let fuel = child.fuel;
    let count = child.gives.len();
    Ok(format!(in alloc; "spawn {fuel} {count}")?)
}

/// The word of any other ask.
fn word_of(ask: &Ask<JobLocal>) -> &'static str {
    match ask {
        Ask::Work => "work",
        Ask::NewQueue => "queue",
        Ask::Finish => "finish",
        _ => "other",
    }
}

/// What an ask is, in words.
fn words_of_ask(alloc: Global, ask: &Ask<JobLocal>) -> Result<String, NoMemory> {
    match ask {
        Ask::Push(place, value) => words_of_push(alloc, *place, value),
        Ask::NewObject(Value::Int(number)) => words_of_object(alloc, *number),
        Ask::Spawn(child) => words_of_spawn(alloc, child),
        ask => Ok(String::from_str(alloc, word_of(ask))?),
    }
}

/// The local with which a child begins.
fn local_of(child: Child<JobLocal>) -> JobLocal {
    child.local
}

/// The local of the child that was spawned, or else the task's own.
fn below(moved: JobLocal, ask: Ask<JobLocal>) -> JobLocal {
    match ask {
        Ask::Spawn(child) => local_of(child),
        _ask => moved,
    }
}

/// An ask with its line, in words.
fn words_of_step(alloc: Global, line: u64, ask: &Ask<JobLocal>) -> Result<String, NoMemory> {
    let words = words_of_ask(alloc, ask)?;
    Ok(format!(in alloc; "{line} {words}; ")?)
}

/// Adds an ask with its line.
fn add_ask(
    alloc: Global,
    line: u64,
    ask: &Ask<JobLocal>,
    asks: &mut String,
) -> Result<(), NoMemory> {
    let words = words_of_step(alloc, line, ask)?;
    Ok(asks.push_str(words.as_str())?)
}

/// Adds the ask of a step of this line. It answers the local of the child that is spawned, or else the task's own.
fn below_step(
    alloc: Global,
    line: u64,
    stepped: (JobLocal, Ask<JobLocal>),
    asks: &mut String,
) -> Result<JobLocal, NoMemory> {
    let (moved, ask) = stepped;
    let added = add_ask(alloc, line, &ask, asks);
    let local = below(moved, ask);
    added?;
    Ok(local)
}

/// Takes a step of a task, and adds its ask. It answers the local of the child that is spawned, or else the task's own.
fn step_down(
    alloc: Global,
    body: &JobBody,
    local: JobLocal,
    asks: &mut String,
) -> Result<JobLocal, NoMemory> {
    let line = body.place(&local);
    let stepped = step(alloc, body, local, Answer::Nothing, 9)?;
    below_step(alloc, line, stepped, asks)
}

/// The asks of a task and then of the child that it spawned last, and so on, each with its line.
fn descend_from(
    alloc: Global,
    body: &JobBody,
    root: JobLocal,
    steps: u32,
) -> Result<String, NoMemory> {
    let mut local = root;
    let mut asks = String::new(alloc);
    for _ in 0..steps {
        local = step_down(alloc, body, local, &mut asks)?;
    }
    Ok(asks)
}

/// The like asks from a job's `main` on.
fn descend(alloc: Global, text: &str, steps: u32) -> Result<String, NoMemory> {
    let (body, local) = main_of(alloc, text)?;
    descend_from(alloc, &body, local, steps)
}

#[test]
fn a_task_spawns_itself_with_what_it_gives(rt: HostRuntime) -> Result<(), Fail> {
    let asks = descend(rt.alloc(), RECURSION, 9)?;
    let want =
        "13 queue; 15 spawn 20 1; 8 work; 9 push 0 3; 10 spawn 5 1; 8 work; 9 push 0 2; 10 spawn 5 1; 8 work; ";
    assert!(rt; are_same(asks.as_str(), want));
    Ok(())
}

#[test]
fn a_task_makes_objects_and_pushes_bytes(rt: HostRuntime) -> Result<(), Fail> {
    let asks = descend(rt.alloc(), MAKER, 5)?;
    let want = "4 object 0; 5 queue; 7 push 0 of 2 bytes; 8 push 2 of 0 bytes; 9 finish; ";
    assert!(rt; are_same(asks.as_str(), want));
    Ok(())
}
