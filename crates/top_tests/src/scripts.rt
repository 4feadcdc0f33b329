// Scripts of known jobs. Each was traced by hand through the lines of its job.
ghost use Rattle.std.specs.Prelude.{◌≤◌};
ghost use Rattle.swan_model.specs.declared.plan.TheConstants.{FUEL_MOST};

use crate::helpers::{assert_text, cut, number_of};
use crate::jobs::{NAMES, TEXTS};
use job_body::{JobBody, plan_of};
use job_reader::read_job;
use privilege_check::{CheckedJob, check};
use serial_elision::script_of;
use std::alloc::Global;
use std::process::Abort;
use std::test::Fail;
use swan_model::{
    Blob, Deed, Entry, FUEL_MOST, NoMemory, Origin, OriginGive, Path, Plan, Record, Script, Value,
    ValueLists, Values,
};

/// A job that counts to 2 in one child and to 0 in the other, and pushes two numbers in each.
const SHORT: &str =
    "swan 1\noutput out int\ntask count\n  param n int\n  param base int\n  push out int\n  var i int\n  var go int\n  do\n  go = lt i n\n  while go\n    i = add i 1\n    go = lt i n\n  end\n  push out base\n  i = add base 1\n  push out i\nend\ntask main\n  do\n  spawn 1000 count 2 10 out\n  spawn 1000 count 0 20 out\nend\n";

/// Fuel, job and inputs of a run, with | between them; then the first items of each root queue, the first
/// value of each root object, and the entries: the path, the deed, and whether the task ends by it.
const SCRIPTS: &str = "\
2003|short|
queue
/ spawn root 0 Push
/0 quiet
/0 quiet
/0 quiet
/0 quiet
/0 quiet
/0 quiet
/0 quiet
/0 quiet
/0 quiet
/0 quiet
/0 push root 0 10
/0 quiet
/0 push root 0 11
/0 quiet end
/ spawn root 0 Push
/1 quiet
/1 quiet
/1 push root 0 20
/1 quiet
/1 push root 0 21
/1 quiet end
/ quiet end

123|d|five
queue 'a' 'b' 'c' 'd' 'e'
queue
/ spawn root 0 Pop root 1 Push
/0 pop root 0
/0 push root 1 'a'
/0 pop root 0
/0 push root 1 'b'
/0 pop root 0
/0 push root 1 'c'
/0 push root 1 '--'
/0 quiet end
/ spawn root 0 Pop root 1 Push
/1 test root 0
/1 quiet
/1 quiet
/1 pop root 0
/1 push root 1 'd'
/1 test root 0
/1 quiet
/1 quiet
/1 quiet
/1 pop root 0
/1 push root 1 'e'
/1 test root 0
/1 quiet
/1 quiet
/1 quiet
/1 quiet end
/ quiet end

22|f|
queue
/ queue
/ spawn step 0 Pop root 0 Push
/0 push root 0 'before'
/0 pop step 0 end
/ spawn root 0 Push
/1 push root 0 'after'
/1 quiet end
/ quiet end

23|h|
queue
/ spawn root 0 Push
/0 spawn root 0 Push
/0/0 push root 0 1
/0/0 quiet end
/0 push root 0 2
/0 quiet end
/ push root 0 3
/ quiet end

20|i|
queue
object 0
/ write root 0 4
/ spawn root 0 In root 0 Push
/0 read root 0
/0 push root 0 4
/0 quiet end
/ spawn root 0 Out
/1 write root 0 9
/1 quiet end
/ spawn root 0 In root 0 Push
/2 read root 0
/2 push root 0 9
/2 quiet end
/ quiet end

5|j|
object 0
/ write root 0 4
/ spawn root 0 Out
/0 quiet end
/ quiet end

3|j|
object 0
/ write root 0 4
/ quiet end";

// The text of the job or the input that has this name.
fn text_of(name: &str) -> Result<&'static str, Fail> {
    if name == "short" {
        return Ok(SHORT);
    }
    match NAMES.split_whitespace().position(|known| known == name) {
        Some(index) => text_at(index),
        None => Err("no such file".into()),
    }
}

// The text of the file that stands at this place.
fn text_at(index: usize) -> Result<&'static str, Fail> {
    match TEXTS.get(index) {
        Some(text) => Ok(*text),
        None => Err("no such file".into()),
    }
}

// The job that has this name.
fn job_of(alloc: Global, name: &str) -> Result<CheckedJob, Fail> {
    let job = read_job(alloc, text_of(name)?.as_bytes());
    let job = check(alloc, job.ok().ok_or("no job")?);
    Ok(job.ok().ok_or("no checked job")?)
}

// Adds the input of this name.
fn add_input(alloc: Global, inputs: &mut Vec<Blob>, name: &str) -> Result<(), Fail> {
    let input = text_of(name)?.as_bytes().to_vec(alloc)?;
    inputs.push(Blob::new(input))?;
    Ok(())
}

// The inputs of these names, which stand between spaces.
fn inputs_of(alloc: Global, names: &str) -> Result<Vec<Blob>, Fail> {
    let mut inputs = Vec::new(alloc);
    for name in names.split_whitespace() {
        if let Err(fail) = add_input(alloc, &mut inputs, name) {
            drop(inputs);
            return Err(fail);
        }
    }
    Ok(inputs)
}

// The plan of a job over these inputs.
pub fn plan_of_files(
    alloc: Global,
    fuel: u32,
    job: &str,
    inputs: &str,
) -> Result<Plan<JobBody>, Fail> {
    let fuel = u64::from(fuel);
    if fuel > FUEL_MOST {
        return Err("too much fuel".into());
    }
    let inputs = inputs_of(alloc, inputs)?;
    match job_of(alloc, job) {
        Ok(job) => plan_over(alloc, job, inputs, fuel),
        Err(fail) => {
            drop(inputs);
            Err(fail)
        }
    }
}

// The plan of a checked job over these inputs.
fn plan_over(
    alloc: Global,
    job: CheckedJob,
    inputs: Vec<Blob>,
    fuel: u64,
) -> Result<Plan<JobBody>, Fail>
    requires { fuel ≤ FUEL_MOST }
{
    match plan_of(alloc, job, inputs, fuel) {
        Ok(plan) => Ok(plan),
        Err(_) => Err("no plan".into()),
    }
}

// The plan of a run: its fuel, its job and its inputs, with | between them.
fn plan_of_run(alloc: Global, run: &str) -> Result<Plan<JobBody>, Fail> {
    let (fuel, others) = cut(run)?;
    let (job, inputs) = cut(others)?;
    plan_of_files(alloc, number_of(Some(fuel))?, job, inputs)
}

// A number after a space.
fn words_of_number(alloc: Global, number: i64) -> Result<String, NoMemory> {
    Ok(format!(in alloc; " {number}")?)
}

// Bytes in quotes after a space.
fn words_of_bytes(alloc: Global, record: &Record) -> Result<String, NoMemory> {
    let bytes = String::from_utf8_lossy(alloc, record.as_slice())?;
    Ok(format!(in alloc; " '{bytes}'")?)
}

// A value after a space.
fn words_of_value(alloc: Global, value: &Value) -> Result<String, NoMemory> {
    match value {
        Value::Int(number) => words_of_number(alloc, *number),
        Value::Bytes(record) => words_of_bytes(alloc, record),
    }
}

// Values, each after a space.
fn words_of_values(alloc: Global, values: &[Value]) -> Result<String, NoMemory> {
    let mut words = String::new(alloc);
    for value in values {
        words.push_str(words_of_value(alloc, value)?.as_str())?;
    }
    Ok(words)
}

// A line of a word and what stands after it.
fn line_of(alloc: Global, word: &str, others: &str) -> Result<String, NoMemory> {
    Ok(format!(in alloc; "{word}{others}\n")?)
}

// A line of a word and values.
pub fn line_of_values(alloc: Global, word: &str, values: &[Value]) -> Result<String, NoMemory> {
    let values = words_of_values(alloc, values)?;
    line_of(alloc, word, values.as_str())
}

// A line of values for each queue.
pub fn lines_of_queues(alloc: Global, queues: &ValueLists) -> Result<String, NoMemory> {
    let mut lines = String::new(alloc);
    for items in queues.as_slice() {
        lines.push_str(line_of_values(alloc, "queue", items.as_slice())?.as_str())?;
    }
    Ok(lines)
}

// A line for each object.
fn lines_of_objects(alloc: Global, objects: &Values) -> Result<String, NoMemory> {
    let mut lines = String::new(alloc);
    for value in objects.as_slice() {
        let value = words_of_value(alloc, value)?;
        lines.push_str(line_of(alloc, "object", value.as_str())?.as_str())?;
    }
    Ok(lines)
}

// A root's number after a space.
fn words_of_root(alloc: Global, index: u32) -> Result<String, NoMemory> {
    Ok(format!(in alloc; " root {index}")?)
}

// A step's number after a space.
fn words_of_step(alloc: Global, number: u64) -> Result<String, NoMemory> {
    Ok(format!(in alloc; " step {number}")?)
}

// An origin after a space.
fn words_of_origin(alloc: Global, origin: Origin) -> Result<String, NoMemory> {
    match origin {
        Origin::Root(index) => words_of_root(alloc, index),
        Origin::Step(number) => words_of_step(alloc, number),
    }
}

// One word after another.
fn joined(alloc: Global, first: &str, second: &str) -> Result<String, NoMemory> {
    Ok(format!(in alloc; "{first}{second}")?)
}

// A word and an origin.
fn words_at(alloc: Global, word: &str, origin: Origin) -> Result<String, NoMemory> {
    let origin = words_of_origin(alloc, origin)?;
    joined(alloc, word, origin.as_str())
}

// A word and a value.
fn words_with(alloc: Global, word: &str, value: &Value) -> Result<String, NoMemory> {
    let value = words_of_value(alloc, value)?;
    joined(alloc, word, value.as_str())
}

// A word, an origin and a value.
fn words_at_with(
    alloc: Global,
    word: &str,
    origin: Origin,
    value: &Value,
) -> Result<String, NoMemory> {
    let word = words_at(alloc, word, origin)?;
    words_with(alloc, word.as_str(), value)
}

// An origin and a mode.
fn words_of_give(alloc: Global, give: &OriginGive) -> Result<String, NoMemory> {
    let origin = words_of_origin(alloc, give.origin)?;
    let mode = give.mode;
    Ok(format!(in alloc; "{origin} {mode:?}")?)
}

// What a child is given.
fn words_of_gives(alloc: Global, gives: &[OriginGive]) -> Result<String, NoMemory> {
    let mut words = String::new(alloc);
    for give in gives {
        words.push_str(words_of_give(alloc, give)?.as_str())?;
    }
    Ok(words)
}

// A spawn, with what the child is given.
fn words_of_spawn(alloc: Global, gives: &[OriginGive]) -> Result<String, NoMemory> {
    let gives = words_of_gives(alloc, gives)?;
    joined(alloc, " spawn", gives.as_str())
}

// A deed that is its word.
fn lone(alloc: Global, word: &str) -> Result<String, NoMemory> {
    Ok(String::from_str(alloc, word)?)
}

// A deed after a space.
fn words_of_deed(alloc: Global, deed: &Deed) -> Result<String, NoMemory> {
    match deed {
        Deed::MakeQueue => lone(alloc, " queue"),
        Deed::MakeObject(value) => words_with(alloc, " object", value),
        Deed::Spawn(gives) => words_of_spawn(alloc, gives.as_slice()),
        Deed::Push(origin, value) => words_at_with(alloc, " push", *origin, value),
        Deed::Pop(origin) => words_at(alloc, " pop", *origin),
        Deed::Test(origin) => words_at(alloc, " test", *origin),
        Deed::Read(origin) => words_at(alloc, " read", *origin),
        Deed::Write(origin, value) => words_at_with(alloc, " write", *origin, value),
        Deed::Sync => lone(alloc, " sync"),
        Deed::Quiet => lone(alloc, " quiet"),
    }
}

// A part of a path, as reports show it.
fn words_of_part(alloc: Global, part: u32) -> Result<String, NoMemory> {
    Ok(format!(in alloc; "/{part}")?)
}

// A path, as reports show it.
fn words_of_path(alloc: Global, path: &Path) -> Result<String, NoMemory> {
    if path.parts().is_empty() {
        return lone(alloc, "/");
    }
    let mut words = String::new(alloc);
    for part in path.parts() {
        words.push_str(words_of_part(alloc, *part)?.as_str())?;
    }
    Ok(words)
}

// The path, the deed, and whether the task ends by it.
fn line_of_entry(alloc: Global, entry: &Entry) -> Result<String, NoMemory> {
    let path = words_of_path(alloc, &entry.path)?;
    let deed = words_of_deed(alloc, &entry.deed)?;
    let deed = joined(alloc, deed.as_str(), if entry.ends { " end" } else { "" })?;
    line_of(alloc, path.as_str(), deed.as_str())
}

// A line for each entry.
fn lines_of_entries(alloc: Global, entries: &[Entry]) -> Result<String, NoMemory> {
    let mut lines = String::new(alloc);
    for entry in entries {
        lines.push_str(line_of_entry(alloc, entry)?.as_str())?;
    }
    Ok(lines)
}

// All that a script says, one line for each queue, each object and each entry.
fn shown(alloc: Global, script: &Script) -> Result<String, NoMemory> {
    let queues = lines_of_queues(alloc, &script.queues)?;
    let objects = lines_of_objects(alloc, &script.objects)?;
    let entries = lines_of_entries(alloc, script.entries.as_slice())?;
    Ok(format!(in alloc; "{queues}{objects}{entries}")?)
}

// What the script of a run says.
fn shown_of(alloc: Global, run: &str) -> Result<String, Fail> {
    let plan = plan_of_run(alloc, run)?;
    let script = script_of(alloc, plan)?;
    Ok(shown(alloc, &script)?)
}

// Asserts the script that stands below its run.
fn hold_script(rt: &impl Abort, alloc: Global, block: &str) -> Result<(), Fail> {
    let (run, lines) = block.split_once('\n').ok_or("no script")?;
    let text = shown_of(alloc, run)?;
    assert_text(rt, text.as_str().trim_end(), lines, "the script", run);
    Ok(())
}

#[test]
fn a_script_has_an_entry_for_each_line_that_is_executed(rt: HostRuntime) -> Result<(), Fail> {
    for block in SCRIPTS.split("\n\n") {
        hold_script(&rt, rt.alloc(), block)?;
    }
    Ok(())
}
