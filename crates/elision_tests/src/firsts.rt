// What the plans of tests begin with.
ghost use Rattle.std.specs.Prelude.{◌+◌, ◌<◌, ◌↔◌, length, IsTrue};
ghost use Rattle.swan_model.specs.declared.plan.TheConstants.{ROOTS_MOST};

use serial_elision::{Printed, print};
use std::alloc::Global;
use std::test::Fail;
use swan_model::{
    FIRST_ITEMS_MOST, Mode, Names, NoMemory, Outcome, QueueName, QueueNames, ROOTS_MOST, Record,
    RootQueue, Roots, Shown, Value, Values, Word, Words,
};

/// The root queues `jobs`, with the items 10 and 20 to pop, and `lines` to push to, and the root objects `count`,
/// the number 7, and `name`, two bytes. So the root's places are 0 to 3.
pub fn roots(alloc: Global) -> Result<Roots, Fail> {
    let mut roots = Roots::new(alloc);
    add_roots(alloc, &mut roots)?;
    Ok(roots)
}

fn add_roots(alloc: Global, roots: &mut Roots) -> Result<(), Fail> {
    add_queues(alloc, roots)?;
    add_objects(alloc, roots)
}

fn add_queues(alloc: Global, roots: &mut Roots) -> Result<(), Fail> {
    add_queue(roots, Mode::Pop, jobs(alloc)?)?;
    add_queue(roots, Mode::Push, Values::new(alloc))
}

fn add_objects(alloc: Global, roots: &mut Roots) -> Result<(), Fail> {
    add_object(roots, Value::Int(7))?;
    add_object(roots, name_bytes(alloc)?)
}

/// The value of `name`.
fn name_bytes(alloc: Global) -> Result<Value, Fail> {
    let name = Record::of(alloc, b"\xab\x0c").ok().ok_or("no memory")?;
    Ok(Value::Bytes(name))
}

fn jobs(alloc: Global) -> Result<Values, Fail> {
    let mut jobs = Values::new(alloc);
    for item in [10, 20] {
        jobs.push(Value::Int(item)).ok().ok_or("no memory")?;
    }
    Ok(jobs)
}

fn has_room(roots: &Roots) -> bool
    ensures { IsTrue result ↔ (length roots.now.queues + length roots.now.objects < ROOTS_MOST) }
{
    let queues = roots.queues().len();
    let objects = roots.objects().len();
    queues + objects < ROOTS_MOST
}

fn add_queue(roots: &mut Roots, mode: Mode, items: Values) -> Result<(), Fail> {
    if !has_room(roots) || !mode.is_of_queues() || items.len() > FIRST_ITEMS_MOST {
        return Err("no room".into());
    }
    match roots.push_queue(RootQueue { mode, items }) {
        Ok(()) => Ok(()),
        Err(_) => Err("no memory".into()),
    }
}

fn add_object(roots: &mut Roots, value: Value) -> Result<(), Fail> {
    if !has_room(roots) {
        return Err("no room".into());
    }
    match roots.push_object(value) {
        Ok(()) => Ok(()),
        Err(_) => Err("no memory".into()),
    }
}

/// Adds the name of a queue, and how it is shown.
fn add_queue_name(
    alloc: Global,
    queues: &mut QueueNames,
    name: &str,
    shown: Shown,
) -> Result<(), NoMemory> {
    let name = Word::of(alloc, name)?;
    match queues.push(QueueName { name, shown }) {
        Ok(()) => Ok(()),
        Err(_) => Err(NoMemory),
    }
}

/// Adds the names of the queues.
fn add_queue_names(alloc: Global, queues: &mut QueueNames) -> Result<(), NoMemory> {
    add_queue_name(alloc, queues, "jobs", Shown::Left)?;
    add_queue_name(alloc, queues, "lines", Shown::Out)
}

/// The names of the queues.
fn queue_names(alloc: Global) -> Result<QueueNames, NoMemory> {
    let mut queues = QueueNames::new(alloc);
    add_queue_names(alloc, &mut queues)?;
    Ok(queues)
}

/// Adds the name of an object.
fn add_object_name(alloc: Global, objects: &mut Words, name: &str) -> Result<(), NoMemory> {
    match objects.push(Word::of(alloc, name)?) {
        Ok(()) => Ok(()),
        Err(_) => Err(NoMemory),
    }
}

/// Adds the names of the objects.
fn add_object_names(alloc: Global, objects: &mut Words) -> Result<(), NoMemory> {
    add_object_name(alloc, objects, "count")?;
    add_object_name(alloc, objects, "name")
}

/// The names of the objects.
fn object_names(alloc: Global) -> Result<Words, NoMemory> {
    let mut objects = Words::new(alloc);
    add_object_names(alloc, &mut objects)?;
    Ok(objects)
}

/// The names of the roots.
fn names(alloc: Global) -> Result<Names, NoMemory> {
    let queues = queue_names(alloc)?;
    let objects = object_names(alloc)?;
    Ok(Names { queues, objects })
}

/// The two texts of what a plan leaves with roots of these names.
fn printed_with(alloc: Global, names: &Names, outcome: &Outcome) -> Result<Printed, Fail> {
    if names.queues.len() != outcome.queues.len() || names.objects.len() != outcome.objects.len() {
        return Err("another number of roots".into());
    }
    Ok(print(alloc, names, outcome)?)
}

/// The two texts of what a plan with these roots leaves.
pub fn printed(alloc: Global, outcome: &Outcome) -> Result<Printed, Fail> {
    let names = names(alloc)?;
    printed_with(alloc, &names, outcome)
}
