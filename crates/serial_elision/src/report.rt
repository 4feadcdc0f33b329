// The report: the objects, how many items are left, and the faults.
ghost use Rattle.std.specs.Prelude.{◌≡◌, ◌++◌, length, codes, OnOk, flat_map};
ghost use Rattle.std.specs.Fmt.{decimal};
ghost use Rattle.std.specs.List.{zip};
ghost use Rattle.swan_model.specs.Texts.{object_line, left_line, fault_line, path_text, fault_kind_text, trouble_text};

use crate::text::Text;
use std::alloc::Global;
use swan_model::{
    Fault, FaultKind, NoMemory, Path, QueueName, Shown, Trouble, Value, Values, Word,
};

/// Adds a line for each object.
pub fn push_objects(
    alloc: Global,
    report: &mut Text,
    names: &[Word],
    objects: &[Value],
) -> Result<(), NoMemory>
    requires { length names.now ≡ length objects.now }
    ensures { OnOk result (report.new ≡ report.old
        ++ flat_map object_line (zip names.now objects.now)) }
{
    for (index, value) in objects.iter().enumerate() {
        push_object(alloc, report, &names[index], value)?;
    }
    Ok(())
}

/// Adds the line of an object.
fn push_object(alloc: Global, report: &mut Text, name: &Word, value: &Value) -> Result<(), NoMemory>
    ensures { OnOk result (report.new ≡ report.old ++ object_line (name.now, value.now)) }
{
    let name = name.as_str();
    match value {
        Value::Int(number) => {
            report.push_str(format!(in alloc; "object {name} int {number}\n")?.as_str())
        }
        Value::Bytes(record) => {
            report.push_str(format!(in alloc; "object {name} bytes ")?.as_str())?;
            report.push_hex(alloc, record.as_slice())?;
            report.push_str("\n")
        }
    }
}

/// Adds a line for each queue of which the number of items is shown.
pub fn push_left_all(
    alloc: Global,
    report: &mut Text,
    names: &[QueueName],
    queues: &[Values],
) -> Result<(), NoMemory>
    requires { length names.now ≡ length queues.now }
    ensures { OnOk result (report.new ≡ report.old
        ++ flat_map (λ q. left_line q.0.shown q.0.name q.1) (zip names.now queues.now)) }
{
    for (index, items) in queues.iter().enumerate() {
        push_left(alloc, report, &names[index], items)?;
    }
    Ok(())
}

/// Adds the line of a queue of which the number of items is shown.
fn push_left(
    alloc: Global,
    report: &mut Text,
    queue: &QueueName,
    items: &Values,
) -> Result<(), NoMemory>
    ensures { OnOk result (report.new ≡ report.old
        ++ left_line queue.now.shown queue.now.name items.now) }
{
    match queue.shown {
        Shown::Left => {
            let name = queue.name.as_str();
            let count = items.len();
            report.push_str(format!(in alloc; "left {name} {count}\n")?.as_str())
        }
        Shown::Out => Ok(()),
    }
}

/// Adds a line for each fault.
pub fn push_faults(alloc: Global, report: &mut Text, faults: &[Fault]) -> Result<(), NoMemory>
    ensures { OnOk result (report.new ≡ report.old ++ flat_map fault_line faults.now) }
{
    for fault in faults {
        push_fault(alloc, report, fault)?;
    }
    Ok(())
}

/// Adds the line of a fault.
fn push_fault(alloc: Global, report: &mut Text, fault: &Fault) -> Result<(), NoMemory>
    ensures { OnOk result (report.new ≡ report.old ++ fault_line fault.now) }
{
    let place = fault.place;
    report.push_str("fault ")?;
    push_path(alloc, report, &fault.path)?;
    report.push_str(format!(in alloc; " {place} ")?.as_str())?;
    push_kind(alloc, report, fault.kind)?;
    report.push_str("\n")
}

/// Adds a path.
fn push_path(alloc: Global, report: &mut Text, path: &Path) -> Result<(), NoMemory>
    ensures { OnOk result (report.new ≡ report.old ++ path_text path.now) }
{
    match path.parts() {
        [] => report.push_str("/"),
        parts => push_parts(alloc, report, parts),
    }
}

/// Adds the parts of a path.
fn push_parts(alloc: Global, report: &mut Text, parts: &[u32]) -> Result<(), NoMemory>
    ensures { OnOk result (report.new ≡ report.old
        ++ flat_map (λ part. codes "/" ++ decimal part) parts.now) }
{
    for part in parts {
        report.push_str(format!(in alloc; "/{part}")?.as_str())?;
    }
    Ok(())
}

/// Adds what was wrong.
fn push_kind(alloc: Global, report: &mut Text, kind: FaultKind) -> Result<(), NoMemory>
    ensures { OnOk result (report.new ≡ report.old ++ fault_kind_text kind) }
{
    match kind {
        FaultKind::Trouble(trouble) => push_trouble(alloc, report, trouble),
        FaultKind::PopEmpty => report.push_str("PopEmpty"),
        FaultKind::Privilege => report.push_str("Privilege"),
        FaultKind::Alias => report.push_str("Alias"),
        FaultKind::Fuel => report.push_str("Fuel"),
        FaultKind::Depth => report.push_str("Depth"),
    }
}

/// Adds why a task ended itself by a fault.
fn push_trouble(alloc: Global, report: &mut Text, trouble: Trouble) -> Result<(), NoMemory>
    ensures { OnOk result (report.new ≡ report.old ++ trouble_text trouble) }
{
    match trouble {
        Trouble::Overflow => report.push_str("Overflow"),
        Trouble::DivideByZero => report.push_str("DivideByZero"),
        Trouble::Range => report.push_str("Range"),
        Trouble::TooLong => report.push_str("TooLong"),
        Trouble::BadNumber => report.push_str("BadNumber"),
        Trouble::User(number) => report.push_str(format!(in alloc; "User {number}")?.as_str()),
    }
}
