// The output: the items that are left in queues.
ghost use Rattle.std.specs.Prelude.{◌≡◌, ◌++◌, length, OnOk, flat_map};
ghost use Rattle.std.specs.List.{zip};
ghost use Rattle.swan_model.specs.Texts.{item_text, items_shown, line};

use crate::text::Text;
use std::alloc::Global;
use swan_model::{NoMemory, QueueName, Shown, Value, Values};

/// Adds the items of each queue that is shown so.
pub fn push_queues(
    alloc: Global,
    out: &mut Text,
    names: &[QueueName],
    queues: &[Values],
) -> Result<(), NoMemory>
    requires { length names.now ≡ length queues.now }
    ensures { OnOk result (out.new ≡ out.old
        ++ flat_map (λ q. items_shown q.0.shown q.1) (zip names.now queues.now)) }
{
    for (index, items) in queues.iter().enumerate() {
        push_queue(alloc, out, names[index].shown, items)?;
    }
    Ok(())
}

/// Adds the items of a queue that is shown so.
fn push_queue(alloc: Global, out: &mut Text, shown: Shown, items: &Values) -> Result<(), NoMemory>
    ensures { OnOk result (out.new ≡ out.old ++ items_shown shown items.now) }
{
    match shown {
        Shown::Out => push_items(alloc, out, items.as_slice()),
        Shown::Left => Ok(()),
    }
}

/// Adds a line for each item.
fn push_items(alloc: Global, out: &mut Text, items: &[Value]) -> Result<(), NoMemory>
    ensures { OnOk result (out.new ≡ out.old ++ flat_map (λ item. line (item_text item)) items.now) }
{
    for item in items {
        push_item(alloc, out, item)?;
    }
    Ok(())
}

/// Adds the line of an item.
fn push_item(alloc: Global, out: &mut Text, item: &Value) -> Result<(), NoMemory>
    ensures { OnOk result (out.new ≡ out.old ++ line (item_text item.now)) }
{
    match item {
        Value::Int(number) => out.push_str(format!(in alloc; "{number}\n")?.as_str()),
        Value::Bytes(record) => {
            out.push_bytes(record.as_slice())?;
            out.push_str("\n")
        }
    }
}
