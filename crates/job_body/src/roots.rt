// The names of the root queues and objects.
ghost use Rattle.std.specs.Prelude.{◌≡◌, ◌+◌, ◌≤◌, ◌++◌, flat_map, length, IfOk};
ghost use Rattle.job_body.specs.Tasks.{before_task, root_object_of, root_queue_of, roots, top_lines};

use crate::name_table::{NAMES_MOST, NameTable};
use job_reader::Line;
use std::alloc::Global;
use swan_model::{GIVES_MOST, NoMemory};

/// The names, and after them those of the inputs and outputs.
fn with_queues(alloc: Global, mut names: NameTable, lines: &[Line]) -> Result<NameTable, NoMemory>
    requires room { length names + length lines.now ≤ NAMES_MOST }
    ensures all { IfOk result (λ all. all ≡ names ++ flat_map root_queue_of (before_task lines.now)) }
    ensures few { IfOk result (λ all. length all ≤ length names + length lines.now) }
{
    for line in lines {
        match line {
            Line::Task(_) => break,
            Line::Input(name) | Line::Output(name, _) => names.add(alloc, name)?,
            _ => {}
        }
    }
    Ok(names)
}

/// The names, and after them those of the objects of the top level.
fn with_objects(alloc: Global, mut names: NameTable, lines: &[Line]) -> Result<NameTable, NoMemory>
    requires room { length names + length lines.now ≤ NAMES_MOST }
    ensures { IfOk result (λ all. all ≡ names ++ flat_map root_object_of (before_task lines.now)) }
{
    for line in lines {
        match line {
            Line::Task(_) => break,
            Line::Object(name, _) => names.add(alloc, name)?,
            _ => {}
        }
    }
    Ok(names)
}

/// The names of a job's inputs and outputs and then of its objects. `O(lines log names)`.
pub fn roots_of(alloc: Global, lines: &[Line]) -> Result<NameTable, NoMemory>
    requires few { length lines.now ≤ GIVES_MOST }
    ensures { IfOk result (λ names. names ≡ roots (top_lines lines.now)) }
{
    let queues = with_queues(alloc, NameTable::new(alloc), lines)?;
    with_objects(alloc, queues, lines)
}
