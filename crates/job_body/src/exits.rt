// How the blocks of a job go on.
ghost use Rattle.std.specs.Prelude.{◌≡◌, ◌<◌, ◌≤◌, ◌∷◌, length, IfOk, OnOk};
ghost use Rattle.job_body.specs.Blocks.{exits_with, first_exit, with_else, without_first};
ghost use Rattle.job_body.specs.Compiled.{exits_of};

use crate::exit::Exit;
use job_reader::Line;
use std::alloc::Global;
use swan_model::{GIVES_MOST, NoMemory, Stack};

/// How the block goes on that is closed first, of those that are open before some lines and are closed by them; past all lines
/// where there is none. In such a stack the block that is closed first is the top one.
fn first(exits: &Stack<Exit>, end: u32) -> Exit
    ensures { result ≡ first_exit end exits.now }
{
    match exits.top() {
        Some(exit) => *exit,
        None => Exit {
            otherwise: end,
            after: end,
        },
    }
}

/// Sets where the block goes on that is closed first.
fn set_otherwise(exits: &mut Stack<Exit>, index: u32) -> Result<(), NoMemory>
    ensures { OnOk result (exits.new ≡ with_else index exits.old) }
{
    if let Some(exit) = exits.pop() {
        exits.push(Exit {
            otherwise: index,
            after: exit.after,
        })?;
    }
    Ok(())
}

/// Leaves out the block that is closed first.
fn leave(exits: &mut Stack<Exit>)
    ensures { exits.new ≡ without_first exits.old }
{
    let _exit = exits.pop();
}

/// Adds the block that ends before this line.
fn add(exits: &mut Stack<Exit>, index: u32) -> Result<(), NoMemory>
    ensures { OnOk result (exits.new ≡ record { otherwise = index; after = index } ∷ exits.old) }
{
    exits.push(Exit {
        otherwise: index,
        after: index,
    })
}

/// How the blocks go on once the line with this index stands before the lines.
fn enter(exits: &mut Stack<Exit>, index: u32, line: &Line) -> Result<(), NoMemory>
    requires { index < u32.MAX }
    ensures { OnOk result (exits.new ≡ exits_with index line.now exits.old) }
{
    match line {
        Line::Task(_) => exits.clear(),
        Line::If(_) | Line::While(_) => leave(exits),
        Line::Else => set_otherwise(exits, index + 1)?,
        Line::End => add(exits, index + 1)?,
        _ => {}
    }
    Ok(())
}

/// For each line, how the block goes on that the lines from it on close first: so for `if` and `while` the one that the
/// line opens, and for `else` its own; past all lines where there is none. `O(lines)`.
pub fn exits_of(alloc: Global, lines: &[Line]) -> Result<Vec<Exit>, NoMemory>
    requires few { length lines.now ≤ GIVES_MOST }
    ensures { IfOk result (λ all. all.items ≡ exits_of lines.now) }
{
    let mut open = Stack::new(alloc);
    let mut all = Vec::new(alloc);
    let end = lines.len() as u32;
    let mut index = end;
    while index > 0 {
        index -= 1;
        all.push(first(&open, end))?;
        enter(&mut open, index, &lines[index as usize])?;
    }
    all.as_mut_slice().reverse();
    Ok(all)
}
