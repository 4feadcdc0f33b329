// From lines to instructions.
ghost use Rattle.std.specs.Prelude.{◌≡◌, ◌<◌, ◌≤◌, ◌++◌, ◌∷◌, [], length, flat_map, slice_get, zip, IfOk, OnOk};
ghost use Rattle.job_body.specs.Compiled.{TakeFew, after_end_of, action_of, assign_of, branch_of, end_action, exits_of, give_given, instruction_of, int_op, next_of, num_of, or_zero, param_given, program_of, scope_before, spawn_action, task_of_name, tasks_of};
ghost use Rattle.job_body.specs.Blocks.{innermost};
ghost use Rattle.job_body.specs.declared.instruction.Action.TheVariants as action;
ghost use Rattle.job_body.specs.Tasks.{before_task, roots, top_lines, var_kinds};

use crate::block::{BlockWithLine, innermost};
use crate::exit::Exit;
use crate::exits::exits_of;
use crate::instruction::{Action, Demand, Instruction, IntOp, Num, Operand, Work};
use crate::roots::roots_of;
use crate::scope::Scope;
use crate::source::{Source, firsts_of};
use crate::take::Take;
use crate::task_index::TaskIndex;
use crate::tasks::Tasks;
use job_reader::{Atom, Atoms, Line, Op};
use std::alloc::Global;
use swan_model::{GIVES_MOST, Give, Gives, Kind, Listed, NoMemory, Word};

/// The kinds of the variables of the task whose lines stand first among these.
fn kinds_of(alloc: Global, lines: &[Line]) -> Result<Listed<Kind>, NoMemory>
    ensures { IfOk result (λ all. all ≡ var_kinds (before_task lines.now)) }
{
    let mut all = Listed::new(alloc);
    for line in lines {
        match line {
            Line::Task(_) => break,
            Line::Var(_, kind) => {
                if all.push(*kind).is_err() {
                    return Err(NoMemory);
                }
            }
            _ => {}
        }
    }
    Ok(all)
}

/// The values of a task that takes these, as operands.
fn params_of(
    alloc: Global,
    scope: &Scope,
    takes: &[Take],
    args: &[Atom],
) -> Result<Listed<Operand>, NoMemory>
    ensures { IfOk result (λ all. all ≡ flat_map (param_given scope.now) (zip takes.now args.now)) }
{
    let mut all = Listed::new(alloc);
    for (index, take) in takes.iter().enumerate() {
        if index >= args.len() {
            return Ok(all);
        }
        let arg = &args[index];
        if let Take::Param = take {
            if all.push(scope.operand(arg)?).is_err() {
                return Err(NoMemory);
            }
        }
    }
    Ok(all)
}

/// The gives of a task that takes these, which are no more than a spawn may have.
fn gives_of(alloc: Global, scope: &Scope, takes: &[Take], args: &[Atom]) -> Result<Gives, NoMemory>
    requires few { length takes.now ≤ GIVES_MOST }
    ensures { IfOk result (λ all. all ≡ flat_map (give_given scope.now) (zip takes.now args.now)) }
{
    let mut all = Gives::new(alloc);
    for (index, take) in takes.iter().enumerate() {
        if index >= args.len() {
            return Ok(all);
        }
        let arg = &args[index];
        if let Take::Access(mode) = take {
            let place = scope.place_of(arg);
            if all.push(Give { place, mode: *mode }).is_err() {
                return Err(NoMemory);
            }
        }
    }
    Ok(all)
}

/// A spawn. `O(args log names)`.
fn spawn_action(
    alloc: Global,
    lines: &[Line],
    tasks: &Tasks,
    scope: &Scope,
    fuel: &Atom,
    name: &Word,
    args: &Atoms,
) -> Result<Action, NoMemory>
    requires short { length lines.now ≤ GIVES_MOST }
    requires few { TakeFew tasks.now }
    ensures { IfOk result (λ action. action ≡ spawn_action lines.now scope.now fuel.now (task_of_name tasks.now name.now) args.now) }
{
    let fuel = scope.operand(fuel)?;
    let Some(task) = tasks.find(name) else {
        let index = TaskIndex::new(lines.len() as u32);
        return Ok(Action::Demand(Demand::Spawn(
            fuel,
            index,
            Listed::new(alloc),
            Gives::new(alloc),
        )));
    };
    let index = TaskIndex::new(task.index.index());
    let takes = task.takes.as_slice();
    let Ok(params) = params_of(alloc, scope, takes, args.as_slice()) else {
        drop(fuel);
        return Err(NoMemory);
    };
    let Ok(gives) = gives_of(alloc, scope, takes, args.as_slice()) else {
        drop(fuel);
        drop(params);
        return Err(NoMemory);
    };
    Ok(Action::Demand(Demand::Spawn(fuel, index, params, gives)))
}

/// The atom at an index as an operand, or the number 0 where there is none.
fn argument(scope: &Scope, args: &Atoms, index: usize) -> Result<Operand, NoMemory>
    ensures { IfOk result (λ operand. operand ≡ or_zero scope.now (slice_get args.now index)) }
{
    match args.get(index) {
        Some(atom) => scope.operand(atom),
        None => Ok(Operand::Int(0)),
    }
}

/// The number that an operand means. Bytes count as 0.
fn num_of(operand: &Operand) -> Num
    ensures { result ≡ num_of operand.now }
{
    match operand {
        Operand::Int(number) => Num::Const(*number),
        Operand::Bytes(_) => Num::Const(0),
        Operand::Variable(slot) => Num::Slot(*slot),
    }
}

/// An operation as one on numbers, where it looks at nothing but numbers and gives one.
fn int_op(op: Op) -> Option<IntOp>
    ensures { result ≡ int_op op }
{
    match op {
        Op::Add => Some(IntOp::Add),
        Op::Sub => Some(IntOp::Sub),
        Op::Mul => Some(IntOp::Mul),
        Op::Div => Some(IntOp::Div),
        Op::Rem => Some(IntOp::Rem),
        Op::Lt => Some(IntOp::Lt),
        Op::Le => Some(IntOp::Le),
        Op::And => Some(IntOp::And),
        Op::Or => Some(IntOp::Or),
        Op::Not => Some(IntOp::Not),
        _ => None,
    }
}

/// An assignment. One on numbers takes them from where they stand.
fn assign_of(op: Op, slot: Option<u32>, a: Operand, b: Operand, c: Operand) -> Work
    ensures { result ≡ assign_of op slot a b c }
{
    match (int_op(op), slot) {
        (Some(op), Some(slot)) => Work::Ints(op, slot, num_of(&a), num_of(&b)),
        _ => Work::Assign(slot, op, a, b, c),
    }
}

/// An assignment to this slot of what an operation makes of its arguments.
fn assign(scope: &Scope, slot: Option<u32>, op: Op, args: &Atoms) -> Result<Action, NoMemory>
    ensures { IfOk result (λ made. made ≡ action.Work (assign_of op slot (or_zero scope.now (slice_get args.now 0)) (or_zero scope.now (slice_get args.now 1)) (or_zero scope.now (slice_get args.now 2)))) }
{
    let first = argument(scope, args, 0)?;
    let Ok(second) = argument(scope, args, 1) else {
        drop(first);
        return Err(NoMemory);
    };
    let Ok(third) = argument(scope, args, 2) else {
        drop(first);
        drop(second);
        return Err(NoMemory);
    };
    Ok(Action::Work(assign_of(op, slot, first, second, third)))
}

/// A branch: where an atom is false, the task goes on from the line at an index.
fn branch_of(job: &Source, scope: &Scope, a: &Atom, otherwise: u32) -> Result<Action, NoMemory>
    ensures { IfOk result (λ action. action ≡ branch_of job.now scope.now a.now otherwise) }
{
    let condition = num_of(&scope.operand(a)?);
    Ok(Action::Work(Work::Branch(condition, job.step_from(otherwise))))
}

/// What the `end` of the innermost block does, or that of the task.
fn end_of(scope: &Scope) -> Action
    ensures { result ≡ end_action (innermost scope.now.blocks) }
{
    match innermost(&scope.blocks) {
        Some(_) => Action::Work(Work::Go),
        None => Action::Demand(Demand::Finish),
    }
}

/// What a line does.
fn action_of(
    alloc: Global,
    job: &Source,
    tasks: &Tasks,
    scope: &Scope,
    exit: Exit,
    index: u32,
    line: &Line,
) -> Result<Action, NoMemory>
    requires short { length job.now ≤ GIVES_MOST }
    requires within { index < length job.now }
    requires few { TakeFew tasks.now }
    ensures { IfOk result (λ action. action ≡ action_of job.now tasks.now scope.now exit index line.now) }
{
    match line {
        Line::Task(_) => Ok(Action::Demand(Demand::Begin(kinds_of(
            alloc,
            &job.lines()[index as usize + 1..],
        )?))),
        Line::Queue(_, _) => Ok(Action::Demand(Demand::NewQueue)),
        Line::Object(_, kind) => Ok(Action::Demand(Demand::NewObject(*kind))),
        Line::Assign(v, op, args) => assign(scope, scope.slot(v), *op, args),
        Line::Read(v, o) => Ok(Action::Demand(Demand::Read(scope.slot(v), scope.place(o)))),
        Line::Write(o, a) => Ok(Action::Demand(Demand::Write(scope.place(o), scope.operand(a)?))),
        Line::Push(q, a) => Ok(Action::Demand(Demand::Push(scope.place(q), scope.operand(a)?))),
        Line::Pop(v, q) => Ok(Action::Demand(Demand::Pop(scope.slot(v), scope.place(q)))),
        Line::Empty(v, q) => Ok(Action::Demand(Demand::Empty(scope.slot(v), scope.place(q)))),
        Line::Spawn(fuel, task, args) => spawn_action(
            alloc,
            job.lines(),
            tasks,
            scope,
            fuel,
            task,
            args,
        ),
        Line::Sync => Ok(Action::Demand(Demand::Sync)),
        Line::Caught(v) => Ok(Action::Work(Work::Caught(scope.slot(v)))),
        Line::Fuel(v) => Ok(Action::Work(Work::Fuel(scope.slot(v)))),
        Line::Fail(a) => Ok(Action::Demand(Demand::Fail(scope.operand(a)?))),
        Line::If(a) => branch_of(job, scope, a, exit.otherwise),
        Line::Else => Ok(Action::Work(Work::Go)),
        Line::While(a) => branch_of(job, scope, a, exit.after),
        Line::End => Ok(end_of(scope)),
        _ => Ok(Action::Demand(Demand::Finish)),
    }
}

/// Where the task goes on after an `end`.
fn after_end_of(job: &Source, index: u32, block: Option<BlockWithLine>) -> u32
    requires { index < u32.MAX }
    ensures { result ≡ after_end_of job.now index block }
{
    match block {
        Some(BlockWithLine::While(opener)) => job.step_from(opener),
        _ => job.step_from(index + 1),
    }
}

/// Where the task goes on after a line.
fn next_of(job: &Source, scope: &Scope, exit: Exit, index: u32, line: &Line) -> u32
    requires { index < u32.MAX }
    ensures { result ≡ next_of job.now scope.now exit index line.now }
{
    match line {
        Line::Else => job.step_from(exit.after),
        Line::End => after_end_of(job, index, innermost(&scope.blocks)),
        _ => job.step_from(index + 1),
    }
}

/// The instruction of a line.
fn instruction_of(
    alloc: Global,
    job: &Source,
    tasks: &Tasks,
    scope: &Scope,
    exit: Exit,
    index: u32,
    line: &Line,
) -> Result<Instruction, NoMemory>
    requires short { length job.now ≤ GIVES_MOST }
    requires within { index < length job.now }
    requires few { TakeFew tasks.now }
    ensures { IfOk result (λ it. it ≡ instruction_of job.now tasks.now scope.now exit index line.now) }
{
    let action = action_of(alloc, job, tasks, scope, exit, index, line)?;
    let next = next_of(job, scope, exit, index, line);
    Ok(Instruction { action, next })
}

/// Adds the instruction of a line. Err is want of memory, and adds none.
fn add_instruction(
    alloc: Global,
    job: &Source,
    tasks: &Tasks,
    scope: &Scope,
    exit: Exit,
    index: u32,
    line: &Line,
    program: &mut Listed<Instruction>,
) -> Result<(), NoMemory>
    requires short { length job.now ≤ GIVES_MOST }
    requires within { index < length job.now }
    requires few { TakeFew tasks.now }
    ensures { OnOk result (program.new ≡ program.old ++ instruction_of job.now tasks.now scope.now exit index line.now ∷ []) }
{
    let instruction = instruction_of(alloc, job, tasks, scope, exit, index, line)?;
    match program.push(instruction) {
        Ok(()) => Ok(()),
        Err(back) => {
            drop(back);
            Err(NoMemory)
        }
    }
}

/// Adds the instructions of a job to an empty program, one for each line, by its tasks, by how the block of each line goes on, and by what is
/// known before the first one. `O(n log n)` for n lines, names and values of the job.
fn add_instructions(
    alloc: Global,
    job: &Source,
    tasks: &Tasks,
    exits: &Vec<Exit>,
    scope: &mut Scope,
    program: &mut Listed<Instruction>,
) -> Result<(), NoMemory>
    // what is known of the job
    requires few { length job.now ≤ GIVES_MOST }
    requires tasks { tasks.now ≡ tasks_of job.now }
    requires exits { exits.now.items ≡ exits_of job.now }

    // where it begins, and what it makes
    requires scope { scope.old ≡ scope_before (roots (top_lines job.now)) }
    requires none { program.old ≡ [] }
    ensures { OnOk result (program.new ≡ program_of job.now) }
{
    let lines = job.lines();
    for (index, line) in lines.iter().enumerate() {
        let exit = exits[index];
        let at = index as u32;
        add_instruction(alloc, job, tasks, scope, exit, at, line, program)?;
        scope.enter(alloc, at, line)?;
    }
    Ok(())
}

/// The instructions of a job, one for each line, by its tasks, by how the block of each line goes on, and by what is known before the
/// first one.
fn instructions_of(
    alloc: Global,
    job: &Source,
    tasks: &Tasks,
    exits: &Vec<Exit>,
    mut scope: Scope,
) -> Result<Listed<Instruction>, NoMemory>
    requires few { length job.now ≤ GIVES_MOST }
    requires tasks { tasks.now ≡ tasks_of job.now }
    requires exits { exits.now.items ≡ exits_of job.now }
    requires scope { scope ≡ scope_before (roots (top_lines job.now)) }
    ensures { IfOk result (λ program. program ≡ program_of job.now) }
{
    let mut program = Listed::new(alloc);
    let added = add_instructions(alloc, job, tasks, exits, &mut scope, &mut program);
    drop(scope);
    match added {
        Ok(()) => Ok(program),
        Err(refusal) => {
            drop(program);
            Err(refusal)
        }
    }
}

/// The instructions of the job that has these lines, by its tasks, and by how the block of each line goes on.
fn program_by(
    alloc: Global,
    lines: &[Line],
    tasks: &Tasks,
    exits: &Vec<Exit>,
) -> Result<Listed<Instruction>, NoMemory>
    requires few { length lines.now ≤ GIVES_MOST }
    requires tasks { tasks.now ≡ tasks_of lines.now }
    requires exits { exits.now.items ≡ exits_of lines.now }
    ensures { IfOk result (λ program. program ≡ program_of lines.now) }
{
    let job = Source::new(lines, firsts_of(alloc, lines)?);
    let program = match roots_of(alloc, lines) {
        Ok(roots) => instructions_of(alloc, &job, tasks, exits, Scope::new(alloc, roots)),
        Err(refusal) => Err(refusal),
    };
    drop(job);
    program
}

/// The instructions of a job, one for each line. A job has fewer lines than a spawn may have gives.
/// `O(n log n)` for n lines, names and values of the job.
pub fn program_of(alloc: Global, lines: &[Line]) -> Result<Listed<Instruction>, NoMemory>
    requires few { length lines.now ≤ GIVES_MOST }
    ensures { IfOk result (λ program. program ≡ program_of lines.now) }
{
    let tasks = Tasks::of(alloc, lines)?;
    let program = match exits_of(alloc, lines) {
        Ok(exits) => program_by(alloc, lines, &tasks, &exits),
        Err(refusal) => Err(refusal),
    };
    drop(tasks);
    program
}
