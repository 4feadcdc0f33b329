// What a command leads to.
ghost use Rattle.std.specs.Prelude.{◌≡◌, ◌≤◌, ◌∷◌, [], IfOk, IfErr, Ok};
ghost use Rattle.bulk_workload.specs.declared.texts.TheConstants.{BULK_MOST};
ghost use Rattle.swan_model.specs.declared.plan.TheConstants.{FUEL_MOST};
ghost use Rattle.swan_top.specs.Command.{command_of, IsWithinLimits};
ghost use Rattle.swan_top.specs.Decision.{checked, generated, settled, decision_of_check, decision_of_run, decision_of_text, prints};
ghost use Rattle.swan_top.specs.Elisions.{cheapest, conversion_end, elisions, index_end};
ghost use Rattle.swan_top.specs.Headline.{Leads, Settles, files_over};
ghost use Rattle.swan_top.specs.Settled.{Is, Stops, StopsOver};
ghost use Rattle.swan_top.specs.declared.how.How.TheVariants as how;
ghost use Rattle.swan_top.specs.declared.status.Status.TheVariants as status;

use crate::accept::accept;
use crate::engine::Engine;
use crate::help::{HELP, VERSION};
use crate::inputs::read_inputs;
use crate::read::read_file;
use crate::run::{run_job, run_text};
use crate::verdict::{Settled, WhyStopped};
use crate::way::Way;
use crate::{Command, How, Status};
use bulk_workload::{bulk_fuel, bulk_input, bulk_job};
use index_pipeline::{index_names, index_plan};
use job_reader::write_job;
use privilege_check::CheckedJob;
use record_pipeline::{record_names, record_plan};
use std::alloc::{AllocError, Global};
use std::marker::Sync;
use std::sync::Wait;
use std::thread::Threads;
use std::time::Clock;
use swan_model::{Blob, Word};
use swan_outside::{Files, Gate};

// A text for the output, and nothing to report.
fn settle_text(alloc: Global, text: &str) -> Result<Settled, AllocError>
    ensures { IfOk result (Is (λ verdict. verdict ≡ prints text.now [] (status.Done how.Plain))) }
{
    Ok(Settled::Prints {
        out: Blob::new(Vec::from_slice(alloc, text.as_bytes())?),
        report: Blob::new(Vec::new(alloc)),
        ends: Status::Done(How::Plain),
    })
}

// The canonical text of an accepted job, and that it is accepted.
fn settle_checked(alloc: Global, job: &CheckedJob) -> Result<Settled, WhyStopped>
    ensures ok { IfOk result (Is (λ verdict. verdict ≡ checked (Ok job.now))) }
    ensures err { IfErr result (Stops (λ verdict. verdict ≡ checked (Ok job.now))) }
{
    Ok(Settled::Prints {
        out: Blob::new(write_job(alloc, job.job())?),
        report: Blob::new(Vec::from_slice(alloc, b"checked\n")?),
        ends: Status::Done(How::Plain),
    })
}

// What the check of a job leads to.
fn settle_check<F: Files>(alloc: Global, files: &mut F, job: &Word) -> Result<Settled, WhyStopped>
    ensures ok { IfOk result (Is (Leads (files_over F.Files files.old files.new)
        (job.now ∷ []) (decision_of_check job.now))) }
    ensures err { let seen = files_over F.Files files.old files.new in
        IfErr result (StopsOver seen (Leads seen (job.now ∷ []) (decision_of_check job.now))) }
{
    let text = read_file(alloc, files, job)?;
    let job = accept(alloc, text)?;
    settle_checked(alloc, &job)
}

// What a run of a job leads to.
fn settle_run<T: Threads + Wait + Clock + Sync, F: Files, G: Gate>(
    engine: &Engine<'_, T, G>,
    files: &mut F,
    way: Way,
    fuel: u64,
    job: &Word,
    inputs: &[Word],
) -> Result<Settled, WhyStopped>
    requires { fuel ≤ FUEL_MOST }
    ensures ok { IfOk result (Is (Leads (files_over F.Files files.old files.new)
        (job.now ∷ inputs.now) (decision_of_run (elisions.of_job way) fuel job.now inputs.now))) }
    ensures err { let seen = files_over F.Files files.old files.new in
        IfErr result (StopsOver seen (Leads seen (job.now ∷ inputs.now)
        (decision_of_run (elisions.of_job way) fuel job.now inputs.now))) }
{
    let text = read_file(engine.alloc, files, job)?;
    let job = accept(engine.alloc, text)?;
    let inputs = read_inputs(engine.alloc, files, inputs)?;
    run_job(engine, way, fuel, job, inputs)
}

// What the index of a file leads to.
fn settle_index<T: Threads + Wait + Clock + Sync, F: Files, G: Gate>(
    engine: &Engine<'_, T, G>,
    files: &mut F,
    workers: u32,
    input: &Word,
) -> Result<Settled, WhyStopped>
    ensures ok { IfOk result (Is (Leads (files_over F.Files files.old files.new)
        (input.now ∷ []) (decision_of_text (index_end elisions workers) input.now))) }
    ensures err { let seen = files_over F.Files files.old files.new in
        IfErr result (StopsOver seen (Leads seen (input.now ∷ [])
        (decision_of_text (index_end elisions workers) input.now))) }
{
    let text = read_file(engine.alloc, files, input)?;
    let names = index_names(engine.alloc)?;
    let plan = index_plan(engine.alloc, text.as_slice());
    drop(text);
    run_text(engine, Way::cheapest(workers), plan, &names)
}

// What the conversion of a file leads to.
fn settle_convert<T: Threads + Wait + Clock + Sync, F: Files, G: Gate>(
    engine: &Engine<'_, T, G>,
    files: &mut F,
    workers: u32,
    input: &Word,
) -> Result<Settled, WhyStopped>
    ensures ok { IfOk result (Is (Leads (files_over F.Files files.old files.new)
        (input.now ∷ []) (decision_of_text (conversion_end elisions workers) input.now))) }
    ensures err { let seen = files_over F.Files files.old files.new in
        IfErr result (StopsOver seen (Leads seen (input.now ∷ [])
        (decision_of_text (conversion_end elisions workers) input.now))) }
{
    let text = read_file(engine.alloc, files, input)?;
    let names = record_names(engine.alloc)?;
    let plan = record_plan(engine.alloc, text.as_slice());
    drop(text);
    run_text(engine, Way::cheapest(workers), plan, &names)
}

// What the run of the generated job over its input leads to.
fn settle_bulk<T: Threads + Wait + Clock + Sync, G: Gate>(
    engine: &Engine<'_, T, G>,
    number: u64,
    size: u64,
    workers: u32,
) -> Result<Settled, WhyStopped>
    requires { size ≤ BULK_MOST }
    ensures ok { IfOk result (Is (λ verdict. generated (elisions.of_job (cheapest workers)) number size ≡ settled verdict)) }
    ensures err { IfErr result (Stops (λ verdict. generated (elisions.of_job (cheapest workers)) number size ≡ settled verdict)) }
{
    let alloc = engine.alloc;
    let job = accept(alloc, bulk_job(alloc, size)?)?;
    let inputs = vec![in alloc; Blob::new(bulk_input(alloc, number, size)?)]?;
    run_job(engine, Way::cheapest(workers), bulk_fuel(size), job, inputs)
}

// What a command leads to.
pub(crate) fn settle<T: Threads + Wait + Clock + Sync, F: Files, G: Gate>(
    engine: &Engine<'_, T, G>,
    files: &mut F,
    command: Command<'_>,
) -> Result<Settled, WhyStopped>
    requires { IsWithinLimits (command_of command) }
    ensures ok { IfOk result (Is (Settles elisions (files_over F.Files files.old files.new) (command_of command.entry))) }
    ensures err { let seen = files_over F.Files files.old files.new in
        IfErr result (StopsOver seen (Settles elisions seen (command_of command.entry))) }
{
    match command {
        Command::Help => Ok(settle_text(engine.alloc, HELP)?),
        Command::Version => Ok(settle_text(engine.alloc, VERSION)?),
        Command::Check { job } => settle_check(engine.alloc, files, job),
        Command::Elide { fuel, job, inputs } => {
            settle_run(engine, files, Way::Elide, fuel, job, inputs)
        }
        Command::Run {
            workers,
            fuel,
            job,
            inputs,
        } => settle_run(engine, files, Way::Run { workers }, fuel, job, inputs),
        Command::Index { workers, input } => settle_index(engine, files, workers, input),
        Command::Convert { workers, input } => settle_convert(engine, files, workers, input),
        Command::Bulk {
            number,
            size,
            workers,
        } => settle_bulk(engine, number, size, workers),
    }
}
