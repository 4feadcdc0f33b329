// The top call.
ghost use Rattle.std.specs.Prelude.{IfSome};
ghost use Rattle.swan_top.specs.Command.{command, IsWithinLimits};
ghost use Rattle.swan_top.specs.Completeness.{Completes};
ghost use Rattle.swan_top.specs.Elisions.{elisions};
ghost use Rattle.swan_top.specs.Generated.{NeverRefused};
ghost use Rattle.swan_top.specs.Headline.{Answers, call_over};
ghost use Rattle.swan_top.specs.Pipelines.{WroteOfText};

use crate::engine::Engine;
use crate::settle::settle;
use crate::verdict::WhyStopped;
use crate::write::{write_line, write_settled};
use crate::{Status, Usage, read_words};
use bulk_workload::a_bulk_job_is_never_refused;
use index_pipeline::the_outcome_is_the_index;
use record_pipeline::the_outcome_is_the_conversion;
use std::alloc::Global;
use std::marker::Sync;
use std::sync::Wait;
use std::thread::Threads;
use std::time::Clock;
use swan_model::Word;
use swan_outside::{Files, Gate, Sink};

/// Does what the words ask for, and answers how it ended.
///
/// The order is: the words (Usage), the read of the job (ReadFailed), the job's text, then its names,
/// kinds and rights (JobRefused), the reads of the inputs in order (ReadFailed), their number and then
/// each of them (InputRefused), the run, the write of `out`, the write of `report` (WriteFailed). Want
/// of memory may take the place of any of these but Usage, a refused read and the writes, and then nothing is
/// written.
///
/// Done and Faulted come only where both texts were written whole. Usage, JobRefused, ReadFailed and
/// InputRefused write one line to `report` and nothing to `out`. ReadFailed comes only where a read was
/// refused, for which a count of `files` rose; a call whose read was refused ends so, or as WriteFailed where its line
/// couldn't be written whole. WriteFailed comes only where a sink's count of faults rose,
/// and leaves in that sink a front of its text; where that was `out`, nothing was written to `report`.
///
/// For an index and a conversion the order is: the words (Usage), the read of the text (ReadFailed), its lines
/// (InputRefused), the run, the writes. An index that is Done has written the index of the text that was read, and is
/// never Faulted; a conversion has written its conversion, and the faults of the lines that are left out.
///
/// A generated run reads no file, and its job is never refused: the call ends as the run does, or WriteFailed or NoMemory.
/// A check ends after the job's rights: it writes the job in its canonical form, and runs nothing. The help and the version
/// read nothing and run nothing.
///
/// Where the words are a command, the texts that `files` tells are in order for it, and no count of faults
/// rises, the call ends Done or Faulted as the elision says, or NoMemory.
///
/// All that is said holds for every number of workers, however their steps come between each other, and whatever `gate` does.
///
/// Done and Faulted of `run`, and of `index`, `convert` and `bulk` with several workers, hold a `Ran`, which means the script of
/// the plan that was run: a core ran that plan to its end. Those of all other calls are Plain.
///
/// The contents are those that `files` tells, and what is said of written bytes holds where the sinks
/// tell them. With one worker it starts no thread, asks no gate, and returns once each of its reads and puts has; those of the
/// system may wait, as a read of a pipe that nobody writes to does. With several, they run in threads of `rt`, each asks `gate`
/// before it goes on with a task, and no clause says that it returns. It costs what the reads, the run and the writes cost. Each file is read whole, and each text is made whole before any of it is written.
#[tactic(auto, using(crate::proofs::Completeness::completes))]
pub fn swan<T: Threads + Wait + Clock + Sync, F: Files, O: Sink, R: Sink, G: Gate>(
    rt: &T,
    alloc: Global,
    words: &[Word],
    files: &mut F,
    out: &mut O,
    report: &mut R,
    gate: &G,
) -> Status
    // what was read and settled, how the call ends, and what the sinks have then
    ensures answered { let seen = call_over F.Files O.Sink R.Sink (files.old, out.old, report.old) (files.new, out.new, report.new) in
        Answers elisions seen (command words.now) result }

    // how it ends where the command is in order and nothing outside fails
    ensures complete { let seen = call_over F.Files O.Sink R.Sink (files.old, out.old, report.old) (files.new, out.new, report.new) in
        Completes elisions seen (command words.now) result }

    // what an index and a conversion wrote, told of the text alone
    ensures written_of_text { let seen = call_over F.Files O.Sink R.Sink (files.old, out.old, report.old) (files.new, out.new, report.new) in
        WroteOfText seen (command words.now) result }

    // how a generated run ends, whose job is never refused
    ensures never_refused { let seen = call_over F.Files O.Sink R.Sink (files.old, out.old, report.old) (files.new, out.new, report.new) in
        NeverRefused elisions seen (command words.now) result }
{
    // what the pipelines leave is what they are for, and the generated job is in order
    the_outcome_is_the_index();
    the_outcome_is_the_conversion();
    a_bulk_job_is_never_refused();
    let engine = Engine { rt, alloc, gate };
    follow(&engine, words, files, out, report)
}

// Follows the words: reads, settles and writes.
fn follow<T: Threads + Wait + Clock + Sync, F: Files, O: Sink, R: Sink, G: Gate>(
    engine: &Engine<'_, T, G>,
    words: &[Word],
    files: &mut F,
    out: &mut O,
    report: &mut R,
) -> Status
    ensures answered { let seen = call_over F.Files O.Sink R.Sink (files.old, out.old, report.old) (files.new, out.new, report.new) in
        Answers elisions seen (command words.now) result }
    ensures within_limits { IfSome (command words.now) IsWithinLimits }
{
    let command = match read_words(words) {
        Ok(command) => command,
        Err(Usage) => return write_line(out, report, b"usage\n", Status::Usage),
    };
    match settle(engine, files, command) {
        Ok(settled) => write_settled(out, report, settled),
        Err(WhyStopped::Settled(settled)) => write_settled(out, report, settled),
        Err(WhyStopped::NoMemory) => Status::NoMemory,
    }
}
