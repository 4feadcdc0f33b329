// Calls over files and sinks that never fail.
ghost use Rattle.std.specs.Prelude.{Option};
ghost use Rattle.swan_outside.specs.Honest.{HonestFilesState, HonestSinkState};
ghost use Rattle.swan_top.specs.Command.{Command, command};
ghost use Rattle.swan_top.specs.Completeness.{CompletesWell, EndsWell, NothingFailed};
ghost use Rattle.swan_top.specs.Elisions.{elisions};
ghost use Rattle.swan_top.specs.Headline.{Answers, call_over};
ghost use Rattle.swan_top.specs.declared.status.Status.{Status};

use crate::{Status, swan};
use std::alloc::Global;
use std::marker::Sync;
use std::sync::Wait;
use std::thread::Threads;
use std::time::Clock;
use swan_model::Word;
use swan_outside::{Files, Gate, HonestFiles, HonestSink, Sink};

/// The law that over `HonestFiles` and `HonestSink` no count of faults rises, whatever a call leaves of them
/// (`nothing_fails`). So by the clause `answered` of `swan` no call ends as WriteFailed, and one ends as ReadFailed
/// only where a file of the command has more than 67,108,864 bytes, with the line `too long NAME` and nothing in the
/// output (`ends_well`); and where words, job and inputs are in order, the call writes what they come to and ends as Done or Faulted by the elision's
/// outcome, or memory ran out (`completes`). What a sink took is told as long as it fits the sink's room.
#[tactic(auto, using(crate::proofs::Completeness::ends_well, crate::proofs::Completeness::completes_well))]
pub fn honest_calls_end_well()
    // no count of faults rises
    ensures nothing_fails { (files files' : HonestFilesState) (out out' report report' : HonestSinkState) →
        let F = ⟦<HonestFiles as Files>⟧ in let S = ⟦<HonestSink as Sink>⟧ in
        NothingFailed (call_over F S S (files, out, report) (files', out', report')) }

    // so no write fails, and a read is refused only where a file is too long
    ensures ends_well { (files files' : HonestFilesState) (out out' report report' : HonestSinkState)
        (asked : Option Command) (ends : Status) →
        let F = ⟦<HonestFiles as Files>⟧ in let S = ⟦<HonestSink as Sink>⟧ in
        let seen = call_over F S S (files, out, report) (files', out', report') in
        Answers elisions seen asked ends → EndsWell seen asked ends }

    // and a command that is in order writes what it comes to, or memory ran out; words that are no command end as Usage
    ensures completes { (files files' : HonestFilesState) (out out' report report' : HonestSinkState)
        (asked : Option Command) (ends : Status) →
        let F = ⟦<HonestFiles as Files>⟧ in let S = ⟦<HonestSink as Sink>⟧ in
        let seen = call_over F S S (files, out, report) (files', out', report') in
        Answers elisions seen asked ends → CompletesWell elisions seen asked ends }
{}

/// A call of `swan` over files and sinks that never fail, for a caller that has all in memory. It never ends as
/// WriteFailed, and as ReadFailed only where a file of the command has more than 67,108,864 bytes, with the line
/// `too long NAME` in the report and nothing in the output. Where words, job and inputs are in order it writes what they
/// come to and ends as Done or Faulted, or it ends as NoMemory. Words that are no command end as Usage. What a sink took is told
/// as long as it fits the sink's room. It costs what `swan` does, and returns where that does.
pub fn honest_call<T: Threads + Wait + Clock + Sync, G: Gate>(
    rt: &T,
    alloc: Global,
    words: &[Word],
    files: &mut HonestFiles,
    out: &mut HonestSink,
    report: &mut HonestSink,
    gate: &G,
) -> Status
    // no write fails, and a read is refused only where a file is too long
    ensures ends_well { let F = ⟦<HonestFiles as Files>⟧ in let S = ⟦<HonestSink as Sink>⟧ in
        let seen = call_over F S S (files.old, out.old, report.old) (files.new, out.new, report.new) in
        EndsWell seen (command words.now) result }

    // a command that is in order writes what it comes to, or memory ran out; words that are no command end as Usage
    ensures completes { let F = ⟦<HonestFiles as Files>⟧ in let S = ⟦<HonestSink as Sink>⟧ in
        let seen = call_over F S S (files.old, out.old, report.old) (files.new, out.new, report.new) in
        CompletesWell elisions seen (command words.now) result }
{
    honest_calls_end_well();
    swan(rt, alloc, words, files, out, report, gate)
}
