// Texts that go in, the pipelines that they go through, and the two texts that a plan's outcome is printed as.
use serial_elision::{Printed, elide, print};
use std::alloc::Global;
use std::process::Abort;
use swan_model::{Body, Names, NoMemory, Outcome, Plan};

/// A pipeline.
#[derive(Clone, Copy, Debug)]
pub enum Of {
    /// The index.
    Index,
    /// The conversion.
    Conversion,
    /// The fold that adds.
    Fold,
}

/// A text so many times. It has no clause: what is asserted of so long a text is no matter of proof.
pub fn repeated(rt: &impl Abort, alloc: Global, text: &[u8], count: usize) -> Vec<u8> {
    match text.repeat(alloc, count) {
        Ok(bytes) => bytes,
        Err(_) => panic!(rt; "no memory"),
    }
}

/// A text so many times, and then another so many times.
pub fn in_turn(
    rt: &impl Abort,
    alloc: Global,
    first: &[u8],
    first_count: usize,
    second: &[u8],
    second_count: usize,
) -> Vec<u8> {
    let mut all = repeated(rt, alloc, first, first_count);
    add(rt, &mut all, &repeated(rt, alloc, second, second_count));
    all
}

/// Adds bytes to others.
pub fn add(rt: &impl Abort, bytes: &mut Vec<u8>, more: &[u8]) {
    assert!(rt; bytes.extend_from_slice(more).is_ok(), "no memory");
}

/// Adds a number between these texts.
pub fn add_number(
    rt: &impl Abort,
    alloc: Global,
    bytes: &mut Vec<u8>,
    before: &str,
    number: u64,
    after: &str,
) {
    match format!(in alloc; "{before}{number}{after}") {
        Ok(text) => add(rt, bytes, text.as_bytes()),
        Err(_) => panic!(rt; "no memory"),
    }
}

/// The numbers from 1 to another, each between these texts.
pub fn counted(rt: &impl Abort, alloc: Global, before: &str, last: usize, after: &str) -> Vec<u8> {
    let mut all = Vec::new(alloc);
    for number in 1..=last {
        add_number(rt, alloc, &mut all, before, number as u64, after);
    }
    all
}

/// The outcome of a plan.
fn outcome_of<B: Body>(rt: &impl Abort, alloc: Global, plan: Plan<B>) -> Outcome {
    match elide(alloc, plan) {
        Ok(outcome) => outcome,
        Err(_) => panic!(rt; "no memory"),
    }
}

/// The texts of an outcome, with these names.
fn texts_of(rt: &impl Abort, alloc: Global, names: &Names, outcome: &Outcome) -> Printed {
    assert!(rt; names.queues.len() == outcome.queues.len());
    assert!(rt; names.objects.len() == outcome.objects.len());
    match print(alloc, names, outcome) {
        Ok(texts) => texts,
        Err(_) => panic!(rt; "no memory"),
    }
}

/// Whether texts are this output, and a report of no line in the input and of these faults.
fn are_so(rt: &impl Abort, alloc: Global, texts: &Printed, out: &[u8], faults: &str) -> bool {
    match format!(in alloc; "left input 0\n{faults}") {
        Ok(report) => texts.out.as_slice() == out && texts.report.as_slice() == report.as_bytes(),
        Err(_) => panic!(rt; "no memory"),
    }
}

/// Whether an outcome leaves such texts, with these names.
fn is_so(
    rt: &impl Abort,
    alloc: Global,
    names: &Names,
    outcome: &Outcome,
    out: &[u8],
    faults: &str,
) -> bool {
    let texts = texts_of(rt, alloc, names, outcome);
    are_so(rt, alloc, &texts, out, faults)
}

/// The same, with names for which there has to be memory.
fn outcome_leaves(
    rt: &impl Abort,
    alloc: Global,
    names: Result<Names, NoMemory>,
    outcome: &Outcome,
    out: &[u8],
    faults: &str,
) -> bool {
    match names {
        Ok(names) => is_so(rt, alloc, &names, outcome, out, faults),
        Err(_) => panic!(rt; "no memory"),
    }
}

/// Whether a plan leaves this output, no line in its input, and this report of its faults.
pub fn plan_leaves<B: Body>(
    rt: &impl Abort,
    alloc: Global,
    plan: Plan<B>,
    names: Result<Names, NoMemory>,
    out: &[u8],
    faults: &str,
) -> bool {
    let outcome = outcome_of(rt, alloc, plan);
    outcome_leaves(rt, alloc, names, &outcome, out, faults)
}
