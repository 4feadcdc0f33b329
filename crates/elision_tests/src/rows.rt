// Rows of asks, and their elisions.
use crate::{AskList, ask_of, printed, roots};
use serial_elision::{Printed, elide};
use std::alloc::Global;
use std::test::Fail;
use swan_model::{Ask, FUEL_MOST, Outcome, Plan, PlanFuel};

/// Adds the ask of a word.
fn push_ask(alloc: Global, asks: &mut Vec<Ask<usize>>, word: &str) -> Result<(), Fail> {
    let ask = ask_of(alloc, word)?;
    Ok(asks.push(ask)?)
}

/// Adds asks in words.
fn push_asks(alloc: Global, asks: &mut Vec<Ask<usize>>, words: &str) -> Result<(), Fail> {
    for word in words.split_whitespace() {
        push_ask(alloc, asks, word)?;
    }
    Ok(())
}

/// Asks in words.
fn asks_of(alloc: Global, words: &str) -> Result<Vec<Ask<usize>>, Fail> {
    let mut asks = Vec::new(alloc);
    push_asks(alloc, &mut asks, words)?;
    Ok(asks)
}

/// The body of asks in words.
fn body_of(alloc: Global, words: &str) -> Result<AskList, Fail> {
    let asks = asks_of(alloc, words)?;
    Ok(AskList {
        asks,
        fails: usize::MAX,
    })
}

/// The plan of asks in words, with this much fuel.
pub fn plan_of(alloc: Global, words: &str, fuel: u64) -> Result<Plan<AskList>, Fail> {
    if fuel > FUEL_MOST {
        return Err("fuel".into());
    }
    let body = body_of(alloc, words)?;
    let roots = roots(alloc)?;
    Ok(Plan {
        body,
        root_local: 0,
        roots,
        fuel: PlanFuel::new(fuel),
    })
}

/// What asks in words leave with this much fuel.
fn outcome_of(alloc: Global, words: &str, fuel: u64) -> Result<Outcome, Fail> {
    Ok(elide(alloc, plan_of(alloc, words, fuel)?)?)
}

/// The two texts of it.
fn texts(alloc: Global, words: &str, fuel: u64) -> Result<Printed, Fail> {
    let outcome = outcome_of(alloc, words, fuel)?;
    printed(alloc, &outcome)
}

/// Whether texts are this output, and a report that ends so.
fn texts_are(texts: &Printed, out: &[u8], report: &str) -> bool {
    texts.out.as_slice() == out && texts.report.as_slice().ends_with(report.as_bytes())
}

/// Whether asks in words leave this output, and a report that ends so.
pub fn leaves(
    alloc: Global,
    words: &str,
    fuel: u64,
    out: &[u8],
    report: &str,
) -> Result<bool, Fail> {
    let texts = texts(alloc, words, fuel)?;
    Ok(texts_are(&texts, out, report))
}
