// What the tasks of a plan ask for.
use std::alloc::Global;
use std::process::Abort;
use swan_model::{Answer, Ask, Body, Plan, Value};

/// An answer, by the first letter of its word: start, item, true, false, place or caught. Any other one is nothing.
fn answer_of(word: &str) -> Answer {
    match word.as_bytes().first() {
        Some(b's') => Answer::Start,
        Some(b'i') => Answer::Item(Value::Int(7)),
        Some(b't') => Answer::Flag(true),
        Some(b'f') => Answer::Flag(false),
        Some(b'p') => Answer::Place(2),
        Some(b'c') => Answer::Caught(1),
        _ => Answer::Nothing,
    }
}

/// The word of an ask, with a space after it.
fn word_of<L>(ask: &Ask<L>) -> &str {
    match ask {
        Ask::NewQueue => "new ",
        Ask::Empty(_) => "empty ",
        Ask::Pop(_) => "pop ",
        Ask::Push(_, _) => "push ",
        Ask::Spawn(_) => "spawn ",
        Ask::Finish => "finish ",
        Ask::Fail(_) => "fail ",
        _ => "other ",
    }
}

/// The local with which a child begins, where an ask is for one.
fn child_of<L: Drop>(ask: Ask<L>) -> Option<L> {
    match ask {
        Ask::Spawn(child) => Some(child.local),
        _ => None,
    }
}

/// An answer, by its word in a row: a star stands for another word.
fn told_by(word: &str, other: &str) -> Answer {
    match word.as_bytes().first() {
        Some(b'*') => answer_of(other),
        _ => answer_of(word),
    }
}

/// Adds a word to others.
fn add_word(rt: &impl Abort, words: &mut String, word: &str) {
    assert!(rt; words.push_str(word).is_ok(), "no memory");
}

/// One step of a task that is told a word of a row.
fn step<B: Body>(
    rt: &impl Abort,
    alloc: Global,
    body: &B,
    local: B::Local,
    word: &str,
    other: &str,
) -> (B::Local, Ask<B::Local>) {
    match body.advance(alloc, local, told_by(word, other), 99) {
        Ok(step) => step,
        Err(_) => panic!(rt; "no memory"),
    }
}

/// Adds the word of an ask, and keeps the local of the child that it is for, or none.
fn add_ask<L: Drop>(rt: &impl Abort, ask: Ask<L>, asks: &mut String, child: &mut Option<L>) {
    add_word(rt, asks, word_of(&ask));
    *child = child_of(ask);
}

/// Adds what a task asks for that is told these words one by one. It answers the local of the child that it asks for
/// last, where its last ask is for one.
fn goes<B: Body>(
    rt: &impl Abort,
    alloc: Global,
    body: &B,
    local: B::Local,
    told: &str,
    other: &str,
    asks: &mut String,
) -> Option<B::Local> {
    let mut local = local;
    let mut child = None;
    for word in told.split(' ') {
        let (moved, ask) = step(rt, alloc, body, local, word, other);
        local = moved;
        add_ask(rt, ask, asks, &mut child);
    }
    child
}

/// What a task asks for that begins with this local and is told these words; and then, told those, the child that it asks
/// for last.
fn asks_of<B: Body>(
    rt: &impl Abort,
    alloc: Global,
    body: &B,
    local: B::Local,
    told: &str,
    child_told: &str,
    other: &str,
) -> String {
    let mut asks = String::new(alloc);
    if let Some(child) = goes(rt, alloc, body, local, told, other, &mut asks) {
        goes(rt, alloc, body, child, child_told, other, &mut asks);
    }
    asks
}

/// What the root of a plan asks for that is told these words, and then the child that it asks for last, told those. In
/// both a star stands for the other word.
pub fn asks<B: Body>(
    rt: &impl Abort,
    alloc: Global,
    plan: Plan<B>,
    told: &str,
    child_told: &str,
    other: &str,
) -> String {
    let Plan {
        body,
        root_local,
        roots: _,
        fuel: _,
    } = plan;
    asks_of(rt, alloc, &body, root_local, told, child_told, other)
}
