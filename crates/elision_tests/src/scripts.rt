// Scripts of short lists of asks, worked out by hand from what a script is to say.
use crate::rows::plan_of;
use serial_elision::script_of;
use std::alloc::Global;
use std::process::Abort;
use std::test::Fail;
use swan_model::{Deed, Entry, Script, Value};

/// The word of an object's first value.
fn word_of_value(value: &Value) -> &'static str {
    match value {
        Value::Int(5) => "object",
        _ => "other",
    }
}

/// The word of a deed.
fn word_of(deed: &Deed) -> &'static str {
    match deed {
        Deed::MakeObject(value) => word_of_value(value),
        Deed::Sync => "sync",
        Deed::Pop(_) => "pop",
        Deed::Quiet => "quiet",
        _ => "other",
    }
}

/// Whether an entry has the deed of this word, and ends its task where the word has a star.
fn has_deed(entry: &Entry, word: &str) -> bool {
    word.trim_end_matches('*') == word_of(&entry.deed) && word.ends_with('*') == entry.ends
}

/// Whether a script has these deeds, with a star at the one by which its task ends.
fn has_deeds(script: &Script, deeds: &str) -> bool {
    let mut words = deeds.split_whitespace();
    for entry in script.entries.as_slice() {
        let Some(word) = words.next() else {
            return false;
        };
        if !has_deed(entry, word) {
            return false;
        }
    }
    words.next().is_none()
}

/// The script of asks in words.
fn script_of_words(alloc: Global, words: &str) -> Result<Script, Fail> {
    Ok(script_of(alloc, plan_of(alloc, words, 9)?)?)
}

/// Whether it has these deeds.
fn words_have_deeds(alloc: Global, words: &str, deeds: &str) -> Result<bool, Fail> {
    let script = script_of_words(alloc, words)?;
    Ok(has_deeds(&script, deeds))
}

/// Asserts that it has.
fn hold_deeds(rt: &impl Abort, alloc: Global, words: &str, deeds: &str) -> Result<(), Fail> {
    assert!(rt; words_have_deeds(alloc, words, deeds)?, "{words}");
    Ok(())
}

#[test]
fn a_script_has_the_deed_of_each_step(rt: HostRuntime) -> Result<(), Fail> {
    hold_deeds(&rt, rt.alloc(), "object:5 sync", "object sync quiet*")
}

/// The root has no right to do the push or the spawn, and the third pop finds no item.
#[test]
fn a_script_ends_with_the_step_of_a_fault(rt: HostRuntime) -> Result<(), Fail> {
    hold_deeds(&rt, rt.alloc(), "push:0:1 object:5", "quiet*")?;
    hold_deeds(&rt, rt.alloc(), "spawn:1:5:1.pop object:5", "quiet*")?;
    hold_deeds(&rt, rt.alloc(), "pop:0 pop:0 pop:0", "pop pop pop*")
}
