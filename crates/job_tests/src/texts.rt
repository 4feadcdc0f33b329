// Texts of rows.
use std::alloc::{AllocError, Global};
use std::process::Abort;

/// The text that was made.
pub fn made(rt: &impl Abort, text: Result<String, AllocError>) -> String {
    match text {
        Ok(text) => text,
        Err(_) => panic!(rt; "no memory"),
    }
}

/// Texts one after another.
pub fn joined(rt: &impl Abort, alloc: Global, texts: &[&str]) -> String {
    made(rt, texts.concat(alloc))
}

/// A job of the first edition with the first line of the second.
pub fn in_second_edition(rt: &impl Abort, alloc: Global, text: &str) -> String {
    made(rt, text.replace(alloc, "swan 1\n", "swan 2\n"))
}

/// A text with line feeds in the place of each /.
pub fn with_line_feeds(rt: &impl Abort, alloc: Global, text: &str) -> String {
    made(rt, text.replace(alloc, "/", "\n"))
}

/// What stands before the first space of a row, and what stands after it.
pub fn parts_of<'a>(rt: &impl Abort, row: &'a str) -> (&'a str, &'a str) {
    match row.split_once(' ') {
        Some(parts) => parts,
        None => panic!(rt; "no space"),
    }
}

/// The first two words of a row, and what stands after them.
pub fn three_parts_of<'a>(rt: &impl Abort, row: &'a str) -> (&'a str, &'a str, &'a str) {
    let (first, rest) = parts_of(rt, row);
    let (second, third) = parts_of(rt, rest);
    (first, second, third)
}

/// The number that a word of a row is.
pub fn number_of_word(rt: &impl Abort, word: &str) -> u64 {
    match word.parse::<u64>() {
        Ok(number) => number,
        Err(_) => panic!(rt; "no number"),
    }
}
