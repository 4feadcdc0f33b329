// How texts are compared, and what is asserted of them and of rows.
use std::process::Abort;

/// Whether two texts are the same.
pub fn are_same(one: &str, other: &str) -> bool {
    one == other
}

/// The statements of a row of a table, and what stands after ` => `.
pub fn parts_of(row: &str) -> Option<(&str, &str)> {
    row.split_once(" => ")
}

/// Asserts that no row is named.
pub fn assert_none(rt: &impl Abort, row: Option<&str>) {
    assert_eq!(rt; row, None);
}

/// Asserts that a text is this one.
pub fn assert_text(rt: &impl Abort, text: &str, want: &str) {
    assert_eq!(rt; text, want);
}
