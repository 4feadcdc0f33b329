// Values, records, paths, lists and lines.
use std::alloc::{AllocError, Global};
use std::process::Abort;
use std::test::Fail;
use swan_model::{
    Give, Gives, Kind, LINES_MOST, LinesAnswer, Mode, Path, RECORD_MOST, Record, RecordAnswer,
    RootQueue, Roots, Value, Values, Word, lines_of,
};

/// Whether the copy of a record is made, and has these bytes.
fn copy_has(record: &Record, bytes: &[u8]) -> bool {
    match record.copy() {
        Ok(again) => again.as_slice() == bytes,
        Err(_) => false,
    }
}

/// Whether a record of these bytes is made, and copied.
fn record_is_copied(alloc: Global, bytes: &[u8]) -> bool {
    match Record::of(alloc, bytes) {
        Ok(record) => copy_has(&record, bytes),
        Err(_) => false,
    }
}

/// Whether a word of this text is made, and has it.
fn word_is_made(alloc: Global, text: &str) -> bool {
    match Word::of(alloc, text) {
        Ok(word) => word.as_str() == text,
        Err(_) => false,
    }
}

#[test]
fn texts_are_made_and_copied(rt: HostRuntime) {
    assert!(rt; record_is_copied(rt.alloc(), b"ab"));
    assert!(rt; word_is_made(rt.alloc(), "ab"));
}

/// Whether the copy of a path is made, and has this one part.
fn copy_has_part(path: &Path, part: u32) -> bool {
    match path.copy() {
        Ok(again) => again.parts() == [part].as_slice(),
        Err(_) => false,
    }
}

/// Whether the path of a child of the root with this number is made, and copied.
fn child_is_copied(alloc: Global, number: u32) -> bool {
    match Path::root(alloc).child(number) {
        Ok(path) => copy_has_part(&path, number),
        Err(_) => false,
    }
}

#[test]
fn paths_are_made_and_copied(rt: HostRuntime) {
    assert!(rt; child_is_copied(rt.alloc(), 3));
}

// How long a value is, or one less than a number.
fn size_of(value: &Value) -> i64 {
    match value {
        Value::Bytes(record) => record.as_slice().len() as i64,
        Value::Int(number) => number.saturating_sub(1),
    }
}

/// Whether the copy of a value is made, and is of this kind and size.
fn copy_is(value: &Value, kind: Kind, size: i64) -> bool {
    match value.copy() {
        Ok(again) => again.kind() == kind && size_of(&again) == size,
        Err(_) => false,
    }
}

#[test]
fn zeros_are_made_and_copied(rt: HostRuntime) {
    assert!(rt; copy_is(&Value::zero(Kind::Int), Kind::Int, -1));
    assert!(rt; copy_is(&Value::zero(Kind::Bytes), Kind::Bytes, 0));
}

/// Whether the record of a number has this text.
fn decimal_is(alloc: Global, number: i64, text: &str) -> bool {
    match Record::decimal(alloc, number) {
        Ok(record) => record.as_slice() == text.as_bytes(),
        Err(_) => false,
    }
}

#[test]
fn numbers_are_written_as_decimal_records(rt: HostRuntime) {
    assert!(rt; decimal_is(rt.alloc(), 0, "0"));
    assert!(rt; decimal_is(rt.alloc(), 65_535, "65535"));
    assert!(rt; decimal_is(rt.alloc(), i64::MIN, "-9223372036854775808"));
}

/// Whether one value is listed.
fn is_one(values: &Values) -> bool {
    values.len() == 1 && values.get(0).is_some() && values.get(1).is_none()
}

#[test]
fn values_are_listed(rt: HostRuntime) {
    let mut values = Values::new(rt.alloc());
    let is_pushed = values.push(Value::Int(7)).is_ok();
    let is_listed = is_one(&values);
    drop(values);
    assert!(rt; is_pushed);
    assert!(rt; is_listed);
}

/// Whether the copy of gives is made, and has this one alone.
fn copy_has_one(gives: &Gives, alloc: Global, give: Give) -> bool {
    match gives.copy(alloc) {
        Ok(copy) => copy.len() == 1 && copy.get(0) == Some(&give),
        Err(_) => false,
    }
}

#[test]
fn gives_are_listed(rt: HostRuntime) {
    let mut gives = Gives::new(rt.alloc());
    let mode = Mode::In;
    let is_pushed = gives.push(Give { place: 3, mode }).is_ok();
    let is_copied = copy_has_one(&gives, rt.alloc(), Give { place: 3, mode });
    drop(gives);
    assert!(rt; is_pushed);
    assert!(rt; is_copied);
}

/// Whether roots take a queue without items and an object.
fn roots_take_each(alloc: Global) -> bool {
    let mut roots = Roots::new(alloc);
    let items = Values::new(alloc);
    let mode = Mode::Pop;
    let has_queue = roots.push_queue(RootQueue { mode, items }).is_ok();
    let has_object = roots.push_object(Value::Int(1)).is_ok();
    let has_one_of_each = roots.queues().len() == 1 && is_one(roots.objects());
    drop(roots);
    has_queue && has_object && has_one_of_each
}

#[test]
fn roots_are_listed(rt: HostRuntime) {
    assert!(rt; roots_take_each(rt.alloc()));
}

/// What a record that copies these bytes is refused with.
fn refusal_of(alloc: Global, bytes: &[u8]) -> Option<RecordAnswer> {
    Record::of(alloc, bytes).err()
}

/// What a record that takes these bytes over is refused with.
fn refusal_from(bytes: Vec<u8>) -> Option<RecordAnswer> {
    Record::from_vec(bytes).err()
}

/// Whether a record of so many bytes, copied or taken over, is refused with this.
fn is_refused_so(
    alloc: Global,
    length: usize,
    answer: Option<RecordAnswer>,
) -> Result<bool, AllocError> {
    let bytes = vec![in alloc; 7u8; length]?;
    let is_copied_so = refusal_of(alloc, bytes.as_slice()) == answer;
    Ok(refusal_from(bytes) == answer && is_copied_so)
}

/// Asserts what a record of so many bytes is refused with.
fn hold_length(
    rt: &impl Abort,
    alloc: Global,
    length: usize,
    answer: Option<RecordAnswer>,
) -> Result<(), AllocError> {
    assert!(rt; is_refused_so(alloc, length, answer)?, "of {length} bytes");
    Ok(())
}

#[test]
fn a_record_has_a_largest_length(rt: HostRuntime) -> Result<(), Fail> {
    let too_long = Some(RecordAnswer::TooLong);
    hold_length(&rt, rt.alloc(), 0, None)?;
    hold_length(&rt, rt.alloc(), RECORD_MOST, None)?;
    hold_length(&rt, rt.alloc(), RECORD_MOST + 1, too_long)?;
    Ok(())
}

/// Whether these values have these sizes.
fn have_sizes(values: &[Value], sizes: &[i64]) -> bool {
    for (index, value) in values.iter().enumerate() {
        match sizes.get(index) {
            Some(size) if *size == size_of(value) => {}
            _ => return false,
        }
    }
    values.len() == sizes.len()
}

/// Whether a text has lines of these sizes.
fn lines_have(alloc: Global, text: &str, sizes: &[i64]) -> bool {
    match lines_of(alloc, text.as_bytes()) {
        Ok(lines) => have_sizes(lines.as_slice(), sizes),
        Err(_) => false,
    }
}

/// Asserts that a text has lines of these sizes.
fn hold_lines(rt: &impl Abort, alloc: Global, text: &str, sizes: &[i64]) {
    assert!(rt; lines_have(alloc, text, sizes), "of {text:?}");
}

#[test]
fn lines_are_the_pieces_between_line_feeds(rt: HostRuntime) {
    hold_lines(&rt, rt.alloc(), "", &[]);
    hold_lines(&rt, rt.alloc(), "\n", &[0]);
    hold_lines(&rt, rt.alloc(), "a", &[1]);
    hold_lines(&rt, rt.alloc(), "a\n", &[1]);
    hold_lines(&rt, rt.alloc(), "ab\n\nc", &[2, 0, 1]);
    hold_lines(&rt, rt.alloc(), "a\r\n", &[2]);
}

// So many empty lines, and then a line of this many bytes, if of any.
fn text_of(alloc: Global, empty: usize, last: usize) -> Result<Vec<u8>, AllocError> {
    let mut text = vec![in alloc; b'\n'; empty]?;
    let line = vec![in alloc; b'x'; last]?;
    text.extend_from_slice(line.as_slice())?;
    Ok(text)
}

/// What a text is refused with.
fn answer_of(alloc: Global, text: &[u8]) -> Option<LinesAnswer> {
    lines_of(alloc, text).err()
}

/// Whether an input of so many empty lines and a line of this many bytes is refused with this.
fn input_is_refused_so(
    alloc: Global,
    empty: usize,
    last: usize,
    answer: Option<LinesAnswer>,
) -> Result<bool, AllocError> {
    let text = text_of(alloc, empty, last)?;
    let found = answer_of(alloc, text.as_slice());
    drop(text);
    Ok(found == answer)
}

/// Asserts what an input of so many empty lines and a line of this many bytes is refused with.
fn hold_input(
    rt: &impl Abort,
    alloc: Global,
    empty: usize,
    last: usize,
    answer: Option<LinesAnswer>,
) -> Result<(), AllocError> {
    assert!(rt;
        input_is_refused_so(alloc, empty, last, answer)?,
        "of {empty} and {last}"
    );
    Ok(())
}

#[test]
fn an_input_is_refused_past_the_most_lines(rt: HostRuntime) -> Result<(), Fail> {
    let too_many = Some(LinesAnswer::TooMany);
    hold_input(&rt, rt.alloc(), LINES_MOST, 0, None)?;
    hold_input(&rt, rt.alloc(), LINES_MOST + 1, 0, too_many)?;
    hold_input(&rt, rt.alloc(), LINES_MOST, RECORD_MOST + 1, too_many)?;
    Ok(())
}

#[test]
fn an_input_is_refused_at_its_first_long_line(rt: HostRuntime) -> Result<(), Fail> {
    let second = Some(LinesAnswer::TooLong { line: 2 });
    let last = Some(LinesAnswer::TooLong { line: 1_000_000 });
    hold_input(&rt, rt.alloc(), 1, RECORD_MOST, None)?;
    hold_input(&rt, rt.alloc(), 1, RECORD_MOST + 1, second)?;
    hold_input(&rt, rt.alloc(), LINES_MOST - 1, RECORD_MOST + 1, last)?;
    Ok(())
}
