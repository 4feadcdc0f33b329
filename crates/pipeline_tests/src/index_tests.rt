// The index of texts, against answers worked out by hand and by a scan of the text. Some are hard on what the tasks keep:
// words close to each other, and records that fill the buffers that they share.
use crate::plans::plan_of_index;
use crate::texts::{add, add_number, counted, in_turn, plan_leaves, repeated};
use index_pipeline::index_names;
use std::alloc::Global;
use std::mem;
use std::process::Abort;

/// Whether this is the index of a text, with no line left and no fault.
fn is_index(rt: &impl Abort, alloc: Global, text: &[u8], index: &[u8]) -> bool {
    let plan = plan_of_index(rt, alloc, text);
    plan_leaves(rt, alloc, plan, index_names(alloc), index, "faults 0\n")
}

/// Asserts the index of a text.
fn hold_index(rt: &impl Abort, alloc: Global, text: &[u8], index: &[u8]) {
    let (bytes, kept) = (text.len(), index.len());
    assert!(rt; is_index(rt, alloc, text, index), "{bytes} bytes to {kept}");
}

#[test]
fn words_stand_with_their_lines(rt: HostRuntime) {
    let alloc = rt.alloc();
    hold_index(
        &rt,
        alloc,
        b"The cat\na dog, the CAT!\ncat cat 7up\n",
        b"7up 3\na 2\ncat 1\ncat 2\ncat 3\ndog 2\nthe 1\nthe 2\n",
    );
    hold_index(&rt, alloc, b"", b"");
    hold_index(&rt, alloc, b"b\na", b"a 2\nb 1\n");
    hold_index(&rt, alloc, b" ,;\n--\t\n\n", b"");
    hold_index(&rt, alloc, b"caf\xc3\xa9s \xff9", b"9 1\ncaf 1\ns 1\n");
    hold_index(&rt, alloc, b"\n\n\n\n\n\n\n\nx\nx X\n", b"x 9\nx 10\n");
}

/// Whether a word of so many bytes stands in the index with so many of them.
fn is_cut(rt: &impl Abort, alloc: Global, length: usize, kept: usize) -> bool {
    let text = repeated(rt, alloc, b"a", length);
    let index = in_turn(rt, alloc, b"a", kept, b" 1\n", 1);
    is_index(rt, alloc, &text, &index)
}

#[test]
fn long_words_are_cut(rt: HostRuntime) {
    for (length, kept) in [(63, 63), (64, 64), (65, 64), (200, 64)] {
        assert!(rt; is_cut(&rt, rt.alloc(), length, kept), "at {length}");
    }
}

/// Whether the index of so many lines like this one has each of them after this word.
fn counts(rt: &impl Abort, alloc: Global, line: &[u8], word: &str, lines: usize) -> bool {
    let text = repeated(rt, alloc, line, lines);
    let index = counted(rt, alloc, word, lines, "\n");
    is_index(rt, alloc, &text, &index)
}

#[test]
fn a_line_counts_wherever_its_block_ends(rt: HostRuntime) {
    for lines in [63, 64, 65, 128, 129] {
        assert!(rt; counts(&rt, rt.alloc(), b"w\n", "w ", lines), "at {lines}");
    }
}

/// A scan of a text: the word that it is in, the line that it is on, and the words that it has met.
#[derive(Drop)]
struct Scan {
    alloc: Global,
    word: Vec<u8>,
    line: u64,
    met: Vec<(Vec<u8>, u64)>,
}

impl Scan {
    /// A word may end here.
    fn ends_word(&mut self, rt: &impl Abort) {
        if self.word.is_empty() {
            return;
        }
        let word = mem::replace(&mut self.word, Vec::new(self.alloc));
        assert!(rt; self.met.push((word, self.line)).is_ok(), "no memory");
    }

    /// The next byte of the text.
    fn meets(&mut self, rt: &impl Abort, byte: u8) {
        if byte.is_ascii_alphanumeric() {
            if self.word.len() < 64 {
                add_byte(rt, &mut self.word, byte.to_ascii_lowercase());
            }
            return;
        }
        self.ends_word(rt);
        if byte == b'\n' {
            self.line = self.line.saturating_add(1);
        }
    }
}

/// Adds a byte to others.
fn add_byte(rt: &impl Abort, bytes: &mut Vec<u8>, byte: u8) {
    assert!(rt; bytes.push(byte).is_ok(), "no memory");
}

/// What an index prints of pairs that are sorted: each of them once.
fn printed(rt: &impl Abort, alloc: Global, pairs: &[(Vec<u8>, u64)]) -> Vec<u8> {
    let mut index = Vec::new(alloc);
    for at in 0..pairs.len() {
        if at > 0 && pairs[at - 1] == pairs[at] {
            continue;
        }
        let (word, line) = &pairs[at];
        add(rt, &mut index, word.as_slice());
        add_number(rt, alloc, &mut index, " ", *line, "\n");
    }
    index
}

/// The words of a text as they are met, each with the number of its line.
fn words_met(rt: &impl Abort, alloc: Global, text: &[u8]) -> Vec<(Vec<u8>, u64)> {
    let mut scan = Scan {
        alloc,
        word: Vec::new(alloc),
        line: 1,
        met: Vec::new(alloc),
    };
    for byte in text {
        scan.meets(rt, *byte);
    }
    scan.ends_word(rt);
    scan.met
}

/// The index of a text, gone about in another way: the words are met byte by byte, and sorted as a list.
fn scanned(rt: &impl Abort, alloc: Global, text: &[u8]) -> Vec<u8> {
    let mut pairs = words_met(rt, alloc, text);
    assert!(rt; pairs.sort().is_ok(), "no memory");
    printed(rt, alloc, pairs.as_slice())
}

/// The bytes of which a mixed text is made: letters in both cases, digits, and bytes that part words, of which
/// two are past ASCII.
const MIXED: [u8; 16] = *b"aAbBcz09 \n\t,-\xc3\xa9e";

/// A text of so many bytes by a fixed rule: dashes, a few mixed bytes in each 64 of them, and a word of at least 70
/// bytes in each four thousand or so.
fn mixed_text(rt: &impl Abort, alloc: Global, bytes: usize) -> Vec<u8> {
    let mut text = Vec::new(alloc);
    let mut state: u32 = 1;
    for at in 0..bytes {
        state = state.wrapping_mul(1_664_525).wrapping_add(1_013_904_223);
        let mixed = MIXED[(state / 268_435_456) as usize];
        let byte = if at % 64 < 12 { mixed } else { b'-' };
        add_byte(rt, &mut text, if at % 4_099 < 70 { b'Q' } else { byte });
    }
    text
}

#[test]
fn a_mixed_text_of_a_mebibyte_has_the_index_that_a_scan_finds(rt: HostRuntime) {
    let text = mixed_text(&rt, rt.alloc(), 1_048_576);
    let index = scanned(&rt, rt.alloc(), &text);
    assert!(rt; is_index(&rt, rt.alloc(), &text, &index));
}

#[test]
fn words_that_begin_alike_stand_in_the_order_of_their_bytes(rt: HostRuntime) {
    let alloc = rt.alloc();
    hold_index(
        &rt,
        alloc,
        b"abcdefghi abcdefgh abcdefg",
        b"abcdefg 1\nabcdefgh 1\nabcdefghi 1\n",
    );
    hold_index(
        &rt,
        alloc,
        b"abcdefg\nabcdefgh\nabcdefghi\n",
        b"abcdefg 1\nabcdefgh 2\nabcdefghi 3\n",
    );
    hold_index(
        &rt,
        alloc,
        b"abcdefghb\nabcdefgha\nABCDEFGH0\nabcdefghb\n",
        b"abcdefgh0 3\nabcdefgha 2\nabcdefghb 1\nabcdefghb 4\n",
    );
    hold_index(
        &rt,
        alloc,
        b"abcdefgz abcdefghij abcdefg0 abcdefgh",
        b"abcdefg0 1\nabcdefgh 1\nabcdefghij 1\nabcdefgz 1\n",
    );
    hold_index(
        &rt,
        alloc,
        b"zzzzzzzzz\nzzzzzzzz\n0\n00000000\n000000000\n0000000\n",
        b"0 3\n0000000 6\n00000000 4\n000000000 5\nzzzzzzzz 2\nzzzzzzzzz 1\n",
    );
}

/// A word of 64 bytes after another, with its record.
const LONG: &[u8] = b" yyyyyyyyyyyyyyyyyyyyyyyyyyyyyyyyyyyyyyyyyyyyyyyyyyyyyyyyyyyyyyyy z";

/// What the index has of these.
const LONG_INDEX: &[u8] =
    b"x 1\nyyyyyyyyyyyyyyyyyyyyyyyyyyyyyyyyyyyyyyyyyyyyyyyyyyyyyyyyyyyyyyyy 1\nz 1\n";

/// The same with a word of three bytes.
const SHORT_AND_LONG: &[u8] =
    b" www yyyyyyyyyyyyyyyyyyyyyyyyyyyyyyyyyyyyyyyyyyyyyyyyyyyyyyyyyyyyyyyy z";

/// What the index has of these.
const SHORT_AND_LONG_INDEX: &[u8] =
    b"www 1\nx 1\nyyyyyyyyyyyyyyyyyyyyyyyyyyyyyyyyyyyyyyyyyyyyyyyyyyyyyyyyyyyyyyyy 1\nz 1\n";

/// Asserts the index of a line that has so many times `x`, and then others.
fn hold_line(rt: &impl Abort, alloc: Global, count: usize, others: &[u8], index: &[u8]) {
    let text = in_turn(rt, alloc, b"x ", count, others, 1);
    assert!(rt; is_index(rt, alloc, &text, index), "at {count}");
}

#[test]
fn no_word_is_lost_where_the_words_of_a_line_fill_a_buffer(rt: HostRuntime) {
    let alloc = rt.alloc();
    // a record `x 1` has 3 bytes, and after 65,450 bytes a word of 64 has room, and its record too
    hold_line(&rt, alloc, 21_815, SHORT_AND_LONG, SHORT_AND_LONG_INDEX);
    hold_line(&rt, alloc, 21_816, LONG, LONG_INDEX);
    hold_line(&rt, alloc, 21_817, LONG, LONG_INDEX);
}

#[test]
fn a_word_stands_on_as_many_lines_as_there_are(rt: HostRuntime) {
    for lines in [64, 65, 128, 129, 20_000] {
        assert!(rt;
            counts(&rt, rt.alloc(), b"word\n", "word ", lines),
            "at {lines}"
        );
    }
}

/// On how many lines `w` stands: its pairs have 65,509 bytes then, so that a word of 5 has just room beside them.
const LINES: usize = 10_945;

/// The lines of `w`, and a line of another word.
fn text_of_pairs(rt: &impl Abort, alloc: Global, word: &[u8]) -> Vec<u8> {
    in_turn(rt, alloc, b"w\n", LINES, word, 1)
}

/// What the index has of that text.
fn index_of_pairs(rt: &impl Abort, alloc: Global, word: &[u8]) -> Vec<u8> {
    let mut all = counted(rt, alloc, "w ", LINES, "\n");
    add(rt, &mut all, word);
    add(rt, &mut all, b" 10946\n");
    all
}

/// Whether the index has those lines and the other word, of so many bytes.
fn has_pairs(rt: &impl Abort, alloc: Global, length: usize) -> bool {
    let word = repeated(rt, alloc, b"x", length);
    let text = text_of_pairs(rt, alloc, &word);
    let index = index_of_pairs(rt, alloc, &word);
    is_index(rt, alloc, &text, &index)
}

#[test]
fn no_pair_is_lost_where_the_pairs_fill_a_buffer(rt: HostRuntime) {
    for length in [1, 4, 5, 6, 64] {
        assert!(rt; has_pairs(&rt, rt.alloc(), length), "at {length}");
    }
}
