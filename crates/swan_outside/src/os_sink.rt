// Standard output and standard error.
ghost use Rattle.std.specs.Prelude.{◌≡◌, ◌≤◌, ◌<◌, [], None, length, take, IfOk, OnErr};
ghost use Rattle.swan_outside.specs.Counts.{Rose, faults_after_put};
ghost use Rattle.swan_outside.specs.Told.{Appends};
ghost use Rattle.swan_outside.specs.Streams.{text_front, IsTakenBy};

use crate::{Failed, Sink};
use std::io::{Eprint, ErrorKind, Print};
use std::marker::Model;
use std::rt::Runtime;

/// The largest number of bytes that standard error takes at once.
pub const ERR_PIECE_MOST: usize = 1_024;

/// How often one write is made that signals interrupt. The last such interruption is a fault.
const WRITES_MOST: u32 = 1_000_000;

/// The two streams that a process writes.
#[derive(Clone, Copy)]
enum Stream {
    Output,
    Error,
}

/// Standard output, or standard error. It tells no bytes. Contracts see it as a `StreamState`.
#[derive(Drop)]
pub struct OsSink<T: Print + Eprint + Drop> {
    rt: T,
    stream: Stream,
    faults: u64,
}

impl<T: Print + Eprint + Drop> Model for OsSink<T> {
    ghost use Rattle.swan_outside.specs.Streams.{StreamState};

    ghost Value = { StreamState };

    ghost view = { λ it. record { stream = it.stream; faults = it.faults } };
}

impl<T: Runtime> OsSink<T> {
    /// Standard output. Its count of faults is 0. It takes no memory. `O(1)`.
    pub fn out(rt: T) -> OsSink<T>
        ensures { result ≡ record { stream = Stream.Output; faults = 0 } }
    {
        OsSink {
            rt,
            stream: Stream::Output,
            faults: 0,
        }
    }

    /// Standard error. Its count of faults is 0. It takes no memory. `O(1)`.
    pub fn err(rt: T) -> OsSink<T>
        ensures { result ≡ record { stream = Stream.Error; faults = 0 } }
    {
        OsSink {
            rt,
            stream: Stream::Error,
            faults: 0,
        }
    }
}

impl<T: Print + Eprint + Drop> Sink for OsSink<T> {
    ghost written = { λ _. None };

    ghost faults = { λ it. it.faults };

    /// Writes bytes from the front of a piece. Standard output takes as many as the system does at
    /// once. Standard error takes the longest front of at most 1,024 bytes that is whole
    /// characters of UTF-8, and a piece that begins with none is a fault. Failed comes else where
    /// the system can't write or takes nothing, and where signals interrupt one write to standard
    /// output 1,000,000 times; where it fails in the middle of a front for standard error, a part of
    /// that may have been written. It takes no memory. `O(bytes taken)`.
    fn put(&mut self, piece: &[u8]) -> Result<usize, Failed>
        // what is given
        requires { 0 < length piece.now }

        // what is known of a system
        ensures counts { self.new ≡
            record self.old { faults = faults_after_put self.old.faults result } }
        ensures front { IfOk result (λ n. IsTakenBy self.old.stream piece.now n) }

        // what is taken
        ensures some { IfOk result (λ n. 1 ≤ n) }
        ensures most { IfOk result (λ n. n ≤ length piece.now) }

        // what is counted
        ensures failed { OnErr result (Rose self.old.faults self.new.faults) }
        ensures faults_kept { self.old.faults ≤ self.new.faults }
    {
        match write_front(&self.rt, self.stream, piece) {
            Ok(count) => Ok(count),
            Err(Failed) => {
                self.faults = self.faults.saturating_add(1);
                Err(Failed)
            }
        }
    }
}

/// Writes bytes from the front of a piece to this stream.
fn write_front<T: Print + Eprint>(rt: &T, stream: Stream, piece: &[u8]) -> Result<usize, Failed>
    ensures front { IfOk result (λ n. IsTakenBy stream piece.now n) }
    ensures some { IfOk result (λ n. 1 ≤ n) }
    ensures most { IfOk result (λ n. n ≤ length piece.now) }
{
    match stream {
        Stream::Output => write_some(rt, piece),
        Stream::Error => write_text(rt, piece),
    }
}

/// Writes some bytes from the front of a piece to standard output, again where a signal interrupts
/// it.
fn write_some<T: Print>(rt: &T, piece: &[u8]) -> Result<usize, Failed>
    ensures some { IfOk result (λ n. 1 ≤ n) }
    ensures most { IfOk result (λ n. n ≤ length piece.now) }
{
    for _ in 0..WRITES_MOST {
        match rt.write_some(piece) {
            Ok(0) => return Err(Failed),
            Ok(count) => return Ok(count),
            Err(error) if error.kind() == ErrorKind::Interrupted => {}
            Err(_) => return Err(Failed),
        }
    }
    Err(Failed)
}

/// Writes the front of a piece that is whole characters to standard error.
#[tactic(auto, using(crate::proofs::Fronts::text_front_le))]
fn write_text<T: Eprint>(rt: &T, piece: &[u8]) -> Result<usize, Failed>
    ensures front { IfOk result (λ n. n ≡ length (text_front piece.now)) }
    ensures some { IfOk result (λ n. 1 ≤ n) }
    ensures most { IfOk result (λ n. n ≤ length piece.now) }
{
    let text = front_of(piece);
    if text.is_empty() {
        return Err(Failed);
    }
    match rt.eprint(text) {
        Ok(()) => Ok(text.len()),
        Err(_) => Err(Failed),
    }
}

/// The longest front of at most `ERR_PIECE_MOST` bytes that is whole characters.
fn front_of(piece: &[u8]) -> &str
    ensures { result.now ≡ text_front piece.now }
{
    let front = &piece[..ERR_PIECE_MOST.min(piece.len())];
    match front.utf8_chunks().next() {
        Some(chunk) => chunk.valid(),
        None => "",
    }
}

#[cfg(test)]
mod tests {
    use super::*;
    use crate::test_puts::{hold_faults, hold_put_answer};
    use std::alloc::Global;
    use std::cell::{Cell, RefCell};
    use std::fmt::Display;
    use std::io;
    use std::process::Abort;

    /// A stream in memory, which keeps what it takes and counts its calls. The first calls are
    /// interrupted. Each later one takes so many bytes at most, or fails where no number is there.
    #[derive(Drop)]
    struct Fake {
        alloc: Global,
        interrupts: u32,
        takes: Option<usize>,
        calls: Cell<u32>,
        written: RefCell<Vec<u8>>,
    }

    impl Fake {
        fn take(&self, bytes: &[u8]) -> io::Result<usize> {
            let calls = self.calls.get();
            self.calls.set(calls.saturating_add(1));
            if calls < self.interrupts {
                return Err(io::Error::from(ErrorKind::Interrupted));
            }
            let Some(most) = self.takes else {
                return Err(io::Error::from(ErrorKind::StorageFull));
            };
            let front = &bytes[..most.min(bytes.len())];
            match self.written.try_borrow_mut() {
                Ok(mut written) => written.extend_from_slice(front)?,
                Err(_) => return Err(io::Error::from(ErrorKind::ResourceBusy)),
            }
            Ok(front.len())
        }

        fn take_text<D: Display + Drop>(&self, value: D) -> io::Result<()> {
            let text = format!(in self.alloc; "{value}")?;
            self.take(text.as_bytes())?;
            Ok(())
        }
    }

    impl Print for Fake {
        fn print<D: Display + Drop>(&self, value: D) -> io::Result<()> {
            self.take_text(value)
        }

        fn println<D: Display + Drop>(&self, value: D) -> io::Result<()> {
            self.take_text(value)
        }

        fn write_all(&self, bytes: &[u8]) -> io::Result<()> {
            self.take(bytes)?;
            Ok(())
        }

        fn write_some(&self, bytes: &[u8]) -> io::Result<usize> {
            Ok(self.take(bytes)?.min(bytes.len()))
        }
    }

    impl Eprint for Fake {
        fn eprint<D: Display + Drop>(&self, value: D) -> io::Result<()> {
            self.take_text(value)
        }

        fn eprintln<D: Display + Drop>(&self, value: D) -> io::Result<()> {
            self.take_text(value)
        }
    }

    fn fake_streams(alloc: Global, interrupts: u32, takes: Option<usize>) -> Fake {
        Fake {
            alloc,
            interrupts,
            takes,
            calls: Cell::new(0),
            written: RefCell::new(Vec::new(alloc)),
        }
    }

    /// Whether a stream took these bytes.
    fn has_taken(fake: &Fake, written: &str) -> bool {
        match fake.written.try_borrow() {
            Ok(bytes) => bytes.as_slice() == written.as_bytes(),
            Err(_) => false,
        }
    }

    /// Asserts what a stream took, and by how many calls.
    fn hold_stream(rt: &impl Abort, fake: &Fake, written: &str, calls: u32) {
        assert!(rt; fake.calls.get() == calls, "not {calls} calls");
        assert!(rt; has_taken(fake, written), "not what was taken: {written}");
    }

    /// An e with an accent, a b and a line feed, which are 4 bytes.
    const PIECE: &str = "\u{e9}b\n";

    /// Asserts what a put of the piece to a stream in memory answers, and what the stream has then taken, by how many calls.
    fn hold_piece(
        rt: &impl Abort,
        sink: &mut OsSink<Fake>,
        answer: Result<usize, Failed>,
        written: &str,
        calls: u32,
    ) {
        let found = sink.put(PIECE.as_bytes());
        assert!(rt; found == answer, "not {answer:?} by {calls} calls");
        hold_stream(rt, &sink.rt, written, calls);
    }

    /// The same of this stream.
    fn hold_put(
        rt: &impl Abort,
        stream: Stream,
        fake: Fake,
        answer: Result<usize, Failed>,
        written: &str,
        calls: u32,
    ) {
        let mut sink = OsSink {
            rt: fake,
            stream,
            faults: 0,
        };
        hold_piece(rt, &mut sink, answer, written, calls);
    }

    #[test]
    fn the_bytes_of_a_piece_are_written_once(rt: HostRuntime) {
        let alloc = rt.alloc();
        let whole = fake_streams(alloc, 0, Some(9));
        hold_put(&rt, Stream::Output, whole, Ok(4), PIECE, 1);
        let part = fake_streams(alloc, 2, Some(2));
        hold_put(&rt, Stream::Output, part, Ok(2), "\u{e9}", 3);
        let nothing = fake_streams(alloc, 0, Some(0));
        hold_put(&rt, Stream::Output, nothing, Err(Failed), "", 1);
        let failing = fake_streams(alloc, 1, None);
        hold_put(&rt, Stream::Output, failing, Err(Failed), "", 2);
        let whole = fake_streams(alloc, 0, Some(9));
        hold_put(&rt, Stream::Error, whole, Ok(4), PIECE, 1);
        let failing = fake_streams(alloc, 0, None);
        hold_put(&rt, Stream::Error, failing, Err(Failed), "", 1);
    }

    /// Asserts that a stream of this process takes a front of some bytes.
    fn hold_takes<T: Print + Eprint + Drop>(rt: &impl Abort, mut sink: OsSink<T>) {
        let piece = b"a put of a test\n";
        let taken = sink.put(piece).unwrap_or(0);
        assert!(rt; 1 <= taken && taken <= piece.len());
        assert!(rt; sink.faults == 0);
    }

    #[test]
    fn writes_to_each_stream(rt: HostRuntime) {
        hold_takes(&rt, OsSink::out(rt));
        hold_takes(&rt, OsSink::err(rt));
    }

    /// Asserts what a put of this piece, which isn't empty, answers, and how many puts have failed then.
    fn hold_characters<T: Print + Eprint + Drop>(
        rt: &impl Abort,
        sink: &mut OsSink<T>,
        what: &str,
        piece: &[u8],
        answer: Result<usize, Failed>,
        faults: u64,
    )
        requires { 0 < length piece.now }
    {
        hold_put_answer(rt, what, sink.put(piece), answer);
        hold_faults(rt, what, sink.faults, faults);
    }

    #[test]
    fn standard_error_takes_whole_characters(rt: HostRuntime) {
        let mut sink = OsSink::err(rt);
        let (whole, part) = (b"\xc3\xa9\n", b"\n\xc3");
        hold_characters(&rt, &mut sink, "a whole one", whole, Ok(3), 0);
        hold_characters(&rt, &mut sink, "a whole one and a part", part, Ok(1), 0);
        let failed = Err(Failed);
        hold_characters(&rt, &mut sink, "a part alone", b"\xc3", failed, 1);
        hold_characters(&rt, &mut sink, "no such byte", b"\xff\n", failed, 2);
    }
}
