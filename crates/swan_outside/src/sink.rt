// What takes bytes.
ghost use Rattle.std.specs.Prelude.{◌≡◌, ◌≤◌, ◌<◌, List, ℕ, [], Option, length, take, drop, IfOk, OnOk, OnErr};
ghost use Rattle.swan_outside.specs.Counts.{Rose};
ghost use Rattle.swan_outside.specs.Told.{Appends, AppendsFront};

use crate::Failed;

/// The largest number of bytes that `put_all` offers at once.
pub const PIECE_MOST: usize = 65_536;

/// What takes bytes one after another.
pub trait Sink {
    /// All bytes so far, where that is told. A sink that tells them after a call told them before
    /// it.
    ghost written: { Self → Option (List ℕ) };

    /// How many puts failed.
    ghost faults: { Self → ℕ };

    /// Takes some bytes from the front of a piece, and answers how many, from 1 to all of them.
    /// Failed comes only where the count of faults rose in this call, and then, where bytes are told,
    /// nothing was taken. A put that took nothing is a fault.
    fn put(&mut self, piece: &[u8]) -> Result<usize, Failed>
        // what is given
        requires { 0 < length piece.now }

        // what is taken
        ensures some { IfOk result (λ n. 1 ≤ n) }
        ensures most { IfOk result (λ n. n ≤ length piece.now) }
        ensures taken { IfOk result
            (λ n. Appends (written self.old) (take n piece.now) (written self.new)) }
        ensures nothing { OnErr result (Appends (written self.old) [] (written self.new)) }

        // what is counted
        ensures failed { OnErr result (Rose (faults self.old) (faults self.new)) }
        ensures faults_kept { faults self.old ≤ faults self.new };
}

/// Puts all bytes, in pieces of at most 65,536 bytes: what a put leaves of a piece is offered
/// again. After Ok all bytes were appended. Failed comes only where the sink's count of faults rose
/// in this call, and then a front of the bytes was appended. It takes no memory of its own. At most
/// one put a byte, and one for each 65,536 bytes where the sink takes whole pieces.
pub fn put_all<S: Sink>(sink: &mut S, bytes: &[u8]) -> Result<(), Failed>
    ensures ok { OnOk result (Appends (S.written sink.old) bytes.now (S.written sink.new)) }
    ensures front { AppendsFront (S.written sink.old) bytes.now (S.written sink.new) }
    ensures failed { OnErr result (Rose (S.faults sink.old) (S.faults sink.new)) }
    ensures faults_kept { S.faults sink.old ≤ S.faults sink.new }
{
    let mut done = 0;
    while done < bytes.len() {
        done += sink.put(piece_from(bytes, done))?;
    }
    Ok(())
}

/// The next piece to offer where so many bytes are done.
#[tactic(auto, using(crate::proofs::Fronts::take_to_end))]
fn piece_from(bytes: &[u8], done: usize) -> &[u8]
    requires { done < length bytes.now }
    ensures { result.now ≡ take PIECE_MOST (drop done bytes.now) }
{
    let count = PIECE_MOST.min(bytes.len() - done);
    &bytes[done..done + count]
}

#[cfg(test)]
mod tests {
    use super::*;
    use crate::MemorySink;
    use crate::test_puts::{hold_put_all_answer, hold_written, memory_sink};
    use crate::test_reads::bytes_of;
    use std::alloc::Global;
    use std::process::Abort;

    /// Asserts what a put of these bytes answers, and what a sink has taken then.
    fn hold_bytes(
        rt: &impl Abort,
        sink: &mut MemorySink,
        what: &str,
        bytes: &[u8],
        answer: Result<(), Failed>,
        written: &[u8],
    ) {
        hold_put_all_answer(rt, what, put_all(sink, bytes), answer);
        hold_written(rt, what, sink.written(), written);
    }

    /// Asserts what a put of a word answers, and what was taken of it, by a sink that takes so many bytes at once, and of which the put of
    /// this number fails.
    fn hold_word(
        rt: &impl Abort,
        alloc: Global,
        what: &str,
        most: usize,
        failing: u64,
        answer: Result<(), Failed>,
        written: &str,
    )
        requires { 1 ≤ most }
    {
        let mut sink = memory_sink(rt, alloc, most, 16, failing);
        let written = written.as_bytes();
        hold_bytes(rt, &mut sink, what, b"hello", answer, written);
    }

    #[test]
    fn puts_all_or_a_front(rt: HostRuntime) {
        let alloc = rt.alloc();
        hold_word(&rt, alloc, "one put", 5, 0, Ok(()), "hello");
        hold_word(&rt, alloc, "three puts", 2, 0, Ok(()), "hello");
        hold_word(&rt, alloc, "the second fails", 2, 2, Err(Failed), "he");
        hold_word(&rt, alloc, "the first fails", 9, 1, Err(Failed), "");
    }

    /// Asserts what puts of these bytes, which are one more than a piece, of one byte and of none answer, where the second put to the sink
    /// fails. The front is the first piece.
    fn hold_pieces(rt: &impl Abort, sink: &mut MemorySink, front: &[u8], bytes: &[u8]) {
        hold_bytes(rt, sink, "two pieces", bytes, Err(Failed), front);
        hold_bytes(rt, sink, "one byte", &[7], Ok(()), bytes);
        hold_bytes(rt, sink, "no byte", b"", Ok(()), bytes);
    }

    #[test]
    fn puts_more_than_one_piece(rt: HostRuntime) {
        let front = bytes_of(&rt, rt.alloc(), 7, PIECE_MOST);
        let bytes = bytes_of(&rt, rt.alloc(), 7, PIECE_MOST + 1);
        let mut sink = memory_sink(&rt, rt.alloc(), usize::MAX, 2 * PIECE_MOST, 2);
        hold_pieces(&rt, &mut sink, &front, &bytes);
    }
}
