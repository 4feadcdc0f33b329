// A sink in memory.
ghost use Rattle.std.specs.Prelude.{◌≡◌, ◌≤◌, ◌<◌, [], Some, length, take, IfOk, OnErr};
ghost use Rattle.swan_outside.specs.Counts.{Rose};
ghost use Rattle.swan_outside.specs.Told.{Appends};
ghost use Rattle.swan_outside.specs.SinkState.{empty_sink, put_answer, after_put};

use crate::{Failed, Sink};
use std::alloc::Global;
use std::marker::Model;
use swan_model::NoMemory;

/// A sink in memory, which tells its bytes, and of which chosen calls fail. Contracts see it as a
/// `SinkState`.
#[derive(Drop)]
pub struct MemorySink {
    bytes: Vec<u8>,
    most: usize,
    room: usize,
    fail: Vec<u64>,
    calls: u64,
    faults: u64,
}

impl Model for MemorySink {
    ghost use Rattle.std.specs.Prelude.{◌≤◌, length, vec_capacity};
    ghost use Rattle.swan_outside.specs.SinkState.{SinkState};

    ghost Value = { SinkState };

    ghost view = { λ it. record {
      written = it.bytes.items;
      most = it.most;
      room = it.room;
      fail = it.fail.items;
      calls = it.calls;
      faults = it.faults;
    } };

    ghost invariant = { λ it. (1 ≤ it.most)
        × (length it.bytes.items ≤ it.room) × (it.room ≤ vec_capacity it.bytes) };
}

impl MemorySink {
    /// An empty sink with room for so many bytes, of which one put takes at most `most`. Calls of
    /// `put` count from 1, and one whose number is in `fail` fails. An Err is want of memory. One
    /// allocation of `room` bytes.
    pub fn new(
        alloc: Global,
        most: usize,
        room: usize,
        fail: Vec<u64>,
    ) -> Result<MemorySink, NoMemory>
        requires { 1 ≤ most }
        ensures { IfOk result (λ sink. sink ≡ empty_sink most room fail.items) }
    {
        Ok(MemorySink {
            bytes: Vec::with_capacity(alloc, room)?,
            most,
            room,
            fail,
            calls: 0,
            faults: 0,
        })
    }

    /// All bytes so far. It takes no memory. `O(1)`.
    pub fn written(&self) -> &[u8]
        ensures { result.now ≡ self.now.written }
    {
        self.bytes.as_slice()
    }
}

impl Sink for MemorySink {
    ghost written = { λ it. Some it.written };

    ghost faults = { λ it. it.faults };

    /// Takes the least of `most`, the room that is left, and the length of the piece. Failed comes
    /// exactly where the call's number is one of those that fail, or no room is left. It takes no
    /// memory. `O(numbers that fail + bytes taken)`.
    fn put(&mut self, piece: &[u8]) -> Result<usize, Failed>
        // what is given
        requires { 0 < length piece.now }

        // the exact answer, and what it leaves
        ensures answer { result ≡ put_answer self.old piece.now }
        ensures after { self.new ≡ after_put self.old piece.now }

        // what is taken
        ensures some { IfOk result (λ n. 1 ≤ n) }
        ensures most { IfOk result (λ n. n ≤ length piece.now) }
        ensures taken { IfOk result
            (λ n. Appends (Some self.old.written) (take n piece.now) (Some self.new.written)) }
        ensures nothing { OnErr result
            (Appends (Some self.old.written) [] (Some self.new.written)) }

        // what is counted
        ensures failed { OnErr result (Rose self.old.faults self.new.faults) }
        ensures faults_kept { self.old.faults ≤ self.new.faults }
    {
        self.calls = self.calls.saturating_add(1);
        let left = self.room - self.bytes.len();
        if left == 0 || self.fail.contains(&self.calls) {
            self.faults = self.faults.saturating_add(1);
            return Err(Failed);
        }
        let count = self.most.min(left).min(piece.len());
        self.bytes.extend_from_slice(&piece[..count]).unwrap();
        Ok(count)
    }
}

#[cfg(test)]
mod tests {
    use super::*;
    use crate::test_puts::{hold_faults, hold_put_answer, hold_written, memory_sink};
    use std::process::Abort;

    /// A put through the trait's bound, of a piece that isn't empty.
    fn put_piece<S: Sink>(sink: &mut S, piece: &str) -> Result<usize, Failed> {
        if piece.is_empty() {
            return Err(Failed);
        }
        sink.put(piece.as_bytes())
    }

    /// Asserts what a put of this piece answers, what the sink has taken then, and how many puts have failed.
    fn hold_piece(
        rt: &impl Abort,
        sink: &mut MemorySink,
        piece: &str,
        answer: Result<usize, Failed>,
        written: &str,
        faults: u64,
    ) {
        hold_put_answer(rt, piece, put_piece(sink, piece), answer);
        hold_written(rt, piece, sink.written(), written.as_bytes());
        hold_faults(rt, piece, sink.faults, faults);
    }

    /// Asserts what puts to a sink answer that takes 3 bytes at once, has room for 6, and whose second put fails.
    fn hold_pieces(rt: &impl Abort, sink: &mut MemorySink) {
        hold_piece(rt, sink, "abcd", Ok(3), "abc", 0);
        hold_piece(rt, sink, "d", Err(Failed), "abc", 1);
        hold_piece(rt, sink, "d", Ok(1), "abcd", 1);
        hold_piece(rt, sink, "efg", Ok(2), "abcdef", 1);
        hold_piece(rt, sink, "g", Err(Failed), "abcdef", 2);
    }

    #[test]
    fn takes_the_least_of_the_limits(rt: HostRuntime) {
        let mut sink = memory_sink(&rt, rt.alloc(), 3, 6, 2);
        hold_pieces(&rt, &mut sink);
    }
}
