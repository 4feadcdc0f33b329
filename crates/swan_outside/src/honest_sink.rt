// A sink that never fails.
ghost use Rattle.std.specs.Prelude.{◌≡◌, ◌≤◌, ◌<◌, [], Some, length, take, IfOk, OnErr};
ghost use Rattle.std.specs.Option.{option_copied};
ghost use Rattle.swan_outside.specs.Counts.{Rose};
ghost use Rattle.swan_outside.specs.Honest.{told_after_piece};
ghost use Rattle.swan_outside.specs.Told.{Appends};

use crate::{Failed, Sink};
use std::alloc::Global;
use std::marker::Model;
use swan_model::NoMemory;

/// A sink in memory of which no put fails: its count of faults is 0 for good. It tells its bytes as long
/// as they fit in its room. A piece that passes the room is taken and not kept, and from then on it tells
/// nothing. Contracts see it as an `HonestSinkState`.
#[derive(Drop)]
pub struct HonestSink {
    bytes: Vec<u8>,
    room: usize,
    tells: bool,
}

impl Model for HonestSink {
    ghost use Rattle.std.specs.Prelude.{◌≤◌, length, vec_capacity, Some, None, if◌then◌else◌};
    ghost use Rattle.swan_outside.specs.Honest.{HonestSinkState};

    ghost Value = { HonestSinkState };

    ghost view = { λ it. record {
      written = if it.tells then Some it.bytes.items else None;
      room = it.room;
    } };

    ghost invariant = { λ it. (length it.bytes.items ≤ it.room) × (it.room ≤ vec_capacity it.bytes) };
}

impl HonestSink {
    /// An empty sink with room for so many bytes. An Err is want of memory. One allocation of `room`
    /// bytes.
    pub fn new(alloc: Global, room: usize) -> Result<HonestSink, NoMemory>
        ensures { IfOk result (λ sink. sink ≡ record { written = Some []; room = room }) }
    {
        Ok(HonestSink {
            bytes: Vec::with_capacity(alloc, room)?,
            room,
            tells: true,
        })
    }

    /// All bytes so far, and None exactly where they passed the room. It takes no memory. `O(1)`.
    pub fn written(&self) -> Option<&[u8]>
        ensures { option_copied result ≡ self.now.written }
    {
        if self.tells {
            Some(self.bytes.as_slice())
        } else {
            None
        }
    }
}

impl Sink for HonestSink {
    ghost written = { λ it. it.written };

    ghost faults = { λ _. 0 };

    /// Takes the whole piece. Failed never comes. It takes no memory. `O(bytes of the piece)`.
    fn put(&mut self, piece: &[u8]) -> Result<usize, Failed>
        // what is given
        requires { 0 < length piece.now }

        // the exact answer, and what it leaves
        ensures answer { result ≡ Ok (length piece.now) }
        ensures after { self.new ≡ record self.old {
          written = told_after_piece self.old.room self.old.written piece.now;
        } }

        // what is taken
        ensures some { IfOk result (λ n. 1 ≤ n) }
        ensures most { IfOk result (λ n. n ≤ length piece.now) }
        ensures taken { IfOk result
            (λ n. Appends self.old.written (take n piece.now) self.new.written) }
        ensures nothing { OnErr result (Appends self.old.written [] self.new.written) }

        // what is counted
        ensures failed { OnErr result (Rose 0 0) }
    {
        if self.tells && piece.len() <= self.room - self.bytes.len() {
            self.bytes.extend_from_slice(piece).unwrap();
        } else {
            self.tells = false;
        }
        Ok(piece.len())
    }
}

#[cfg(test)]
mod tests {
    use super::*;
    use crate::put_all;
    use crate::test_puts::hold_written;
    use std::process::Abort;

    /// An empty sink with room for so many bytes. The test ends where there is no memory for it.
    fn honest_sink(rt: &impl Abort, alloc: Global, room: usize) -> HonestSink {
        match HonestSink::new(alloc, room) {
            Ok(sink) => sink,
            Err(_) => panic!(rt; "no memory"),
        }
    }

    /// Asserts that a put of these bytes doesn't fail.
    fn hold_put(rt: &impl Abort, sink: &mut HonestSink, bytes: &str) {
        let is_put = put_all(sink, bytes.as_bytes()).is_ok();
        assert!(rt; is_put, "the put of {bytes}");
    }

    /// Asserts that a put of these bytes doesn't fail, and what is told then.
    fn hold_told(rt: &impl Abort, sink: &mut HonestSink, bytes: &str, told: &str) {
        hold_put(rt, sink, bytes);
        match sink.written() {
            Some(found) => hold_written(rt, bytes, found, told.as_bytes()),
            None => panic!(rt; "nothing is told after {bytes}"),
        }
    }

    /// Asserts that a put of these bytes doesn't fail, and that nothing is told then.
    fn hold_untold(rt: &impl Abort, sink: &mut HonestSink, bytes: &str) {
        hold_put(rt, sink, bytes);
        assert!(rt; sink.written().is_none(), "told after {bytes}");
    }

    /// Asserts what puts to a sink with room for 5 bytes leave it to tell.
    fn hold_puts(rt: &impl Abort, sink: &mut HonestSink) {
        hold_told(rt, sink, "", "");
        hold_told(rt, sink, "ab", "ab");
        hold_told(rt, sink, "cde", "abcde");
        hold_told(rt, sink, "", "abcde");
        hold_untold(rt, sink, "f");
        hold_untold(rt, sink, "g");
    }

    #[test]
    fn takes_all_and_tells_within_its_room(rt: HostRuntime) {
        let mut sink = honest_sink(&rt, rt.alloc(), 5);
        hold_puts(&rt, &mut sink);
    }
}
