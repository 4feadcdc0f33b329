// Notes of what was pushed.
ghost use Rattle.std.specs.Prelude.{◌≡◌, []};
ghost use Rattle.ring_segments.specs.Sits.{note_state};

use crate::RingSeat;
use std::marker::Model;

/// What a producer had pushed when this note was made. It has no bytes. Only `Producer::note` and `Link::note` make one.
#[derive(Drop)]
pub struct Note {
    seat: RingSeat,
}

impl Model for Note {
    ghost use Rattle.std.specs.Prelude.{◌≡◌, []};
    ghost use Rattle.ring_segments.specs.Ends.{NoteState};
    ghost use Rattle.ring_segments.specs.Sits.{note_state};

    ghost Value = { NoteState };

    ghost view = { λ n. note_state n.seat };

    ghost invariant = { λ n. n.seat.me.1 ≡ [] };
}

impl Note {
    /// The note at a seat. `O(1)`.
    pub(crate) fn new(seat: RingSeat) -> Note
        requires { seat.me.1 ≡ [] }
        ensures { result ≡ note_state seat }
    {
        Note { seat }
    }

    /// Its seat. `O(1)`.
    pub(crate) fn into_seat(self) -> RingSeat
        ensures state { self ≡ note_state result }
        ensures empty { result.me.1 ≡ [] }
    {
        self.seat
    }
}
