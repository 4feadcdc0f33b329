// What each step on a ring's words tells.
use crate::{OwedItem, Seen, Tagged};
use atomic_table::{Join, Play, Split};

/// The producer looks at the head.
pub(crate) struct SeeHead;

impl Play<Option<OwedItem>, Seen> for SeeHead {
    ghost use Rattle.ring_segments.specs.Words.{saw_head};

    ghost then = { saw_head };
}

/// The producer stores the tail.
pub(crate) struct Put;

impl Play<Option<OwedItem>, Seen> for Put {
    ghost use Rattle.ring_segments.specs.Words.{put};

    ghost then = { put };
}

/// The consumer looks at the tail, to take the next item.
pub(crate) struct Reach;

impl Play<Option<OwedItem>, Seen> for Reach {
    ghost use Rattle.ring_segments.specs.Tags.{HasRoomFor};
    ghost use Rattle.ring_segments.specs.Words.{reached};

    ghost then = { reached HasRoomFor (λ e. e.index) (λ e. e.of) };
}

/// The consumer looks at the tail, and no more.
pub(crate) struct SeeTail;

impl Play<Option<OwedItem>, Seen> for SeeTail {
    ghost use Rattle.ring_segments.specs.Tags.{HasRoomFor};
    ghost use Rattle.ring_segments.specs.Words.{saw_tail};

    ghost then = { saw_tail HasRoomFor };
}

/// The consumer looks at the tail once it has learnt a note.
pub(crate) struct Hear;

impl Play<Option<OwedItem>, Seen> for Hear {
    ghost use Rattle.ring_segments.specs.Tags.{HasRoomFor};
    ghost use Rattle.ring_segments.specs.Words.{heard};

    ghost then = { heard HasRoomFor };
}

/// The consumer stores the head.
pub(crate) struct Take;

impl Play<Option<OwedItem>, Seen> for Take {
    ghost use Rattle.ring_segments.specs.Words.{took};

    ghost then = { took };
}

/// The first seat becomes the two ends.
pub(crate) struct Ends;

impl Split<Seen> for Ends {
    ghost use Rattle.ring_segments.specs.Words.{consumer_of, producer_of};

    ghost left = { producer_of };

    ghost right = { consumer_of };
}

/// A producer gives a note, and a consumer learns one.
pub(crate) struct Notes;

impl Split<Seen> for Notes {
    ghost use Rattle.ring_segments.specs.Words.{note_view};

    ghost left = { λ v. v };

    ghost right = { note_view };
}

impl Join<Seen> for Notes {
    ghost use Rattle.ring_segments.specs.Words.{view_after_learn, spent};

    ghost both = { view_after_learn };

    ghost spent = { spent };
}

/// A spent producer gives a note.
pub(crate) struct LastNotes;

impl Split<Seen> for LastNotes {
    ghost use Rattle.ring_segments.specs.Words.{last_note_view, sealed_of};

    ghost left = { sealed_of };

    ghost right = { last_note_view };
}
