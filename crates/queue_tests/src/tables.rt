// The tables.
use crate::{Step, Use};
use queues::{Tested, WaitFor};
use swan_model::Mode;

/// Two children that push, and the parent after them.
pub const TWO_PUSHERS: &[Step] = &[
    Step::Create(0, 0),
    Step::Spawn(0, 1, 0, Mode::Push),
    Step::Spawn(0, 2, 0, Mode::Push),
    Step::Use(2, 0, Use::Push(20)),
    Step::Use(2, 0, Use::Push(21)),
    Step::Finish(2),
    Step::Use(0, 0, Use::Push(30)),
    Step::Use(0, 0, Use::PopWait(WaitFor::Pusher(1))),
    Step::Use(1, 0, Use::Push(10)),
    Step::Finish(1),
    Step::Use(0, 0, Use::Pop(10)),
    Step::Use(0, 0, Use::Pop(20)),
    Step::Use(0, 0, Use::Pop(21)),
    Step::Use(0, 0, Use::Pop(30)),
    Step::Use(0, 0, Use::PopNone),
    Step::Finish(0),
    Step::TakeRest(0, &[]),
    Step::TakeRest(0, &[]),
];

/// First items are popped while a pusher is active.
pub const FIRST_ITEMS: &[Step] = &[
    Step::CreateRoot(0, 1),
    Step::Spawn(0, 1, 0, Mode::Push),
    Step::Use(0, 0, Use::Pop(1)),
    Step::Use(0, 0, Use::PopWait(WaitFor::Pusher(1))),
    Step::Finish(1),
    Step::Use(0, 0, Use::PopNone),
];

/// The items of a grandchild come between those of its parent.
pub const GRANDCHILD: &[Step] = &[
    Step::Create(0, 0),
    Step::Spawn(0, 1, 0, Mode::PushPop),
    Step::Use(0, 0, Use::Push(4)),
    Step::Spawn(1, 2, 0, Mode::Push),
    Step::Use(1, 0, Use::Push(3)),
    Step::Use(1, 0, Use::Look(Tested::NotYet(WaitFor::Pusher(2)))),
    Step::Use(2, 0, Use::Push(2)),
    Step::Finish(2),
    Step::Use(1, 0, Use::Pop(2)),
    Step::Finish(1),
    Step::Use(0, 0, Use::Pop(3)),
    Step::Use(0, 0, Use::Push(5)),
    Step::Finish(0),
    Step::TakeRest(0, &[4, 5]),
];

/// A pusher between two poppers.
pub const PUSHER_BETWEEN_POPPERS: &[Step] = &[
    Step::Create(0, 0),
    Step::Use(0, 0, Use::Push(1)),
    Step::Spawn(0, 1, 0, Mode::Pop),
    Step::Spawn(0, 2, 0, Mode::Push),
    Step::Spawn(0, 3, 0, Mode::Pop),
    Step::Use(0, 0, Use::PopWait(WaitFor::PopTurn(1))),
    Step::Use(1, 0, Use::Pop(1)),
    Step::Use(1, 0, Use::PopNone),
    Step::Finish(1),
    Step::Use(3, 0, Use::PopWait(WaitFor::Pusher(2))),
    Step::Use(2, 0, Use::Push(2)),
    Step::Finish(2),
    Step::Use(3, 0, Use::Pop(2)),
    Step::Use(3, 0, Use::Test(Tested::Empty)),
];

/// Children that pop one queue begin to pop one after the other. A pusher, one that pops another queue, and a child of
/// one that pops wait for nobody.
pub const POP_TURNS: &[Step] = &[
    Step::Create(0, 0),
    Step::Create(0, 1),
    Step::Spawn(0, 1, 0, Mode::Push),
    Step::Spawn(0, 2, 0, Mode::Pop),
    Step::Spawn(0, 3, 1, Mode::Pop),
    Step::Spawn(0, 4, 0, Mode::PushPop),
    Step::Spawn(0, 5, 0, Mode::Push),
    Step::Spawn(2, 6, 0, Mode::Pop),
    Step::Spawn(0, 7, 0, Mode::Pop),
    Step::MayStart(0, None),
    Step::MayStart(1, None),
    Step::MayStart(2, None),
    Step::MayStart(3, None),
    Step::MayStart(4, Some(2)),
    Step::MayStart(5, None),
    Step::MayStart(6, None),
    Step::MayStart(7, Some(2)),
    Step::Finish(6),
    Step::Finish(2),
    Step::MayStart(2, None),
    Step::MayStart(4, None),
    Step::MayStart(7, Some(4)),
    Step::Finish(4),
    Step::MayStart(7, None),
    Step::MayStart(8, None),
];

/// A queue of a child ends with it, and its number stays taken.
pub const CHILD_QUEUE_ENDS: &[Step] = &[
    Step::Create(0, 0),
    Step::Spawn(0, 1, 0, Mode::Push),
    Step::Create(1, 1),
    Step::Use(1, 1, Use::Push(7)),
    Step::Spawn(1, 2, 1, Mode::Pop),
    Step::Use(2, 1, Use::Pop(7)),
    Step::Finish(2),
    Step::Finish(1),
    Step::Create(0, 2),
];

/// Two children, of which each may push.
pub const TWO_CHILDREN: &[Step] = &[
    Step::Create(0, 0),
    Step::Spawn(0, 1, 0, Mode::Push),
    Step::Spawn(0, 2, 0, Mode::Push),
];
