// What a frame's ends serve.
ghost use Rattle.std.specs.Prelude.{◌≡◌, ◌+◌, ◌<◌, IfSome, IfNone, OnSome};
ghost use Rattle.swan_model.specs.Values.{COUNT_MOST};
ghost use Rattle.queues.specs.Asks.{IsSameRun, with_deeds};
ghost use Rattle.task_frames.specs.Going.{AreLater, IsServedAnswer, IsNextDeed, IsNotServed, deeds_of};

use crate::Holding;
use crate::holding::number_at;
use queues::LocalEnds;
use std::mem;
use swan_model::{Answer, Ask, Mode, Value};

/// Serves an ask of a frame that holds this: work; a push or a pop where the ends have an end for it
/// that takes or gives an item now; and a test where the ends have one to pop from that finds an item now. A test that finds
/// none needs the core, since no end tells that a queue is empty. None comes where the ask needs the core: the ask is as it was, though an end
/// may have looked at its ring. Where it is served, the value of a push has been taken out of the ask. It takes no memory. `O(1)`.
#[inline(always)]
pub fn serve<E: LocalEnds, L>(
    ends: &mut E,
    holdings: &[Holding],
    ask: &mut Ask<L>,
) -> Option<Answer>
    // what the frame may do
    requires room { (E.ends ends.old).deeds < COUNT_MOST }
    requires next { IsNextDeed (E.name ends.old) holdings.now (E.ends ends.old) ask.old }

    // what is answered, and why not
    ensures answer { IfSome result (λ said. IsServedAnswer (E.name ends.old) holdings.now (E.ends ends.old) ask.old said) }
    ensures as_it_was { IfNone result (ask.new ≡ ask.old) }
    ensures cause { IfNone result (IsNotServed holdings.now (E.ends ends.old) (E.counts ends.old) (E.counts ends.new) ask.old) }

    // what it leaves
    ensures some { OnSome result (E.ends ends.new ≡ with_deeds (E.ends ends.old) ((E.ends ends.old).deeds + deeds_of ask.old)) }
    ensures none { IfNone result (E.ends ends.new ≡ E.ends ends.old) }
    ensures later { AreLater (E.ends ends.old) (E.counts ends.old) (E.counts ends.new) }
    ensures same { IsSameRun E.name E.run ends.old ends.new }
{
    match ask {
        Ask::Work => Some(Answer::Nothing),
        Ask::Push(place, value) => match number_at(holdings, *place, Mode::Push) {
            Some(queue) => {
                let item = mem::replace(value, Value::Int(0));
                match ends.push(queue, item) {
                    Ok(()) => Some(Answer::Nothing),
                    Err(item) => {
                        *value = item;
                        None
                    }
                }
            }
            None => None,
        },
        Ask::Pop(place) => match number_at(holdings, *place, Mode::Pop) {
            Some(queue) => match ends.pop(queue) {
                Some(item) => Some(Answer::Item(item)),
                None => None,
            },
            None => None,
        },
        Ask::Empty(place) => match number_at(holdings, *place, Mode::Pop) {
            Some(queue) => {
                if ends.test(queue) {
                    Some(Answer::Flag(false))
                } else {
                    None
                }
            }
            None => None,
        },
        _ => None,
    }
}
