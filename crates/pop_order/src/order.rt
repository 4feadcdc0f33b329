// Which of two frames comes first in serial order.
ghost use Rattle.std.specs.Prelude.{◌≡◌, true, false};
ghost use Rattle.pop_order.specs.Kept.{AreBelowParents};
ghost use Rattle.pop_order.specs.Order.{ComesBefore};
ghost use Rattle.pop_order.specs.Walk.{is_older};

use crate::TurnFrame;
use std::collections::BTreeMap;

/// Whether a frame comes before another in serial order, as it does where it is below that one, or
/// their ways up meet at a frame and its own way comes through the older child. Numbers fall on the way
/// up, so the way whose number is the higher one goes on. `O(d log n)` for a tree of depth d.
pub fn comes_before(frames: &BTreeMap<u64, TurnFrame>, number: u64, other: u64) -> bool
    requires { AreBelowParents frames.now.entries }
    ensures before { result ≡ true → ComesBefore frames.now.entries number other }
    ensures not_before { result ≡ false → ¬ ComesBefore frames.now.entries number other }
{
    let mut left = number;
    let mut right = other;
    let mut left_child = None;
    let mut right_child = None;
    while left != right {
        if left > right {
            let Some(frame) = frames.get(&left) else {
                return false;
            };
            left_child = Some(left);
            left = frame.parent;
        } else {
            let Some(frame) = frames.get(&right) else {
                return false;
            };
            right_child = Some(right);
            right = frame.parent;
        }
    }
    comes_first(left_child, right_child)
}

/// Whether the first of two ways up comes first, by the children of the frame at which they meet.
/// `O(1)`.
fn comes_first(left_child: Option<u64>, right_child: Option<u64>) -> bool
    ensures { result ≡ is_older left_child right_child }
{
    match (left_child, right_child) {
        (None, _) => false,
        (Some(_), None) => true,
        (Some(left), Some(right)) => left < right,
    }
}
