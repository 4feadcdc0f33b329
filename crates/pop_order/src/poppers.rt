// The oldest sibling that pops what a child pops.
ghost use Rattle.std.specs.Prelude.{◌≡◌, ℕ, ◌≤◌, true, ◌⊎◌};
ghost use Rattle.swan_model.specs.Rights.{allows};
ghost use Rattle.swan_model.specs.declared.rights.Mode.TheVariants.{Pop};
ghost use Rattle.pop_order.specs.Children.{has};
ghost use Rattle.pop_order.specs.Frames.{lets_use};
ghost use Rattle.pop_order.specs.Poppers.{IsAmong};

use crate::{Children, QueueHolding};
use swan_model::Mode;

/// The oldest of a child and of the children of its parent that pop one of its popped queues.
/// `O(k log n)` for k holdings.
pub fn oldest_popper(poppers: &Children, parent: u64, holdings: &[QueueHolding], child: u64) -> u64
    ensures at_most { result ≤ child }
    ensures found { (result ≡ child) ⊎ IsAmong poppers.now parent holdings.now result }
    ensures least { (number : ℕ) → IsAmong poppers.now parent holdings.now number → result ≤ number }
{
    let mut oldest = child;
    for holding in holdings {
        oldest = older_popper(poppers, parent, *holding, oldest);
    }
    oldest
}

/// The oldest of a frame and of the children of a parent that pop the holding's queue, where it is
/// popped. `O(log n)`.
fn older_popper(poppers: &Children, parent: u64, holding: QueueHolding, oldest: u64) -> u64
    ensures at_most { result ≤ oldest }
    ensures found { (result ≡ oldest)
        ⊎ ((allows holding.mode Pop ≡ true) × (has poppers.now parent holding.number result ≡ true)) }
    ensures least { (number : ℕ) → allows holding.mode Pop ≡ true →
        has poppers.now parent holding.number number ≡ true → result ≤ number }
{
    if !holding.mode.allows(Mode::Pop) {
        return oldest;
    }
    match poppers.oldest(parent, holding.queue) {
        Some(popper) if popper < oldest => popper,
        _ => oldest,
    }
}
