// States that are held.
ghost use Rattle.std.specs.Prelude.{◌≡◌};

use crate::Named;
use crate::rule::View;
use atomic_table::Seat;
use std::snapshot::Snapshot;

/// The state of a lock, while a seat holds it. It can't be dropped: `NamedLock::give` is what spends it.
pub struct Held<S: Named> {
    pub(crate) state: S,
    pub(crate) by: Snapshot<Seat<Option<S>, View<S::Name>>>,
}

impl<S: Named> Held<S> {
    ghost use Rattle.std.specs.Borrow.{Lends, sem};
    ghost use Rattle.named_lock.specs.contracts.held.Held.{the_row};

    /// The state. Any value may be written there. It takes no memory. `O(1)`.
    pub fn state(&mut self) -> &mut S
        ensures* writes_back { sem 𝓛 (Lends (the_row S.row S.Name.row) S.row self.entry result (λ w. record self.old { state = w })) }
        ensures value { result.now ≡ self.old.state }
    {
        &mut self.state
    }
}
