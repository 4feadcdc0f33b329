// Other seats, as a seat sees them.
ghost use Rattle.std.specs.Prelude.{◌≡◌, ◌+◌, ◌++◌, ◌∷◌, [], Some, IfNone, IfSome, IfOk};
ghost use Rattle.crossbeam_deque.specs.Handles.{view, IsPassOf, worker_deque, worker_view, worker_flavor, stealer_deque};
ghost use Rattle.std.specs.Coded.{Coded-set, coded_option};
ghost use Rattle.steal_pool.specs.Rule.{IsAtStage};
ghost use Rattle.steal_pool.specs.declared.rule.DequeStage.TheVariants.{Open};

use crate::deque::{Other, Own, Thief, new_thief};
use crate::stealing::{Tried, steal_frame};
use named_lock::{NameOf, Named};
use swan_model::NoMemory;

/// Another seat's deque.
#[derive(Drop)]
pub(crate) struct Peer<T: Named> {
    stealer: Other<T>,
    pass: Thief<T>,
    pub(crate) name: NameOf<T>,
    ghost of: { IsPassOf (stealer_deque stealer) pass },
    ghost stage: { (view pass).stage ≡ Open },
    ghost named: { (view pass).name ≡ Some name } by { Coded-set (coded_option T.Name.code) (view pass).name (Some name) },
}

impl<T: Named> Peer<T> {
    ghost use Rattle.steal_pool.specs.Peers.{peer_deque, stolen_from};

    /// A way to this deque, which has the name of `like`. It allocates nothing.
    pub(crate) fn new(own: &mut Own<T>, like: &T) -> Result<Peer<T>, NoMemory>
        requires { (worker_flavor own.old ≡ 0) × IsAtStage Open (Some (T.name like.now)) (worker_view own.old) }
        ensures own { (worker_flavor own.new ≡ 0) × (worker_view own.new ≡ worker_view own.old) × (worker_deque own.new ≡ worker_deque own.old) }
        ensures peer { IfOk result (λ peer. (peer.name ≡ T.name like.now) × (peer_deque peer ≡ worker_deque own.old)) }
    {
        let (stealer, pass) = new_thief(own)?;
        Ok(Peer {
            stealer,
            pass,
            name: NameOf::of(like),
        })
    }

    /// Tries once to steal a frame that the other seat put. Where it gives none, the seat's deque is noted. `O(1)`.
    pub(crate) fn steal(&mut self, tried: &mut Tried) -> Option<T>
        ensures same { (self.new.name ≡ self.old.name) × (peer_deque self.new ≡ peer_deque self.old) }
        ensures some { IfSome result (λ frame. (T.name frame ≡ self.old.name) × (stolen_from self.new ≡ stolen_from self.old + 1)) }
        ensures none { IfNone result ((stolen_from self.new ≡ stolen_from self.old) × (tried.new ≡ tried.old ++ peer_deque self.old ∷ [])) }
    {
        steal_frame(&self.stealer, &mut self.pass, tried)
    }
}
