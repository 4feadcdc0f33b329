// Where a seat looks last: at the others.
ghost use Rattle.std.specs.Prelude.{◌≡◌, ◌+◌, IfOk, IfErr, All, map, sum_by};
ghost use Rattle.steal_pool.specs.Peers.{peer_deque, stolen_from};

use crate::peer::Peer;
use crate::stealing::Tried;
use named_lock::{NameOf, Named};

/// A frame of one of these seats, which have this name, by one try at each up to there. `Err` shows that each was tried, in
/// order, and gave none. `O(peers)`.
#[tactic(auto, using(crate::proofs::Keeps::raised, crate::proofs::Rounds::same_by))]
pub(crate) fn steal_any<T: Named>(peers: &mut Vec<Peer<T>>, name: &NameOf<T>) -> Result<T, Tried>
    requires { All (λ peer. peer.name ≡ name.now) peers.old.items }
    ensures peers { All (λ peer. peer.name ≡ name.now) peers.new.items }
    ensures deques { map peer_deque peers.new.items ≡ map peer_deque peers.old.items }
    ensures ok { IfOk result (λ frame. T.name frame ≡ name.now) }
    ensures stolen { IfOk result (λ _. sum_by stolen_from peers.new.items ≡ sum_by stolen_from peers.old.items + 1) }
    ensures none { IfErr result (λ _. sum_by stolen_from peers.new.items ≡ sum_by stolen_from peers.old.items) }
    ensures all { IfErr result (λ tried. tried ≡ map peer_deque peers.old.items) }
{
    let mut tried = Tried::none();
    let mut i = 0;
    while i < peers.len() {
        let peer = &mut peers[i];
        if let Some(frame) = peer.steal(&mut tried) {
            return Ok(frame);
        }
        i += 1;
    }
    Err(tried)
}
