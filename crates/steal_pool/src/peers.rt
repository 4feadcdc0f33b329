// All other seats, as a seat sees them.
ghost use Rattle.std.specs.Prelude.{◌≡◌, ◌+◌, ◌++◌, ◌∷◌, [], IfErr, IfOk, OnOk, All};
ghost use Rattle.std.specs.Coded.{Coded-set, Π_prop, →_prop};

use crate::finding::steal_any;
use crate::peer::Peer;
use crate::stealing::Tried;
use named_lock::{NameOf, Named};
use std::alloc::Global;
use swan_model::NoMemory;

/// Other seats of a pool with one name, the next one first.
#[derive(Drop)]
pub(crate) struct Peers<T: Named> {
    pub(crate) seats: Vec<Peer<T>>,
    pub(crate) name: NameOf<T>,
    ghost named: { All (λ peer. peer.name ≡ name) seats.items } by { Π_prop (λ k. Π_prop (λ d. →_prop (Coded-set T.Name.code _ _))) },
}

impl<T: Named> Peers<T> {
    ghost use Rattle.steal_pool.specs.Peers.{deques_of, peer_deque, stolen_by};

    /// No peers yet, with room for so many, of a pool that has the name of `like`. It allocates once.
    pub(crate) fn with_room(alloc: Global, like: &T, count: usize) -> Result<Peers<T>, NoMemory>
        ensures { IfOk result (λ peers. (peers.name ≡ T.name like.now) × (deques_of peers ≡ [])) }
    {
        Ok(Peers {
            seats: Vec::with_capacity(alloc, count)?,
            name: NameOf::of(like),
        })
    }

    /// One more, after those that are there. `O(1)`, and it allocates nothing where there is room.
    pub(crate) fn push(&mut self, peer: Peer<T>) -> Result<(), NoMemory>
        requires { peer.name ≡ self.old.name }
        ensures name { self.new.name ≡ self.old.name }
        ensures ok { OnOk result (deques_of self.new ≡ deques_of self.old ++ peer_deque peer ∷ []) }
    {
        self.seats.push(peer)?;
        Ok(())
    }

    /// A frame of one of them, by one try at each up to there. `Err` shows that each was tried, in order, and gave none.
    /// `O(peers)`.
    pub(crate) fn steal(&mut self) -> Result<T, Tried>
        ensures same { (self.new.name ≡ self.old.name) × (deques_of self.new ≡ deques_of self.old) }
        ensures ok { IfOk result (λ frame. (T.name frame ≡ self.old.name) × (stolen_by self.new ≡ stolen_by self.old + 1)) }
        ensures err { IfErr result (λ tried. (stolen_by self.new ≡ stolen_by self.old) × (tried ≡ deques_of self.old)) }
    {
        steal_any(&mut self.seats, &self.name)
    }
}
