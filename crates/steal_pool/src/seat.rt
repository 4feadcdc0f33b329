// Seats of a pool.
ghost use Rattle.std.specs.Prelude.{◌≡◌, ◌+◌, ◌≤◌, ◌++◌, ◌∷◌, [], ◌⊎◌, Some, IfOk, IfErr, OnOk, OnErr};
ghost use Rattle.std.specs.Bool.{MatchBool};
ghost use Rattle.crossbeam_deque.specs.Tasks.{Finds};
ghost use Rattle.crossbeam_deque.specs.Handles.{worker_view, worker_flavor};
ghost use Rattle.crossbeam_utils.specs.Padded.{padded_value};
ghost use Rattle.std.specs.Coded.{Coded-set, coded_option};
ghost use Rattle.steal_pool.specs.Rule.{Pooled};
ghost use Rattle.steal_pool.specs.declared.rule.DequeStage.TheVariants.{Open};

use crate::Dry;
use crate::deque::{Own, is_empty, own_like, pop_frame, push_frame};
use crate::kept::KeptList;
use crate::peer::Peer;
use crate::peers::Peers;
use crate::rule::PoolView;
use crossbeam_deque::protocol::Outcome;
use crossbeam_utils::CachePadded;
use named_lock::{NameOf, Named};
use std::alloc::Global;
use swan_model::NoMemory;

/// What one worker puts frames to and takes them from. It may move to another thread.
#[derive(Drop)]
pub struct PoolSeat<T: Named> {
    own: CachePadded<Own<T>>,
    list: KeptList<T>,
    peers: Peers<T>,
    name: NameOf<T>,
    ghost fifo: { worker_flavor (padded_value own) ≡ 0 },
    ghost stage: { (worker_view (padded_value own)).stage ≡ Open },
    ghost named: { (worker_view (padded_value own)).name ≡ Some name } by { Coded-set (coded_option T.Name.code) (worker_view (padded_value own)).name (Some name) },
    ghost lists: { list.name ≡ name } by { Coded-set T.Name.code list.name name },
    ghost peered: { peers.name ≡ name } by { Coded-set T.Name.code peers.name name },
}

impl<T: Named> PoolSeat<T> {
    ghost use Rattle.steal_pool.specs.Peers.{peer_deque};
    ghost use Rattle.steal_pool.specs.Seats.{GivesFirst, GivesListed, GivesStolen, IsNewSeat, IsSameSeat, IsSameView, known, listed, next_put, own_deque, own_port, own_room, own_view, pool_name, tried_at};

    /// A seat of the pool that has the name of `like`, which knows no other seat yet, and has room for so many. It
    /// allocates the deque with its first ring, and the list of the others.
    pub(crate) fn alone(alloc: Global, like: &T, others: usize) -> Result<PoolSeat<T>, NoMemory>
        ensures new { IfOk result (λ seat. IsNewSeat (T.name like.now) seat) }
        ensures alone { IfOk result (λ seat. known seat ≡ []) }
    {
        let own = own_like(alloc, like)?;
        Ok(PoolSeat {
            own: CachePadded::new(own),
            list: KeptList::new(alloc, like),
            peers: Peers::with_room(alloc, like, others)?,
            name: NameOf::of(like),
        })
    }

    /// This seat, as another one sees it. It allocates nothing.
    pub(crate) fn as_peer(&mut self, like: &T) -> Result<Peer<T>, NoMemory>
        requires { IsNewSeat (T.name like.now) self.old }
        ensures new { IsNewSeat (T.name like.now) self.new }
        ensures same { (own_deque self.new ≡ own_deque self.old) × (known self.new ≡ known self.old) }
        ensures peer { IfOk result (λ peer. (peer.name ≡ T.name like.now) × (peer_deque peer ≡ own_deque self.old)) }
    {
        Peer::new(&mut self.own, like)
    }

    /// One more seat to steal from, after those that it knows. `O(1)`.
    pub(crate) fn meet(&mut self, peer: Peer<T>) -> Result<(), NoMemory>
        requires { IsNewSeat peer.name self.old }
        ensures new { IsNewSeat peer.name self.new }
        ensures same { own_deque self.new ≡ own_deque self.old }
        ensures ok { OnOk result (known self.new ≡ known self.old ++ peer_deque peer ∷ []) }
    {
        self.peers.push(peer)
    }

    /// Puts a frame, which has the pool's name: into the seat's deque, or where that can't grow at the end of the seat's own list.
    /// The clauses say of the list that the number of the deque's next frame had come to its room. A deque that grows takes
    /// memory, which it keeps until all seats that know it are gone.
    ///
    /// Err is want of memory for that list: it hands the frame back, and nothing was put. `O(1)` amortised.
    pub fn put(&mut self, frame: T) -> Result<(), T>
        requires { T.name frame ≡ pool_name self.old }
        ensures same { IsSameSeat self.old self.new × IsSameView self.old self.new }
        ensures ok { OnOk result (((next_put self.new ≡ next_put self.old + 1) × (listed self.new ≡ listed self.old)) ⊎ ((own_room self.old ≤ next_put self.old) × (next_put self.new ≡ next_put self.old) × (listed self.new ≡ listed self.old ++ frame ∷ []))) }
        ensures err { IfErr result (λ given. (given ≡ frame) × (next_put self.new ≡ next_put self.old) × (listed self.new ≡ listed self.old)) }
    {
        let Err(frame) = push_frame(&mut self.own, frame) else {
            return Ok(());
        };
        self.keep(frame)
    }

    /// Puts a frame at the end of the seat's own list, or hands it back where there is no memory for that. `O(1)` amortised.
    pub(crate) fn keep(&mut self, frame: T) -> Result<(), T>
        requires { T.name frame ≡ pool_name self.old }
        ensures same { IsSameSeat self.old self.new × IsSameView self.old self.new × (next_put self.new ≡ next_put self.old) }
        ensures ok { OnOk result (listed self.new ≡ listed self.old ++ frame ∷ []) }
        ensures err { IfErr result (λ given. (given ≡ frame) × (listed self.new ≡ listed self.old)) }
    {
        self.list.push(frame)
    }

    /// Takes a frame, which has the pool's name: from the seat's deque, or else from its own list, or else by one steal from each
    /// other seat, the next one first. It is one of the three, and no other frame leaves. That the deque is popped before the list
    /// is looked at, and before a steal, is by the code, and no clause says it where a frame is given.
    ///
    /// `Dry` comes only where the deque was empty at one moment of this call, of which the caller learns what `M` says of an empty
    /// deque, the list is empty, and a steal from each other seat that this one knows gave no frame. It takes no memory. `O(1)`, or `O(seats)` where it steals.
    pub fn take<M: Outcome<T, PoolView<T::Name>>>(&mut self) -> Result<T, Dry>
        requires { Finds (Pooled T.name) (own_port self.old) (own_view self.old) (M.empty (own_view self.old)) }

        // which seat it stays
        ensures same { IsSameSeat self.old self.new × (next_put self.new ≤ next_put self.old) }

        // the frame that is taken, and where it was
        ensures named { IfOk result (λ frame. T.name frame ≡ pool_name self.old) }
        ensures once { IfOk result (λ frame. GivesFirst self.old self.new ⊎ (GivesListed frame self.old self.new ⊎ GivesStolen self.old self.new)) }

        // what shows that none was found
        ensures empty { OnErr result (M.empty (own_view self.old)) }
        ensures none_taken { OnErr result (IsSameView self.old self.new) }
        ensures none_listed { OnErr result ((listed self.old ≡ []) × (listed self.new ≡ [])) }
        ensures all_tried { IfErr result (λ dry. tried_at dry ≡ known self.old) }
    {
        let empty = match pop_frame::<T, M>(&mut self.own) {
            Ok(frame) => return Ok(frame),
            Err(empty) => empty,
        };
        if let Some(frame) = self.list.pop() {
            return Ok(frame);
        }
        match self.peers.steal() {
            Ok(frame) => Ok(frame),
            Err(tried) => Err(Dry::new(empty, tried)),
        }
    }

    /// Whether the seat's deque was empty at one moment of this call. It looks at neither the seat's own list nor the other seats,
    /// and takes nothing.
    ///
    /// Of an empty deque the caller learns what `M` says of it, as from `take`. `false` comes only where a frame stood there,
    /// which has the pool's name. It takes no memory. `O(1)`: one load.
    pub fn is_bare<M: Outcome<T, PoolView<T::Name>>>(&mut self) -> bool
        requires { Finds (Pooled T.name) (own_port self.old) (own_view self.old) (M.empty (own_view self.old)) }
        ensures same { IsSameSeat self.old self.new × IsSameView self.old self.new × (next_put self.new ≡ next_put self.old) }
        ensures listed { listed self.new ≡ listed self.old }
        ensures answer { MatchBool result (M.empty (own_view self.old)) ((frame : T) × (T.name frame ≡ pool_name self.old)) }
    {
        is_empty::<T, M>(&mut self.own)
    }
}
