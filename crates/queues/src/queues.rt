// The hyperqueues of a run.
ghost use Rattle.std.specs.Prelude.{◌≡◌, ℕ, ◌+◌, ◌≤◌, Bool, true, false, List, [], Option, Some, None, IfOk, IfErr, OnOk, OnErr, length, slice_get};
ghost use Rattle.std.specs.Option.{ForSome};
ghost use Rattle.swan_model.specs.declared.plan.TheConstants.{FIRST_ITEMS_MOST};
ghost use Rattle.swan_model.specs.declared.rights.Mode.TheVariants.{Push, Pop};
ghost use Rattle.swan_model.specs.declared.script.Deed.TheVariants as deed;
ghost use Rattle.swan_model.specs.declared.script.Script.{Script};
ghost use Rattle.swan_model.specs.Lawful.{IsLawful};
ghost use Rattle.swan_model.specs.QueueFollows.{next_queue_deed, AreByEnds, IsNextAbout, NextSpawnGivesQueues};
ghost use Rattle.swan_model.specs.QueueState.{active, after_back, after_create, after_create_root, after_deed, after_finish, after_lend, after_spawn, after_take_rest, ActiveFrame, IsUntouched, LentEnd, QueueState};
ghost use Rattle.swan_model.specs.Segments.{segment_queue};
ghost use Rattle.queues.specs.Asks.{HasRoom, IsRestLeft, is_emptied, IsOnTurn, IsRecorded, IsSameRun, MayDo, MayJoin, MayLook, MaySpawn, MayUse, OnActive, OnNext, has_end};
ghost use Rattle.queues.specs.Tells.{IsBlockedBy, OnQueue, IsPopped, after_pop, IsTested, after_test, rest_of};

use crate::{LocalEnds, Popped, QueueGive, Tested};
use swan_model::{NoMemory, Value, Values};

/// The hyperqueues of one run, as its frames use them: a frame is one task of the run. Frame 0, the root,
/// is live at the start, and a frame is active from its spawn to its finish.
///
/// A value has a name, which means a script or nothing. Where there is a script, each deed of queues has to be the
/// frame's next one in it, in whatever order the frames act, and the answers are those of the serial order. They
/// are said for every script that is lawful, as that of each plan is. Contracts see a value as its state: the
/// frames, and how many deeds of queues each has done.
///
/// A frame acts while it is active and its ends are back, and does at most 2^64 - 1 deeds of queues. After want of memory a value may
/// only be let go.
pub trait Queues: Send + Drop {
    /// The ends that a running frame has with it.
    type Ends: LocalEnds;

    /// The script of the run's name, where it has one.
    ghost name: { Self → Option Script };

    /// What tells this run from others, as the id of a table that no other run shares; the empty list where runs aren't
    /// told apart.
    ghost run: { Self → List ℕ };

    /// Its frames and queues.
    ghost state: { Self → QueueState };

    /// Makes a root queue with these first items, at most `FIRST_ITEMS_MOST`, which counts as made by frame 0: before the root's
    /// first deed and spawn, and while fewer than 4,294,967,295 queues were made. The answer is the number of queues made before.
    /// Err is want of memory.
    fn create_root(&mut self, first: Values) -> Result<u32, NoMemory>
        // what the state allows
        requires untouched { IsUntouched (state self.old) }
        requires room { HasRoom (state self.old) }
        requires few { length first ≤ FIRST_ITEMS_MOST }

        // where there is a script
        requires next { ForSome (name self.old) (λ s. slice_get s.queues (length (state self.old).makers) ≡ Some first) }

        // what it leaves
        ensures number { IfOk result (λ queue. queue ≡ length (state self.old).makers) }
        ensures ok { OnOk result (state self.new ≡ after_create_root (state self.old)) }
        ensures same { IsSameRun name run self.old self.new };

    /// Makes an empty queue, while fewer than 4,294,967,295 were made. The answer is the number of queues made before. Err is
    /// want of memory.
    fn create(&mut self, frame: u64) -> Result<u32, NoMemory>
        // what the state allows
        requires may { MayDo (state self.old) frame }
        requires room { HasRoom (state self.old) }

        // where there is a script
        requires turn { IsOnTurn (name self.old) (state self.old) frame }
        requires next { OnNext (name self.old) (state self.old) frame (λ s f. next_queue_deed s f.path f.deeds ≡ Some deed.MakeQueue) }

        // what it leaves
        ensures number { IfOk result (λ queue. queue ≡ length (state self.old).makers) }
        ensures ok { OnOk result (OnActive (state self.old) frame (λ f. state self.new ≡ after_create (state self.old) f)) }
        ensures same { IsSameRun name run self.old self.new };

    /// Whether a child may begin to pop: Ok exactly where no older sibling is active that pops a queue
    /// which the child pops, and else Err with the oldest of those. It is Ok for a frame that isn't active.
    /// It takes no memory.
    fn may_start(&self, child: u64) -> Result<(), u64>
        // who has its turn, and whom another one waits for
        ensures ok { OnOk result ((older : ℕ) → ¬ IsBlockedBy (state self.now) child older) }
        ensures blocked { IfErr result (IsBlockedBy (state self.now) child) }
        ensures oldest { IfErr result (λ older. (other : ℕ) → IsBlockedBy (state self.now) child other → older ≤ other) };

    /// Makes a child of the parent, which may use these queues. It is called at each spawn, with no gives
    /// where the child gets no queue. The child's number is above all before; the parent holds each queue by the mode by which it
    /// gives it, and gives none twice; its path has fewer than `PATH_MOST` parts, and it has spawned fewer than 4,294,967,295
    /// children. Err is want of memory.
    fn spawn(&mut self, parent: u64, child: u64, gives: &[QueueGive]) -> Result<(), NoMemory>
        // what the state allows
        requires may { MaySpawn (state self.old) parent child gives.now }

        // where there is a script
        requires turn { IsOnTurn (name self.old) (state self.old) parent }
        requires next { OnNext (name self.old) (state self.old) parent (λ s f. NextSpawnGivesQueues s (state self.old) f gives.now) }

        // what it leaves
        ensures ok { OnOk result (OnActive (state self.old) parent (λ f. state self.new ≡ after_spawn (state self.old) f child gives.now)) }
        ensures same { IsSameRun name run self.old self.new };

    /// The ends that the frame has with it while it runs. It takes no memory.
    fn lend(&mut self, frame: u64) -> Self::Ends
        // what the state allows
        requires may { (f : ActiveFrame) × (active (state self.old) frame ≡ Some f) × (f.lent ≡ None) }

        // what the ends are
        ensures lent { OnActive (state self.old) frame (λ f.
            Self.Ends.ends result ≡ record { frame = frame; path = f.path; before = f.deeds; deeds = f.deeds; list = (Self.Ends.ends result).list }) }
        ensures own { (Self.Ends.name result ≡ name self.old) × (Self.Ends.run result ≡ run self.old) }

        // what each of them shows: a ring that takes some items
        ensures rings { (queue : ℕ) (is_producer : Bool) → has_end (Self.Ends.ends result) queue is_producer ≡ true → 1 ≤ (Self.Ends.counts result queue is_producer).size }

        // what the script tells of them
        ensures segments { (i : ℕ) (end : LentEnd) → slice_get (Self.Ends.ends result).list i ≡ Some end
            → OnQueue (name self.old) (state self.old) end.queue (λ s origin. segment_queue s end.tag ≡ Some origin) }

        // what it leaves
        ensures after { OnActive (state self.old) frame (λ f. state self.new ≡ after_lend (state self.old) f (Self.Ends.ends result).list) }
        ensures same { IsSameRun name run self.old self.new };

    /// Takes a frame's ends back. The deeds that the frame did by them count as done then: where there is a script,
    /// they are the frame's next ones there, and all of them are pushes, pops and tests. Err gives the ends back and changes
    /// nothing: it comes exactly where they aren't those that were recorded as last lent to this frame. It takes no
    /// memory.
    fn back(&mut self, frame: u64, ends: Self::Ends) -> Result<(), Self::Ends>
        // ends of this run
        requires own { (Self.Ends.name ends ≡ name self.old) × (Self.Ends.run ends ≡ run self.old) }

        // where there is a script
        requires path { OnNext (name self.old) (state self.old) frame (λ s f. (Self.Ends.ends ends).path ≡ f.path) }

        // which ends are taken
        ensures recorded { OnOk result (IsRecorded (state self.old) frame (Self.Ends.ends ends)) }
        ensures handed_back { IfErr result (λ other. other ≡ ends) }

        // what the script tells of them
        ensures by_ends { OnOk result (OnNext (name self.old) (state self.old) frame (λ s f. IsLawful s → AreByEnds s f.path f.deeds (Self.Ends.ends ends).deeds)) }

        // what it leaves
        ensures ok { OnOk result (state self.new ≡ after_back (state self.old) frame (Self.Ends.ends ends).deeds) }
        ensures err { OnErr result ((¬ IsRecorded (state self.old) frame (Self.Ends.ends ends)) × (state self.new ≡ state self.old)) }
        ensures same { IsSameRun name run self.old self.new };

    /// Pushes a value to a queue. Err is want of memory.
    fn push(&mut self, frame: u64, queue: u32, value: Value) -> Result<(), NoMemory>
        // what the state allows
        requires may { MayUse (state self.old) frame queue Push }

        // where there is a script
        requires turn { IsOnTurn (name self.old) (state self.old) frame }
        requires next { OnNext (name self.old) (state self.old) frame (λ s f. IsNextAbout (λ origin. deed.Push origin value) s (state self.old) f queue) }

        // what it leaves
        ensures ok { OnOk result (state self.new ≡ after_deed (state self.old) frame) }
        ensures same { IsSameRun name run self.old self.new };

    /// The first item of a queue in serial order, which leaves it; or Empty, only where in serial order none is left at this
    /// step; or NotYet with whom to wait for: the frame's oldest active child that may pop the queue, or where there is none, the
    /// first active frame earlier in serial order that may push to it, while the next item isn't ripe. NotYet is no deed and
    /// changes nothing. It takes no memory.
    fn pop(&mut self, frame: u64, queue: u32) -> Popped
        // what the state allows
        requires may { MayUse (state self.old) frame queue Pop }

        // where there is a script
        requires turn { IsOnTurn (name self.old) (state self.old) frame }
        requires next { OnNext (name self.old) (state self.old) frame (λ s f. IsNextAbout deed.Pop s (state self.old) f queue) }

        // what the script tells, and whom a wait names
        ensures answer { OnActive (state self.old) frame (λ f. IsPopped (name self.old) (state self.old) f queue result) }

        // what it leaves
        ensures after { state self.new ≡ after_pop (state self.old) frame result }
        ensures same { IsSameRun name run self.old self.new };

    /// Whether a queue has an item at this step in serial order, or NotYet as at `pop`. No item is taken; Holds and Empty count
    /// as a deed, and NotYet changes nothing. It takes no memory.
    fn test(&mut self, frame: u64, queue: u32) -> Tested
        // what the state allows
        requires may { MayUse (state self.old) frame queue Pop }

        // where there is a script
        requires turn { IsOnTurn (name self.old) (state self.old) frame }
        requires next { OnNext (name self.old) (state self.old) frame (λ s f. IsNextAbout deed.Test s (state self.old) f queue) }

        // what the script tells, and whom a wait names
        ensures answer { OnActive (state self.old) frame (λ f. IsTested (name self.old) (state self.old) f queue result) }

        // what it leaves
        ensures after { state self.new ≡ after_test (state self.old) frame result }
        ensures same { IsSameRun name run self.old self.new };

    /// As `test`, for a frame whose next step is a pop of the queue. It isn't a deed. It takes no memory.
    fn look(&mut self, frame: u64, queue: u32) -> Tested
        // what the state allows
        requires may { MayLook (state self.old) frame queue }

        // where there is a script
        requires turn { IsOnTurn (name self.old) (state self.old) frame }
        requires next { OnNext (name self.old) (state self.old) frame (λ s f. IsNextAbout deed.Pop s (state self.old) f queue) }

        // what the script tells, and whom a wait names
        ensures answer { OnActive (state self.old) frame (λ f. IsTested (name self.old) (state self.old) f queue result) }

        // what it leaves
        ensures after { state self.new ≡ state self.old }
        ensures same { IsSameRun name run self.old self.new };

    /// Tells that all children of the frame have finished; nothing changes. It takes no memory.
    fn sync(&mut self, frame: u64)
        // what the state allows
        requires may { MayJoin (state self.old) frame }

        // where there is a script
        requires turn { IsOnTurn (name self.old) (state self.old) frame }

        // what it leaves
        ensures after { state self.new ≡ state self.old }
        ensures same { IsSameRun name run self.old self.new };

    /// The frame ends. Queues that it made are given up, but those of frame 0 stay. It takes no memory.
    fn finish(&mut self, frame: u64)
        // what the state allows
        requires may { MayJoin (state self.old) frame }

        // where there is a script
        requires turn { IsOnTurn (name self.old) (state self.old) frame }
        requires over { OnNext (name self.old) (state self.old) frame (λ s f. next_queue_deed s f.path f.deeds ≡ None) }

        // what it leaves
        ensures after { state self.new ≡ after_finish (state self.old) frame }
        ensures same { IsSameRun name run self.old self.new };

    /// The items that are left of a queue of frame 0, once that has finished, in order. A second call answers
    /// the empty list. Err is want of memory.
    fn take_rest(&mut self, queue: u32) -> Result<Values, NoMemory>
        // what the state allows
        requires left { IsRestLeft (state self.old) queue }

        // what the script tells, and what a second call finds
        ensures first { IfOk result (λ rest. is_emptied (state self.old) queue ≡ false → OnQueue (name self.old) (state self.old) queue (λ s origin. rest ≡ rest_of s origin)) }
        ensures again { IfOk result (λ rest. is_emptied (state self.old) queue ≡ true → rest ≡ []) }

        // what it leaves
        ensures ok { OnOk result (state self.new ≡ after_take_rest (state self.old) queue) }
        ensures same { IsSameRun name run self.old self.new };
}
