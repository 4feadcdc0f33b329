// The ends of queues that a running frame has with it.
ghost use Rattle.std.specs.Prelude.{◌≡◌, ℕ, ◌+◌, ◌<◌, Bool, true, false, List, Option, IfErr, IfSome, IfNone, OnOk, OnErr, OnSome, ◌⊎◌};
ghost use Rattle.std.specs.Bool.{OnFalse, OnTrue};
ghost use Rattle.std.specs.Option.{ForSome};
ghost use Rattle.swan_model.specs.declared.script.Script.{Script};
ghost use Rattle.swan_model.specs.Lawful.{IsLawful};
ghost use Rattle.swan_model.specs.Values.{COUNT_MOST};
ghost use Rattle.queues.specs.Asks.{IsSameRun, LentEnds, has_end, with_deeds};
ghost use Rattle.queues.specs.Ends.{AreOtherCounts, EndCounts, HasPopped, HasPushed, HasTested, HoldsNext, IsNextPush, IsNextPop, IsNextTest, IsItemNext, ShowsItem, ShowsNone, WasEmpty, WasRefused};

use swan_model::Value;

/// The ends that a running frame has with it. It pushes, pops and tests by them without asking the
/// queues. A test by ends is a deed only where it finds an item: no end tells that a queue is empty.
pub trait LocalEnds: Send + Drop {
    /// The script of the run's name, where it has one.
    ghost name: { Self → Option Script };

    /// What tells this run from others; the empty list where runs aren't told apart.
    ghost run: { Self → List ℕ };

    /// What they are.
    ghost ends: { Self → LentEnds };

    /// What each of them shows of itself in numbers, by its queue and whether it pushes: how many items
    /// it has pushed or popped, how many tests have found one, how many its ring takes, how often it has
    /// looked at the other side's count, for a deed and for none, and what it found last.
    ghost counts: { Self → ℕ → Bool → EndCounts };

    /// Pushes to a queue, where there is an end for that. Err hands the value back and does nothing: it
    /// comes only where no producer of that queue is there, or its ring was full at a step of this call, or
    /// it has pushed as many as can be counted.
    fn push(&mut self, queue: u32, value: Value) -> Result<(), Value>
        // what the frame may do
        requires room { (ends self.old).deeds < COUNT_MOST }

        // where there is a script
        requires next { ForSome (name self.old) (λ s. IsNextPush s (ends self.old) queue value) }

        // what is answered, and why a value comes back
        ensures by_end { OnOk result (has_end (ends self.old) queue true ≡ true) }
        ensures pushed { OnOk result (HasPushed (counts self.old queue true) (counts self.new queue true)) }
        ensures handed_back { IfErr result (λ back. back ≡ value) }
        ensures cause { OnErr result ((has_end (ends self.old) queue true ≡ false) ⊎ WasRefused (counts self.old queue true) (counts self.new queue true)) }

        // what it leaves
        ensures ok { OnOk result (ends self.new ≡ with_deeds (ends self.old) ((ends self.old).deeds + 1)) }
        ensures err { OnErr result (ends self.new ≡ ends self.old) }
        ensures others { AreOtherCounts (counts self.old) (counts self.new) queue true }
        ensures same { IsSameRun name run self.old self.new };

    /// Pops from a queue, where there is an end for that. None comes only where no consumer of that queue
    /// is there, or its ring was empty at a step of this call.
    fn pop(&mut self, queue: u32) -> Option<Value>
        // what the frame may do
        requires room { (ends self.old).deeds < COUNT_MOST }

        // where there is a script
        requires next { ForSome (name self.old) (λ s. IsNextPop s (ends self.old) queue) }

        // what is answered, and why there is none
        ensures item { IfSome result (λ value. ForSome (name self.old) (λ s. IsLawful s → IsItemNext s (ends self.old) value)) }
        ensures by_end { OnSome result (has_end (ends self.old) queue false ≡ true) }
        ensures popped { OnSome result (HasPopped (counts self.old queue false) (counts self.new queue false)) }
        ensures cause { IfNone result ((has_end (ends self.old) queue false ≡ false) ⊎ WasEmpty (counts self.old queue false) (counts self.new queue false)) }

        // what it leaves
        ensures some { OnSome result (ends self.new ≡ with_deeds (ends self.old) ((ends self.old).deeds + 1)) }
        ensures none { IfNone result (ends self.new ≡ ends self.old) }
        ensures others { AreOtherCounts (counts self.old) (counts self.new) queue false }
        ensures same { IsSameRun name run self.old self.new };

    /// Tests whether a queue has an item, where there is an end to pop from it. True is the frame's deed:
    /// in serial order the queue has an item at this step. None is taken. False is no deed and doesn't say
    /// that the queue is empty: it comes only where no consumer of that queue is there, or its ring was
    /// empty at a step of this call.
    fn test(&mut self, queue: u32) -> bool
        // what the frame may do
        requires room { (ends self.old).deeds < COUNT_MOST }

        // where there is a script
        requires next { ForSome (name self.old) (λ s. IsNextTest s (ends self.old) queue) }

        // what is answered, and why it can't be told
        ensures holds { OnTrue result (ForSome (name self.old) (λ s. IsLawful s → HoldsNext s (ends self.old))) }
        ensures by_end { OnTrue result (has_end (ends self.old) queue false ≡ true) }
        ensures tested { OnTrue result (HasTested (counts self.old queue false) (counts self.new queue false)) }
        ensures cause { OnFalse result ((has_end (ends self.old) queue false ≡ false) ⊎ WasEmpty (counts self.old queue false) (counts self.new queue false)) }

        // what it leaves
        ensures found { OnTrue result (ends self.new ≡ with_deeds (ends self.old) ((ends self.old).deeds + 1)) }
        ensures none { OnFalse result (ends self.new ≡ ends self.old) }
        ensures others { AreOtherCounts (counts self.old) (counts self.new) queue false }
        ensures same { IsSameRun name run self.old self.new };

    /// Whether the consumer of a queue finds an item now, for whoever has the frame, whatever its next
    /// deed is. It is no deed. True comes only where that end is there, and found one at a step of this
    /// call; false only where it isn't there, or its ring was empty at a step of this call.
    fn finds(&mut self, queue: u32) -> bool
        // what is answered, and by which look
        ensures by_end { OnTrue result (has_end (ends self.old) queue false ≡ true) }
        ensures some { OnTrue result (ShowsItem (counts self.old queue false) (counts self.new queue false)) }
        ensures none { OnFalse result ((has_end (ends self.old) queue false ≡ false) ⊎ ShowsNone (counts self.old queue false) (counts self.new queue false)) }

        // what it leaves
        ensures after { ends self.new ≡ ends self.old }
        ensures others { AreOtherCounts (counts self.old) (counts self.new) queue false }
        ensures same { IsSameRun name run self.old self.new };
}
