// The hyperqueues of a run, each as its chunks in order.
ghost use Rattle.std.specs.Prelude.{◌≡◌, true, false, Some, None};
ghost use Rattle.swan_model.specs.QueueState.{new_state};
ghost use Rattle.queue_book.specs.Calls.{after_call};

use crate::stated::{After, AfterSpawn, AtStart, Call, PathOf, Stated};
use crate::store::QueueStore;
use crate::{NoEnds, Popped, QueueGive, Queues, Tested};
use std::alloc::Global;
use std::marker::Model;
use swan_model::{Meaning, NoMemory, RunName, Value, Values};

/// Hyperqueues, each as its chunks in serial order. Each active frame that has a queue pushes to a chunk of
/// its own there. After want of memory all of them are given up.
///
/// In costs, n counts the active frames and the queues that each of them has.
#[derive(Drop)]
pub struct BookQueues {
    name: RunName,
    state: Meaning<Stated>,
    store: QueueStore,
}

impl Model for BookQueues {
    ghost use Rattle.queue_book.specs.BookView.{BookView};
    ghost use Rattle.queue_book.specs.Whole.{IsBook};

    ghost Value = { BookView };

    ghost view = { λ queues. record { name = queues.name; state = queues.state.means } };

    ghost invariant = { λ queues.
        IsBook queues.name queues.state.means queues.store.frames queues.store.chains.heads.items queues.store.chains.nodes queues.store.turns };
}

impl BookQueues {
    /// The root alone, and no queues. It takes no memory. `O(1)`.
    pub fn new(alloc: Global, name: RunName) -> BookQueues
        ensures { result ≡ record { name = name; state = new_state } }
    {
        BookQueues {
            name,
            state: Meaning::of(&AtStart),
            store: QueueStore::new(alloc),
        }
    }
}

/// The state after a call.
fn after(state: &Meaning<Stated>, call: Call) -> Meaning<Stated>
    ensures { result.means ≡ after_call state.now.means call }
{
    Meaning::of(&After { state, call })
}

impl Queues for BookQueues {
    ghost use Rattle.std.specs.Prelude.{[]};

    type Ends = NoEnds;

    ghost name = { λ queues. queues.name };

    ghost run = { λ queues. [] };

    ghost state = { λ queues. queues.state };

    /// Makes a root queue of one chunk, which takes over the items. One entry for the queue stays to the end of the run. `O(log n)`
    /// amortised, however many items they are.
    fn create_root(&mut self, first: Values) -> Result<u32, NoMemory> {
        match self.store.make(0, first) {
            Ok(queue) => {
                self.state = after(&self.state, Call::CreateRoot);
                Ok(queue)
            }
            Err(NoMemory) => {
                self.state = self.store.clear();
                Err(NoMemory)
            }
        }
    }

    /// Makes a queue of one empty chunk. One entry for the queue stays to the end of the run. `O(log n)` amortised.
    fn create(&mut self, frame: u64) -> Result<u32, NoMemory> {
        let none = Values::new(self.store.alloc);
        match self.store.make(frame, none) {
            Ok(queue) => {
                self.store.frames.count_deed(frame);
                self.state = after(&self.state, Call::Create(frame));
                Ok(queue)
            }
            Err(NoMemory) => {
                self.state = self.store.clear();
                Err(NoMemory)
            }
        }
    }

    /// Answers by the turns of those that pop. `O(k log n)` for the child's k queues.
    fn may_start(&self, child: u64) -> Result<(), u64> {
        self.store.turns.may_start(child)
    }

    /// Makes a child, to which the parent hands its chunk of each queue that it gives; it goes on in a new one
    /// behind. `O(log n)`, and as much amortised for each give.
    fn spawn(&mut self, parent: u64, child: u64, gives: &[QueueGive]) -> Result<(), NoMemory> {
        match self.store.spawn(parent, child, gives) {
            Ok(()) => {
                self.state = Meaning::of(&AfterSpawn {
                    state: &self.state,
                    parent,
                    child,
                    gives,
                });
                Ok(())
            }
            Err(NoMemory) => {
                self.state = self.store.clear();
                Err(NoMemory)
            }
        }
    }

    /// Lends ends that serve nothing. `O(log n)`.
    fn lend(&mut self, frame: u64) -> NoEnds {
        let path = Meaning::of(&PathOf {
            state: &self.state,
            frame,
        });
        let deeds = self.store.frames.lend(frame);
        self.state = after(&self.state, Call::Lend(frame));
        NoEnds::new(self.name.again(), frame, deeds, path)
    }

    /// Takes a frame's ends back, where they are those last lent to it. `O(log n)`.
    fn back(&mut self, frame: u64, ends: NoEnds) -> Result<(), NoEnds> {
        if ends.frame() != frame {
            return Err(ends);
        }
        if !self.store.frames.is_lent(frame, ends.deeds()) {
            return Err(ends);
        }
        self.store.frames.take_back(frame);
        self.state = after(&self.state, Call::Back(frame));
        Ok(())
    }

    /// Adds the value to the frame's own chunk. Look-ups, which are `O(log n)`, and `O(1)` amortised for the item.
    fn push(&mut self, frame: u64, queue: u32, value: Value) -> Result<(), NoMemory> {
        let Some(own_chunk) = self.store.frames.own_chunk(frame, queue) else {
            unreachable!()
        };
        match self.store.chains.push(own_chunk.key, value) {
            Ok(()) => {
                self.store.frames.count_deed(frame);
                self.state = after(&self.state, Call::Deed(frame));
                Ok(())
            }
            Err(NoMemory) => {
                self.state = self.store.clear();
                Err(NoMemory)
            }
        }
    }

    /// Takes the first item of the first chunk that isn't spent. `O(log n)` amortised. With the free name also a walk
    /// over the chunks before the frame's own, with a look-up for each that is owned, up to the first frame that may
    /// push.
    fn pop(&mut self, frame: u64, queue: u32) -> Popped {
        match self.store.front(frame, queue) {
            Tested::NotYet(wait) => Popped::NotYet(wait),
            Tested::Empty => {
                self.store.frames.count_deed(frame);
                self.state = after(&self.state, Call::Deed(frame));
                Popped::Empty
            }
            Tested::Holds => match self.store.chains.take_first(queue) {
                Some(item) => {
                    self.store.frames.count_deed(frame);
                    self.state = after(&self.state, Call::Deed(frame));
                    Popped::Item(item)
                }
                None => unreachable!(),
            },
        }
    }

    /// Whether the first chunk that isn't spent has an item. It costs what `pop` costs.
    fn test(&mut self, frame: u64, queue: u32) -> Tested {
        match self.store.front(frame, queue) {
            Tested::NotYet(wait) => Tested::NotYet(wait),
            Tested::Empty => {
                self.store.frames.count_deed(frame);
                self.state = after(&self.state, Call::Deed(frame));
                Tested::Empty
            }
            Tested::Holds => {
                self.store.frames.count_deed(frame);
                self.state = after(&self.state, Call::Deed(frame));
                Tested::Holds
            }
        }
    }

    /// As `test`, and no deed is counted. It costs what `pop` costs.
    fn look(&mut self, frame: u64, queue: u32) -> Tested {
        self.store.front(frame, queue)
    }

    /// Nothing is left to do. `O(1)`.
    fn sync(&mut self, _frame: u64) {}

    /// Closes the frame's chunks, and gives up the queues that it made where it isn't frame 0. `O(log n)`, and as
    /// much for each of its queues, and `O(1)` for each chunk and item that is given up.
    fn finish(&mut self, frame: u64) {
        self.store.end(frame);
        self.state = after(&self.state, Call::Finish(frame));
    }

    /// Moves what is left of a queue to a list, and gives up its chunks. `O(1)` amortised for each chunk and item.
    fn take_rest(&mut self, queue: u32) -> Result<Values, NoMemory> {
        match self.store.chains.take_all(self.store.alloc, queue) {
            Ok(items) => {
                self.state = after(&self.state, Call::TakeRest(queue));
                Ok(items)
            }
            Err(NoMemory) => {
                self.state = self.store.clear();
                Err(NoMemory)
            }
        }
    }
}
