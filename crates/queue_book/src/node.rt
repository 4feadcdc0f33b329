// A chunk of a queue, in a chain.
ghost use Rattle.std.specs.Prelude.{◌≡◌, Some, None, [], ◌∷◌, ◌++◌, drop, slice_get, OnOk, IsTrue, ◌↔◌};

use std::alloc::Global;
use std::collections::VecDeque;
use std::marker::Model;
use swan_model::{NoMemory, Value, Values};

/// A chunk of a queue, and where the next one stands.
#[derive(Drop)]
pub struct ChunkNode {
    queue: u32,
    owner: Option<u64>,
    items: VecDeque<Value>,
    next: Option<usize>,
}

impl Model for ChunkNode {
    ghost use Rattle.queue_book.specs.Chains.{Link};

    ghost Value = { Link };

    ghost view = { λ node. record { queue = node.queue; owner = node.owner; items = node.items.items; next = node.next } };
}

impl ChunkNode {
    /// The first chunk of a queue, without a copy of its items. It takes no memory. `O(1)`.
    pub fn first(queue: u32, owner: u64, items: Values) -> ChunkNode
        ensures { result ≡ record { queue = queue; owner = Some owner; items = items; next = None } }
    {
        ChunkNode {
            queue,
            owner: Some(owner),
            items: VecDeque::from_vec(items.into_vec()),
            next: None,
        }
    }

    /// An empty chunk behind this one, which another frame owns. It takes no memory. `O(1)`.
    pub fn behind(&self, alloc: Global, owner: u64) -> ChunkNode
        ensures { result ≡ record { queue = self.now.queue; owner = Some owner; items = []; next = self.now.next } }
    {
        ChunkNode {
            queue: self.queue,
            owner: Some(owner),
            items: VecDeque::new(alloc),
            next: self.next,
        }
    }

    /// Who pushes to the chunk now. `O(1)`.
    pub fn owner(&self) -> Option<u64>
        ensures { result ≡ self.now.owner }
    {
        self.owner
    }

    /// Where the next chunk stands. `O(1)`.
    pub fn next(&self) -> Option<usize>
        ensures { result ≡ self.now.next }
    {
        self.next
    }

    /// Whether the chunk has no item. `O(1)`.
    pub fn is_empty(&self) -> bool
        ensures { IsTrue result ↔ (self.now.items ≡ []) }
    {
        self.items.is_empty()
    }

    /// Gives the chunk to another owner, and puts another chunk behind it. `O(1)`.
    pub fn hand_on(&mut self, owner: u64, next: usize)
        ensures { self.new ≡ record self.old { owner = Some owner; next = Some next } }
    {
        self.owner = Some(owner);
        self.next = Some(next);
    }

    /// Nobody pushes to the chunk any more. `O(1)`.
    pub fn close(&mut self)
        ensures { self.new ≡ record self.old { owner = None } }
    {
        self.owner = None;
    }

    /// Adds an item at the end. `O(1)` amortised. Err is want of memory.
    pub fn push(&mut self, value: Value) -> Result<(), NoMemory>
        ensures { OnOk result (self.new ≡ record self.old { items = self.old.items ++ value ∷ [] }) }
    {
        self.items.push_back(value)?;
        Ok(())
    }

    /// Takes the first item, where there is one. Once less than a quarter of the chunk's room is used, it
    /// gives half of that back, where a smaller block can be had. It needs no memory. `O(1)` amortised.
    pub fn pop(&mut self) -> Option<Value>
        ensures item { result ≡ slice_get self.old.items 0 }
        ensures rest { self.new ≡ record self.old { items = drop 1 self.old.items } }
    {
        let first = self.items.pop_front();
        let room = self.items.capacity();
        if self.items.len() < room / 4 {
            self.items.shrink_to(room / 2);
        }
        first
    }

    /// Moves the chunk's items to the end of a list. `O(n)` for n items. Err is want of memory.
    pub fn move_to(self, items: &mut Values) -> Result<(), NoMemory>
        ensures { OnOk result (items.new ≡ items.old ++ self.items) }
    {
        let ChunkNode {
            queue: _,
            owner: _,
            items: mut own,
            next: _,
        } = self;
        while let Some(item) = own.pop_front() {
            match items.push(item) {
                Ok(()) => {}
                Err(_item) => return Err(NoMemory),
            }
        }
        Ok(())
    }
}
