// The chunks of all queues.
ghost use Rattle.std.specs.Prelude.{◌≡◌, ◌≢◌, ℕ, ◌+◌, ◌<◌, Option, Some, None, [], ◌∷◌, drop, length, IfOk, IfSome, IfNone, OnOk, true};
ghost use Rattle.slab.specs.Slab.{ContainsKey, slab_len};
ghost use Rattle.queues.specs.Chunks.{Chunk, Chunks, own, is_spent, with_item, after_hand_on, after_close, without_spent, without_first, items_in};
ghost use Rattle.queue_book.specs.Chains.{IsFront, chunk_of, first_item, in_line, put_at};
ghost use Rattle.queue_book.specs.Lines.{HaveSomeLines, HaveSomeUnowned, HaveLines, OnLines, OnOwn, OnUnowned};

use crate::ChunkNode;
use slab::Slab;
use std::alloc::Global;
use swan_model::{NoMemory, Value, Values};

/// What stands at the front of a queue once its spent chunks are dropped.
#[derive(Clone, Copy)]
pub enum Front {
    /// An item.
    Item,
    /// A chunk without items, to which this frame pushes.
    Open(u64),
    /// Nothing.
    Over,
}

/// The chunks of all queues, in chains. Contracts speak of the chunks of each queue by its number, and of where each
/// frame's own chunks stand.
#[derive(Drop)]
pub struct Chains {
    /// The first node of each queue, by the queue's number.
    pub heads: Vec<Option<usize>>,
    /// The nodes of all queues.
    pub nodes: Slab<ChunkNode>,
}

impl Chains {
    /// No queues. It takes no memory. `O(1)`.
    pub fn new(alloc: Global) -> Chains
        ensures none { length result.heads.items ≡ 0 }
        ensures kept { (lines : ℕ → Chunks) → HaveLines result (λ n q. None) lines }
    {
        Chains {
            heads: Vec::new(alloc),
            nodes: Slab::new(alloc),
        }
    }

    /// Makes a queue of one chunk, and answers the key of its node. `O(1)` amortised. Err is want of memory.
    pub fn make(&mut self, queue: u32, owner: u64, items: Values) -> Result<usize, NoMemory>
        requires number { queue ≡ length self.old.heads.items }
        ensures more { OnOk result (length self.new.heads.items ≡ length self.old.heads.items + 1) }
        ensures made { IfOk result (λ key. OnLines self.old (λ at lines. at owner queue ≡ None
            → HaveLines self.new (put_at owner queue (Some key) at) (in_line queue (λ old. own owner items ∷ []) lines))) }
    {
        let key = self.nodes.insert(ChunkNode::first(queue, owner, items))?;
        self.heads.push(Some(key))?;
        Ok(key)
    }

    /// Pushes an item to a chunk. `O(1)` amortised. Err is want of memory.
    pub fn push(&mut self, key: usize, value: Value) -> Result<(), NoMemory>
        requires known { ContainsKey self.old.nodes key }
        ensures heads { self.new.heads.items ≡ self.old.heads.items }
        ensures pushed { OnOk result (OnOwn self.old key (λ at lines owner queue. HaveLines self.new at (in_line queue (with_item owner value) lines))) }
    {
        let Some(node) = self.nodes.get_mut(key) else {
            unreachable!()
        };
        node.push(value)?;
        Ok(())
    }

    /// Gives a chunk to a child, and its old owner an empty one right behind; answers the key of its node.
    /// `O(1)` amortised. Err is want of memory.
    pub fn hand_on(
        &mut self,
        alloc: Global,
        key: usize,
        parent: u64,
        child: u64,
    ) -> Result<usize, NoMemory>
        requires known { ContainsKey self.old.nodes key }
        requires two { parent ≢ child }
        ensures heads { self.new.heads.items ≡ self.old.heads.items }
        ensures handed { IfOk result (λ new. OnLines self.old (λ at lines. (queue : ℕ) → at parent queue ≡ Some key → at child queue ≡ None
            → HaveLines self.new (put_at parent queue (Some new) (put_at child queue (Some key) at)) (in_line queue (after_hand_on parent child) lines))) }
    {
        let Some(node) = self.nodes.get(key) else {
            unreachable!()
        };
        let behind = node.behind(alloc, parent);
        let new = self.nodes.insert(behind)?;
        let Some(node) = self.nodes.get_mut(key) else {
            unreachable!()
        };
        node.hand_on(child, new);
        Ok(new)
    }

    /// Nobody pushes to a chunk any more. `O(1)`.
    pub fn close(&mut self, key: usize)
        requires known { ContainsKey self.old.nodes key }
        ensures heads { self.new.heads.items ≡ self.old.heads.items }
        ensures closed { OnOwn self.old key (λ at lines owner queue. HaveLines self.new (put_at owner queue None at) (in_line queue (after_close owner) lines)) }
    {
        let Some(node) = self.nodes.get_mut(key) else {
            unreachable!()
        };
        node.close();
    }

    /// What stands at the front of a queue, and None where that is a spent chunk. `O(1)`.
    fn front(&self, queue: u32) -> Option<Front>
        requires known { queue < length self.now.heads.items }
        requires kept { HaveSomeLines self.now }
        ensures stands { IfSome result (λ front. OnLines self.now (λ at lines. IsFront (lines queue) front × (without_spent (lines queue) ≡ lines queue))) }
        ensures spent { IfNone result (OnLines self.now (λ at lines. (chunk : Chunk) × (rest : Chunks) × (lines queue ≡ chunk ∷ rest) × (is_spent chunk ≡ true))) }
    {
        let Some(key) = self.heads[queue as usize] else {
            return Some(Front::Over);
        };
        let Some(node) = self.nodes.get(key) else {
            unreachable!()
        };
        if !node.is_empty() {
            return Some(Front::Item);
        }
        match node.owner() {
            Some(owner) => Some(Front::Open(owner)),
            None => None,
        }
    }

    /// Drops the first chunk of a queue, where there is one. `O(1)`; it takes no memory.
    fn drop_first(&mut self, queue: u32) -> Option<ChunkNode>
        requires known { queue < length self.old.heads.items }
        requires kept { HaveSomeLines self.old }
        ensures same { length self.new.heads.items ≡ length self.old.heads.items }

        // the first chunk, where there is one
        ensures fewer { IfSome result (λ node. slab_len self.new.nodes + 1 ≡ slab_len self.old.nodes) }
        ensures first { IfSome result (λ node. OnLines self.old (λ at lines. lines queue ≡ chunk_of node ∷ drop 1 (lines queue))) }
        ensures dropped { IfSome result (λ node. OnLines self.old (λ at lines. node.owner ≡ None → HaveLines self.new at (in_line queue (λ chunks. drop 1 chunks) lines))) }
        ensures unowned { IfSome result (λ node. OnUnowned self.old queue (λ at lines. node.owner ≡ None)) }

        // and none
        ensures none { IfNone result (OnLines self.old (λ at lines. (lines queue ≡ []) × HaveLines self.new at lines)) }
        ensures no_fewer { IfNone result (self.new.nodes ≡ self.old.nodes) }
    {
        let Some(key) = self.heads[queue as usize] else {
            return None;
        };
        let Some(node) = self.nodes.try_remove(key) else {
            unreachable!()
        };
        self.heads[queue as usize] = node.next();
        Some(node)
    }

    /// Drops the spent chunks at the front of a queue, and says what stands there then. `O(1)` amortised;
    /// it takes no memory.
    pub fn trim(&mut self, queue: u32) -> Front
        requires known { queue < length self.old.heads.items }
        requires kept { HaveSomeLines self.old }
        ensures same { length self.new.heads.items ≡ length self.old.heads.items }
        ensures trimmed { OnLines self.old (λ at lines. HaveLines self.new at (in_line queue without_spent lines) × IsFront (without_spent (lines queue)) result) }
        ensures fewer { OnLines self.old (λ at lines. slab_len self.new.nodes + length (lines queue) ≡ slab_len self.old.nodes + length (without_spent (lines queue))) }
    {
        loop {
            if let Some(front) = self.front(queue) {
                return front;
            }
            let Some(_spent) = self.drop_first(queue) else {
                unreachable!()
            };
        }
    }

    /// Takes the first item of the first chunk of a queue. `O(1)` amortised; it needs no memory.
    pub fn take_first(&mut self, queue: u32) -> Option<Value>
        requires known { queue < length self.old.heads.items }
        requires kept { HaveSomeLines self.old }
        ensures same { length self.new.heads.items ≡ length self.old.heads.items }
        ensures item { OnLines self.old (λ at lines. result ≡ first_item (lines queue)) }
        ensures taken { OnLines self.old (λ at lines. HaveLines self.new at (in_line queue without_first lines)) }
    {
        let Some(key) = self.heads[queue as usize] else {
            return None;
        };
        let Some(node) = self.nodes.get_mut(key) else {
            unreachable!()
        };
        node.pop()
    }

    /// Gives up all chunks of a queue, of which none is owned. `O(n)` for what is given up; it takes no memory.
    pub fn give_up(&mut self, queue: u32)
        requires known { queue < length self.old.heads.items }
        requires unowned { HaveSomeUnowned self.old queue }
        ensures same { length self.new.heads.items ≡ length self.old.heads.items }
        ensures given_up { OnUnowned self.old queue (λ at lines. HaveLines self.new at (in_line queue (λ chunks. []) lines)) }
        ensures fewer { OnUnowned self.old queue (λ at lines. slab_len self.new.nodes + length (lines queue) ≡ slab_len self.old.nodes) }
    {
        while let Some(_node) = self.drop_first(queue) {}
    }

    /// Takes all items of a queue, and gives up its chunks, of which none is owned. `O(n)` for n items and chunks. Err
    /// is want of memory.
    pub fn take_all(&mut self, alloc: Global, queue: u32) -> Result<Values, NoMemory>
        // the queue
        requires known { queue < length self.old.heads.items }
        requires unowned { HaveSomeUnowned self.old queue }

        // the items that it answers
        ensures items { IfOk result (λ items. OnUnowned self.old queue (λ at lines. items ≡ items_in (lines queue))) }

        // what it leaves
        ensures same { OnOk result (length self.new.heads.items ≡ length self.old.heads.items) }
        ensures taken { OnOk result (OnUnowned self.old queue (λ at lines. HaveLines self.new at (in_line queue (λ chunks. []) lines))) }
        ensures fewer { OnOk result (OnUnowned self.old queue (λ at lines. slab_len self.new.nodes + length (lines queue) ≡ slab_len self.old.nodes)) }
    {
        let mut items = Values::new(alloc);
        while let Some(node) = self.drop_first(queue) {
            node.move_to(&mut items)?;
        }
        Ok(items)
    }

    /// Gives up all queues. `O(1)` for each chunk and item; it takes no memory.
    pub fn clear(&mut self)
        ensures none { length self.new.heads.items ≡ 0 }
        ensures kept { (lines : ℕ → Chunks) → HaveLines self.new (λ n q. None) lines }
    {
        self.heads.clear();
        self.nodes.clear();
    }
}
