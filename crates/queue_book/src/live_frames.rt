// The active frames by number.
ghost use Rattle.std.specs.Prelude.{◌≡◌, None};
ghost use Rattle.std.specs.BTreeMap.{is_at};
ghost use Rattle.std.specs.Map.{lookup};
ghost use Rattle.std.specs.Ordering.{nat_cmp};

use crate::{OwnChunk, QueueFrame};
use std::alloc::Global;
use std::collections::BTreeMap;
use swan_model::NoMemory;

/// The active frames. The root, which is live before any memory is taken, stands beside the others, and so does the
/// newest one: most frames come and go as the newest, and are found without a look-up then.
#[derive(Drop)]
pub struct LiveFrames {
    /// The root, where it is active.
    pub root: Option<QueueFrame>,
    /// The number of the frame that was added last.
    pub newest_number: u64,
    /// That frame, where it is active.
    pub newest: Option<QueueFrame>,
    /// The others. They have none under the newest one's number.
    pub others: BTreeMap<u64, QueueFrame>,
    ghost apart: { lookup (is_at (nat_cmp newest_number)) others.entries ≡ None },
}

impl LiveFrames {
    ghost use Rattle.std.specs.Prelude.{◌≡◌, ◌≢◌, ℕ, ◌+◌, ◌<◌, Some, None, IsSome, [], OnOk, true, false};
    ghost use Rattle.std.specs.Option.{option_copied, option_map};
    ghost use Rattle.swan_model.specs.Values.{COUNT_MOST};
    ghost use Rattle.queue_book.specs.Live.{is_lent_with, kept_of, own_chunk_at, with_own_chunk};
    ghost use Rattle.pop_order.specs.OneChange.{IsOnlyChange};
    ghost use Rattle.queue_book.specs.KeptFrames.{KeptFrame};

    /// The root alone, which has done nothing and has no queue. It takes no memory. `O(1)`.
    pub fn new(alloc: Global) -> LiveFrames
        ensures root { kept_of result 0 ≡ Some (record { deeds = 0; is_lent = false; own_chunks = [] }) }
        ensures others { (number : ℕ) → number ≢ 0 → kept_of result number ≡ None }
    {
        LiveFrames {
            root: Some(QueueFrame::new(alloc)),
            newest_number: 0,
            newest: None,
            others: BTreeMap::new(alloc),
        }
    }

    /// The active frame of a number. `O(log n)`.
    fn get(&self, number: u64) -> Option<&QueueFrame>
        ensures { option_copied result ≡ kept_of self.now number }
    {
        if number == 0 {
            self.root.as_ref()
        } else if number == self.newest_number {
            self.newest.as_ref()
        } else {
            self.others.get(&number)
        }
    }

    /// A frame's own chunk of a queue. `O(log n)`.
    pub fn own_chunk(&self, number: u64, queue: u32) -> Option<OwnChunk>
        ensures { result ≡ own_chunk_at self.now number queue }
    {
        match self.get(number) {
            Some(frame) => frame.own_chunk(queue),
            None => None,
        }
    }

    /// Whether the ends of a frame were lent when it had done so many queue deeds. `O(log n)`.
    pub fn is_lent(&self, number: u64, deeds: u64) -> bool
        ensures { result ≡ is_lent_with (kept_of self.now number) deeds }
    {
        match self.get(number) {
            Some(frame) => frame.is_lent && frame.deeds == deeds,
            None => false,
        }
    }

    /// Counts one more queue deed of an active frame. `O(log n)`.
    pub fn count_deed(&mut self, number: u64)
        requires active { IsSome (kept_of self.old number) }
        requires room { (kept : KeptFrame) → kept_of self.old number ≡ Some kept → kept.deeds < COUNT_MOST }
        ensures { IsOnlyChange (kept_of self.old) (kept_of self.new) number (option_map (λ (kept : KeptFrame). record kept { deeds = kept.deeds + 1 }) (kept_of self.old number)) }
    {
        if number == 0 {
            let Some(frame) = &mut self.root else {
                unreachable!()
            };
            frame.deeds += 1;
        } else if number == self.newest_number {
            let Some(frame) = &mut self.newest else {
                unreachable!()
            };
            frame.deeds += 1;
        } else {
            let Some(frame) = self.others.get_mut(&number) else {
                unreachable!()
            };
            frame.deeds += 1;
        }
    }

    /// Notes that the ends of an active frame are lent, and answers how many queue deeds it has done. `O(log n)`.
    pub fn lend(&mut self, number: u64) -> u64
        requires { IsSome (kept_of self.old number) }
        ensures deeds { (kept : KeptFrame) → kept_of self.old number ≡ Some kept → result ≡ kept.deeds }
        ensures lent { IsOnlyChange (kept_of self.old) (kept_of self.new) number (option_map (λ (kept : KeptFrame). record kept { is_lent = true }) (kept_of self.old number)) }
    {
        if number == 0 {
            match &mut self.root {
                Some(frame) => frame.lend(),
                None => unreachable!(),
            }
        } else if number == self.newest_number {
            match &mut self.newest {
                Some(frame) => frame.lend(),
                None => unreachable!(),
            }
        } else {
            match self.others.get_mut(&number) {
                Some(frame) => frame.lend(),
                None => unreachable!(),
            }
        }
    }

    /// Notes that the ends of an active frame are back. `O(log n)`.
    pub fn take_back(&mut self, number: u64)
        requires { IsSome (kept_of self.old number) }
        ensures { IsOnlyChange (kept_of self.old) (kept_of self.new) number (option_map (λ (kept : KeptFrame). record kept { is_lent = false }) (kept_of self.old number)) }
    {
        if number == 0 {
            let Some(frame) = &mut self.root else {
                unreachable!()
            };
            frame.is_lent = false;
        } else if number == self.newest_number {
            let Some(frame) = &mut self.newest else {
                unreachable!()
            };
            frame.is_lent = false;
        } else {
            let Some(frame) = self.others.get_mut(&number) else {
                unreachable!()
            };
            frame.is_lent = false;
        }
    }

    /// Notes an active frame's own chunk of a queue. `O(log n)`. Err is want of memory.
    pub fn put(&mut self, number: u64, queue: u32, own_chunk: OwnChunk) -> Result<(), NoMemory>
        requires { IsSome (kept_of self.old number) }
        ensures { OnOk result (IsOnlyChange (kept_of self.old) (kept_of self.new) number (option_map (with_own_chunk queue own_chunk) (kept_of self.old number))) }
    {
        if number == 0 {
            let Some(frame) = &mut self.root else {
                unreachable!()
            };
            frame.put(queue, own_chunk)?;
            return Ok(());
        }
        if number == self.newest_number {
            let Some(frame) = &mut self.newest else {
                unreachable!()
            };
            frame.put(queue, own_chunk)?;
            return Ok(());
        }
        let Some(frame) = self.others.get_mut(&number) else {
            unreachable!()
        };
        frame.put(queue, own_chunk)?;
        Ok(())
    }

    /// Adds a frame of a number that isn't there, which is the newest then. `O(log n)`. Err is want of memory.
    pub fn add(&mut self, number: u64, frame: QueueFrame) -> Result<(), NoMemory>
        requires other { number ≢ 0 }
        requires free { kept_of self.old number ≡ None }
        ensures { OnOk result (IsOnlyChange (kept_of self.old) (kept_of self.new) number (Some frame)) }
    {
        if let Some(before) = self.newest.take() {
            self.others.insert(self.newest_number, before)?;
        }
        self.newest_number = number;
        self.newest = Some(frame);
        Ok(())
    }

    /// Takes a frame out. `O(log n)`; it takes no memory.
    pub fn remove(&mut self, number: u64) -> Option<QueueFrame>
        ensures frame { result ≡ kept_of self.old number }
        ensures gone { IsOnlyChange (kept_of self.old) (kept_of self.new) number None }
    {
        if number == 0 {
            self.root.take()
        } else if number == self.newest_number {
            self.newest.take()
        } else {
            self.others.remove(&number)
        }
    }

    /// Takes all frames out. `O(1)` for each frame and queue; it takes no memory.
    pub fn clear(&mut self)
        ensures { (number : ℕ) → kept_of self.new number ≡ None }
    {
        self.root = None;
        self.newest = None;
        self.others.clear();
    }
}
