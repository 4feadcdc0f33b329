// The live frames by their numbers.
ghost use Rattle.std.specs.Prelude.{◌≡◌, None, Some, [], IsSome, OnOk, OnErr};
ghost use Rattle.std.specs.Option.{option_copied, option_map};
ghost use Rattle.task_frames.specs.Records.{HasOneFailed, HasRoomForOne, IsOnlyLive, LiveFrame as TheLiveFrame, come_at, holding_too, live_at, synced_at};

use crate::Holding;
use crate::live_record::LiveFrame;
use std::alloc::Global;
use std::collections::BTreeMap;
use std::marker::Model;
use swan_model::NoMemory;

/// Live frames by their numbers. The one that was entered last stands beside the others: most frames come and go as the
/// newest, and are found without a look-up then.
///
/// In costs, n counts the frames.
#[derive(Drop)]
pub struct FramesByNumber {
    newest_number: u64,
    newest: Option<LiveFrame>,
    // They have none under the newest one's number.
    older: BTreeMap<u64, LiveFrame>,
}

impl Model for FramesByNumber {
    ghost use Rattle.std.specs.Prelude.{◌≡◌, None};
    ghost use Rattle.task_frames.specs.Records.{NumberedFrames, live_at, with_newest};

    ghost Value = { NumberedFrames };

    ghost view = { λ frames. with_newest frames.newest_number frames.newest frames.older.entries };

    ghost invariant = { λ frames. live_at frames.older.entries frames.newest_number ≡ None };
}

impl FramesByNumber {
    /// No frames. It takes no memory. `O(1)`.
    pub fn new(alloc: Global) -> FramesByNumber
        ensures { result ≡ [] }
    {
        FramesByNumber {
            newest_number: 0,
            newest: None,
            older: BTreeMap::new(alloc),
        }
    }

    /// The frame of a number; None exactly where there is none. `O(log n)`, and `O(1)` for the newest one; it takes no memory.
    pub fn get(&self, number: u64) -> Option<&LiveFrame>
        ensures { option_copied result ≡ live_at self.now number }
    {
        if number == self.newest_number {
            self.newest.as_ref()
        } else {
            self.older.get(&number)
        }
    }

    /// Enters a frame whose number isn't there. Err is want of memory, and gives all frames up. `O(log n)`.
    pub fn enter(&mut self, number: u64, frame: LiveFrame) -> Result<(), NoMemory>
        requires free { live_at self.old number ≡ None }
        ensures ok { OnOk result (IsOnlyLive self.old self.new number (Some frame)) }
        ensures err { OnErr result (self.new ≡ []) }
    {
        if let Some(before) = self.newest.take() {
            if self.older.insert(self.newest_number, before).is_err() {
                self.older.clear();
                drop(frame);
                return Err(NoMemory);
            }
        }
        self.newest_number = number;
        self.newest = Some(frame);
        Ok(())
    }

    /// Notes that a frame is given with so many steps done. `O(log n)`, and `O(1)` for the newest one; it takes no memory.
    pub fn come_to(&mut self, number: u64, done: u64)
        requires live { IsSome (live_at self.old number) }
        ensures { self.new ≡ come_at self.old number done (live_at self.old number) }
    {
        if number == self.newest_number {
            let Some(frame) = &mut self.newest else {
                unreachable!()
            };
            frame.come_to(done);
        } else {
            come_to(&mut self.older, number, done);
        }
    }

    /// Notes that a frame holds one place more. Err is want of memory, and changes nothing. `O(log n)`, amortised.
    pub fn hold(&mut self, number: u64, holding: Holding) -> Result<(), NoMemory>
        requires live { IsSome (live_at self.old number) }
        ensures ok { OnOk result (IsOnlyLive self.old self.new number (option_map (holding_too holding) (live_at self.old number))) }
        ensures err { OnErr result (IsOnlyLive self.old self.new number (live_at self.old number)) }
    {
        if number == self.newest_number {
            match &mut self.newest {
                Some(frame) => frame.hold(holding),
                None => unreachable!(),
            }
        } else {
            hold(&mut self.older, number, holding)
        }
    }

    /// Notes that one more child of a frame failed. `O(log n)`, and `O(1)` for the newest one; it takes no memory.
    pub fn fail_child(&mut self, number: u64)
        requires room { HasRoomForOne self.old (Some number) }
        ensures { HasOneFailed self.old self.new (Some number) }
    {
        if number == self.newest_number {
            match &mut self.newest {
                Some(frame) => frame.fail_child(),
                None => unreachable!(),
            }
        } else {
            fail_child(&mut self.older, number);
        }
    }

    /// Notes that a frame takes a Sync, with so many steps done then, and answers how many of its children failed since the last
    /// one. `O(log n)`, and `O(1)` for the newest one; it takes no memory.
    pub fn sync(&mut self, number: u64, done: u64) -> u64
        requires live { IsSome (live_at self.old number) }
        ensures failed { (frame : TheLiveFrame) → live_at self.old number ≡ Some frame → result ≡ frame.failed }
        ensures synced { IsOnlyLive self.old self.new number (option_map (synced_at done) (live_at self.old number)) }
    {
        if number == self.newest_number {
            match &mut self.newest {
                Some(frame) => frame.sync(done),
                None => unreachable!(),
            }
        } else {
            sync(&mut self.older, number, done)
        }
    }

    /// Takes a frame out; None comes exactly where there is none, and nothing is changed then. `O(log n)`, and `O(1)` for the
    /// newest one; it takes no memory.
    pub fn leave(&mut self, number: u64) -> Option<LiveFrame>
        ensures frame { result ≡ live_at self.old number }
        ensures gone { IsOnlyLive self.old self.new number None }
    {
        if number == self.newest_number {
            self.newest.take()
        } else {
            leave(&mut self.older, number)
        }
    }

    /// Takes all frames out. `O(n)`; it takes no memory.
    pub fn clear(&mut self)
        ensures { self.new ≡ [] }
    {
        self.newest = None;
        self.older.clear();
    }
}

/// Notes in the older frames that one is given with so many steps done. `O(log n)`.
fn come_to(older: &mut BTreeMap<u64, LiveFrame>, number: u64, done: u64)
    requires live { IsSome (live_at older.old.entries number) }
    ensures { older.new.entries ≡ come_at older.old.entries number done (live_at older.old.entries number) }
{
    let Some(frame) = older.get_mut(&number) else {
        unreachable!()
    };
    frame.come_to(done);
}

/// Notes in the older frames that one holds one place more. Err is want of memory, and changes nothing. `O(log n)`, amortised.
fn hold(older: &mut BTreeMap<u64, LiveFrame>, number: u64, holding: Holding) -> Result<(), NoMemory>
    requires live { IsSome (live_at older.old.entries number) }
    ensures ok { OnOk result (IsOnlyLive older.old.entries older.new.entries number (option_map (holding_too holding) (live_at older.old.entries number))) }
    ensures err { OnErr result (IsOnlyLive older.old.entries older.new.entries number (live_at older.old.entries number)) }
{
    match older.get_mut(&number) {
        Some(frame) => frame.hold(holding),
        None => unreachable!(),
    }
}

/// Notes in the older frames that one more child of one failed. `O(log n)`.
fn fail_child(older: &mut BTreeMap<u64, LiveFrame>, number: u64)
    requires room { HasRoomForOne older.old.entries (Some number) }
    ensures { HasOneFailed older.old.entries older.new.entries (Some number) }
{
    match older.get_mut(&number) {
        Some(frame) => frame.fail_child(),
        None => unreachable!(),
    }
}

/// Notes in the older frames that one takes a Sync, with so many steps done then. It answers how many of its children failed since
/// the last one. `O(log n)`.
fn sync(older: &mut BTreeMap<u64, LiveFrame>, number: u64, done: u64) -> u64
    requires live { IsSome (live_at older.old.entries number) }
    ensures failed { (frame : TheLiveFrame) → live_at older.old.entries number ≡ Some frame → result ≡ frame.failed }
    ensures synced { IsOnlyLive older.old.entries older.new.entries number (option_map (synced_at done) (live_at older.old.entries number)) }
{
    match older.get_mut(&number) {
        Some(frame) => frame.sync(done),
        None => unreachable!(),
    }
}

/// Takes a frame out of the older ones. `O(log n)`.
fn leave(older: &mut BTreeMap<u64, LiveFrame>, number: u64) -> Option<LiveFrame>
    ensures frame { result ≡ live_at older.old.entries number }
    ensures gone { IsOnlyLive older.old.entries older.new.entries number None }
{
    older.remove(&number)
}
