// The record of live frames.
ghost use Rattle.std.specs.Prelude.{◌≡◌, ℕ, ◌<◌, Some, None, [], IsSome, OnOk, OnErr, IfSome, IfNone};
ghost use Rattle.std.specs.Option.{option_map};
ghost use Rattle.swan_model.specs.Values.{COUNT_MOST};
ghost use Rattle.task_frames.specs.Records.{HasChildren, HasOneFailed, HasRoomForOne, IsLiveChild, IsOldestChild, IsOnlyLive, LiveFrame as TheLiveFrame, come_at, come_to, holding_too, live_at, synced_at, with_failed_child};

use crate::Holding;
use crate::frames_by_number::FramesByNumber;
use pop_order::NumberPairs;
use std::alloc::Global;
use std::marker::Model;
use swan_model::{NoMemory, Path};

/// A live frame, as the core last gave it.
#[derive(Drop)]
pub struct LiveFrame {
    /// The frame that spawned it; None for the root.
    pub parent: Option<u64>,
    /// Which task it is.
    pub path: Path,
    /// How many of its task's steps were done.
    pub done: u64,
    /// What it held, by place.
    pub holdings: Vec<Holding>,
    /// How many of its children ended by a fault since its last Sync, or since it began.
    pub failed: u64,
}

impl Model for LiveFrame {
    ghost use Rattle.task_frames.specs.Records.{LiveFrame as TheLiveFrame};

    ghost Value = { TheLiveFrame };

    ghost view = { λ frame. record {
      parent = frame.parent;
      path = frame.path;
      done = frame.done;
      holdings = frame.holdings.items;
      failed = frame.failed;
    } };
}

impl LiveFrame {
    /// Notes that so many steps are done. `O(1)`.
    pub(crate) fn come_to(&mut self, done: u64)
        ensures { self.new ≡ come_to done self.old }
    {
        self.done = done;
    }

    /// Notes one place more. Err is want of memory. `O(1)`, amortised.
    pub(crate) fn hold(&mut self, holding: Holding) -> Result<(), NoMemory>
        ensures ok { OnOk result (self.new ≡ holding_too holding self.old) }
        ensures err { OnErr result (self.new ≡ self.old) }
    {
        self.holdings.push(holding)?;
        Ok(())
    }

    /// Notes that one more of its children failed. `O(1)`.
    pub(crate) fn fail_child(&mut self)
        requires few { self.old.failed < COUNT_MOST }
        ensures { self.new ≡ with_failed_child self.old }
    {
        self.failed += 1;
    }

    /// Notes that its task takes a Sync, with so many steps done then. It answers how many of its children failed since the
    /// last one. `O(1)`.
    pub(crate) fn sync(&mut self, done: u64) -> u64
        ensures failed { result ≡ self.old.failed }
        ensures synced { self.new ≡ synced_at done self.old }
    {
        let failed = self.failed;
        self.done = done;
        self.failed = 0;
        failed
    }
}

/// The live frames by their numbers. It finds the oldest live child of a frame, however many it has.
///
/// In costs, n counts the live frames.
#[derive(Drop)]
pub struct LiveRecord {
    frames: FramesByNumber,
    // Each that has a parent, behind the parent.
    children: NumberPairs,
}

impl Model for LiveRecord {
    ghost use Rattle.task_frames.specs.Records.{HasChildren, NumberedFrames};

    ghost Value = { NumberedFrames };

    ghost view = { λ record_of. record_of.frames };

    ghost invariant = { λ record_of. HasChildren record_of.frames record_of.children };
}

impl LiveRecord {
    /// No frames. It takes no memory. `O(1)`.
    pub fn new(alloc: Global) -> LiveRecord
        ensures { result ≡ [] }
    {
        LiveRecord {
            frames: FramesByNumber::new(alloc),
            children: NumberPairs::new(alloc),
        }
    }

    /// The live frame of a number; None exactly where there is none. `O(log n)`; it takes no memory.
    pub fn get(&self, number: u64) -> Option<&LiveFrame>
        ensures some { IfSome result (λ frame. live_at self.now number ≡ Some frame.now) }
        ensures none { IfNone result (live_at self.now number ≡ None) }
    {
        self.frames.get(number)
    }

    /// The oldest live child of a frame; None exactly where it has none. `O(log n)`; it takes no memory.
    pub fn oldest_child(&self, parent: u64) -> Option<u64>
        ensures oldest { IfSome result (IsOldestChild self.now parent) }
        ensures none { IfNone result ((other : ℕ) → ¬ IsLiveChild self.now parent other) }
    {
        self.children.next(parent, 0)
    }

    /// Enters the root, where there is no frame yet. It takes no memory, so no Err comes. `O(1)`.
    pub fn enter_root(&mut self, number: u64, frame: LiveFrame) -> Result<(), NoMemory>
        requires empty { self.old ≡ [] }
        requires root { frame.parent ≡ None }
        ensures { OnOk result (IsOnlyLive self.old self.new number (Some frame)) }
    {
        self.frames.enter(number, frame)
    }

    /// Enters a child of this parent, whose number isn't there. Err is want of memory, and nothing is said of the record
    /// after it. `O(log n)`, amortised.
    pub fn enter(&mut self, parent: u64, number: u64, frame: LiveFrame) -> Result<(), NoMemory>
        requires free { live_at self.old number ≡ None }
        requires child { frame.parent ≡ Some parent }
        ensures { OnOk result (IsOnlyLive self.old self.new number (Some frame)) }
    {
        match add(&mut self.frames, &mut self.children, parent, number, frame) {
            Ok(()) => Ok(()),
            Err(NoMemory) => {
                self.frames.clear();
                self.children.clear();
                Err(NoMemory)
            }
        }
    }

    /// Notes that a frame is given with so many steps done. `O(log n)`; it takes no memory.
    pub fn come_to(&mut self, number: u64, done: u64)
        requires live { IsSome (live_at self.old number) }
        ensures come { self.new ≡ come_at self.old number done (live_at self.old number) }
        ensures only { IsOnlyLive self.old self.new number (option_map (come_to done) (live_at self.old number)) }
    {
        self.frames.come_to(number, done);
    }

    /// Notes that a frame which had so many steps done is given with so many done. Nothing is looked up where both are the
    /// same. Else as `come_to`.
    #[tactic(auto, using(crate::proofs::Lives::come_same, crate::proofs::Lives::only_same))]
    pub fn come_on(&mut self, number: u64, since: u64, done: u64)
        requires live { IsSome (live_at self.old number) }
        requires since { (live : TheLiveFrame) → live_at self.old number ≡ Some live → live.done ≡ since }
        ensures come { self.new ≡ come_at self.old number done (live_at self.old number) }
        ensures only { IsOnlyLive self.old self.new number (option_map (come_to done) (live_at self.old number)) }
    {
        if done != since {
            self.come_to(number, done);
        }
    }

    /// Notes that a frame holds one place more. Err is want of memory, and nothing is said of the record after it. `O(log n)`,
    /// amortised.
    pub fn hold(&mut self, number: u64, holding: Holding) -> Result<(), NoMemory>
        requires live { IsSome (live_at self.old number) }
        ensures { OnOk result (IsOnlyLive self.old self.new number (option_map (holding_too holding) (live_at self.old number))) }
    {
        self.frames.hold(number, holding)
    }

    /// Notes that a frame ends by a fault: the one above it, where it has one, has one more failed child. `O(log n)`; it takes no
    /// memory.
    pub fn fail(&mut self, number: u64)
        requires live { IsSome (live_at self.old number) }
        requires room { (frame : TheLiveFrame) → live_at self.old number ≡ Some frame → HasRoomForOne self.old frame.parent }
        ensures { (frame : TheLiveFrame) → live_at self.old number ≡ Some frame → HasOneFailed self.old self.new frame.parent }
    {
        let Some(frame) = self.frames.get(number) else {
            unreachable!()
        };
        if let Some(parent) = frame.parent {
            self.frames.fail_child(parent);
        }
    }

    /// Notes that a frame takes a Sync, with so many steps done then. It answers how many of its children failed since the last
    /// one. `O(log n)`; it takes no memory.
    pub fn sync(&mut self, number: u64, done: u64) -> u64
        requires live { IsSome (live_at self.old number) }
        ensures failed { (frame : TheLiveFrame) → live_at self.old number ≡ Some frame → result ≡ frame.failed }
        ensures synced { IsOnlyLive self.old self.new number (option_map (synced_at done) (live_at self.old number)) }
    {
        self.frames.sync(number, done)
    }

    /// Takes a frame out. `O(log n)`; it takes no memory.
    pub fn leave(&mut self, number: u64)
        requires live { IsSome (live_at self.old number) }
        ensures { IsOnlyLive self.old self.new number None }
    {
        let Some(frame) = self.frames.leave(number) else {
            unreachable!()
        };
        if let Some(parent) = frame.parent {
            self.children.remove(parent, number);
        }
    }
}

/// Adds a child to the frames and to the children. Err is want of memory.
fn add(
    frames: &mut FramesByNumber,
    children: &mut NumberPairs,
    parent: u64,
    number: u64,
    frame: LiveFrame,
) -> Result<(), NoMemory>
    requires kept { HasChildren frames.old children.old }
    requires free { live_at frames.old number ≡ None }
    requires child { frame.parent ≡ Some parent }
    ensures entered { OnOk result (IsOnlyLive frames.old frames.new number (Some frame)) }
    ensures kept { OnOk result (HasChildren frames.new children.new) }
{
    frames.enter(number, frame)?;
    children.insert(parent, number)?;
    Ok(())
}
