// What each step leaves in the record and in the reading.
ghost use Rattle.std.specs.Prelude.{◌≡◌, ◌+◌, ◌<◌, Some, IsSome};
ghost use Rattle.std.specs.Option.{option_map};
ghost use Rattle.swan_model.specs.Readings.{gone_on};
ghost use Rattle.swan_model.specs.Values.{COUNT_MOST};
ghost use Rattle.task_frames.specs.Records.{IsOnlyLive, LiveFrame, come_to, live_at, synced_at};

use crate::Kept;
use queues::Queues;

impl<Q: Queues> Kept<Q> {
    /// Notes that a live frame has taken one step, after so many others. `O(log n)`; it takes no memory.
    pub fn note_step(&mut self, number: u64, done: u64)
        requires few { done < COUNT_MOST }
        requires live { IsSome (live_at self.old.live number) }
        ensures same { self.new ≡ record self.old { reading = gone_on self.old.reading number; live = self.new.live } }
        ensures live { IsOnlyLive self.old.live self.new.live number (option_map (come_to (done + 1)) (live_at self.old.live number)) }
    {
        self.reading = self.reading.gone_on_by(number, 1);
        self.live.come_to(number, done + 1);
    }

    /// Notes that a live frame has taken a Sync, after so many other steps. It answers how many of its children failed since the
    /// last one. `O(log n)`; it takes no memory.
    pub fn note_sync(&mut self, number: u64, done: u64) -> u64
        requires few { done < COUNT_MOST }
        requires live { IsSome (live_at self.old.live number) }
        ensures failed { (frame : LiveFrame) → live_at self.old.live number ≡ Some frame → result ≡ frame.failed }
        ensures same { self.new ≡ record self.old { reading = gone_on self.old.reading number; live = self.new.live } }
        ensures live { IsOnlyLive self.old.live self.new.live number (option_map (synced_at (done + 1)) (live_at self.old.live number)) }
    {
        self.reading = self.reading.gone_on_by(number, 1);
        self.live.sync(number, done + 1)
    }
}
