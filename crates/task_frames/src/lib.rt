//! Frames and the core: the tasks of a run out of order, which take what steps they can without anyone, and what has the
//! queues and objects of the run, which takes the other steps.
//!
//! A run out of order has many tasks under way at once. Each stands in a `Frame`: where it is in the tree of tasks, how
//! many of its steps are done, its local and the answer to its last ask, its fuel, what it holds by place, and the ends of
//! queues that it has with it. Whoever has a frame may call `run_local`: it takes the steps of the task's own work, the
//! pushes and pops that the frame's ends serve, and the tests by which they find an item, without asking anyone. All other
//! steps need the `Core`; so does the first step of each frame.
//!
//! Promised by the type, wherever the frame is and whoever has it, up to want of memory (definition `IsFrame`):
//!
//! - The frame is true for its plan: at the step of its task that has as many earlier ones as the frame has done, the
//!   elision's task on top of the stack has the frame's local, answer, fuel and modes of places, and has spawned as many
//!   children. In the middle of a step its unit of fuel is taken, the local and the ask are what the body says there, and
//!   the place is the one before the step. That the numbers of what it holds are those of the run is the core's to say.
//! - Its ends are those of its task, by the name of the run, the path and the number of queue deeds.
//! - All that it did since it was given are steps that need no core. So one that has taken no step at all did nothing.
//! - Where its mark stands, no want of memory was met.
//!
//! Promised of `run_local`: it stops before the budget only where the next step needs the core, by one of the causes that
//! it names, or where memory runs out; and it counts its steps in a `Steps`, which it and the core alone make. A frame has as its name the plan and the
//! run of its queues (`PlanRun`), which no call changes; it is never done, and may move to another thread.
//!
//! Promised by the type of the core between any two calls, up to want of memory (definition `IsCore`): its queues and its
//! objects are those of the elision's script at one reading of the whole run, its record has the live frames, who
//! spawned each and how many of its children failed since its last Sync, and the booked faults are those of the tasks that have
//! ended, each once.
//!
//! Promised of `resume` (definition `IsResumed`): the core takes the next step of the frame that it gave last under this number,
//! and of no other one; or it shows what the frame has to wait for, which is a live frame earlier in serial order. All other
//! frames stay as they were given; an end by a fault raises the count of the frame above. Want of memory tears the frame and leaves the core without anything for good. So a run is never stuck,
//! which is a law (`a_core_is_never_stuck`): its earliest live frame waits for nobody.
//!
//! Not promised: that memory is found, and how long a body takes for a step.
//!
//! Inside, `run_local` has the frame's local in hand, and a round of it takes a row of steps of work by the body's own call for
//! many steps, and then the step that is asked for, where the ends serve it (`serve`). `resume` takes the ends of a frame back and notes its steps
//! (`Kept::take_in`), looks whether the frame may begin, asks the body, takes the step (`Kept::step`), and lends ends to the
//! frames that come of it (`Kept::answer`).
#![tactic(auto)]

mod at_core;
mod begin;
mod child_gives;
mod ending;
mod frame;
mod frames_by_number;
mod holding;
mod kept;
mod laws;
mod left_over;
mod live_record;
mod new_places;
mod noting;
mod object_steps;
mod outcome;
mod own_steps;
mod paused;
mod queue_steps;
mod reading;
mod resumed;
mod run;
mod run_core;
mod serving;
mod spawn_steps;
mod stage;
mod step;
mod stepping;
mod steps;

use at_core::{FrameAtCore, MidStep, StagedTask, TaskAtCore};
pub use begin::Opened;
pub use frame::Frame;
pub use holding::Holding;
use kept::Kept;
pub use laws::{
    a_core_is_never_stuck, given_frames_are_true, live_frames_stand_in_serial_order,
    objects_follow_local_steps, paths_stand_in_one_order,
};
use live_record::{LiveFrame, LiveRecord};
pub use outcome::{Ran, RunOutcome};
pub use paused::Paused;
use reading::KeptReading;
pub use resumed::{Foreign, Resumed, Waited};
pub use run::{PlanRun, Run};
pub use run_core::Core;
use stage::Stage;
use step::Step;
pub use steps::Steps;
