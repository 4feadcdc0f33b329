// Laws of the core.
ghost use Rattle.std.specs.Option.{ForSome};
ghost use Rattle.std.specs.Prelude.{◌≡◌, ◌≢◌, ◌⊎◌, ℕ, ◌+◌, ◌≤◌, Some, List, false, length, true};
ghost use Rattle.swan_model.specs.declared.plan.Plan.{Plan};
ghost use Rattle.swan_model.specs.declared.script.Script.{Script};
ghost use Rattle.swan_model.specs.Lawful.{IsLawful};
ghost use Rattle.swan_model.specs.PathOrder.{comes_before};
ghost use Rattle.swan_model.specs.Readings.{gone_on_by};
ghost use Rattle.swan_model.specs.Script.{script};
ghost use Rattle.swan_model.specs.SerialTime.{Progress, Reading, frame_of, is_earlier, times};
ghost use Rattle.swan_model.specs.TrueFrames.{IsTrueFrame};
ghost use Rattle.swan_model.specs.Versions.{VersionState};
ghost use Rattle.swan_model.specs.VersionsFollow.{ObjectsFollow};
ghost use Rattle.task_frames.specs.declared.resumed.Resumed.{Resumed};
ghost use Rattle.task_frames.specs.declared.resumed.Resumed.TheVariants as resumed;
ghost use Rattle.task_frames.specs.declared.stage.Stage.{Stage};
ghost use Rattle.task_frames.specs.Cores.{CoreView, IsCore, IsCoreView, IsGiven, KeptView};
ghost use Rattle.task_frames.specs.Earliest.{IsEarliest, has_stepped, progress_of};
ghost use Rattle.task_frames.specs.Frames.{AreLocal, FrameView, IsAnyFrame, state_of};
ghost use Rattle.task_frames.specs.Records.{LiveFrame, live_at};
ghost use Rattle.task_frames.specs.Resumes.{IsResumed, ends_of};

use queues::Queues;
use swan_model::Body;

/// The law that the order of paths, by which frames wait for each other, is a total one: it goes one way, through, and
/// of two different paths one comes before the other.
pub fn paths_stand_in_one_order()
    ensures one_way { (path other : List ℕ) → comes_before path other ≡ true → comes_before other path ≡ false }
    ensures through { (path other last : List ℕ) → comes_before path other ≡ true → comes_before other last ≡ true → comes_before path last ≡ true }
    ensures total { (path other : List ℕ) → path ≢ other → (comes_before path other ≡ true) ⊎ (comes_before other path ≡ true) }
{}

/// The law that live frames of a core stand in serial order by their paths: one comes before another exactly where its point
/// in the core's reading is the earlier one.
pub fn live_frames_stand_in_serial_order<B: Body>()
    ensures { (plan : Plan B B.Local) (kept : KeptView) → IsCore B.Body plan kept
        → (number other : ℕ) (a b : LiveFrame) → live_at kept.live number ≡ Some a → live_at kept.live other ≡ Some b
        → comes_before a.path b.path ≡ is_earlier (script B.Body plan) (progress_of number a) (progress_of other b) }
{}

/// The law that each frame which a core gave last under its number is true for its plan, whatever it did by itself since: it is
/// what its task is in the elision, and by the core's reading it holds what its task holds there.
pub fn given_frames_are_true<B: Body, Q: Queues>()
    ensures { (core : CoreView B B.Local) (kept : KeptView) (frame : FrameView B B.Local Q.Ends) (stage : Stage B.Local) → IsCoreView B.Body core → core.kept ≡ Some kept
        → frame.task.plan ≡ core.plan → IsGiven kept frame.task (Q.Ends.ends frame.ends) → IsAnyFrame B.Body Q.Ends.name Q.Ends.ends frame → frame.stage ≡ Some stage
        → IsTrueFrame B.Body core.plan kept.reading (state_of frame.task stage) }
{}

/// The law that a run is never stuck. A core that isn't done has a live frame that comes before all others, and the resume of
/// this frame takes a step, or memory runs out.
pub fn a_core_is_never_stuck<B: Body, Q: Queues>()
    ensures earliest { (core : CoreView B B.Local) → IsCoreView B.Body core → core.is_done ≡ false
        → ForSome core.kept (λ kept. (number : ℕ) × IsEarliest kept.live number) }
    ensures goes_on { (before after : CoreView B B.Local) (kept : KeptView) (frame : FrameView B B.Local Q.Ends) (result : Resumed B Q B.Local Q.Ends)
        → before.kept ≡ Some kept → IsGiven kept frame.task (Q.Ends.ends frame.ends) → IsEarliest kept.live frame.task.number
        → IsResumed B.Body (ends_of Q.Ends.LocalEnds) before after frame result
        → (has_stepped result ≡ true) ⊎ (result ≡ resumed.NoMemory) }
{}

/// The law that objects follow the steps that a frame takes by itself: where they follow a reading, they follow the one in which
/// a frame has done some local steps more.
pub fn objects_follow_local_steps()
    ensures { (s : Script) (r : Reading) (versions : VersionState) (number : ℕ) (p : Progress) (many : ℕ) → IsLawful s → frame_of r number ≡ Some p
        → ObjectsFollow s r versions → AreLocal s p.path p.done (p.done + many) → p.done + many ≤ length (times s p.path)
        → ObjectsFollow s (gone_on_by r number many) versions }
{}
