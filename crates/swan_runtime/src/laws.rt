// Laws of runs on a stack.
ghost use Rattle.std.specs.Prelude.{◌≡◌, ◌⊎◌, ℕ, ◌*◌, ◌+◌, ◌≤◌, List, length, true};
ghost use Rattle.swan_model.specs.declared.path.TheConstants.{PATH_MOST};
ghost use Rattle.task_frames.specs.declared.resumed.Resumed.{Resumed};
ghost use Rattle.task_frames.specs.declared.resumed.Resumed.TheVariants as resumed;
ghost use Rattle.task_frames.specs.Cores.{CoreView};
ghost use Rattle.task_frames.specs.Earliest.{has_stepped};
ghost use Rattle.task_frames.specs.Frames.{FrameView};
ghost use Rattle.task_frames.specs.Resumes.{ends_of};
ghost use Rattle.swan_runtime.specs.Stacks.{IsStack};
ghost use Rattle.swan_runtime.specs.Turns.{AreStackTurns, IsTopResumed};

use queues::Queues;
use swan_model::Body;

/// The law that a run on a stack has an end, and few frames. After so many turns from an opened core the stack has exactly the live
/// frames, each above its parent, and each as the core gave it last. The turns are at most twice the plan's fuel and one. In each
/// of them the core takes a step of the top, or memory runs out: it never has to wait, and is none that the core doesn't know. And
/// the frames are at most one more than a path has parts.
pub fn turns_are_few<B: Body, Q: Queues>()
    ensures stands { (opened core : CoreView B B.Local) (turns : ℕ) (stack : List (FrameView B B.Local Q.Ends))
        → AreStackTurns Q B.Body Q.Ends.name (ends_of Q.Ends.LocalEnds) Q.Ends.counts opened turns core stack
        → IsStack (ends_of Q.Ends.LocalEnds) core stack }
    ensures few { (opened core : CoreView B B.Local) (turns : ℕ) (stack : List (FrameView B B.Local Q.Ends))
        → AreStackTurns Q B.Body Q.Ends.name (ends_of Q.Ends.LocalEnds) Q.Ends.counts opened turns core stack
        → turns ≤ 2 * opened.plan.fuel + 1 }
    ensures each { (opened core after : CoreView B B.Local) (turns : ℕ) (stack : List (FrameView B B.Local Q.Ends)) (answer : Resumed B Q B.Local Q.Ends)
        → AreStackTurns Q B.Body Q.Ends.name (ends_of Q.Ends.LocalEnds) Q.Ends.counts opened turns core stack
        → IsTopResumed Q B.Body Q.Ends.name (ends_of Q.Ends.LocalEnds) Q.Ends.counts core stack after answer
        → (has_stepped answer ≡ true) ⊎ (answer ≡ resumed.NoMemory) }
    ensures shallow { (opened core : CoreView B B.Local) (turns : ℕ) (stack : List (FrameView B B.Local Q.Ends))
        → AreStackTurns Q B.Body Q.Ends.name (ends_of Q.Ends.LocalEnds) Q.Ends.counts opened turns core stack
        → length stack ≤ PATH_MOST + 1 }
{}
