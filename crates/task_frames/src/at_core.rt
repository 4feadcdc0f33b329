// Frames that are at the core, without their ends.
ghost use Rattle.std.specs.Prelude.{◌≡◌, ℕ, ◌+◌, ◌-◌, ◌<◌, ◌≤◌, Some, IfOk};
ghost use Rattle.swan_model.specs.SerialStep.{number_at};
ghost use Rattle.swan_model.specs.declared.body.Ask.{Ask as TheAsk};
ghost use Rattle.swan_model.specs.Values.{COUNT_MOST};
ghost use Rattle.task_frames.specs.declared.stage.Stage.TheVariants.{Asking, Ready};
ghost use Rattle.task_frames.specs.Cores.{asking, one_on};

use crate::holding::number_at;
use crate::{Holding, Stage};
use std::alloc::Global;
use std::marker::Model;
use swan_model::{Answer, Ask, Body, Meaning, Mode, NoMemory, Path, Plan};

/// A task as far as it has come, as it is at the core: by itself it counts as given with the steps that it has done.
#[derive(Drop)]
pub struct TaskAtCore<B: Body> {
    /// The plan.
    pub plan: Meaning<Plan<B>>,
    /// Which task of the plan it is.
    pub path: Path,
    /// Its number in the run.
    pub number: u64,
    /// How many of its steps are done.
    pub done: u64,
    /// Its fuel.
    pub fuel: u64,
    /// What it holds, by place.
    pub holdings: Vec<Holding>,
    /// How many children it has spawned.
    pub children: u32,
}

impl<B: Body> Model for TaskAtCore<B> {
    ghost use Rattle.task_frames.specs.Frames.{TaskView};

    ghost Value = { TaskView B B.Local };

    ghost view = { λ t. record {
      plan = t.plan.means;
      number = t.number;
      path = t.path;
      done = t.done;
      since = t.done;
      fuel = t.fuel;
      holdings = t.holdings.items;
      children = t.children;
    } };
}

impl<B: Body> TaskAtCore<B> {
    /// Its number in the run. It counts as given with the steps that it has done. `O(1)`.
    pub fn number(&self) -> u64
        ensures number { result ≡ self.now.number }
        ensures since { self.now.since ≡ self.now.done }
    {
        self.number
    }

    /// Its fuel. `O(1)`.
    pub fn fuel(&self) -> u64
        ensures { result ≡ self.now.fuel }
    {
        self.fuel
    }

    /// What it holds, by place. `O(1)`.
    pub fn holdings(&self) -> &[Holding]
        ensures { result.now ≡ self.now.holdings }
    {
        self.holdings.as_slice()
    }

    /// Pays for a step. The answer is the fuel that it has then. `O(1)`.
    pub fn pays(&mut self) -> u64
        requires some { 0 < self.old.fuel }
        ensures paid { self.new ≡ record self.old { fuel = self.old.fuel - 1 } }
        ensures fuel { result ≡ self.old.fuel - 1 }
    {
        self.fuel -= 1;
        self.fuel
    }

    /// Takes one step. `O(1)`.
    pub fn takes_step(&mut self)
        requires few { self.old.done < COUNT_MOST }
        ensures { self.new ≡ one_on self.old }
    {
        self.done += 1;
    }

    /// Goes on by so many steps, after which it has this fuel. `O(1)`.
    pub fn goes_on(&mut self, steps: u64, fuel: u64)
        requires few { self.old.done + steps ≤ COUNT_MOST }
        ensures { self.new ≡ record self.old { done = self.old.done + steps; since = self.old.done + steps; fuel = fuel } }
    {
        self.done += steps;
        self.fuel = fuel;
    }

    /// Its path. `O(1)`.
    pub fn into_path(self) -> Path
        ensures { result ≡ self.path }
    {
        let TaskAtCore {
            plan: _,
            path,
            number: _,
            done: _,
            fuel: _,
            holdings: _,
            children: _,
        } = self;
        path
    }
}

/// A task and how it stands to its next step. A frame has both in one box from its beginning to its end, so whoever
/// hands it on moves a pointer.
#[derive(Drop)]
pub struct StagedTask<B: Body> {
    /// The task.
    pub task: TaskAtCore<B>,
    /// How it stands to its next step; None while a step is taken, and after want of memory.
    pub stage: Option<Stage<B::Local>>,
}

impl<B: Body> StagedTask<B> {
    /// Stands so to its next step. `O(1)`.
    #[inline(always)]
    pub fn stands(&mut self, stage: Stage<B::Local>)
        ensures { self.new ≡ record self.old { stage = Some stage } }
    {
        self.stage = Some(stage);
    }
}

/// A frame that is at the core: its ends are back.
#[derive(Drop)]
pub struct FrameAtCore<B: Body> {
    /// Its task, which has its stage.
    pub staged: Box<StagedTask<B>>,
}

impl<B: Body> Model for FrameAtCore<B> {
    ghost use Rattle.std.specs.Prelude.{◌≡◌, true, is_some};
    ghost use Rattle.std.specs.Option.{unwrap_or};
    ghost use Rattle.swan_model.specs.declared.body.Answer.TheVariants.{Start};
    ghost use Rattle.task_frames.specs.declared.stage.Stage.TheVariants.{Ready};
    ghost use Rattle.task_frames.specs.Cores.{FrameAtCoreView};

    ghost Value = { FrameAtCoreView B B.Local };

    // The invariant says that it has a stage, so the other value of unwrap_or is never seen.
    ghost view = { λ frame. record {
      task = frame.staged.value.task;
      stage = unwrap_or frame.staged.value.stage (Ready frame.staged.value.task.plan.root_local Start);
    } };

    ghost invariant = { λ frame. is_some frame.staged.value.stage ≡ true };
}

/// A frame at the core in the middle of a step, with what its body asks for taken out.
#[derive(Drop)]
pub struct MidStep<B: Body> {
    /// Its task, whose unit of fuel for the step is taken.
    pub staged: Box<StagedTask<B>>,
    /// The local that the body left.
    pub local: B::Local,
    /// The place before the step.
    pub at: u64,
}

impl<B: Body> Model for MidStep<B> {
    ghost use Rattle.task_frames.specs.Cores.{Mid};

    ghost Value = { Mid B B.Local };

    ghost view = { λ mid. record { task = mid.staged.value.task; local = mid.local; at = mid.at } };
}

impl<B: Body> FrameAtCore<B> {
    /// The frame of a new task. Err is want of memory. `O(1)`, one allocation.
    pub fn begun(
        alloc: Global,
        task: TaskAtCore<B>,
        stage: Stage<B::Local>,
    ) -> Result<FrameAtCore<B>, NoMemory>
        ensures { IfOk result (λ frame. frame ≡ record { task = task; stage = stage }) }
    {
        let stage = Some(stage);
        let staged = Box::new(alloc, StagedTask { task, stage })?;
        Ok(FrameAtCore { staged })
    }

    /// The frame of a task that stands so. `O(1)`.
    #[inline(always)]
    pub fn of(staged: Box<StagedTask<B>>, stage: Stage<B::Local>) -> FrameAtCore<B>
        ensures { result ≡ record { task = staged.value.task; stage = stage } }
    {
        let mut staged = staged;
        staged.stage = Some(stage);
        FrameAtCore { staged }
    }

    /// Its task, and how it stands to its next step. `O(1)`.
    #[inline(always)]
    pub fn apart(self) -> (Box<StagedTask<B>>, Stage<B::Local>)
        ensures { self ≡ record { task = result.0.value.task; stage = result.1 } }
    {
        let FrameAtCore { mut staged } = self;
        match staged.stage.take() {
            Some(stage) => (staged, stage),
            None => unreachable!(),
        }
    }

    /// Its number in the run. `O(1)`.
    pub fn number(&self) -> u64
        ensures { result ≡ self.now.task.number }
    {
        self.staged.task.number
    }

    /// How many of its steps are done. `O(1)`.
    pub fn done(&self) -> u64
        ensures { result ≡ self.now.task.done }
    {
        self.staged.task.done
    }

    /// The path of its task. `O(1)`.
    pub fn into_path(self) -> Path
        ensures { result ≡ self.task.path }
    {
        let FrameAtCore { staged } = self;
        path_of(staged)
    }
}

impl<B: Body> MidStep<B> {
    /// Its number in the run. `O(1)`.
    pub fn number(&self) -> u64
        ensures { result ≡ self.now.task.number }
    {
        self.staged.task.number
    }

    /// How many of its steps are done. `O(1)`.
    pub fn done(&self) -> u64
        ensures { result ≡ self.now.task.done }
    {
        self.staged.task.done
    }

    /// The place before the step. `O(1)`.
    pub fn at(&self) -> u64
        ensures { result ≡ self.now.at }
    {
        self.at
    }

    /// The number of the object or queue at a place, and None exactly where the frame may not use it so. `O(1)`.
    pub fn number_at(&self, place: u32, mode: Mode) -> Option<u32>
        ensures { result ≡ number_at self.now.task.holdings place mode }
    {
        number_at(self.staged.task.holdings.as_slice(), place, mode)
    }

    /// The path of its task. `O(1)`.
    pub fn into_path(self) -> Path
        ensures { result ≡ self.task.path }
    {
        let MidStep {
            staged,
            local: _,
            at: _,
        } = self;
        path_of(staged)
    }

    /// The frame with its ask, as it was. `O(1)`.
    pub fn asks(self, ask: Ask<B::Local>) -> FrameAtCore<B>
        ensures { result ≡ asking self ask }
    {
        let MidStep { staged, local, at } = self;
        FrameAtCore::of(staged, Stage::Asking(local, ask, at))
    }

    /// The frame after the step, which is told this. `O(1)`.
    #[inline(always)]
    pub fn is_told(self, answer: Answer) -> FrameAtCore<B>
        requires { self.task.done < COUNT_MOST }
        ensures { result ≡ record { task = one_on self.task; stage = Ready self.local answer } }
    {
        let MidStep {
            staged,
            local,
            at: _,
        } = self;
        let mut staged = staged;
        staged.task.takes_step();
        FrameAtCore::of(staged, Stage::Ready(local, answer))
    }
}

/// The path of a task. `O(1)`.
fn path_of<B: Body>(staged: Box<StagedTask<B>>) -> Path
    ensures { result ≡ staged.value.task.path }
{
    let StagedTask { task, stage: _ } = Box::into_inner(staged);
    task.into_path()
}
