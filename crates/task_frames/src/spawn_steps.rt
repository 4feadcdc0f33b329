// Steps that spawn a child.
ghost use Rattle.std.specs.Prelude.{◌≡◌, ℕ, ◌+◌, ◌-◌, ◌<◌, ◌≤◌, ◌≢◌, ◌∷◌, ◌++◌, [], Some, None, IsSome, IfOk, OnOk, false, length};
ghost use Rattle.std.specs.Option.{option_map};
ghost use Rattle.swan_model.specs.declared.body.Answer.TheVariants as answer;
ghost use Rattle.swan_model.specs.declared.body.Ask.TheVariants as ask;
ghost use Rattle.swan_model.specs.declared.path.TheConstants.{PATH_MOST};
ghost use Rattle.swan_model.specs.declared.plan.TheConstants.{FUEL_MOST};
ghost use Rattle.swan_model.specs.QueueFollows.{NextSpawnGivesQueues};
ghost use Rattle.swan_model.specs.QueueState.{after_spawn};
ghost use Rattle.swan_model.specs.Values.{COUNT_MOST};
ghost use Rattle.swan_model.specs.Rights.{is_aliased};
ghost use Rattle.swan_model.specs.SerialStep.{given};
ghost use Rattle.queues.specs.Asks.{IsOnTurn, MaySpawn, OnActive, OnNext};
ghost use Rattle.swan_model.specs.Readings.{gone_on};
ghost use Rattle.task_frames.specs.declared.stage.Stage.TheVariants.{Ready};
ghost use Rattle.task_frames.specs.declared.step.Step.TheVariants as step;
ghost use Rattle.task_frames.specs.Cores.{HasIt, MayBegin, asking};
ghost use Rattle.task_frames.specs.Giving.{AreMade, GivesObjects, queue_rights};
ghost use Rattle.task_frames.specs.Records.{come_to, live_at};
ghost use Rattle.task_frames.specs.Resumes.{IsStep};

use crate::child_gives::{give_objects, given, queue_gives};
use crate::{FrameAtCore, Holding, Kept, LiveFrame, MidStep, Stage, Step, TaskAtCore};
use queues::Queues;
use serial_elision::is_aliased;
use std::alloc::Global;
use swan_model::{Answer, Ask, Body, Child, FaultKind, Gives, NoMemory, PATH_MOST, Path};

impl<B: Body> MidStep<B> {
    /// Its fuel, without the unit of the step. `O(1)`.
    fn fuel(&self) -> u64
        ensures { result ≡ self.now.task.fuel }
    {
        self.staged.task.fuel
    }

    /// Of how many parts its path is. `O(1)`.
    fn depth(&self) -> usize
        ensures { result ≡ length self.now.task.path }
    {
        self.staged.task.path.parts().len()
    }

    /// What a child holds by these gives, and None exactly where the frame may not give one of them so. Err is want of
    /// memory. `O(gives)`, one allocation.
    fn given(&self, alloc: Global, gives: &Gives) -> Result<Option<Vec<Holding>>, NoMemory>
        ensures { IfOk result (λ held. option_map (λ list. list.items) held ≡ given self.now.task.holdings gives.now) }
    {
        given(alloc, self.staged.task.holdings.as_slice(), gives)
    }

    /// The path of its next child. Err is want of memory. `O(depth)`.
    fn child_path(&self) -> Result<Path, NoMemory>
        requires { length self.now.task.path < PATH_MOST }
        ensures { IfOk result (λ path. path ≡ self.now.task.path ++ self.now.task.children ∷ []) }
    {
        self.staged.task.path.child(self.staged.task.children)
    }

    /// The frame once it has spawned this child, and the child as it begins. Err is want of memory. `O(1)`, one allocation.
    fn spawns(
        self,
        alloc: Global,
        child: Child<B::Local>,
        number: u64,
        path: Path,
        holdings: Vec<Holding>,
    ) -> Result<Step<B>, NoMemory>
        requires few { self.task.done < COUNT_MOST }
        requires cheap { child.fuel ≤ self.task.fuel }
        requires room { self.task.children < FUEL_MOST }
        ensures { IfOk result (λ spawned. spawned ≡ step.Spawned
            (record {
              task = record self.task {
                done = self.task.done + 1;
                since = self.task.done + 1;
                fuel = self.task.fuel - child.fuel;
                children = self.task.children + 1;
              };
              stage = Ready self.local answer.Nothing;
            })
            (record {
              task = record {
                plan = self.task.plan;
                number = number;
                path = path;
                done = 0;
                since = 0;
                fuel = child.fuel;
                holdings = holdings.items;
                children = 0;
              };
              stage = Ready child.local answer.Start;
            })) }
    {
        let Child {
            local: begins,
            gives,
            fuel,
        } = child;
        drop(gives);
        let MidStep {
            staged,
            local,
            at: _,
        } = self;
        let plan = staged.task.plan.again();
        let mut staged = staged;
        staged.task.done += 1;
        staged.task.fuel -= fuel;
        staged.task.children += 1;
        let parent = FrameAtCore::of(staged, Stage::Ready(local, Answer::Nothing));
        let begun = TaskAtCore {
            plan,
            path,
            number,
            done: 0,
            fuel,
            holdings,
            children: 0,
        };
        let stage = Stage::Ready(begins, Answer::Start);
        match FrameAtCore::begun(alloc, begun, stage) {
            Ok(spawned) => Ok(Step::Spawned(parent, spawned)),
            Err(refusal) => {
                drop(parent);
                Err(refusal)
            }
        }
    }
}

impl<Q: Queues> Kept<Q> {
    /// A child, to which the frame gives what stands at its places. A child that it may not give so ends the frame by
    /// Privilege; then one that is given a place twice by Alias, one too deep by Depth, and one for which the fuel
    /// doesn't last by Fuel. Err is want of memory. `O(g log n + d)` for g gives and a path of d parts, amortised, and what
    /// `Queues::spawn` costs.
    pub fn spawn<B: Body>(
        &mut self,
        alloc: Global,
        mid: MidStep<B>,
        child: Child<B::Local>,
    ) -> Result<Step<B>, NoMemory>
        requires has { HasIt B.Body self.old (asking mid (ask.Spawn child)) }
        requires begun { MayBegin self.old mid.task.number }
        ensures step { IfOk result (IsStep B.Body self.old self.new mid.task) }
        ensures run { OnOk result (self.new.run ≡ self.old.run) }
    {
        let Some(held) = mid.given(alloc, &child.gives)? else {
            return self.refuse(mid, Ask::Spawn(child));
        };
        let at = mid.at();
        if is_aliased(alloc, child.gives.as_slice())? {
            return self.fault(mid.asks(Ask::Spawn(child)), at, FaultKind::Alias);
        }
        if mid.depth() >= PATH_MOST {
            return self.fault(mid.asks(Ask::Spawn(child)), at, FaultKind::Depth);
        }
        if mid.fuel() < child.fuel {
            return self.fault(mid.asks(Ask::Spawn(child)), at, FaultKind::Fuel);
        }
        self.make_child(alloc, mid, child, held)
    }

    /// The number of the next frame. `O(1)`.
    fn next_number(&self) -> u64
        ensures { result ≡ self.now.frames }
    {
        self.frames
    }

    /// A child that is no fault, and which holds this. Else as `spawn`.
    fn make_child<B: Body>(
        &mut self,
        alloc: Global,
        mid: MidStep<B>,
        child: Child<B::Local>,
        held: Vec<Holding>,
    ) -> Result<Step<B>, NoMemory>
        requires has { HasIt B.Body self.old (asking mid (ask.Spawn child)) }
        requires begun { MayBegin self.old mid.task.number }

        // why the child is no fault
        requires given { given mid.task.holdings child.gives ≡ Some held.items }
        requires alone { is_aliased child.gives ≡ false }
        requires shallow { length mid.task.path < PATH_MOST }
        requires cheap { child.fuel ≤ mid.task.fuel }

        // what it leaves
        ensures step { IfOk result (IsStep B.Body self.old self.new mid.task) }
        ensures run { OnOk result (self.new.run ≡ self.old.run) }
    {
        let parent = mid.number();
        let number = self.next_number();
        // By the clause of `len` there are at most `GIVES_MOST` gives.
        let _most = child.gives.len();
        self.hand_over(alloc, parent, number, &child.gives, held.as_slice())?;
        let path = mid.child_path()?;
        self.note_child(parent, mid.done(), &path, &held)?;
        mid.spawns(alloc, child, number, path, held)
    }

    /// Gives a child of this number the objects and the queues among its gives, of which it holds this. Err is want of memory,
    /// and nothing is said of what is kept after it. `O(g log n)` for g gives, amortised, and what `Queues::spawn` costs.
    fn hand_over(
        &mut self,
        alloc: Global,
        parent: u64,
        child: u64,
        gives: &Gives,
        held: &[Holding],
    ) -> Result<(), NoMemory>
        // what the objects allow, and what the queues
        requires objects { GivesObjects self.old.versions parent child gives.now }
        requires may { MaySpawn self.old.state parent child (queue_rights held.now) }

        // where there is a script
        requires turn { IsOnTurn self.old.name self.old.state parent }
        requires next { OnNext self.old.name self.old.state parent (λ s f. NextSpawnGivesQueues s self.old.state f (queue_rights held.now)) }

        // what it leaves
        ensures made { OnOk result ((may : GivesObjects self.old.versions parent child gives.now)
            → AreMade may.s may.r self.old.versions self.new.versions may.giver child gives.now (length gives.now)) }
        ensures state { OnOk result (OnActive self.old.state parent (λ f. self.new.state ≡ after_spawn self.old.state f child (queue_rights held.now))) }
        ensures name { OnOk result (self.new.name ≡ self.old.name) }
        ensures run { OnOk result (self.new.run ≡ self.old.run) }
        ensures same { OnOk result (self.new ≡ record self.old {
          name = self.new.name;
          run = self.new.run;
          state = self.new.state;
          versions = self.new.versions;
        }) }
    {
        give_objects(&mut self.versions, parent, child, gives)?;
        let queues = queue_gives(alloc, held)?;
        self.queues.spawn(parent, child, queues.as_slice())?;
        Ok(())
    }

    /// Notes that a live frame has taken one step, after so many others, by which it has spawned a child of this path, which holds
    /// this. Err is want of memory, and nothing is said of what is kept after it. `O(log n + d + k)` for a path of d parts and
    /// k places, amortised.
    fn note_child(
        &mut self,
        parent: u64,
        done: u64,
        path: &Path,
        held: &Vec<Holding>,
    ) -> Result<(), NoMemory>
        // that the frame is live, and that there is room for the step and for the child
        requires live { IsSome (live_at self.old.live parent) }
        requires few { done < COUNT_MOST }
        requires room { self.old.frames < COUNT_MOST }
        requires rising { parent < self.old.frames }
        requires free { live_at self.old.live self.old.frames ≡ None }

        // what is noted of the frames, and what else is kept
        ensures parent { OnOk result (live_at self.new.live parent ≡ option_map (come_to (done + 1)) (live_at self.old.live parent)) }
        ensures child { OnOk result (live_at self.new.live self.old.frames
            ≡ Some (record { parent = Some parent; path = path.now; done = 0; holdings = held.now.items; failed = 0 })) }
        ensures others { OnOk result ((other : ℕ) → other ≢ parent → other ≢ self.old.frames → live_at self.new.live other ≡ live_at self.old.live other) }
        ensures same { OnOk result (self.new ≡ record self.old {
          reading = record self.old.reading {
            frames = (gone_on self.old.reading parent).frames ++ (record { number = self.old.frames; path = path.now; done = 0 }) ∷ [];
          };
          live = self.new.live;
          frames = self.old.frames + 1;
        }) }
    {
        let child = self.frames;
        let frame = LiveFrame {
            parent: Some(parent),
            path: path.copy()?,
            done: 0,
            holdings: held.clone()?,
            failed: 0,
        };
        self.live.come_to(parent, done + 1);
        self.live.enter(parent, child, frame)?;
        self.reading = self.reading.gone_on_by(parent, 1).with_frame(child, path);
        self.frames += 1;
        Ok(())
    }
}
