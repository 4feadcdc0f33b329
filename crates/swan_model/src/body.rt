// Bodies: what tasks do, step by step.
ghost use Rattle.std.specs.Prelude.{◌≡◌, ℕ, suc, ◌<◌, ◌≤◌, min, IfOk, IfSome, IfNone};
ghost use Rattle.swan_model.specs.Work.{ask_after, AreWork, local_after};
ghost use Rattle.swan_model.specs.declared.body.Answer.{Answer};
ghost use Rattle.swan_model.specs.declared.body.Ask.{Ask};
ghost use Rattle.swan_model.specs.declared.body.Ask.TheVariants as ask;

use crate::{Gives, NoMemory, Trouble, Value};
use std::alloc::Global;
use std::marker::{Send, Sync};

/// A child that a task asks for.
#[derive(Drop)]
pub struct Child<L> {
    /// The local that the child begins with.
    pub local: L,
    /// What the child is given, in the order of the child's places.
    pub gives: Gives,
    /// The fuel that moves from the task to the child.
    pub fuel: u64,
}

/// What a task asks for in one step. A `u32` is one of the task's places, from 0 on.
#[derive(Drop)]
pub enum Ask<L> {
    /// Nothing: the step was the task's own.
    Work,
    /// The value of an object.
    Read(u32),
    /// That an object have this value.
    Write(u32, Value),
    /// That this value go to the end of a queue.
    Push(u32, Value),
    /// The first item of a queue, which leaves it.
    Pop(u32),
    /// Whether a queue is empty.
    Empty(u32),
    /// A new queue.
    NewQueue,
    /// A new object with this value.
    NewObject(Value),
    /// A child.
    Spawn(Child<L>),
    /// That all children have ended. It is told how many of them ended by a fault since the task's last wait of this kind.
    Sync,
    /// To end.
    Finish,
    /// To end with a fault.
    Fail(Trouble),
}

impl<L: Copy> Ask<L> {
    /// The same ask once more. It costs a copy of its value or of its gives. Err is want of memory.
    pub fn copy(&self, alloc: Global) -> Result<Ask<L>, NoMemory>
        ensures { IfOk result (λ ask. ask ≡ self.now) }
    {
        match self {
            Ask::Work => Ok(Ask::Work),
            Ask::Read(place) => Ok(Ask::Read(*place)),
            Ask::Write(place, value) => Ok(Ask::Write(*place, value.copy()?)),
            Ask::Push(place, value) => Ok(Ask::Push(*place, value.copy()?)),
            Ask::Pop(place) => Ok(Ask::Pop(*place)),
            Ask::Empty(place) => Ok(Ask::Empty(*place)),
            Ask::NewQueue => Ok(Ask::NewQueue),
            Ask::NewObject(value) => Ok(Ask::NewObject(value.copy()?)),
            Ask::Spawn(child) => Ok(Ask::Spawn(Child {
                local: child.local,
                gives: child.gives.copy(alloc)?,
                fuel: child.fuel,
            })),
            Ask::Sync => Ok(Ask::Sync),
            Ask::Finish => Ok(Ask::Finish),
            Ask::Fail(trouble) => Ok(Ask::Fail(*trouble)),
        }
    }
}

/// What a task gets for its ask, with its next step.
#[derive(Drop)]
pub enum Answer {
    /// To its first step.
    Start,
    /// To an ask that wants no answer.
    Nothing,
    /// The value of an object, or the item of a queue.
    Item(Value),
    /// Whether a queue is empty.
    Flag(bool),
    /// The place of a new queue or object.
    Place(u32),
    /// To Sync: how many children ended by a fault since the last one, or since the task began.
    Caught(u64),
}

/// A step that asked for something other than work.
#[derive(Drop)]
pub struct Stop<L> {
    /// What it asks for.
    pub ask: Ask<L>,
    /// Where it stands in the program.
    pub place: u64,
}

/// What steps of work in a row leave.
#[derive(Drop)]
pub struct Worked<L> {
    /// The local after the last step.
    pub local: L,
    /// How many steps were work.
    pub works: u64,
    /// The step after them, where one was taken that asked for something other than work.
    pub stop: Option<Stop<L>>,
}

/// The program of all tasks of a run. A task's own state is its local.
pub trait Body: Drop + Send + Sync {
    /// What one task keeps between its steps.
    type Local: Drop + Send;

    /// What a step leaves as the local, and what it asks for. The number is the fuel that is left
    /// after the step's own unit.
    ghost next: { Self → Self.Local → Answer → ℕ → Self.Local × Ask Self.Local };

    /// Where in the program the step that comes next stands.
    ghost place_of: { Self → Self.Local → ℕ };

    /// Takes one step of a task. Err is want of memory, and then the local and the answer are let go. What it costs is the
    /// body's to say.
    fn advance(
        &self,
        alloc: Global,
        local: Self::Local,
        answer: Answer,
        fuel: u64,
    ) -> Result<(Self::Local, Ask<Self::Local>), NoMemory>
        ensures { IfOk result (λ r. (r.0, r.1) ≡ next self.now local answer fuel) };

    /// Takes steps of a task in a row, as long as each asks for work and the budget and the fuel last. The
    /// first one is told this answer. Where a step asks for something else, its unit of fuel is taken too,
    /// that step isn't counted among those of work, and its ask has had no effect. Once as many steps of work
    /// as the budget are taken, no further step is asked; with fuel 0 none is, and then the local comes back as it
    /// was and the answer is let go. Err is want of memory, and then the local is let go. It costs what its steps cost.
    ///
    /// A body may have a loop of its own, which is owed the same clauses. This one takes a step by `advance`
    /// for each step.
    fn work(
        &self,
        alloc: Global,
        local: Self::Local,
        answer: Answer,
        fuel: u64,
        budget: u64,
    ) -> Result<Worked<Self::Local>, NoMemory>
        requires { 0 < budget }

        // the row, and what it leaves where no other step ended it
        ensures works { IfOk result (λ w. AreWork (next self.now) local answer fuel w.works) }
        ensures all { IfOk result (λ w. IfNone w.stop (w.works ≡ min budget fuel)) }
        ensures last { IfOk result (λ w. IfNone w.stop (w.local ≡ local_after (next self.now) local answer fuel w.works)) }

        // what it leaves where another step ended it
        ensures stopped { IfOk result (λ w. IfSome w.stop (λ stop. w.works < min budget fuel)) }
        ensures moved { IfOk result (λ w. IfSome w.stop (λ stop. w.local ≡ local_after (next self.now) local answer fuel (suc w.works))) }
        ensures ask { IfOk result (λ w. IfSome w.stop (λ stop. stop.ask ≡ ask_after (next self.now) local answer fuel w.works)) }
        ensures other { IfOk result (λ w. IfSome w.stop (λ stop. stop.ask ≡ ask.Work → ⊥)) }
        ensures place { IfOk result (λ w. IfSome w.stop (λ stop. stop.place ≡ place_of self.now (local_after (next self.now) local answer fuel w.works))) }
    {
        let mut local = local;
        let mut told = answer;
        let most = budget.min(fuel);
        for works in 0..most {
            let place = self.place(&local);
            let (moved, ask) = self.advance(alloc, local, told, fuel - works - 1)?;
            local = moved;
            told = Answer::Nothing;
            match ask {
                Ask::Work => {}
                ask => {
                    return Ok(Worked {
                        local,
                        works,
                        stop: Some(Stop { ask, place }),
                    });
                }
            }
        }
        Ok(Worked {
            local,
            works: most,
            stop: None,
        })
    }

    /// Where in the program the step that comes next stands. It takes no memory.
    fn place(&self, local: &Self::Local) -> u64
        ensures { result ≡ place_of self.now local.now };
}
