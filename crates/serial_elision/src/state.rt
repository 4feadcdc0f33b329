// The serial state, and the serial step.
ghost use Rattle.std.specs.Prelude.{◌≡◌, ℕ, suc, ◌+◌, ◌^◌, ◌<◌, ◌++◌, ◌∷◌, [], IfOk, OnOk, IsTrue, ◌↔◌};
ghost use Rattle.swan_model.specs.SerialStep.{state_after, effect, faults, with_failed};
ghost use Rattle.swan_model.specs.declared.plan.TheConstants.{FUEL_MOST};
ghost use Rattle.serial_elision.specs.Bounds.{HasPaid, MayFail};
ghost use Rattle.serial_elision.specs.Effects.{as_ask, IsEffect, after_effect};
ghost use Rattle.serial_elision.specs.Working.{after_steps};

use crate::spawn::spawn;
use crate::{Activation, Effect, OwnAsk, Reply, Store};
use std::alloc::Global;
use std::marker::Model;
use swan_model::{
    Answer, Ask, Body, FUEL_MOST, Fault, FaultKind, Faults, NoMemory, Path, Stack, Stop, Worked,
};

/// The serial state. Contracts see it as the state of the definitions.
#[derive(Drop)]
pub struct State<L> {
    /// How many steps were taken.
    pub steps: u64,
    /// The activations that haven't ended.
    pub stack: Stack<Activation<L>>,
    /// The objects and queues.
    pub store: Store,
    /// The faults so far.
    pub faults: Faults,
}

impl<L> Model for State<L> {
    ghost use Rattle.swan_model.specs.SerialState.{State as TheState};

    ghost Value = { TheState L };

    ghost view = { λ state. record {
      steps = state.steps;
      stack = state.stack;
      store = state.store;
      faults = state.faults;
    } };
}

impl<L: Drop> State<L> {
    /// Gives an ask its effect. Its activation has paid for the step.
    pub fn perform(
        &mut self,
        alloc: Global,
        top: &mut Activation<L>,
        ask: Ask<L>,
    ) -> Result<Effect<L>, NoMemory>
        requires { HasPaid top.old }

        // what comes of it
        ensures effect { IfOk result (λ e.
            IsEffect e top.new self.old.store self.new.store
            (effect self.old.steps self.old.store top.old ask)) }

        // what stays
        ensures path { top.new.path ≡ top.old.path }
        ensures steps { self.new.steps ≡ self.old.steps }
        ensures stack { self.new.stack ≡ self.old.stack }
        ensures faults { self.new.faults ≡ self.old.faults }
    {
        match self.store.answer(top.holdings.as_slice(), ask)? {
            Reply::Told(answer) => Ok(Effect::Answered(answer)),
            Reply::Synced => {
                let failed = top.failed;
                top.failed = 0;
                Ok(Effect::Answered(Answer::Caught(failed)))
            }
            Reply::Fault(kind) => Ok(Effect::Faulted(kind)),
            Reply::Own(ask) => self.perform_own(alloc, top, ask),
        }
    }

    /// Gives an ask about the task itself its effect. Its activation has paid for the step.
    fn perform_own(
        &mut self,
        alloc: Global,
        top: &mut Activation<L>,
        ask: OwnAsk<L>,
    ) -> Result<Effect<L>, NoMemory>
        requires { HasPaid top.old }

        // what comes of it
        ensures effect { IfOk result (λ e.
            IsEffect e top.new self.old.store self.new.store
            (effect self.old.steps self.old.store top.old (as_ask ask))) }

        // what stays
        ensures path { top.new.path ≡ top.old.path }
        ensures steps { self.new.steps ≡ self.old.steps }
        ensures stack { self.new.stack ≡ self.old.stack }
        ensures faults { self.new.faults ≡ self.old.faults }
    {
        match ask {
            OwnAsk::NewQueue => self.store.make_queue(alloc, self.steps, top),
            OwnAsk::NewObject(value) => self.store.make_object(self.steps, top, value),
            OwnAsk::Spawn(child) => spawn(alloc, &mut self.store, top, child),
            OwnAsk::Finish => Ok(Effect::Ended),
            OwnAsk::Fail(trouble) => Ok(Effect::Faulted(FaultKind::Trouble(trouble))),
        }
    }

    /// Ends the step of an activation that was taken off the stack: it goes back where it goes on.
    /// `O(1)` amortised.
    pub fn settle(
        &mut self,
        mut top: Activation<L>,
        place: u64,
        effect: Effect<L>,
    ) -> Result<(), NoMemory>
        requires steps { self.old.steps + 1 < 2 ^ 64 }
        requires parent { MayFail self.old.stack }
        ensures { OnOk result (self.new ≡ after_effect effect top place self.old) }
    {
        self.steps += 1;
        match effect {
            Effect::Answered(answer) => {
                top.answer = answer;
                self.stack.push(top)
            }
            Effect::Spawned(child) => {
                let Ok(()) = self.stack.push(top) else {
                    // here and below by a call, since what ends with its block is checked part by part
                    drop(child);
                    return Err(NoMemory);
                };
                self.stack.push(child)
            }
            Effect::Ended => {
                drop(top);
                Ok(())
            }
            Effect::Faulted(kind) => self.book(top.path, place, kind),
        }
    }

    /// Books a fault of a task that was taken off the stack, and counts it at the task's parent. `O(1)`
    /// amortised.
    fn book(&mut self, path: Path, place: u64, kind: FaultKind) -> Result<(), NoMemory>
        requires { MayFail self.old.stack }
        ensures { OnOk result (self.new ≡ record self.old {
          stack = with_failed self.old.stack;
          faults = self.old.faults ++ (record { path = path; place = place; kind = kind }) ∷ [];
        }) }
    {
        count_failed(&mut self.stack)?;
        match self.faults.push(Fault { path, place, kind }) {
            Ok(()) => Ok(()),
            Err(_) => Err(NoMemory),
        }
    }

    /// Ends a task that was taken off the stack by a fault, in one step. `O(1)` amortised.
    fn fail(&mut self, path: Path, place: u64, kind: FaultKind) -> Result<(), NoMemory>
        requires steps { self.old.steps + 1 < 2 ^ 64 }
        requires parent { MayFail self.old.stack }
        ensures { OnOk result (self.new ≡ state_after self.old self.old.stack path place (faults kind)) }
    {
        self.steps += 1;
        self.book(path, place, kind)
    }

    /// Gives an ask about the task itself its effect, and ends its step. Its activation was taken off the
    /// stack, and has paid for the step.
    #[inline(never)]
    fn end_step(
        &mut self,
        alloc: Global,
        mut top: Activation<L>,
        place: u64,
        ask: OwnAsk<L>,
    ) -> Result<(), NoMemory>
        requires paid { HasPaid top }
        requires steps { self.old.steps + 1 < 2 ^ 64 }
        requires parent { MayFail self.old.stack }
        ensures { OnOk result (self.new ≡ state_after self.old self.old.stack top.path place
            (effect self.old.steps self.old.store top (as_ask ask))) }
    {
        let effect = self.perform_own(alloc, &mut top, ask)?;
        self.settle(top, place, effect)
    }

    /// Whether no activation is left. `O(1)`.
    pub fn is_over(&self) -> bool
        ensures { IsTrue result ↔ (self.now.stack ≡ []) }
    {
        self.stack.is_empty()
    }

    /// Takes serial steps of the top activation, up to one by which it spawns, ends, or makes a queue or an
    /// object; where no activation is left there is none. For the steps between, nothing of the stack is
    /// touched. The cost of a spawn of `g` gives from a path of `d` parts is `O(g log g + d)`, and each other
    /// step is `O(1)` amortised beside its body's.
    pub fn turn<B: Body<Local = L>>(&mut self, alloc: Global, body: &B) -> Result<(), NoMemory>
        requires steps { self.old.steps + FUEL_MOST + 1 < 2 ^ 64 }
        requires stack { MayFail self.old.stack }
        ensures { OnOk result ((n : ℕ) × (self.new ≡ after_steps B.Body body.now self.old (suc n))) }
    {
        let Some(top) = self.stack.pop() else {
            return Ok(());
        };
        let Activation {
            path,
            mut local,
            mut answer,
            fuel,
            holdings,
            children,
            mut failed,
        } = top;
        let mut left = fuel;
        for _row in 0..fuel {
            let Worked {
                local: moved,
                works,
                stop,
            } = body.work(alloc, local, answer, left, FUEL_MOST)?;
            local = moved;
            self.steps += works;
            let Some(Stop { ask, place }) = stop else {
                break;
            };
            left = left - works - 1;
            match self.store.answer(holdings.as_slice(), ask)? {
                Reply::Told(told) => answer = told,
                Reply::Synced => {
                    answer = Answer::Caught(failed);
                    failed = 0;
                }
                Reply::Fault(kind) => return self.fail(path, place, kind),
                Reply::Own(ask) => {
                    let top = Activation {
                        path,
                        local,
                        answer: Answer::Nothing,
                        fuel: left,
                        holdings,
                        children,
                        failed,
                    };
                    return self.end_step(alloc, top, place, ask);
                }
            }
            self.steps += 1;
        }
        let place = body.place(&local);
        self.fail(path, place, FaultKind::Fuel)
    }
}

/// Counts one more failed child of the top activation, where there is one. `O(1)`.
fn count_failed<L: Drop>(stack: &mut Stack<Activation<L>>) -> Result<(), NoMemory>
    requires { MayFail stack.old }
    ensures { OnOk result (stack.new ≡ with_failed stack.old) }
{
    let Some(mut parent) = stack.pop() else {
        return Ok(());
    };
    parent.failed += 1;
    stack.push(parent)
}
