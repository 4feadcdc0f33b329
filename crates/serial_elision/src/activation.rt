// Activations: the tasks of the serial elision.
ghost use Rattle.std.specs.Prelude.{◌≡◌, ◌+◌, ◌-◌, ◌<◌, ◌++◌, ◌∷◌, [], length, IfOk, OnOk};
ghost use Rattle.swan_model.specs.SerialStep.{after_next, with_answer, number_at};
ghost use Rattle.swan_model.specs.declared.body.Answer.TheVariants as answer;

use crate::Holding;
use crate::holding::number_at;
use std::alloc::Global;
use std::marker::Model;
use swan_model::{Answer, Ask, Body, Mode, NoMemory, Path};

/// A task of the serial elision. Contracts see it as the activation of the serial state.
#[derive(Drop)]
pub struct Activation<L> {
    /// Where it stands in the tree of tasks.
    pub path: Path,
    /// What its body keeps.
    pub local: L,
    /// What its next step is told.
    pub answer: Answer,
    /// How many steps it has left.
    pub fuel: u64,
    /// What it holds, by place.
    pub holdings: Vec<Holding>,
    /// How many children it has spawned.
    pub children: u32,
    /// How many of them ended by a fault since its last Sync, or since its start.
    pub failed: u64,
}

impl<L> Model for Activation<L> {
    ghost use Rattle.swan_model.specs.SerialState.{Activation as TheActivation};
    ghost use Rattle.std.specs.Prelude.{length};
    ghost use Rattle.serial_elision.specs.Bounds.{IsWithin};

    ghost Value = { TheActivation L };

    ghost view = { λ a. record {
      path = a.path;
      local = a.local;
      answer = a.answer;
      fuel = a.fuel;
      holdings = a.holdings.items;
      children = a.children;
      failed = a.failed;
    } };

    ghost invariant = { λ a. IsWithin (length a.holdings.items) a.children a.fuel };
}

impl<L> Activation<L> {
    ghost use Rattle.serial_elision.specs.Bounds.{HasPaid};

    /// The number of the object or queue at a place, and None exactly where it may not be used so.
    /// `O(1)`.
    pub fn number_at(&self, place: u32, mode: Mode) -> Option<usize>
        ensures { result ≡ number_at self.now.holdings place mode }
    {
        number_at(self.holdings.as_slice(), place, mode)
    }

    /// Adds a place, and answers which it is. `O(1)` amortised.
    pub fn add_place(&mut self, mode: Mode, number: usize) -> Result<u32, NoMemory>
        requires { HasPaid self.old }
        ensures place { IfOk result (λ place. place ≡ length self.old.holdings) }
        ensures holdings { OnOk result (self.new ≡ record self.old {
          holdings = self.old.holdings ++ (record { mode = mode; number = number }) ∷ [];
        }) }
        ensures path { self.new.path ≡ self.old.path }
    {
        let place = self.holdings.len() as u32;
        self.holdings.push(Holding { mode, number })?;
        Ok(place)
    }

    /// Takes a step of the body, which costs one unit of fuel, and answers what the body asks for.
    pub fn advance<B: Body<Local = L>>(
        self,
        alloc: Global,
        body: &B,
    ) -> Result<(Activation<L>, Ask<L>), NoMemory>
        requires { 0 < self.fuel }
        ensures moved { let step = B.next body.now self.local self.answer (self.fuel - 1) in
            IfOk result (λ r. r.0 ≡ with_answer (after_next self step.0) answer.Nothing) }
        ensures ask { let step = B.next body.now self.local self.answer (self.fuel - 1) in
            IfOk result (λ r. r.1 ≡ step.1) }
        ensures paid { IfOk result (λ r. HasPaid r.0) }
    {
        let Activation {
            path,
            local,
            answer,
            fuel,
            holdings,
            children,
            failed,
        } = self;
        let fuel = fuel - 1;
        let (local, ask) = body.advance(alloc, local, answer, fuel)?;
        let moved = Activation {
            path,
            local,
            answer: Answer::Nothing,
            fuel,
            holdings,
            children,
            failed,
        };
        Ok((moved, ask))
    }
}
