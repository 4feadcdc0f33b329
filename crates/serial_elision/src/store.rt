// The objects and the queues of an elision together, and what is asked of them.
ghost use Rattle.std.specs.Option.{option_map};
ghost use Rattle.std.specs.Prelude.{◌≡◌, IfOk, OnOk, is_some, slice_get};
ghost use Rattle.swan_model.specs.Script.{origin_of, origin_at};
ghost use Rattle.swan_model.specs.SerialStep.{effect, is_nothing_left, cells_with_zeros, zeroed_by, zero_cell};
ghost use Rattle.swan_model.specs.declared.body.Ask.TheVariants as ask;
ghost use Rattle.swan_model.specs.declared.rights.Mode.TheVariants.{In, Out, Push, Pop};
ghost use Rattle.serial_elision.specs.Bounds.{HasPaid};
ghost use Rattle.serial_elision.specs.Effects.{IsEffect};
ghost use Rattle.serial_elision.specs.Places.{store_after_pop, cell_at, popped_item, store_after_push, queue_at, store_after_write};

use crate::holding::number_at;
use crate::{Activation, Cell, Effect, Holding, Queue};
use std::alloc::Global;
use std::collections::VecDeque;
use std::marker::Model;
use swan_model::{Answer, FaultKind, Mode, NoMemory, Origin, Value};

/// The objects and the queues in the order of their making. Contracts see it as the store of the
/// serial state.
#[derive(Drop)]
pub struct Store {
    /// The objects.
    pub cells: Vec<Cell>,
    /// The queues.
    pub queues: Vec<Queue>,
}

impl Model for Store {
    ghost use Rattle.swan_model.specs.SerialState.{Store as TheStore};

    ghost Value = { TheStore };

    ghost view = { λ store. record { cells = store.cells.items; queues = store.queues.items } };
}

impl Store {
    /// The value of the object at a place, and None exactly where one who holds this may not read it. `O(1)`;
    /// a record shares its bytes.
    #[inline(always)]
    pub fn read(&self, holdings: &[Holding], place: u32) -> Result<Option<Value>, NoMemory>
        ensures { IfOk result (λ value.
            value ≡ option_map (λ at. at.1.value) (cell_at self.now holdings.now place In)) }
    {
        let Some(number) = number_at(holdings, place, Mode::In) else {
            return Ok(None);
        };
        let Some(cell) = self.cells.get(number) else {
            return Ok(None);
        };
        Ok(Some(cell.value.copy()?))
    }

    /// Writes the object at a place, and answers false exactly where one who holds this may not. `O(1)`.
    #[inline(always)]
    pub fn write(&mut self, holdings: &[Holding], place: u32, value: Value) -> bool
        ensures usable { result ≡ is_some (cell_at self.old holdings.now place Out) }
        ensures store { self.new ≡ store_after_write self.old value (cell_at self.old holdings.now place Out) }
    {
        let Some(number) = number_at(holdings, place, Mode::Out) else {
            return false;
        };
        let Some(cell) = self.cells.get_mut(number) else {
            return false;
        };
        cell.value = value;
        true
    }

    /// Pushes to the queue at a place, and answers false exactly where one who holds this may not. `O(1)`
    /// amortised.
    #[inline(always)]
    pub fn push(&mut self, holdings: &[Holding], place: u32, value: Value) -> Result<bool, NoMemory>
        ensures usable { IfOk result (λ usable.
            usable ≡ is_some (queue_at self.old holdings.now place Push)) }
        ensures store { OnOk result
            (self.new ≡ store_after_push self.old value (queue_at self.old holdings.now place Push)) }
    {
        let Some(number) = number_at(holdings, place, Mode::Push) else {
            return Ok(false);
        };
        let Some(queue) = self.queues.get_mut(number) else {
            return Ok(false);
        };
        queue.items.push_back(value)?;
        Ok(true)
    }

    /// Takes the first item of the queue at a place, or answers by which fault the pop of one who holds this
    /// ends. `O(1)` amortised.
    #[inline(always)]
    pub fn pop(&mut self, holdings: &[Holding], place: u32) -> Result<Value, FaultKind>
        ensures item { result ≡ popped_item (queue_at self.old holdings.now place Pop) }
        ensures store { self.new ≡ store_after_pop self.old (queue_at self.old holdings.now place Pop) }
    {
        let Some(number) = number_at(holdings, place, Mode::Pop) else {
            return Err(FaultKind::Privilege);
        };
        let Some(queue) = self.queues.get_mut(number) else {
            return Err(FaultKind::Privilege);
        };
        let Some(item) = queue.pop() else {
            return Err(FaultKind::PopEmpty);
        };
        Ok(item)
    }

    /// Whether the queue at a place is empty, and None exactly where one who holds this may not pop it.
    /// `O(1)`.
    #[inline(always)]
    pub fn test(&self, holdings: &[Holding], place: u32) -> Option<bool>
        ensures { result ≡ option_map (λ at. is_nothing_left at.1.items)
            (queue_at self.now holdings.now place Pop) }
    {
        let number = number_at(holdings, place, Mode::Pop)?;
        let queue = self.queues.get(number)?;
        Some(queue.items.is_empty())
    }

    /// Makes a queue at the step of this number, and a place of the holder for it. `O(1)` amortised.
    pub fn make_queue<L>(
        &mut self,
        alloc: Global,
        step: u64,
        holder: &mut Activation<L>,
    ) -> Result<Effect<L>, NoMemory>
        requires { HasPaid holder.old }
        ensures effect { IfOk result (λ e.
            IsEffect e holder.new self.old self.new (effect step self.old holder.old ask.NewQueue)) }
        ensures path { holder.new.path ≡ holder.old.path }
    {
        let number = self.queues.len();
        self.queues.push(Queue {
            origin: Origin::Step(step),
            items: VecDeque::new(alloc),
        })?;
        let place = holder.add_place(Mode::PushPop, number)?;
        Ok(Effect::Answered(Answer::Place(place)))
    }

    /// Makes an object at the step of this number, and a place of the holder for it. `O(1)`
    /// amortised.
    pub fn make_object<L>(
        &mut self,
        step: u64,
        holder: &mut Activation<L>,
        value: Value,
    ) -> Result<Effect<L>, NoMemory>
        requires { HasPaid holder.old }
        ensures effect { IfOk result (λ e.
            IsEffect e holder.new self.old self.new
            (effect step self.old holder.old (ask.NewObject value))) }
        ensures path { holder.new.path ≡ holder.old.path }
    {
        let number = self.cells.len();
        self.cells.push(Cell {
            origin: Origin::Step(step),
            kind: value.kind(),
            value,
        })?;
        let place = holder.add_place(Mode::InOut, number)?;
        Ok(Effect::Answered(Answer::Place(place)))
    }

    /// What made the queue, or for a mode of objects the object, that has this number. `O(1)`.
    pub fn origin_of(&self, mode: Mode, number: usize) -> Option<Origin>
        ensures { result ≡ origin_of self.now mode number }
    {
        if mode.is_of_queues() {
            self.queues.get(number).map(|queue| queue.origin)
        } else {
            self.cells.get(number).map(|cell| cell.origin)
        }
    }

    /// What made the object or queue at a place of the holder, and None exactly where it may not be
    /// used so. `O(1)`.
    pub fn origin_at<L>(&self, holder: &Activation<L>, place: u32, mode: Mode) -> Option<Origin>
        ensures { result ≡ origin_at self.now holder.now.holdings place mode }
    {
        let number = holder.number_at(place, mode)?;
        self.origin_of(mode, number)
    }

    /// Gives each object that is held by Out its zero. `O(holdings)`.
    pub fn zero(&mut self, holdings: &[Holding])
        ensures { self.new ≡ record self.old { cells = cells_with_zeros self.old.cells holdings.now } }
    {
        for holding in holdings {
            self.zero_held(holding);
        }
    }

    /// Gives the object that is held by Out its zero, and changes nothing for another mode. `O(1)`.
    fn zero_held(&mut self, holding: &Holding)
        ensures { self.new ≡ record self.old {
          cells = zeroed_by holding.now.mode self.old.cells holding.now.number;
        } }
    {
        match holding.mode {
            Mode::Out => self.zero_cell(holding.number),
            _ => {}
        }
    }

    /// Gives the object of this number its zero. `O(1)`.
    fn zero_cell(&mut self, number: usize)
        ensures { self.new ≡ record self.old {
          cells = zero_cell self.old.cells number (slice_get self.old.cells number);
        } }
    {
        if let Some(cell) = self.cells.get_mut(number) {
            cell.value = Value::zero(cell.kind);
        }
    }
}
