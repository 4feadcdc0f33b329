// Locals of activations.
use crate::instruction::{Action, Demand, Num, Operand};
use crate::operation::{flag, joined, part, part_of_none};
use crate::slot::Slot;
use std::alloc::Global;
use std::marker::Model;
use swan_model::{Answer, Kind, NoMemory, Trouble, Value};

/// What an activation has besides its place: the values of its variables, and how many children failed by its last sync.
#[derive(Drop)]
struct Kept {
    values: Vec<Slot>,
    caught: u64,
}

/// What an activation of a job keeps between its steps: where it stands, the values of its variables,
/// and how many children failed by its last sync. Contracts see it as a standing of the definitions.
///
/// A local is moved at each step that the core takes, so all but its place stands in a box.
#[derive(Drop)]
pub struct JobLocal {
    before: u32,
    at: u32,
    kept: Box<Kept>,
}

impl Model for JobLocal {
    ghost use Rattle.job_body.specs.Standing.{Standing};

    ghost Value = { Standing };

    ghost view = { λ local. record {
      before = local.before;
      at = local.at;
      values = local.kept.value.values.items;
      caught = local.kept.value.caught;
    } };
}

impl JobLocal {
    ghost use Rattle.std.specs.Prelude.{◌≡◌, ◌≤◌, ◌+◌, ◌++◌, pos, length, Some, IfOk, OnOk, IfSome, IfNone};
    ghost use Rattle.std.specs.Option.{option_copied};
    ghost use Rattle.job_body.specs.Operations.{number_of, part};
    ghost use Rattle.swan_model.specs.Values.{bytes_of, kind_of};
    ghost use Rattle.job_body.specs.Runs.{after_go, caught_after_answer, number_in, record_of, set_by, value_in, value_of, values_after_answer, with_slot};
    ghost use Rattle.swan_model.specs.declared.record.TheConstants.{RECORD_MOST};
    ghost use Rattle.swan_model.specs.declared.value.Value.TheVariants.{Int, Bytes};

    /// The local of an activation that begins, with no failed children. `O(1)`, and one allocation.
    pub(crate) fn new(
        alloc: Global,
        before: u32,
        at: u32,
        values: Vec<Slot>,
    ) -> Result<JobLocal, NoMemory>
        ensures { IfOk result (λ local. local ≡ record { before = before; at = at; values = values.items; caught = 0 }) }
    {
        let caught = 0;
        let kept = Box::new(alloc, Kept { values, caught })?;
        Ok(JobLocal { before, at, kept })
    }

    /// The index of the line of the last step. `O(1)`.
    pub(crate) fn before(&self) -> u32
        ensures { result ≡ self.now.before }
    {
        self.before
    }

    /// The index of the line of the next step. `O(1)`.
    pub(crate) fn at(&self) -> u32
        ensures { result ≡ self.now.at }
    {
        self.at
    }

    /// How many children failed that the last sync waited for; 0 before the first one. `O(1)`.
    pub(crate) fn caught(&self) -> u64
        ensures { result ≡ self.now.caught }
    {
        self.kept.caught
    }

    /// The value of an operand, for someone else. A record shares its bytes. `O(1)`, but `O(length)` for the first time after bytes
    /// were added in place.
    #[inline(always)]
    pub(crate) fn value(&mut self, operand: &Operand) -> Result<Value, NoMemory>
        ensures value { IfOk result (λ it. it ≡ value_of self.old.values operand.now) }
        ensures kept { OnOk result (self.new ≡ self.old) }
    {
        match operand {
            Operand::Int(number) => Ok(Value::Int(*number)),
            Operand::Bytes(record) => Ok(Value::Bytes(record.copy()?)),
            Operand::Variable(slot) => match self.kept.values.get_mut(*slot as usize) {
                Some(slot) => slot.give(),
                None => Ok(Value::Int(0)),
            },
        }
    }

    /// The part of an operand's bytes from the place i on up to, without, the place j. A number has none. They are shared. `O(1)`,
    /// but `O(length)` for the first time after bytes were added in place.
    pub(crate) fn part(
        &mut self,
        operand: &Operand,
        i: i64,
        j: i64,
    ) -> Result<Result<Value, Trouble>, NoMemory>
        ensures part { IfOk result (λ it. it ≡ part (bytes_of (value_of self.old.values operand.now)) i j) }
        ensures kept { OnOk result (self.new ≡ self.old) }
    {
        match operand {
            Operand::Int(_) => part_of_none(i, j),
            Operand::Bytes(record) => part(record, i, j),
            Operand::Variable(slot) => match self.kept.values.get_mut(*slot as usize) {
                Some(slot) => slot.part(i, j),
                None => part_of_none(i, j),
            },
        }
    }

    /// The number that an operand means; 0 where it means bytes. `O(1)`.
    #[inline(always)]
    pub(crate) fn number(&self, operand: &Operand) -> i64
        ensures { result ≡ number_of (value_of self.now.values operand.now) }
    {
        match operand {
            Operand::Int(number) => *number,
            Operand::Bytes(_) => 0,
            Operand::Variable(slot) => self.number_at(*slot),
        }
    }

    /// The number in a slot; 0 where it has bytes or isn't there. `O(1)`.
    #[inline(always)]
    fn number_at(&self, slot: u32) -> i64
        ensures { result ≡ number_of (value_in self.now.values (Some slot)) }
    {
        match self.kept.values.get(slot as usize) {
            Some(slot) => slot.number(),
            None => 0,
        }
    }

    /// The number that a constant or a slot means. `O(1)`.
    #[inline(always)]
    pub(crate) fn number_in(&self, num: Num) -> i64
        ensures { result ≡ number_in self.now.values num }
    {
        match num {
            Num::Const(number) => number,
            Num::Slot(slot) => self.number_at(slot),
        }
    }

    /// The bytes that an operand means; None where it means a number. `O(1)`.
    pub(crate) fn bytes_if_any<'a>(&'a self, operand: &'a Operand) -> Option<&'a [u8]>
        ensures bytes { option_copied result ≡ record_of (value_of self.now.values operand.now) }
        ensures most { IfSome result (λ bytes. length bytes.now ≤ RECORD_MOST) }
    {
        match operand {
            Operand::Int(_) => None,
            Operand::Bytes(record) => Some(record.as_slice()),
            Operand::Variable(slot) => self.kept.values.get(*slot as usize)?.bytes(),
        }
    }

    /// The bytes that an operand means; none where it means a number. `O(1)`.
    pub(crate) fn bytes<'a>(&'a self, operand: &'a Operand) -> &'a [u8]
        ensures bytes { result.now ≡ bytes_of (value_of self.now.values operand.now) }
        ensures most { length result.now ≤ RECORD_MOST }
    {
        match self.bytes_if_any(operand) {
            Some(bytes) => bytes,
            None => &[],
        }
    }

    /// The kind of the value in a slot. `O(1)`.
    fn kind(&self, slot: Option<u32>) -> Kind
        ensures { result ≡ kind_of (value_in self.now.values slot) }
    {
        let Some(slot) = slot else {
            return Kind::Int;
        };
        match self.kept.values.get(slot as usize) {
            Some(slot) => slot.kind(),
            None => Kind::Int,
        }
    }

    /// Puts a variable into a slot, where it is there. `O(1)`.
    #[inline(always)]
    fn set_slot(&mut self, slot: Option<u32>, new: Slot)
        ensures { self.new ≡ record self.old { values = with_slot self.old.values slot new } }
    {
        let Some(slot) = slot else {
            return;
        };
        if let Some(place) = self.kept.values.get_mut(slot as usize) {
            *place = new;
        }
    }

    /// Sets a slot, where it is there. `O(1)`.
    #[inline(always)]
    pub(crate) fn set(&mut self, slot: Option<u32>, value: Value)
        ensures { self.new ≡ record self.old { values = with_slot self.old.values slot value } }
    {
        self.set_slot(slot, Slot::new(value));
    }

    /// Puts a number into a slot, where it is there. `O(1)`.
    #[inline(always)]
    pub(crate) fn put(&mut self, slot: u32, number: i64)
        ensures { self.new ≡ record self.old { values = with_slot self.old.values (Some slot) (Int number) } }
    {
        if let Some(slot) = self.kept.values.get_mut(slot as usize) {
            slot.make_int(number);
        }
    }

    /// Sets a slot to a number, where it is there. `O(1)`.
    pub(crate) fn set_number(&mut self, slot: Option<u32>, number: i64)
        ensures { self.new ≡ record self.old { values = with_slot self.old.values slot (Int number) } }
    {
        if let Some(slot) = slot {
            self.put(slot, number);
        }
    }

    /// Takes the bytes of the first operand out of their slot and leaves the number 0, where they may grow there, where that is the
    /// slot that is to be set, and where the second operand means another one. `O(1)`.
    fn take_growing(
        &mut self,
        slot: Option<u32>,
        first: &Operand,
        second: &Operand,
    ) -> Option<Vec<u8>>
        // what is taken
        ensures taken { IfSome result (λ bytes. bytes.items ≡ bytes_of (value_of self.old.values first.now)) }
        ensures left { IfSome result (λ _. self.new ≡ record self.old { values = with_slot self.old.values slot (Int (pos 0)) }) }
        ensures second { IfSome result (λ _. value_of self.new.values second.now ≡ value_of self.old.values second.now) }

        // and where nothing is
        ensures none { IfNone result (self.new ≡ self.old) }
    {
        let (Some(to), Operand::Variable(from)) = (slot, first) else {
            return None;
        };
        if to != *from {
            return None;
        }
        if let Operand::Variable(other) = second {
            if to == *other {
                return None;
            }
        }
        self.kept.values.get_mut(to as usize)?.take_growing()
    }

    /// Sets a slot, where it is there, to the bytes of two operands, joined. `O(length)`; but `O(length of what is added)`, amortised,
    /// where the slot is that of the first operand, and no one else was given the bytes in it since they were joined there.
    #[tactic(auto, using(crate::proofs::Values::set_again))]
    pub(crate) fn join(
        &mut self,
        alloc: Global,
        slot: Option<u32>,
        first: &Operand,
        second: &Operand,
    ) -> Result<(), NoMemory>
        requires { length (bytes_of (value_of self.old.values first.now) ++ bytes_of (value_of self.old.values second.now)) ≤ RECORD_MOST }
        ensures { OnOk result (self.new ≡ record self.old {
          values = with_slot self.old.values slot
              (Bytes (bytes_of (value_of self.old.values first.now) ++ bytes_of (value_of self.old.values second.now)));
        }) }
    {
        let bytes = match self.take_growing(slot, first, second) {
            Some(mut bytes) => {
                bytes.extend_from_slice(self.bytes(second))?;
                bytes
            }
            None => joined(alloc, self.bytes(first), self.bytes(second))?,
        };
        self.set_slot(slot, Slot::growing(bytes));
        Ok(())
    }

    /// Sets a slot to a value of its kind; one of the other kind leaves it as it is. `O(1)`.
    #[inline(always)]
    fn receive(&mut self, slot: Option<u32>, value: Value)
        ensures { self.new ≡ record self.old { values = set_by self.old.values slot value } }
    {
        if self.kind(slot) == value.kind() {
            self.set(slot, value);
        }
    }

    /// Takes the answer to what the last step asked for. One that it didn't ask for is nothing.
    /// `O(1)`.
    #[inline(always)]
    pub(crate) fn tell(&mut self, last: &Action, answer: Answer)
        ensures { self.new ≡ record self.old { values = values_after_answer self.old.values last.now answer; caught = caught_after_answer self.old.caught last.now answer } }
    {
        match (last, answer) {
            (Action::Demand(Demand::Read(slot, _) | Demand::Pop(slot, _)), Answer::Item(value)) => {
                self.receive(*slot, value);
            }
            (Action::Demand(Demand::Empty(slot, _)), Answer::Flag(is_empty)) => {
                self.receive(*slot, flag(is_empty));
            }
            (Action::Demand(Demand::Sync), Answer::Caught(failed)) => self.kept.caught = failed,
            _ => {}
        }
    }

    /// Goes on to a line. `O(1)`.
    pub(crate) fn go(&mut self, to: u32)
        ensures { self.new ≡ after_go self.old to }
    {
        self.before = self.at;
        self.at = to;
    }

    /// The number of the line at which the activation stands, from 1 on. `O(1)`.
    pub(crate) fn line(&self) -> u64
        ensures { result ≡ self.now.at + 1 }
    {
        u64::from(self.at) + 1
    }
}
