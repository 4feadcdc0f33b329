// A body for tests: its tasks go through one list of asks.
ghost use Rattle.std.specs.Prelude.{◌≡◌, ℕ, ◌+◌, ◌-◌, ◌^◌, IfOk, min, pos, if◌then◌else◌, slice_get};
ghost use Rattle.std.specs.Option.{option_map_or};
ghost use Rattle.swan_model.specs.declared.body.Answer.TheVariants.{Start, Nothing, Item, Flag, Place, Caught};
ghost use Rattle.swan_model.specs.declared.body.Ask.TheVariants.{Push, Finish};
ghost use Rattle.swan_model.specs.declared.value.Value.TheVariants.{Int};

use std::alloc::Global;
use std::marker::Model;
use swan_model::{Answer, Ask, Body, NoMemory, Value};

/// Each task begins at an index of the list and takes the asks from there on, one a step; past the
/// end it finishes. A push pushes what the step is told, and its own value only where the step is
/// told nothing. At one index no memory is found. The place of a step is its index. Contracts see it as the list.
#[derive(Drop)]
pub struct AskList {
    /// The asks.
    pub asks: Vec<Ask<usize>>,
    /// Where no memory is found.
    pub fails: usize,
}

impl Model for AskList {
    ghost use Rattle.std.specs.Prelude.{List, ℕ};
    ghost use Rattle.swan_model.specs.declared.body.Ask.{Ask as TheAsk};

    ghost Value = { List (TheAsk ℕ) };

    ghost view = { λ list. list.asks.items };
}

impl Body for AskList {
    type Local = usize;

    ghost next = { λ body at answer fuel.
        option_map_or
        (λ asked. (
          at + 1,
          elim asked [
            | Push place value ↦ Push place (elim answer [ Item item ↦ item | Flag flag ↦ Int (pos (if flag then 1 else 0)) | Place made ↦ Int (pos made) | Caught failed ↦ Int (pos (min failed (2 ^ 63 - 1))) | _ ↦ value ])
            | other ↦ other
          ],
        ))
        (slice_get body at)
        (at, Finish) };

    ghost place_of = { λ body at. at };

    fn advance(
        &self,
        alloc: Global,
        local: usize,
        answer: Answer,
        _fuel: u64,
    ) -> Result<(usize, Ask<usize>), NoMemory> {
        if local == self.fails {
            drop(answer);
            return Err(NoMemory);
        }
        step(alloc, self.asks.as_slice(), local, answer)
    }

    fn place(&self, local: &usize) -> u64 {
        *local as u64
    }
}

/// A step at an index of these asks. It looks at no fuel.
fn step(
    alloc: Global,
    asks: &[Ask<usize>],
    at: usize,
    answer: Answer,
) -> Result<(usize, Ask<usize>), NoMemory>
    ensures { IfOk result (λ r. (r.0, r.1) ≡ ⟦<AskList as Body>⟧.next asks.now at answer 0) }
{
    let Some(ask) = asks.get(at) else {
        drop(answer);
        return Ok((at, Ask::Finish));
    };
    match asked(alloc, ask, answer) {
        Ok(ask) => Ok((at + 1, ask)),
        Err(none) => Err(none),
    }
}

/// An ask of the list, as a step asks it that is told this.
fn asked(alloc: Global, ask: &Ask<usize>, answer: Answer) -> Result<Ask<usize>, NoMemory>
    ensures { IfOk result (λ asked. asked ≡ elim ask.now [ Push place value ↦ Push place (elim answer [ Item item ↦ item | Flag flag ↦ Int (pos (if flag then 1 else 0)) | Place made ↦ Int (pos made) | Caught failed ↦ Int (pos (min failed (2 ^ 63 - 1))) | _ ↦ value ]) | other ↦ other ]) }
{
    match ask {
        Ask::Push(place, value) => Ok(Ask::Push(*place, told(answer, value)?)),
        ask => ask.copy(alloc),
    }
}

/// What the step is told, as a value.
fn told(answer: Answer, otherwise: &Value) -> Result<Value, NoMemory>
    ensures { IfOk result (λ value. value ≡ elim answer [ Item item ↦ item | Flag flag ↦ Int (pos (if flag then 1 else 0)) | Place made ↦ Int (pos made) | Caught failed ↦ Int (pos (min failed (2 ^ 63 - 1))) | _ ↦ otherwise.now ]) }
{
    match answer {
        Answer::Item(item) => Ok(item),
        Answer::Flag(flag) => Ok(Value::Int(i64::from(flag))),
        Answer::Place(place) => Ok(Value::Int(i64::from(place))),
        Answer::Caught(failed) => Ok(Value::Int(failed.min(i64::MAX as u64) as i64)),
        Answer::Start | Answer::Nothing => otherwise.copy(),
    }
}
