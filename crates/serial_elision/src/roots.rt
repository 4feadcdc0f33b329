// The state before the first step.
ghost use Rattle.std.specs.Prelude.{◌≡◌, ◌+◌, ◌≤◌, ◌++◌, ◌∷◌, [], length, IfOk, OnOk};
ghost use Rattle.swan_model.specs.Elision.{queue_holdings, first_queues, object_holdings, first_cells, root_holdings, first_store};
ghost use Rattle.swan_model.specs.declared.body.Answer.TheVariants as answer;
ghost use Rattle.swan_model.specs.declared.plan.TheConstants.{ROOTS_MOST, FUEL_MOST};

use crate::{Activation, Cell, Holding, Queue, State, Store};
use std::alloc::Global;
use std::collections::VecDeque;
use swan_model::{
    Answer, Faults, Mode, NoMemory, Origin, Path, PlanFuel, RootQueue, RootQueues, Roots, Stack,
    Value, Values,
};

/// The state before the first step of the plan of these parts. `O(roots)`.
pub fn start<L: Drop>(
    alloc: Global,
    local: L,
    roots: Roots,
    fuel: PlanFuel,
) -> Result<State<L>, NoMemory>
    ensures { IfOk result (λ state. state ≡ record {
      steps = 0;
      stack = (record { path = []; local = local; answer = answer.Start; fuel = fuel; holdings = root_holdings roots; children = 0; failed = 0 }) ∷ [];
      store = first_store roots;
      faults = [];
    }) }
{
    let holdings = root_holdings(alloc, &roots)?;
    let (queues, objects) = roots.into_lists();
    let store = Store {
        cells: first_cells(alloc, objects)?,
        queues: first_queues(alloc, queues)?,
    };
    let mut stack = Stack::new(alloc);
    stack.push(Activation {
        path: Path::root(alloc),
        local,
        answer: Answer::Start,
        fuel: fuel.units(),
        holdings,
        children: 0,
        failed: 0,
    })?;
    Ok(State {
        steps: 0,
        stack,
        store,
        faults: Faults::new(alloc),
    })
}

/// What the root holds.
fn root_holdings(alloc: Global, roots: &Roots) -> Result<Vec<Holding>, NoMemory>
    ensures holdings { IfOk result (λ holdings. holdings.items ≡ root_holdings roots.now) }
    ensures most { IfOk result (λ holdings. length holdings.items ≤ ROOTS_MOST) }
{
    let queues = roots.queues().as_slice();
    let objects = roots.objects().as_slice();
    let mut holdings = Vec::with_capacity(alloc, queues.len() + objects.len())?;
    hold_queues(&mut holdings, queues)?;
    hold_objects(&mut holdings, objects)?;
    Ok(holdings)
}

/// Adds what the root holds of queues.
fn hold_queues(holdings: &mut Vec<Holding>, queues: &[RootQueue]) -> Result<(), NoMemory>
    ensures { OnOk result (holdings.new.items ≡ holdings.old.items ++ queue_holdings 0 queues.now) }
{
    for (number, queue) in queues.iter().enumerate() {
        holdings.push(Holding {
            mode: queue.mode,
            number,
        })?;
    }
    Ok(())
}

/// Adds what the root holds of objects.
fn hold_objects(holdings: &mut Vec<Holding>, objects: &[Value]) -> Result<(), NoMemory>
    ensures { OnOk result (holdings.new.items ≡ holdings.old.items ++ object_holdings 0 objects.now) }
{
    for (number, _) in objects.iter().enumerate() {
        holdings.push(Holding {
            mode: Mode::InOut,
            number,
        })?;
    }
    Ok(())
}

/// The root's queues.
fn first_queues(alloc: Global, roots: RootQueues) -> Result<Vec<Queue>, NoMemory>
    requires { length roots ≤ ROOTS_MOST }
    ensures { IfOk result (λ queues. queues.items ≡ first_queues 0 roots) }
{
    let mut queues = Vec::with_capacity(alloc, roots.len())?;
    for root in roots.into_vec() {
        let number = queues.len() as u32;
        queues.push(Queue {
            origin: Origin::Root(number),
            items: VecDeque::from_vec(root.items.into_vec()),
        })?;
    }
    Ok(queues)
}

/// The root's objects.
fn first_cells(alloc: Global, values: Values) -> Result<Vec<Cell>, NoMemory>
    requires { length values ≤ ROOTS_MOST }
    ensures { IfOk result (λ cells. cells.items ≡ first_cells 0 values) }
{
    let mut cells = Vec::with_capacity(alloc, values.len())?;
    for value in values.into_vec() {
        let number = cells.len() as u32;
        cells.push(Cell {
            origin: Origin::Root(number),
            kind: value.kind(),
            value,
        })?;
    }
    Ok(cells)
}
