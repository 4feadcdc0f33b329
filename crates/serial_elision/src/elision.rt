// The serial elision.
ghost use Rattle.std.specs.Prelude.{◌≡◌, [], length, IfOk, map, take};
ghost use Rattle.swan_model.specs.declared.plan.Plan.{Plan};
ghost use Rattle.swan_model.specs.Elision.{outcome, serial, most_steps};

use crate::roots::start;
use crate::{Cell, Queue};
use std::alloc::Global;
use swan_model::{Body, NoMemory, Outcome, Plan, ValueLists, Values};

/// What the serial elision of a plan leaves: the values of its objects, the items in its queues, as
/// many as it has of each, and the faults in serial order.
///
/// It answers NoMemory where memory ran out, and nothing else beside. It takes at most twice the
/// fuel and two steps. A spawn of `g` gives from a path of `d` parts costs `O(g log g + d)`, and
/// each other step `O(1)` amortised beside the body's. What a task holds is given up when it ends,
/// and half of a queue's room once less than a quarter of it is used, down to room for 32 items;
/// objects and queues stay until the end. Beside its steps it costs `O(roots)` at the start, and at the end
/// what it takes to let go of the objects, the queues and the items that tasks made.
pub fn elide<B: Body>(alloc: Global, plan: Plan<B>) -> Result<Outcome, NoMemory>
    ensures outcome { IfOk result (λ left. left ≡ outcome B.Body plan) }
    ensures queues { IfOk result (λ left. length left.queues ≡ length plan.roots.queues) }
    ensures objects { IfOk result (λ left. length left.objects ≡ length plan.roots.objects) }
{
    let Plan {
        body,
        root_local,
        roots,
        fuel,
    } = plan;
    let queues = roots.queues().len();
    let objects = roots.objects().len();
    let mut state = start(alloc, root_local, roots, fuel)?;
    for _turn in 0..2 * fuel.units() + 2 {
        if state.is_over() {
            break;
        }
        state.turn(alloc, &body)?;
    }
    let store = state.store;
    Ok(Outcome {
        objects: first_values(alloc, store.cells, objects)?,
        queues: first_items(alloc, store.queues, queues)?,
        faults: state.faults,
    })
}

/// The values of the first objects. `O(cells)`.
fn first_values(alloc: Global, mut cells: Vec<Cell>, count: usize) -> Result<Values, NoMemory>
    ensures { IfOk result (λ values. values ≡ map (λ cell. cell.value) (take count cells.items)) }
{
    cells.truncate(count);
    let values = cells.into_iter().map(|cell| cell.value).collect(alloc)?;
    Ok(Values::from_vec(values))
}

/// The items of the first queues. `O(queues)`, and what it costs to let the items of the others go.
fn first_items(alloc: Global, mut queues: Vec<Queue>, count: usize) -> Result<ValueLists, NoMemory>
    ensures { IfOk result (λ lists. lists ≡ map (λ queue. queue.items) (take count queues.items)) }
{
    queues.truncate(count);
    let lists = queues
        .into_iter()
        .map(|queue| Values::from_vec(queue.items.into()))
        .collect(alloc)?;
    Ok(ValueLists::from_vec(lists))
}

/// The law that the elision of each plan ends: no activation is left after twice the fuel and two
/// steps.
#[tactic(auto, using(crate::proofs::Ends::serial_ends))]
pub fn elision_ends<B: Body>()
    ensures { (plan : Plan B B.Local) → (serial B.Body plan (most_steps plan)).stack ≡ [] }
{}
