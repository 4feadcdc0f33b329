// Spawns.
ghost use Rattle.std.specs.Prelude.{◌≡◌, ℕ, ◌<◌, ◌≤◌, List, [], ◌∷◌, ◌++◌, Some, length, IfOk, IfSome, IfNone, OnOk};
ghost use Rattle.std.specs.Option.{option_map};
ghost use Rattle.swan_model.specs.SerialState.{Holding as TheHolding, Store as TheStore};
ghost use Rattle.swan_model.specs.SerialStep.{given, effect, spawn_effect, cells_with_zeros};
ghost use Rattle.swan_model.specs.SerialStep.Effect.{faults, spawns};
ghost use Rattle.swan_model.specs.declared.body.Ask.TheVariants as ask;
ghost use Rattle.swan_model.specs.declared.path.TheConstants.{PATH_MOST};
ghost use Rattle.swan_model.specs.declared.rights.TheConstants.{GIVES_MOST};
ghost use Rattle.serial_elision.specs.Bounds.{HasPaid};
ghost use Rattle.serial_elision.specs.Effects.{IsEffect};
ghost use Rattle.serial_elision.specs.TaskSteps.{child_activation, parent_activation};

use crate::alias::is_aliased;
use crate::{Activation, Effect, Holding, Store};
use std::alloc::Global;
use swan_model::{Answer, Child, FaultKind, Gives, NoMemory, PATH_MOST, Path};

/// Spawns a child. `O(g log g + d)` for `g` gives and a path of `d` parts.
pub fn spawn<L: Drop>(
    alloc: Global,
    store: &mut Store,
    parent: &mut Activation<L>,
    child: Child<L>,
) -> Result<Effect<L>, NoMemory>
    requires { HasPaid parent.old }
    ensures effect { (n : ℕ) → IfOk result (λ e.
        IsEffect e parent.new store.old store.new (effect n store.old parent.old (ask.Spawn child))) }
    ensures path { parent.new.path ≡ parent.old.path }
{
    let Some(holdings) = given(alloc, parent, &child.gives)? else {
        return Ok(Effect::Faulted(FaultKind::Privilege));
    };
    match fault_of(alloc, parent, &child)? {
        Some(kind) => Ok(Effect::Faulted(kind)),
        None => Ok(Effect::Spawned(begin(store, parent, child, holdings)?)),
    }
}

/// What a child holds by its gives, and None exactly where the parent doesn't hold one of them so.
/// `O(gives)`, one allocation.
pub fn given<L>(
    alloc: Global,
    parent: &Activation<L>,
    gives: &Gives,
) -> Result<Option<Vec<Holding>>, NoMemory>
    ensures holdings { IfOk result (λ held.
        option_map (λ list. list.items) held ≡ given parent.now.holdings gives.now) }
    ensures most { IfOk result (λ held. IfSome held (λ list. length list.items ≤ GIVES_MOST)) }
{
    let mut holdings = Vec::with_capacity(alloc, gives.len())?;
    for give in gives.as_slice() {
        let Some(number) = parent.number_at(give.place, give.mode) else {
            return Ok(None);
        };
        holdings.push(Holding {
            mode: give.mode,
            number,
        })?;
    }
    Ok(Some(holdings))
}

/// The fault of a spawn whose gives the parent holds, if any: a place that is given twice, the depth of the path, or the
/// fuel, tried in this order. `O(g log g)` for `g` gives.
fn fault_of<L>(
    alloc: Global,
    parent: &Activation<L>,
    child: &Child<L>,
) -> Result<Option<FaultKind>, NoMemory>
    // what the effect is, where the child holds this
    ensures fault { IfOk result (λ fault. IfSome fault (λ kind. (store : TheStore) (holdings : List TheHolding)
        → spawn_effect store parent.now child.now (Some holdings) ≡ faults kind)) }
    ensures none { IfOk result (λ fault. IfNone fault ((store : TheStore) (holdings : List TheHolding)
        → spawn_effect store parent.now child.now (Some holdings)
        ≡ spawns (parent_activation parent.now child.now) (child_activation parent.now child.now holdings)
        (record store { cells = cells_with_zeros store.cells holdings }))) }

    // what begin asks for
    ensures fuel { IfOk result (λ fault. IfNone fault (child.now.fuel ≤ parent.now.fuel)) }
    ensures deep { IfOk result (λ fault. IfNone fault (length parent.now.path < PATH_MOST)) }
{
    if is_aliased(alloc, child.gives.as_slice())? {
        return Ok(Some(FaultKind::Alias));
    }
    if parent.path.parts().len() >= PATH_MOST {
        return Ok(Some(FaultKind::Depth));
    }
    if parent.fuel < child.fuel {
        return Ok(Some(FaultKind::Fuel));
    }
    Ok(None)
}

/// Begins a child that holds this, where the spawn is no fault. `O(holdings + d)` for a path of `d` parts.
fn begin<L: Drop>(
    store: &mut Store,
    parent: &mut Activation<L>,
    child: Child<L>,
    holdings: Vec<Holding>,
) -> Result<Activation<L>, NoMemory>
    // that the spawn is no fault
    requires paid { HasPaid parent.old }
    requires fuel { child.fuel ≤ parent.old.fuel }
    requires most { length holdings.items ≤ GIVES_MOST }
    requires deep { length parent.old.path < PATH_MOST }

    // the child, and what the spawn leaves of its parent and of the store
    ensures child { IfOk result (λ begun. begun ≡ child_activation parent.old child holdings.items) }
    ensures parent { OnOk result (parent.new ≡ parent_activation parent.old child) }
    ensures store { OnOk result (store.new ≡ record store.old { cells = cells_with_zeros store.old.cells holdings.items }) }
    ensures path { parent.new.path ≡ parent.old.path }
{
    let path = next_path(store, parent, holdings.as_slice())?;
    charge(parent, &child);
    Ok(Activation {
        path,
        local: child.local,
        answer: Answer::Start,
        fuel: child.fuel,
        holdings,
        children: 0,
        failed: 0,
    })
}

/// The path of the parent's next child, once each object that the child holds by Out has its zero. `O(holdings + d)` for a
/// path of `d` parts.
fn next_path<L>(
    store: &mut Store,
    parent: &Activation<L>,
    holdings: &[Holding],
) -> Result<Path, NoMemory>
    requires { length parent.now.path < PATH_MOST }
    ensures path { IfOk result (λ path. path ≡ parent.now.path ++ parent.now.children ∷ []) }
    ensures store { OnOk result (store.new ≡ record store.old { cells = cells_with_zeros store.old.cells holdings.now }) }
{
    let path = parent.path.child(parent.children)?;
    store.zero(holdings);
    Ok(path)
}

/// Takes the fuel of one more child from its parent, whose next step is told nothing. `O(1)`.
fn charge<L>(parent: &mut Activation<L>, child: &Child<L>)
    requires paid { HasPaid parent.old }
    requires fuel { child.now.fuel ≤ parent.old.fuel }
    ensures { parent.new ≡ parent_activation parent.old child.now }
{
    parent.answer = Answer::Nothing;
    parent.fuel -= child.fuel;
    parent.children += 1;
}
