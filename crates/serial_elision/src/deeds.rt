// What asks are to do, and what they did.
ghost use Rattle.std.specs.Prelude.{◌≡◌, ◌++◌, IfOk, OnOk};
ghost use Rattle.std.specs.Option.{option_to_list};
ghost use Rattle.swan_model.specs.Script.{asked, spawn_of, gives_of, give_of};
ghost use Rattle.swan_model.specs.SerialStep.{given};
ghost use Rattle.serial_elision.specs.Effects.{deed_kept, ends_its_task};

use crate::spawn::given;
use crate::{Activation, Effect, Holding, Store};
use std::alloc::Global;
use swan_model::{
    Ask, Deed, Entry, FaultKind, Gives, Mode, NoMemory, OriginGive, OriginGives, Path,
};

/// What an ask is to do. `O(1)`, and for a spawn `O(gives)`.
pub fn asked<L>(
    alloc: Global,
    store: &Store,
    holder: &Activation<L>,
    ask: &Ask<L>,
) -> Result<Deed, NoMemory>
    ensures { IfOk result (λ deed. deed ≡ asked store.now holder.now.holdings ask.now) }
{
    match ask {
        Ask::Work | Ask::Finish | Ask::Fail(_) => Ok(Deed::Quiet),
        Ask::Sync => Ok(Deed::Sync),
        Ask::Read(place) => Ok(match store.origin_at(holder, *place, Mode::In) {
            Some(origin) => Deed::Read(origin),
            None => Deed::Quiet,
        }),
        Ask::Write(place, value) => match store.origin_at(holder, *place, Mode::Out) {
            Some(origin) => Ok(Deed::Write(origin, value.copy()?)),
            None => Ok(Deed::Quiet),
        },
        Ask::Push(place, value) => match store.origin_at(holder, *place, Mode::Push) {
            Some(origin) => Ok(Deed::Push(origin, value.copy()?)),
            None => Ok(Deed::Quiet),
        },
        Ask::Pop(place) => Ok(match store.origin_at(holder, *place, Mode::Pop) {
            Some(origin) => Deed::Pop(origin),
            None => Deed::Quiet,
        }),
        Ask::Empty(place) => Ok(match store.origin_at(holder, *place, Mode::Pop) {
            Some(origin) => Deed::Test(origin),
            None => Deed::Quiet,
        }),
        Ask::NewQueue => Ok(Deed::MakeQueue),
        Ask::NewObject(value) => Ok(Deed::MakeObject(value.copy()?)),
        Ask::Spawn(child) => spawn_deed(alloc, store, holder, &child.gives),
    }
}

/// A spawn of a child that is given this, and nothing where the parent doesn't hold it so. `O(gives)`.
fn spawn_deed<L>(
    alloc: Global,
    store: &Store,
    parent: &Activation<L>,
    gives: &Gives,
) -> Result<Deed, NoMemory>
    ensures { IfOk result (λ deed. deed ≡ spawn_of store.now (given parent.now.holdings gives.now)) }
{
    match given(alloc, parent, gives)? {
        Some(holdings) => Ok(Deed::Spawn(named(alloc, store, holdings.as_slice())?)),
        None => Ok(Deed::Quiet),
    }
}

/// What is held, named by what made it. `O(holdings)`.
fn named(alloc: Global, store: &Store, holdings: &[Holding]) -> Result<OriginGives, NoMemory>
    ensures { IfOk result (λ gives. gives ≡ gives_of store.now holdings.now) }
{
    let mut gives = OriginGives::new(alloc);
    for holding in holdings {
        name(&mut gives, store, holding)?;
    }
    Ok(gives)
}

/// Adds what is held, named by what made it, where it stands in the store. `O(1)` amortised.
fn name(gives: &mut OriginGives, store: &Store, holding: &Holding) -> Result<(), NoMemory>
    ensures { OnOk result (gives.new ≡ gives.old ++ option_to_list (give_of store.now holding.now)) }
{
    let Some(origin) = store.origin_of(holding.mode, holding.number) else {
        return Ok(());
    };
    let give = OriginGive {
        origin,
        mode: holding.mode,
    };
    match gives.push(give) {
        Ok(()) => Ok(()),
        Err(_) => Err(NoMemory),
    }
}

/// The entry of a step, from what its ask was to do and what became of it. `O(1)`.
pub fn entry<L>(path: Path, deed: Deed, effect: &Effect<L>) -> Entry
    ensures { result ≡ record { path = path; deed = deed_kept deed effect.now; ends = ends_its_task effect.now } }
{
    match effect {
        Effect::Answered(_) | Effect::Spawned(_) => Entry {
            path,
            deed,
            ends: false,
        },
        Effect::Ended | Effect::Faulted(FaultKind::PopEmpty) => Entry {
            path,
            deed,
            ends: true,
        },
        Effect::Faulted(_) => Entry {
            path,
            deed: Deed::Quiet,
            ends: true,
        },
    }
}
