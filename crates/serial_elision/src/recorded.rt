// The script of a plan, recorded along its elision.
ghost use Rattle.std.specs.Prelude.{◌≡◌, ◌+◌, ◌^◌, ◌<◌, IfOk, OnOk, map};
ghost use Rattle.swan_model.specs.Elision.{most_steps};
ghost use Rattle.swan_model.specs.Script.{entries, script, next_entry, with_entry};
ghost use Rattle.swan_model.specs.SerialStep.{step};
ghost use Rattle.serial_elision.specs.Bounds.{MayFail};

use crate::deeds::{asked, entry};
use crate::roots::start;
use crate::{Effect, State};
use std::alloc::Global;
use swan_model::{
    Body, Deed, Entries, Entry, FaultKind, NoMemory, Plan, RootQueue, Script, Value, ValueLists,
    Values,
};

/// The script of a plan: with what its queues and objects begin, and what each step of its elision
/// does.
///
/// It answers NoMemory where memory ran out, and nothing else beside. It takes the steps that `elide`
/// takes, and keeps an entry for each, with a copy of its task's path, and of a spawn its gives: `O(d + g)` more for a step than
/// `elide` takes. It is there to look at scripts: no run needs it.
pub fn script_of<B: Body>(alloc: Global, plan: Plan<B>) -> Result<Script, NoMemory>
    ensures { IfOk result (λ s. s ≡ script B.Body plan) }
{
    let queues = lists_of(alloc, plan.roots.queues().as_slice())?;
    let objects = copied(alloc, plan.roots.objects().as_slice())?;
    let entries = entries_of(alloc, plan)?;
    Ok(Script {
        queues,
        objects,
        entries,
    })
}

/// What the steps of a plan's elision do, in order. It takes the steps that `elide` takes, and `O(d + g)` more for each, as `script_of` says.
fn entries_of<B: Body>(alloc: Global, plan: Plan<B>) -> Result<Entries, NoMemory>
    ensures { IfOk result (λ told. told ≡ entries B.Body plan (most_steps plan)) }
{
    let Plan {
        body,
        root_local,
        roots,
        fuel,
    } = plan;
    let mut state = start(alloc, root_local, roots, fuel)?;
    let mut entries = Entries::new(alloc);
    for _turn in 0..2 * fuel.units() + 2 {
        if state.is_over() {
            break;
        }
        state.record_step(alloc, &body, &mut entries)?;
    }
    Ok(entries)
}

/// Adds an entry, where there is one. `O(1)` amortised.
fn add(entries: &mut Entries, told: Option<Entry>) -> Result<(), NoMemory>
    ensures { OnOk result (entries.new ≡ with_entry entries.old told) }
{
    let Some(entry) = told else {
        return Ok(());
    };
    match entries.push(entry) {
        Ok(()) => Ok(()),
        Err(_) => Err(NoMemory),
    }
}

/// The same values once more. `O(values)`.
fn copied(alloc: Global, values: &[Value]) -> Result<Values, NoMemory>
    ensures { IfOk result (λ again. again ≡ values.now) }
{
    let mut again = Values::new(alloc);
    for value in values {
        if again.push(value.copy()?).is_err() {
            return Err(NoMemory);
        }
    }
    Ok(again)
}

/// With which items the queues begin. `O(items)`.
fn lists_of(alloc: Global, queues: &[RootQueue]) -> Result<ValueLists, NoMemory>
    ensures { IfOk result (λ lists. lists ≡ map (λ queue. queue.items) queues.now) }
{
    let mut lists = ValueLists::new(alloc);
    for queue in queues {
        if lists.push(copied(alloc, queue.items.as_slice())?).is_err() {
            return Err(NoMemory);
        }
    }
    Ok(lists)
}

impl<L: Drop> State<L> {
    /// Takes one serial step, and adds its entry, where it has one, to those before. It costs what `tell` costs, and `O(1)` amortised.
    fn record_step<B: Body<Local = L>>(
        &mut self,
        alloc: Global,
        body: &B,
        entries: &mut Entries,
    ) -> Result<(), NoMemory>
        requires steps { self.old.steps + 1 < 2 ^ 64 }
        requires stack { MayFail self.old.stack }
        ensures state { OnOk result (self.new ≡ step B.Body body.now self.old) }
        ensures entry { OnOk result (entries.new ≡ with_entry entries.old (next_entry B.Body body.now self.old)) }
    {
        let told = self.tell(alloc, body)?;
        add(entries, told)
    }

    /// Takes one serial step, and tells what it did; where no activation is left there is none. It
    /// costs what the step costs, a copy of the path, and of a spawn its gives, found and named once more.
    fn tell<B: Body<Local = L>>(
        &mut self,
        alloc: Global,
        body: &B,
    ) -> Result<Option<Entry>, NoMemory>
        requires steps { self.old.steps + 1 < 2 ^ 64 }
        requires stack { MayFail self.old.stack }
        ensures state { OnOk result (self.new ≡ step B.Body body.now self.old) }
        ensures entry { IfOk result (λ told. told ≡ next_entry B.Body body.now self.old) }
    {
        let Some(top) = self.stack.pop() else {
            return Ok(None);
        };
        let place = body.place(&top.local);
        let Ok(path) = top.path.copy() else {
            // large values here and below by calls, since what ends with its block is checked part by part
            drop(top);
            return Err(NoMemory);
        };
        if top.fuel == 0 {
            self.settle(top, place, Effect::Faulted(FaultKind::Fuel))?;
            return Ok(Some(Entry {
                path,
                deed: Deed::Quiet,
                ends: true,
            }));
        }
        let (mut top, ask) = top.advance(alloc, body)?;
        let Ok(deed) = asked(alloc, &self.store, &top, &ask) else {
            drop(ask);
            drop(top);
            return Err(NoMemory);
        };
        let Ok(effect) = self.perform(alloc, &mut top, ask) else {
            drop(deed);
            drop(top);
            return Err(NoMemory);
        };
        let told = entry(path, deed, &effect);
        let Ok(()) = self.settle(top, place, effect) else {
            drop(told);
            return Err(NoMemory);
        };
        Ok(Some(told))
    }
}
