// Names of runs: each call once, and that a name has no bytes.
ghost use Rattle.swan_model.specs.declared.body.Ask.TheVariants.{Finish};

use std::alloc::Global;
use std::mem::size_of;
use swan_model::{Answer, Ask, Body, NoMemory, Plan, PlanFuel, Roots, RunName};

/// A body whose tasks end at once.
#[derive(Drop)]
struct Idle;

impl Body for Idle {
    type Local = u64;

    ghost next = { λ body local answer fuel. (local, Finish) };

    ghost place_of = { λ body local. local };

    fn advance(
        &self,
        _alloc: Global,
        local: u64,
        _answer: Answer,
        _fuel: u64,
    ) -> Result<(u64, Ask<u64>), NoMemory> {
        Ok((local, Ask::Finish))
    }

    fn place(&self, local: &u64) -> u64 {
        *local
    }
}

fn idle_plan(alloc: Global) -> Plan<Idle> {
    Plan {
        body: Idle,
        root_local: 0,
        roots: Roots::new(alloc),
        fuel: PlanFuel::new(1),
    }
}

#[test]
fn the_name_of_a_plan_takes_no_bytes(rt: HostRuntime) {
    let plan = idle_plan(rt.alloc());
    drop(RunName::of(&plan));
    assert!(rt; size_of::<RunName>() == 0);
}

#[test]
fn the_free_name_is_made(_rt: HostRuntime) {
    drop(RunName::free());
}

#[test]
fn a_name_is_made_again(rt: HostRuntime) {
    let plan = idle_plan(rt.alloc());
    let name = RunName::of(&plan);
    let again = name.again();
    drop(name);
    drop(again.again());
}
