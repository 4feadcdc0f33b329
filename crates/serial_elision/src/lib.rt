//! The serial elision: what a plan means, computed.
//!
//! A program is a tree of tasks. In its serial elision a spawn is an ordinary call: the child runs
//! to its end, and then its parent goes on. So there is one task at work at any time, the top of a
//! stack, and no task ever waits. What this leaves is what every other way to run the plan has to
//! leave too.
//!
//! Promised, and proved of each plan and each body:
//!
//! - `elide` answers the outcome of the definitions, or that memory ran out, and it returns.
//! - The elision of each plan ends, by the law `elision_ends`.
//! - A fault ends its task, is counted at the task's parent, and does nothing else; the faults are in serial
//!   order, and a step changes only what its task holds so, by the laws `a_fault_ends_its_task`,
//!   `faults_are_in_order` and `rights_bind`. The faults that are left are those of tasks' last steps, by the
//!   law `faults_are_those_of_last_steps`.
//! - A Sync is told how many of its task's children failed since the task's last Sync. Those are the children
//!   that have a fault among the faults that are left, by the law `caught_are_counted`.
//! - A task goes on by its own steps, whatever the tasks beside it do, and what it holds keeps its name, by the laws
//!   `tasks_go_on` and `names_stay`. What each step makes of its task, and which deed of the script it is, is said by
//!   the ask, by the laws `asks_are_answered`, `some_steps_end_their_task` and `a_spawn_makes_its_child`. Nothing is
//!   made that the plan's fuel doesn't pay for, by the law `a_plan_makes_what_its_fuel_pays`; so where hyperqueues follow
//!   the plan's script one queue more may be made, and each active frame may spawn one child more and do one deed of queues
//!   more, by the law `runs_have_room`.
//! - `script_of` answers the script of a plan, which says what each step does without the body. A script has
//!   one entry for each step, tells what stood in each queue and object, and the times of a task rise in it, by
//!   the laws `each_step_has_its_entry`, `a_script_tells_queues_and_objects` and `times_of_a_task_rise`.
//! - Scripts are nested: each task ends once, each child runs whole at the step that spawns it, points stand in
//!   serial order, and each deed is within what its task holds, by the laws `each_task_ends_once`,
//!   `scripts_are_nested`, `points_stand_in_serial_order` and `deeds_are_within_rights`. So they are lawful, by
//!   the law `scripts_are_lawful`.
//! - A spawn's gives are those of its ask, by the law `a_spawn_names_each_give`. Where an item is ripe for a
//!   frame, all that comes before it in its queue is pushed, and it stays ripe as others go on, by the laws
//!   `nothing_comes_before_a_ripe_item` and `a_ripe_item_stays`.
//! - `print` answers exactly the two texts that the definitions give an outcome.
//!
//! Not promised: that memory is found, and how long a body takes for a step.
//!
//! Inside, `State` is the serial state, and its parts are seen by contracts as the parts of the state of the
//! definitions. Its `turn` takes the top task off the stack and takes steps of it up to one by which it spawns,
//! ends, or makes a queue or an object. Steps of work are taken in a row by the body's own call, and `Store` answers
//! the asks about queues and objects at places (`Store::answer`); `spawn` has the one ask that makes a task.
#![tactic(auto)]

mod activation;
mod alias;
mod answer;
mod cell;
mod deeds;
mod effect;
mod elision;
mod holding;
mod laws;
mod output;
mod printed;
mod queue;
mod recorded;
mod reply;
mod report;
mod room_laws;
mod roots;
mod script_laws;
mod spawn;
mod state;
mod store;
mod task_laws;
mod text;

use activation::Activation;
pub use alias::is_aliased;
use cell::Cell;
use effect::Effect;
pub use elision::{elide, elision_ends};
use holding::Holding;
pub use laws::{a_fault_ends_its_task, faults_are_in_order, rights_bind};
pub use printed::{Printed, print};
use queue::Queue;
pub use recorded::script_of;
use reply::{OwnAsk, Reply};
pub use room_laws::runs_have_room;
pub use script_laws::{
    a_ripe_item_stays, a_script_tells_queues_and_objects, a_spawn_names_each_give,
    deeds_are_within_rights, each_step_has_its_entry, each_task_ends_once,
    nothing_comes_before_a_ripe_item, points_stand_in_serial_order, scripts_are_lawful,
    scripts_are_nested, times_of_a_task_rise,
};
use state::State;
use store::Store;
pub use task_laws::{
    a_plan_makes_what_its_fuel_pays, a_spawn_makes_its_child, asks_are_answered,
    caught_are_counted, faults_are_those_of_last_steps, names_stay, some_steps_end_their_task,
    tasks_go_on,
};
