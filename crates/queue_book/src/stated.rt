// The state of hyperqueues, as a value without bytes.
use crate::QueueGive;
use std::marker::Model;
use swan_model::{Meaning, Means};

/// Stands for a state of hyperqueues. No value of it is ever made.
pub struct Stated {
    never: u8,
}

impl Model for Stated {
    ghost use Rattle.swan_model.specs.QueueState.{QueueState, new_state};

    ghost Value = { QueueState };

    ghost view = { λ _. new_state };
}

/// Stands for a task's path. No value of it is ever made.
pub struct Pathed {
    never: u8,
}

impl Model for Pathed {
    ghost use Rattle.std.specs.Prelude.{ℕ, List, []};

    ghost Value = { List ℕ };

    ghost view = { λ _. [] };
}

/// It means the state before the first call.
#[derive(Drop)]
pub struct AtStart;

impl Means<Stated> for AtStart {
    ghost use Rattle.swan_model.specs.QueueState.{new_state};

    ghost means = { λ _. new_state };
}

/// It means a state without frames and queues.
#[derive(Drop)]
pub struct Nothing;

impl Means<Stated> for Nothing {
    ghost use Rattle.queue_book.specs.Calls.{no_state};

    ghost means = { λ _. no_state };
}

/// It means the path of an active frame.
#[derive(Drop)]
pub struct PathOf<'a> {
    /// The state.
    pub state: &'a Meaning<Stated>,
    /// The frame.
    pub frame: u64,
}

impl Means<Pathed> for PathOf<'_> {
    ghost use Rattle.queue_book.specs.Calls.{path_in};

    ghost means = { λ of. path_in of.state.now.means of.frame };
}

/// A call of hyperqueues that changes their state, but a spawn.
#[derive(Clone, Copy)]
pub enum Call {
    /// A root queue was made.
    CreateRoot,
    /// This frame made a queue.
    Create(u64),
    /// This frame did a deed that makes nothing.
    Deed(u64),
    /// The ends of this frame were lent.
    Lend(u64),
    /// They came back.
    Back(u64),
    /// This frame has finished.
    Finish(u64),
    /// The rest of this queue was taken.
    TakeRest(u32),
}

/// It means the state after a call.
#[derive(Drop)]
pub struct After<'a> {
    /// The state before it.
    pub state: &'a Meaning<Stated>,
    /// The call.
    pub call: Call,
}

impl Means<Stated> for After<'_> {
    ghost use Rattle.queue_book.specs.Calls.{after_call};

    ghost means = { λ after. after_call after.state.now.means after.call };
}

/// It means the state after a spawn.
#[derive(Drop)]
pub struct AfterSpawn<'a> {
    /// The state before it.
    pub state: &'a Meaning<Stated>,
    /// The parent.
    pub parent: u64,
    /// The child.
    pub child: u64,
    /// What the child was given.
    pub gives: &'a [QueueGive],
}

impl Means<Stated> for AfterSpawn<'_> {
    ghost use Rattle.queues.specs.Tells.{after_spawn_by};

    ghost means = { λ after. after_spawn_by after.state.now.means after.parent after.child after.gives.now };
}
