// What holds of a lock between any two steps.
use crate::name_of::NameOf;
use crate::{Named, Sign};
use atomic_table::TableRule;

/// What a seat knows. It is there for contracts: no value of it is made.
pub struct View<N> {
    /// How many of the lock's seats it stands for.
    pub parts: u64,
    /// The name of the lock.
    pub name: Option<N>,
    /// Whether it holds the state.
    pub holding: bool,
    /// Whether the state that it holds has to be done when it goes back: it was done when it was taken, or `finish` was
    /// called on it.
    pub owes_done: bool,
    /// Whether it has seen the sign Done.
    pub saw_done: bool,
    /// Whether it has seen the sign Stopped.
    pub saw_stopped: bool,
    /// The sign, as its last step there left it.
    pub sign: Sign,
    /// How often it took the state.
    pub holds: u64,
    /// How often it found the state taken.
    pub lost: u64,
    /// How often it called `stop`.
    pub stops: u64,
}

/// What is fixed when a lock is opened: its name, and the number of its seats.
#[derive(Drop)]
pub struct Opening<S: Named> {
    /// The name.
    pub name: NameOf<S>,
    /// The number of seats.
    pub seats: u32,
}

/// The rule of a lock.
pub struct LockRule;

impl<S: Named> TableRule<Option<S>, View<S::Name>, Opening<S>> for LockRule {
    ghost use Rattle.named_lock.specs.Rule.{IsRuled, seated};

    ghost holds = { λ opening. IsRuled S.name S.done opening.name opening.seats };

    ghost first = { λ opening. seated opening.seats opening.name };
}
