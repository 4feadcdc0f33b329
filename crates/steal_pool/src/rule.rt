// What holds of a deque between any two steps, and what each step tells.
use crate::parcel::Parcel;
use crossbeam_deque::protocol::{Lesson, Outcome, Protocol, Split};
use named_lock::Named;
use std::marker::PhantomData;

/// How far a deque is with its name. It is there for contracts: no value of it is made.
pub enum DequeStage {
    /// The label isn't put yet.
    Unnamed,
    /// The label is there.
    Labelled,
    /// The label has left, for good.
    Open,
}

/// What a seat knows of a deque. It is there for contracts: no value of it is made.
pub struct PoolView<N> {
    /// How far the deque is with its name.
    pub stage: DequeStage,
    /// The name of the pool, once the label is put.
    pub name: Option<N>,
    /// How many frames left the deque by the steps of this pass.
    pub taken: u64,
}

/// The rule of a deque: what is in it has the pool's name.
pub struct PoolRule;

impl<T: Named> Protocol<Parcel<T>, PoolView<T::Name>> for PoolRule {
    ghost use Rattle.std.specs.Prelude.{None};
    ghost use Rattle.steal_pool.specs.declared.rule.DequeStage.TheVariants.{Unnamed};
    ghost use Rattle.steal_pool.specs.Rule.{Pooled, at_stage};

    ghost holds = { Pooled T.name };

    ghost first = { at_stage Unnamed None 0 };

    ghost guest = { at_stage Unnamed None 0 };
}

/// The label is put.
pub(crate) struct Labels;

impl<T: Named> Outcome<Parcel<T>, PoolView<T::Name>> for Labels {
    ghost use Rattle.steal_pool.specs.Rule.{IsLabelled};

    ghost then = { IsLabelled };
}

/// The label leaves.
pub(crate) struct Opens;

impl<T: Named> Outcome<Parcel<T>, PoolView<T::Name>> for Opens {
    ghost use Rattle.steal_pool.specs.Rule.{IsPoolOpened};

    ghost then = { IsPoolOpened };

    ghost empty = { λ _. ⊥ };
}

/// A frame is put.
pub(crate) struct Puts;

impl<T: Named> Outcome<Parcel<T>, PoolView<T::Name>> for Puts {
    ghost use Rattle.steal_pool.specs.Rule.{IsUnchanged};

    ghost then = { IsUnchanged };
}

/// A frame leaves, and of an empty deque is learnt what `M` says.
pub(crate) struct Takes<M> {
    outcome: PhantomData<M>,
}

impl<T: Named, M: Outcome<T, PoolView<T::Name>>> Outcome<Parcel<T>, PoolView<T::Name>>
    for Takes<M> {
    ghost use Rattle.steal_pool.specs.Rule.{IsTaken};

    ghost then = { IsTaken T.name };

    ghost empty = { M.empty };
}

/// A look at a deque: an empty one tells what `M` says of that, and any other one has a frame.
pub(crate) struct Looks<M> {
    outcome: PhantomData<M>,
}

impl<T: Named, M: Outcome<T, PoolView<T::Name>>> Lesson<Parcel<T>, PoolView<T::Name>> for Looks<M> {
    ghost use Rattle.steal_pool.specs.Rule.{IsSeen};

    ghost fact = { IsSeen T.name M.empty };
}

/// Another seat gets a pass.
pub(crate) struct Twins;

impl<N> Split<PoolView<N>> for Twins {
    ghost use Rattle.steal_pool.specs.Rule.{new_pass};

    ghost left = { λ v. v };

    ghost right = { new_pass };
}
