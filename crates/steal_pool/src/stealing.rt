// Steals from one deque.
ghost use Rattle.std.specs.Prelude.{◌≡◌, ◌++◌, ◌∷◌, [], Some, IfSome, IfNone};
ghost use Rattle.crossbeam_deque.specs.Handles.{view, IsPassOf, stealer_deque};
ghost use Rattle.steal_pool.specs.Rule.{one_more};
ghost use Rattle.steal_pool.specs.declared.rule.DequeStage.TheVariants.{Open};

use crate::deque::{Other, Thief};
use crate::parcel::Parcel;
use crate::rule::Takes;
use crossbeam_deque::Steal;
use crossbeam_deque::protocol::Free;
use named_lock::Named;
use std::marker::Model;
use swan_model::{Meaning, Means};

/// Stands for a list of deques. No value of it is ever made.
pub struct Deques {
    never: u8,
}

impl Model for Deques {
    ghost use Rattle.std.specs.Prelude.{List, []};
    ghost use Rattle.steal_pool.specs.Deques.{Deque};

    ghost Value = { List Deque };

    ghost view = { λ _. [] };
}

/// Shows at which deques a steal was tried that gave no frame, in order. It has no bytes. Only `steal_frame` adds one.
#[derive(Drop)]
pub(crate) struct Tried {
    deques: Meaning<Deques>,
}

impl Model for Tried {
    ghost use Rattle.std.specs.Prelude.{List};
    ghost use Rattle.steal_pool.specs.Deques.{Deque};

    ghost Value = { List Deque };

    ghost view = { λ tried. tried.deques.means };
}

impl Tried {
    /// At none yet. `O(1)`.
    pub(crate) fn none() -> Tried
        ensures { result ≡ [] }
    {
        Tried {
            deques: Meaning::of(&AtNone),
        }
    }
}

/// It means no deque.
#[derive(Drop)]
struct AtNone;

impl Means<Deques> for AtNone {
    ghost use Rattle.std.specs.Prelude.{[]};

    ghost means = { λ _. [] };
}

/// It means one deque more.
#[derive(Drop)]
struct AtOneMore<'a, T: Named> {
    tried: &'a Tried,
    other: &'a Other<T>,
}

impl<T: Named> Means<Deques> for AtOneMore<'_, T> {
    ghost use Rattle.std.specs.Prelude.{◌++◌, ◌∷◌, []};
    ghost use Rattle.crossbeam_deque.specs.Handles.{stealer_deque};

    ghost means = { λ more. more.tried.now ++ stealer_deque more.other.now ∷ [] };
}

/// Tries once to steal a frame, which has the name. Where it gives none, the deque is noted. `O(1)`.
pub(crate) fn steal_frame<T: Named>(
    other: &Other<T>,
    pass: &mut Thief<T>,
    tried: &mut Tried,
) -> Option<T>
    requires { IsPassOf (stealer_deque other.now) pass.old × ((view pass.old).stage ≡ Open) }
    ensures same { IsPassOf (stealer_deque other.now) pass.new }
    ensures some { IfSome result (λ frame. (view pass.old).name ≡ Some (T.name frame)) }
    ensures taken { IfSome result (λ frame. view pass.new ≡ one_more (view pass.old)) }
    ensures none { IfNone result (view pass.new ≡ view pass.old) }
    ensures noted { IfNone result (tried.new ≡ tried.old ++ stealer_deque other.now ∷ []) }
{
    match other.steal_as::<Takes<Free>>(pass) {
        Steal::Success(Parcel::Item(frame)) => Some(frame),
        Steal::Success(Parcel::Label(_)) => unreachable!(),
        Steal::Empty | Steal::Retry => {
            tried.deques = Meaning::of(&AtOneMore { tried, other });
            None
        }
    }
}
