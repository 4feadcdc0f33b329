// What each step of a lock tells its seat.
use crate::Named;
use crate::rule::View;
use atomic_table::{Join, Play, Split};

/// The word is taken where it was free.
pub(crate) struct Take;

impl<S: Named> Play<Option<S>, View<S::Name>> for Take {
    ghost use Rattle.named_lock.specs.Rule.{took};

    ghost then = { took S.name S.done };
}

/// The word is taken by the seat that stands for all seats, which finds it free.
pub(crate) struct Close;

impl<S: Named> Play<Option<S>, View<S::Name>> for Close {
    ghost use Rattle.named_lock.specs.Rule.{closed};

    ghost then = { closed S.name S.done };
}

/// The word is released.
pub(crate) struct Give;

impl<S: Named> Play<Option<S>, View<S::Name>> for Give {
    ghost use Rattle.named_lock.specs.Rule.{gave};

    ghost then = { gave };
}

/// The sign becomes Done where it was Runs.
pub(crate) struct Finish;

impl<S: Named> Play<Option<S>, View<S::Name>> for Finish {
    ghost use Rattle.named_lock.specs.Rule.{finished};

    ghost then = { finished };
}

/// The sign becomes Stopped where it was Runs.
pub(crate) struct Stop;

impl<S: Named> Play<Option<S>, View<S::Name>> for Stop {
    ghost use Rattle.named_lock.specs.Rule.{stopped};

    ghost then = { stopped };
}

/// The sign is read.
pub(crate) struct Look;

impl<S: Named> Play<Option<S>, View<S::Name>> for Look {
    ghost use Rattle.named_lock.specs.Rule.{looked};

    ghost then = { looked };
}

/// Seats are made one of another, and joined.
pub(crate) struct Parts;

impl<N> Split<View<N>> for Parts {
    ghost use Rattle.named_lock.specs.Rule.{rest_of, one_of};

    ghost left = { rest_of };

    ghost right = { one_of };
}

impl<N> Join<View<N>> for Parts {
    ghost use Rattle.named_lock.specs.Rule.{view_after_join, spent};

    ghost both = { view_after_join };

    ghost spent = { spent };
}
