// Names without bytes.
use crate::Named;
use std::marker::Model;
use std::snapshot::Snapshot;

/// The name of a value. It takes no bytes, and contracts see it as the name.
#[derive(Drop)]
pub struct NameOf<S: Named> {
    like: Snapshot<S>,
}

impl<S: Named> Model for NameOf<S> {
    ghost Value = { S.Name };

    ghost coded = { S.Name.code };

    ghost view = { λ n. S.name n.like.value };
}

impl<S: Named> NameOf<S> {
    ghost use Rattle.std.specs.Prelude.{◌≡◌};

    /// The name that a value has. It takes no memory. `O(1)`.
    pub fn of(state: &S) -> NameOf<S>
        ensures { result ≡ S.name state.now }
    {
        NameOf {
            like: Snapshot::of(state),
        }
    }
}
