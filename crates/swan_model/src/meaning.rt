// Values that only contracts read.
ghost use Rattle.std.specs.Prelude.{◌≡◌};
ghost use base.Fml.{ftrue};

use std::marker::{Model, PhantomData, Send, Sync};

/// A value that stands for an `N` in contracts.
pub trait Means<N> {
    /// What it means.
    ghost means: { Self → N };
}

/// A value of no bytes, which contracts see as an `N`. It can be made of anything that means one, so it says
/// something only where a contract ties it to what it was made of. It is copied by `again`.
pub struct Meaning<N> {
    marker: PhantomData<N>,
    /// What it means.
    pub ghost means: { N },
}

impl<N> Model for Meaning<N> {
    ghost also_owns = { λ _. ftrue };
}

impl<N> Meaning<N> {
    /// It means what the value means. `O(1)`.
    pub fn of<M: Means<N>>(value: &M) -> Meaning<N>
        ensures { result.means ≡ M.means value.now }
    {
        let _ = value;
        Meaning {
            marker: PhantomData,
        }
    }

    /// It means what this one means. `O(1)`.
    pub fn again(&self) -> Meaning<N>
        ensures { result.means ≡ self.now.means }
    {
        let _ = self;
        Meaning {
            marker: PhantomData,
        }
    }
}

impl<N> Drop for Meaning<N> {
    fn drop(self) {
        let Self { marker: _ } = self;
    }
}

// A Meaning has no bytes, so nothing is shared or moved between threads.
unsafe impl<N> Send for Meaning<N> {}

// For the same reason.
unsafe impl<N> Sync for Meaning<N> {}
