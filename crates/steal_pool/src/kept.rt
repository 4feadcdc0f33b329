// The list of a seat's own.
ghost use Rattle.std.specs.Prelude.{◌≡◌, ◌∷◌, ◌++◌, [], IfErr, IfSome, IfNone, OnOk, All, map};
ghost use Rattle.std.specs.Coded.{Coded-set, Π_prop, →_prop};

use named_lock::{NameOf, Named};
use std::alloc::Global;
use std::collections::VecDeque;

/// A frame with the name that it has.
#[derive(Drop)]
pub(crate) struct NamedFrame<T: Named> {
    pub(crate) frame: T,
    pub(crate) name: NameOf<T>,
    ghost same: { T.name frame ≡ name } by { Coded-set T.Name.code (T.name frame) name },
}

impl<T: Named> NamedFrame<T> {
    /// The frame, with its name. `O(1)`.
    pub(crate) fn new(frame: T) -> NamedFrame<T>
        ensures { (result.frame ≡ frame) × (result.name ≡ T.name frame) }
    {
        let name = NameOf::of(&frame);
        NamedFrame { frame, name }
    }

    /// The frame. `O(1)`.
    pub(crate) fn into_frame(self) -> T
        ensures frame { result ≡ self.frame }
        ensures name { T.name result ≡ self.name }
    {
        self.frame
    }
}

/// Frames of one name, the next one first.
#[derive(Drop)]
pub(crate) struct KeptList<T: Named> {
    pub(crate) kept: VecDeque<NamedFrame<T>>,
    pub(crate) name: NameOf<T>,
    ghost named: { All (λ one. one.name ≡ name) kept.items } by { Π_prop (λ k. Π_prop (λ d. →_prop (Coded-set T.Name.code _ _))) },
}

impl<T: Named> KeptList<T> {
    ghost use Rattle.steal_pool.specs.Kept.{frames};

    /// An empty list of frames that have the name of `like`. `O(1)`.
    pub(crate) fn new(alloc: Global, like: &T) -> KeptList<T>
        ensures { (result.name ≡ T.name like.now) × (frames result ≡ []) }
    {
        KeptList {
            kept: VecDeque::new(alloc),
            name: NameOf::of(like),
        }
    }

    /// Puts a frame at the end, or hands it back where there is no memory for that. `O(1)` amortised.
    pub(crate) fn push(&mut self, frame: T) -> Result<(), T>
        requires { T.name frame ≡ self.old.name }
        ensures name { self.new.name ≡ self.old.name }
        ensures ok { OnOk result (frames self.new ≡ frames self.old ++ frame ∷ []) }
        ensures err { IfErr result (λ given. (given ≡ frame) × (frames self.new ≡ frames self.old)) }
    {
        match self.kept.push_back(NamedFrame::new(frame)) {
            Ok(()) => Ok(()),
            Err(failed) => Err(failed.value.into_frame()),
        }
    }

    /// Takes the first frame. `O(1)`.
    pub(crate) fn pop(&mut self) -> Option<T>
        ensures name { self.new.name ≡ self.old.name }
        ensures some { IfSome result (λ frame. (T.name frame ≡ self.old.name) × (frames self.old ≡ frame ∷ frames self.new)) }
        ensures none { IfNone result ((frames self.old ≡ []) × (frames self.new ≡ [])) }
    {
        match self.kept.pop_front() {
            Some(kept) => Some(kept.into_frame()),
            None => None,
        }
    }
}
