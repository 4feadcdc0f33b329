// What stands in a deque.
use named_lock::{NameOf, Named};

/// A frame, or a name. A deque learns its name from its first parcel, which is a label and leaves it before any frame comes.
#[derive(Drop)]
pub enum Parcel<T: Named> {
    /// A name.
    Label(NameOf<T>),
    /// A frame.
    Item(T),
}
