// A call on renamed objects, and its answer.
use swan_model::Mode;

/// A call on renamed objects, and the answer that it has to have.
#[derive(Clone, Copy)]
pub enum Step {
    /// `create` at this frame and place, with this number.
    Create(u64, u32, i64),
    /// `create` at this frame and place, with a record of these bytes.
    CreateRecord(u64, u32, [u8; 2]),
    /// `access` of this parent and place to this child and place, by this mode.
    Access(u64, u32, u64, u32, Mode),
    /// `ready` of this frame.
    Ready(u64, Result<(), u64>),
    /// `value` at this frame and place: this number, or the frame that owes it.
    Reads(u64, u32, Result<i64, u64>),
    /// `value` at this frame and place: a record of so many bytes.
    ReadsRecord(u64, u32, usize),
    /// `write` at this frame and place, of this number.
    Write(u64, u32, i64),
    /// `finish` of this frame.
    Finish(u64),
}
