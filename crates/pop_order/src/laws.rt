// The order of the frames is the serial order.
ghost use Rattle.std.specs.Prelude.{◌≡◌, ℕ, Some, IsTrue};
ghost use Rattle.swan_model.specs.declared.script.Script.{Script};
ghost use Rattle.swan_model.specs.Nested.{IsNested};
ghost use Rattle.swan_model.specs.SerialTime.{Progress, Reading, frame_of, is_earlier};
ghost use Rattle.pop_order.specs.Frames.{Frames};
ghost use Rattle.pop_order.specs.Order.{IsAtOrBelow, ComesBefore};
ghost use Rattle.pop_order.specs.Readings.{HasOrderOf};

/// The law that the order of a tree of frames is the serial order. Whatever the script, as long as each
/// child runs whole at its spawn, as in the scripts of plans, and whatever the reading that has these frames
/// and their parents, each child with its spawn done and each frame with an entry left: a frame that comes
/// before another is at an earlier point, and of two frames of one tree the one at the earlier point comes
/// before the other.
pub fn order_is_serial()
    ensures earlier { (frames : Frames) (s : Script) (r : Reading) → IsNested s → HasOrderOf frames s r
        → (number other : ℕ) (a b : Progress) → ComesBefore frames number other
        → frame_of r number ≡ Some a → frame_of r other ≡ Some b → IsTrue (is_earlier s a b) }
    ensures before { (frames : Frames) (s : Script) (r : Reading) → IsNested s → HasOrderOf frames s r
        → (top number other : ℕ) (a b : Progress) → IsAtOrBelow frames top number → IsAtOrBelow frames top other
        → frame_of r number ≡ Some a → frame_of r other ≡ Some b → IsTrue (is_earlier s a b)
        → ComesBefore frames number other }
{}
