// Tags of segments.
ghost use Rattle.std.specs.Prelude.{◌≡◌, ◌≢◌, IfOk};
ghost use Rattle.std.specs.Bool.{MatchBool};
ghost use Rattle.ring_segments.specs.Tags.{tag_of};

use swan_model::{NoMemory, Path};

/// What made a segment. A queue's first one is made with the queue, by the plan or by a step of a task; any other one is made at
/// a push. A step is named by the task's path and by how many queue deeds the task did before.
#[derive(Drop)]
pub enum Tag {
    /// The first segment of the plan's queue of this index.
    Root(u32),
    /// The first segment of a queue that a task makes by this step.
    Made {
        /// The task.
        path: Path,
        /// How many queue deeds it has done before.
        step: u64,
    },
    /// A segment that is made at a push, which is this step of a task.
    Step {
        /// The task.
        path: Path,
        /// How many queue deeds it has done before.
        step: u64,
    },
}

impl Tag {
    /// The same tag once more. `O(depth)`, at most one allocation.
    pub fn copy(&self) -> Result<Tag, NoMemory>
        ensures { IfOk result (λ tag. tag ≡ self.now) }
    {
        Ok(match self {
            Tag::Root(index) => Tag::Root(*index),
            Tag::Made { path, step } => Tag::Made {
                path: path.copy()?,
                step: *step,
            },
            Tag::Step { path, step } => Tag::Step {
                path: path.copy()?,
                step: *step,
            },
        })
    }

    /// Whether it names what the other one names. It takes no memory. `O(depth)`.
    pub fn is_same(&self, other: &Tag) -> bool
        ensures { MatchBool result (self.now ≡ other.now) (tag_of self.now ≢ tag_of other.now) }
    {
        match (self, other) {
            (Tag::Root(index), Tag::Root(other)) => index == other,
            (
                Tag::Made { path, step },
                Tag::Made {
                    path: other_path,
                    step: other_step,
                },
            ) => step == other_step && path.parts() == other_path.parts(),
            (
                Tag::Step { path, step },
                Tag::Step {
                    path: other_path,
                    step: other_step,
                },
            ) => step == other_step && path.parts() == other_path.parts(),
            _ => false,
        }
    }
}
