// The reading that a core keeps.
ghost use Rattle.std.specs.Prelude.{◌≡◌, ◌∷◌, ◌++◌, []};
ghost use Rattle.swan_model.specs.declared.origin.Origin.TheVariants.{Root, Step};
ghost use Rattle.swan_model.specs.Readings.{at_start, with_object, with_queue};
ghost use Rattle.swan_model.specs.Script.{script};
ghost use Rattle.swan_model.specs.SerialTime.{time};
ghost use Rattle.swan_model.specs.Readings.{gone_on_by};

use std::marker::Model;
use swan_model::{Body, Meaning, Means, Path, Plan};

/// Stands for a reading. No value of it is ever made.
pub struct Read {
    _never: u8,
}

impl Model for Read {
    ghost use Rattle.std.specs.Prelude.{[]};
    ghost use Rattle.swan_model.specs.SerialTime.{Reading};

    ghost Value = { Reading };

    ghost view = { λ _. record { frames = []; queues = []; objects = [] } };
}

/// Which task, queue and object of the script each number of a run is, and how far each frame has come. It has no bytes.
/// Contracts see it as the reading.
#[derive(Drop)]
pub struct KeptReading {
    meaning: Meaning<Read>,
}

impl Model for KeptReading {
    ghost use Rattle.swan_model.specs.SerialTime.{Reading};

    ghost Value = { Reading };

    ghost view = { λ reading. reading.meaning.means };
}

impl KeptReading {
    /// Before the first step, with no queue and no object. `O(1)`.
    pub fn new() -> KeptReading
        ensures { result ≡ at_start [] [] }
    {
        KeptReading {
            meaning: Meaning::of(&AtStart),
        }
    }

    /// One root queue more, of this index in the plan. `O(1)`.
    pub fn with_root_queue(&self, index: u32) -> KeptReading
        ensures { result ≡ with_queue self.now (Root index) }
    {
        KeptReading {
            meaning: Meaning::of(&WithRootQueue {
                reading: self,
                index,
            }),
        }
    }

    /// One root object more, of this index in the plan. `O(1)`.
    pub fn with_root_object(&self, index: u32) -> KeptReading
        ensures { result ≡ with_object self.now (Root index) }
    {
        KeptReading {
            meaning: Meaning::of(&WithRootObject {
                reading: self,
                index,
            }),
        }
    }

    /// The frame of this number has done so many more entries. `O(1)`.
    pub fn gone_on_by(&self, number: u64, many: u64) -> KeptReading
        ensures { result ≡ gone_on_by self.now number many }
    {
        KeptReading {
            meaning: Meaning::of(&GoneOn {
                reading: self,
                number,
                many,
            }),
        }
    }

    /// One frame more, with nothing done. `O(1)`.
    pub fn with_frame(&self, number: u64, path: &Path) -> KeptReading
        ensures { result ≡ record self.now { frames = self.now.frames ++ (record { number = number; path = path.now; done = 0 }) ∷ [] } }
    {
        KeptReading {
            meaning: Meaning::of(&WithFrame {
                reading: self,
                number,
                path,
            }),
        }
    }

    /// One queue more, made by the step of a task that has so many earlier ones. `O(1)`.
    pub fn with_queue<B: Body>(
        &self,
        plan: &Meaning<Plan<B>>,
        path: &Path,
        done: u64,
    ) -> KeptReading
        ensures { result ≡ with_queue self.now (Step (time (script B.Body plan.now.means) path.now done)) }
    {
        KeptReading {
            meaning: Meaning::of(&WithQueue {
                reading: self,
                plan,
                path,
                done,
            }),
        }
    }

    /// One object more, made by the step of a task that has so many earlier ones. `O(1)`.
    pub fn with_object<B: Body>(
        &self,
        plan: &Meaning<Plan<B>>,
        path: &Path,
        done: u64,
    ) -> KeptReading
        ensures { result ≡ with_object self.now (Step (time (script B.Body plan.now.means) path.now done)) }
    {
        KeptReading {
            meaning: Meaning::of(&WithObject {
                reading: self,
                plan,
                path,
                done,
            }),
        }
    }
}

/// It means a run before its first step.
#[derive(Drop)]
struct AtStart;

impl Means<Read> for AtStart {
    ghost use Rattle.std.specs.Prelude.{[]};
    ghost use Rattle.swan_model.specs.Readings.{at_start};

    ghost means = { λ _. at_start [] [] };
}

/// It means one root queue more.
#[derive(Drop)]
struct WithRootQueue<'a> {
    reading: &'a KeptReading,
    index: u32,
}

impl Means<Read> for WithRootQueue<'_> {
    ghost use Rattle.swan_model.specs.declared.origin.Origin.TheVariants.{Root};
    ghost use Rattle.swan_model.specs.Readings.{with_queue};

    ghost means = { λ more. with_queue more.reading.now (Root more.index) };
}

/// It means one root object more.
#[derive(Drop)]
struct WithRootObject<'a> {
    reading: &'a KeptReading,
    index: u32,
}

impl Means<Read> for WithRootObject<'_> {
    ghost use Rattle.swan_model.specs.declared.origin.Origin.TheVariants.{Root};
    ghost use Rattle.swan_model.specs.Readings.{with_object};

    ghost means = { λ more. with_object more.reading.now (Root more.index) };
}

/// It means that a frame has done so many more entries.
#[derive(Drop)]
struct GoneOn<'a> {
    reading: &'a KeptReading,
    number: u64,
    many: u64,
}

impl Means<Read> for GoneOn<'_> {
    ghost use Rattle.swan_model.specs.Readings.{gone_on_by};

    ghost means = { λ on. gone_on_by on.reading.now on.number on.many };
}

/// It means one frame more.
#[derive(Drop)]
struct WithFrame<'a> {
    reading: &'a KeptReading,
    number: u64,
    path: &'a Path,
}

impl Means<Read> for WithFrame<'_> {
    ghost use Rattle.std.specs.Prelude.{◌∷◌, ◌++◌, []};

    ghost means = { λ more. record more.reading.now { frames = more.reading.now.frames ++ (record { number = more.number; path = more.path.now; done = 0 }) ∷ [] } };
}

/// It means one queue more.
#[derive(Drop)]
struct WithQueue<'a, B: Body> {
    reading: &'a KeptReading,
    plan: &'a Meaning<Plan<B>>,
    path: &'a Path,
    done: u64,
}

impl<B: Body> Means<Read> for WithQueue<'_, B> {
    ghost use Rattle.swan_model.specs.declared.origin.Origin.TheVariants.{Step};
    ghost use Rattle.swan_model.specs.Readings.{with_queue};
    ghost use Rattle.swan_model.specs.Script.{script};
    ghost use Rattle.swan_model.specs.SerialTime.{time};

    ghost means = { λ more. with_queue more.reading.now (Step (time (script B.Body more.plan.now.means) more.path.now more.done)) };
}

/// It means one object more.
#[derive(Drop)]
struct WithObject<'a, B: Body> {
    reading: &'a KeptReading,
    plan: &'a Meaning<Plan<B>>,
    path: &'a Path,
    done: u64,
}

impl<B: Body> Means<Read> for WithObject<'_, B> {
    ghost use Rattle.swan_model.specs.declared.origin.Origin.TheVariants.{Step};
    ghost use Rattle.swan_model.specs.Readings.{with_object};
    ghost use Rattle.swan_model.specs.Script.{script};
    ghost use Rattle.swan_model.specs.SerialTime.{time};

    ghost means = { λ more. with_object more.reading.now (Step (time (script B.Body more.plan.now.means) more.path.now more.done)) };
}
