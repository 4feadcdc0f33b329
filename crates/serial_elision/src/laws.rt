// Laws of the serial elision.
ghost use Rattle.std.specs.Prelude.{◌≡◌, ℕ, ◌+◌};
ghost use Rattle.swan_model.specs.declared.plan.Plan.{Plan};
ghost use Rattle.swan_model.specs.Elision.{serial};
ghost use Rattle.serial_elision.specs.Laws.{AreInOrder, EndsWhereItFaults, RightsBind, top_holdings};

use swan_model::Body;

/// The law that a fault ends its task, is counted at the task's parent, and does nothing else. A step books no
/// fault, or one, which has the path of the task whose step it was and the place where that stood. Then this
/// task is gone, and its parent, where it has one, has one more failed child. All else of the tasks below it
/// stays, and so do all objects and queues.
pub fn a_fault_ends_its_task<B: Body>()
    ensures { (plan : Plan B B.Local) (n : ℕ) →
        EndsWhereItFaults B.Body plan.body (serial B.Body plan n) (serial B.Body plan (n + 1)) }
{}

/// The law that the faults are in serial order, after any number of steps: the fault of a child comes
/// before that of its parent, and those of children of one parent, and of all tasks below them, come
/// in the order of the children's numbers. No task has two faults.
pub fn faults_are_in_order<B: Body>()
    ensures { (plan : Plan B B.Local) (n : ℕ) → AreInOrder (serial B.Body plan n).faults }
{}

/// The law that rights bind: each object and each queue that stood before a step stands after it, of
/// the same origin, and the object of the same kind. An object's value changes only where the task
/// whose step it was may write it. A queue gets one item more at its end only where this task may push
/// to it, loses its first item only where it may pop from it, and changes in no other way.
pub fn rights_bind<B: Body>()
    ensures { (plan : Plan B B.Local) (n : ℕ) → let before = serial B.Body plan n in
        RightsBind (top_holdings before.stack) before.store (serial B.Body plan (n + 1)).store }
{}
