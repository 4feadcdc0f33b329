// Names that are declared twice, what main may not take, tasks, and jobs without a main.
use super::*;

/// Every declaration of the top level.
const OF_TOP: &str = "\
input a
output a int
object a bytes";

/// Every declaration of main.
const OF_MAIN: &str = "\
var a int
queue a bytes
object a int";

/// Every declaration that main can't have.
const TAKEN: &str = "\
param a int
in a bytes
out a int
inout a bytes
push a int
pop a bytes
pushpop a int";

/// What follows a task, so that there is a main.
fn end_of(task: &str) -> &str {
    if task == "main" {
        ""
    } else {
        "task main\ndo\nend\n"
    }
}

/// A job with a declaration at the top level and one in a task.
fn text_of_both(rt: &impl Abort, alloc: Global, top: &str, task: &str, own: &str) -> String {
    let end = end_of(task);
    let texts = [
        "swan 1\n",
        top,
        "\ntask ",
        task,
        "\n",
        own,
        "\ndo\nend\n",
        end,
    ];
    joined(rt, alloc, &texts)
}

/// Asserts what is said of a declaration in a task, after one of the top level.
fn hold_both(rt: &impl Abort, alloc: Global, top: &str, task: &str, own: &str, wanted: &str) {
    let text = text_of_both(rt, alloc, top, task, own);
    hold(rt, alloc, text.as_str(), wanted, text.as_str());
}

/// Asserts what is said of each declaration of a table in a task, after one of the top level.
fn hold_below(rt: &impl Abort, alloc: Global, top: &str, task: &str, table: &str, wanted: &str) {
    for own in table.lines() {
        hold_both(rt, alloc, top, task, own, wanted);
    }
}

/// Asserts what is said of each declaration of a table in a task, after each of the top level.
fn hold_below_top(rt: &impl Abort, alloc: Global, task: &str, table: &str, wanted: &str) {
    for top in OF_TOP.lines() {
        hold_below(rt, alloc, top, task, table, wanted);
    }
}

/// A job with two declarations at the top level.
fn text_of_top(rt: &impl Abort, alloc: Global, first: &str, second: &str) -> String {
    let texts = ["swan 1\n", first, "\n", second, "\ntask main\ndo\nend\n"];
    joined(rt, alloc, &texts)
}

/// Asserts that a second declaration of a name of the top level is a Duplicate there.
fn hold_duplicate_at_top(rt: &impl Abort, alloc: Global, first: &str, second: &str) {
    let text = text_of_top(rt, alloc, first, second);
    hold(rt, alloc, text.as_str(), "3 Duplicate", text.as_str());
}

/// Asserts the same of each declaration of the top level after a first one.
fn hold_duplicates_at_top(rt: &impl Abort, alloc: Global, first: &str) {
    for second in OF_TOP.lines() {
        hold_duplicate_at_top(rt, alloc, first, second);
    }
}

#[test]
fn a_name_of_the_top_level_is_declared_once_there(rt: HostRuntime) {
    for first in OF_TOP.lines() {
        hold_duplicates_at_top(&rt, rt.alloc(), first);
    }
}

#[test]
fn main_declares_no_name_of_the_top_level(rt: HostRuntime) {
    hold_below_top(&rt, rt.alloc(), "main", OF_MAIN, "4 Duplicate");
    hold_below_top(&rt, rt.alloc(), "main", TAKEN, "4 Duplicate");
}

#[test]
fn other_tasks_may_declare_names_of_the_top_level(rt: HostRuntime) {
    hold_below_top(&rt, rt.alloc(), "t", OF_MAIN, "accepted");
    hold_below_top(&rt, rt.alloc(), "t", TAKEN, "accepted");
}

/// A task with two declarations.
fn text_of_two(rt: &impl Abort, alloc: Global, task: &str, first: &str, second: &str) -> String {
    let texts = [
        "swan 1\ntask ",
        task,
        "\n",
        first,
        "\n",
        second,
        "\ndo\nend\n",
    ];
    joined(rt, alloc, &texts)
}

/// Asserts what is said of two declarations in a task.
fn hold_two(rt: &impl Abort, alloc: Global, task: &str, first: &str, second: &str, wanted: &str) {
    let text = text_of_two(rt, alloc, task, first, second);
    hold(rt, alloc, text.as_str(), wanted, text.as_str());
}

/// Asserts that each declaration of a table is a Duplicate in a task after a first one of the same name.
fn hold_duplicates_of(rt: &impl Abort, alloc: Global, task: &str, first: &str, table: &str) {
    for second in table.lines() {
        hold_two(rt, alloc, task, first, second, "4 Duplicate");
    }
}

/// Asserts the same of all declarations after a first one.
fn hold_duplicates(rt: &impl Abort, alloc: Global, task: &str, first: &str) {
    hold_duplicates_of(rt, alloc, task, first, OF_MAIN);
    hold_duplicates_of(rt, alloc, task, first, TAKEN);
}

/// Asserts the same of all declarations after each one of a table.
fn hold_duplicates_after_each(rt: &impl Abort, alloc: Global, task: &str, table: &str) {
    for first in table.lines() {
        hold_duplicates(rt, alloc, task, first);
    }
}

#[test]
fn a_name_is_declared_once_in_a_task(rt: HostRuntime) {
    hold_duplicates_after_each(&rt, rt.alloc(), "t", OF_MAIN);
    hold_duplicates_after_each(&rt, rt.alloc(), "t", TAKEN);
}

#[test]
fn a_name_is_declared_once_in_main(rt: HostRuntime) {
    hold_duplicates_after_each(&rt, rt.alloc(), "main", OF_MAIN);
}

/// Asserts that main takes this neither first nor second.
fn hold_taken(rt: &impl Abort, alloc: Global, taken: &str) {
    hold_two(rt, alloc, "main", taken, "var b int", "3 MainParams");
    hold_two(rt, alloc, "main", "var b int", taken, "4 MainParams");
}

#[test]
fn main_takes_nothing(rt: HostRuntime) {
    for taken in TAKEN.lines() {
        hold_taken(&rt, rt.alloc(), taken);
    }
}

/// Tasks, after the line `swan 1`.
const TASKS: &str = "\
5.Duplicate task main/do/end/task main/do/end
5.Duplicate task t/do/end/task t/param a int/do/end/task main/do/end
8.Duplicate task t/do/end/task main/do/end/task t/do/end
accepted object t int/task t/do/end/task main/do/end
accepted task t/var t int/do/t = set 1/end/task main/do/end
accepted task t/var a int/do/end/task u/param a int/in b int/do/end/task main/queue a int/do/end
accepted task main/do/end/task t/param a int/pop b int/do/end
4.Duplicate task t/var a int/in a int/do/end
5.Duplicate task t/var a int/# a note/in a int/do/end
8.Duplicate task t/var a int/do/end/task u/var a int/var a int/do/end";

/// Jobs without a task main, after the line `swan 1`. The last line is named, a note too.
const WITHOUT_MAIN: &str = "\
1.NoMain 
2.NoMain # main
3.NoMain //
2.NoMain object main int
2.NoMain output a int
4.NoMain task t/do/end
5.NoMain task t/var main int/do/end
7.NoMain task mai/do/end/task main_/do/end
6.NoMain task t/do/end//# the last/
accepted task main/do/end";

/// Names from their declaration on, after the line `swan 1`.
const BEFORE: &str = "\
4.Unknown task t/do/spawn 1 u/end/task u/do/end/task main/do/end
4.Unknown task main/do/spawn 1 t/end/task t/do/end
accepted task t/do/end/task main/do/spawn 1 t/end
accepted task t/do/spawn 1 t/end/task main/do/end
accepted task t/param n int/push q int/do/spawn n t 1 q/end/task main/do/end
4.Unknown task t/do/push a 1/end/task main/queue a int/do/end
8.Unknown task t/queue a int/do/end/task main/do/push a 1/end
8.Unknown task main/queue a int/do/end/task t/do/push a 1/end
5.Unknown object a int/task t/do/write a 1/end/task main/do/end
5.Unknown output a int/task t/do/push a 1/end/task main/do/end
6.Unknown input a/task t/var v bytes/do/pop v a/end/task main/do/end
8.Unknown object a int/task main/do/end/task t/do/write a 1/end
4.Unknown task t/do/spawn 1 main/end/task main/do/end
4.MainParams task main/do/spawn 1 main/end
4.MainParams task main/do/spawn 1 main 1/end
7.MainParams task main/do/end/task t/do/spawn 1 main/end
5.Unknown task t/var a int/do/b = set a/end/task u/var b int/do/end";

#[test]
fn a_task_is_declared_once_and_has_names_of_its_own(rt: HostRuntime) {
    hold_texts(&rt, rt.alloc(), TASKS);
}

#[test]
fn the_last_line_is_named_where_there_is_no_main(rt: HostRuntime) {
    hold_texts(&rt, rt.alloc(), WITHOUT_MAIN);
}

#[test]
fn names_are_known_from_their_line_on_and_in_their_task(rt: HostRuntime) {
    hold_texts(&rt, rt.alloc(), BEFORE);
}
