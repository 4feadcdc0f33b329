// What may be given twice by one spawn.
use super::*;

/// How the first and the second of two places take one object, or one queue.
const TWICE: &str = "\
accepted in in object
Alias in out object
Alias in inout object
Alias out in object
Alias out out object
Alias out inout object
Alias inout in object
Alias inout out object
Alias inout inout object
Alias push push queue
Alias push pop queue
Alias push pushpop queue
Alias pop push queue
Alias pop pop queue
Alias pop pushpop queue
Alias pushpop push queue
Alias pushpop pop queue
Alias pushpop pushpop queue
accepted param param var";

/// A job in which one name is given twice: how the two places take it, and what it is.
fn text_of_twice(rt: &impl Abort, alloc: Global, places: &str) -> String {
    let (first, second, given) = three_parts_of(rt, places);
    let texts = [
        "swan 1\ntask two\n",
        first,
        " a int\n",
        second,
        " b int\ndo\nend\ntask main\n",
        given,
        " x int\ndo\nspawn 1 two x x\nend\n",
    ];
    joined(rt, alloc, &texts)
}

/// Asserts one of those rows.
fn hold_twice(rt: &impl Abort, alloc: Global, row: &str) {
    let (said, places) = parts_of(rt, row);
    let text = text_of_twice(rt, alloc, places);
    hold_at(rt, alloc, text.as_str(), "10", said, row);
}

/// Other arguments between them, and what only looks as if it were given twice.
const APART: &str = "\
11.Alias task three/pop a int/param b int/push c int/do/end/task main/queue x int/do/spawn 1 three x 1 x/end
12.Alias task three/in a int/out b int/in c int/do/end/task main/object x int/object y int/do/spawn 1 three x x y/end
12.Alias task three/in a int/out b int/in c int/do/end/task main/object x int/object y int/do/spawn 1 three y x x/end
accepted task three/in a int/out b int/in c int/do/end/task main/object x int/object y int/do/spawn 1 three x y x/end
12.Alias task three/in a int/in b int/inout c int/do/end/task main/object x int/object y int/do/spawn 1 three x x x/end
accepted task three/in a int/in b int/inout c int/do/end/task main/object x int/object y int/do/spawn 1 three x x y/end
accepted task two/param a bytes/in b int/do/end/task main/object x int/do/spawn 1 two \"x\" x/end
accepted task one/push a int/do/end/task main/queue x int/do/spawn 1 one x/spawn 1 one x/end";

#[test]
fn only_an_object_that_is_read_is_given_twice(rt: HostRuntime) {
    for row in TWICE.lines() {
        hold_twice(&rt, rt.alloc(), row);
    }
}

#[test]
fn one_given_twice_is_found_among_others(rt: HostRuntime) {
    hold_texts(&rt, rt.alloc(), APART);
}
