// Answers that no task has asked for are as none.
use crate::asks::asks;
use crate::plans::{plan_of_conversion, plan_of_fold, plan_of_index};
use crate::texts::Of;
use std::alloc::Global;
use std::process::Abort;
use swan_reducers::SumReducer;

/// What the root is told of a pipeline's plan of the text of no line, and then the child that it asks for last, and what the
/// two ask for. A star stands for each of some answers.
#[derive(Clone, Copy)]
struct Row {
    of: Of,
    told: &'static str,
    child_told: &'static str,
    asks: &'static str,
}

/// What the two tasks of a row ask for in the plan that the row is of, where the star stands for this word.
fn asked(rt: &impl Abort, alloc: Global, row: &Row, other: &str) -> String {
    match row.of {
        Of::Index => {
            let plan = plan_of_index(rt, alloc, b"");
            asks(rt, alloc, plan, row.told, row.child_told, other)
        }
        Of::Conversion => {
            let plan = plan_of_conversion(rt, alloc, b"");
            asks(rt, alloc, plan, row.told, row.child_told, other)
        }
        Of::Fold => {
            let plan = plan_of_fold(rt, alloc, SumReducer, b"");
            asks(rt, alloc, plan, row.told, row.child_told, other)
        }
    }
}

/// Asserts what is asked for where the star stands for a word.
fn hold_asked(rt: &impl Abort, asked: &str, asks: &str) {
    assert!(rt; asked == asks, "{asked} is asked, not {asks}");
}

/// Asserts what is asked for in a row where the star stands for this word.
fn hold_row(rt: &impl Abort, alloc: Global, row: &Row, other: &str) {
    let asked = asked(rt, alloc, row, other);
    hold_asked(rt, asked.as_str(), row.asks);
}

/// All rows hold, whichever of these words the star stands for.
fn hold(rt: &impl Abort, alloc: Global, rows: &[Row], others: &[&str]) {
    for row in rows {
        for other in others {
            hold_row(rt, alloc, row, *other);
        }
    }
}

/// A row.
fn row_of(of: Of, told: &'static str, child_told: &'static str, asks: &'static str) -> Row {
    Row {
        of,
        told,
        child_told,
        asks,
    }
}

#[test]
fn an_answer_that_isnt_whether_a_queue_is_empty_ends_a_reader(rt: HostRuntime) {
    let rows = [
        row_of(
            Of::Index,
            "start place *",
            "start *",
            "new empty spawn empty finish ",
        ),
        row_of(Of::Conversion, "start *", "", "empty finish "),
        row_of(
            Of::Conversion,
            "start false item *",
            "start start",
            "empty pop empty spawn spawn finish ",
        ),
        row_of(
            Of::Fold,
            "start place *",
            "start * *",
            "new empty spawn empty push finish ",
        ),
    ];
    hold(
        &rt,
        rt.alloc(),
        &rows,
        &["nothing", "start", "item", "place", "true", "caught"],
    );
}

#[test]
fn an_answer_that_is_no_item_ends_a_reader(rt: HostRuntime) {
    let rows = [
        row_of(
            Of::Index,
            "start place false *",
            "start false *",
            "new empty pop spawn empty pop finish ",
        ),
        row_of(Of::Conversion, "start false *", "", "empty pop finish "),
        row_of(
            Of::Fold,
            "start place false *",
            "start false * *",
            "new empty pop spawn empty pop push finish ",
        ),
    ];
    hold(
        &rt,
        rt.alloc(),
        &rows,
        &["nothing", "start", "place", "true", "false", "caught"],
    );
}

#[test]
fn where_no_answer_is_asked_for_each_will_do(rt: HostRuntime) {
    let rows = [
        row_of(Of::Index, "* *", "", "new empty "),
        row_of(Of::Conversion, "*", "", "empty "),
        row_of(
            Of::Conversion,
            "start false item true",
            "* *",
            "empty pop empty spawn spawn finish ",
        ),
        row_of(Of::Fold, "* *", "", "new empty "),
        row_of(
            Of::Index,
            "start place false item true",
            "* * *",
            "new empty pop empty spawn finish finish finish ",
        ),
        row_of(
            Of::Fold,
            "start place false item true",
            "* *",
            "new empty pop empty spawn push fail ",
        ),
    ];
    hold(
        &rt,
        rt.alloc(),
        &rows,
        &[
            "nothing", "start", "item", "place", "true", "false", "caught",
        ],
    );
}
