// Texts past the limits of lines are refused by each pipeline alike.
use crate::texts::{Of, in_turn};
use index_pipeline::index_plan;
use line_blocks::TEXT_MOST;
use record_pipeline::record_plan;
use std::alloc::Global;
use std::process::Abort;
use swan_model::LinesAnswer;
use swan_reducers::{SumReducer, fold_plan};

/// How the plan of the index of a text is refused.
fn index_refusal(rt: &impl Abort, alloc: Global, text: &[u8]) -> Option<LinesAnswer> {
    assert!(rt; text.len() <= TEXT_MOST);
    index_plan(alloc, text).err()
}

/// How the plan of the conversion of a text is refused.
fn conversion_refusal(rt: &impl Abort, alloc: Global, text: &[u8]) -> Option<LinesAnswer> {
    assert!(rt; text.len() <= TEXT_MOST);
    record_plan(alloc, text).err()
}

/// How the plan of a text is refused.
fn refusal(rt: &impl Abort, alloc: Global, of: Of, text: &[u8]) -> Option<LinesAnswer> {
    match of {
        Of::Index => index_refusal(rt, alloc, text),
        Of::Conversion => conversion_refusal(rt, alloc, text),
        Of::Fold => fold_plan(alloc, SumReducer, text).err(),
    }
}

/// Asserts how the plan of a text is refused in each pipeline; None is that it isn't.
fn hold_refusal(rt: &impl Abort, alloc: Global, text: &[u8], why: Option<LinesAnswer>) {
    let bytes = text.len();
    for of in [Of::Index, Of::Conversion, Of::Fold] {
        assert!(rt;
            refusal(rt, alloc, of, text) == why,
            "{of:?}: {bytes} bytes"
        );
    }
}

/// The same of a text so many times, and then another so many times.
fn hold_refusal_of_two(
    rt: &impl Abort,
    alloc: Global,
    first: &[u8],
    first_count: usize,
    second: &[u8],
    second_count: usize,
    why: Option<LinesAnswer>,
) {
    let text = in_turn(rt, alloc, first, first_count, second, second_count);
    hold_refusal(rt, alloc, &text, why);
}

#[test]
fn a_text_past_the_limits_of_lines_is_refused(rt: HostRuntime) {
    let alloc = rt.alloc();
    let too_long = Some(LinesAnswer::TooLong { line: 3 });
    hold_refusal_of_two(&rt, alloc, b"a\n", 2, b"x", 1_048_576, None);
    hold_refusal_of_two(&rt, alloc, b"a\n", 2, b"x", 1_048_577, too_long);
    let too_many = Some(LinesAnswer::TooMany);
    hold_refusal_of_two(&rt, alloc, b"\n", 1_000_000, b"a", 0, None);
    hold_refusal_of_two(&rt, alloc, b"\n", 1_000_000, b"a", 1, too_many);
}
