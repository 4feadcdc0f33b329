// The plans of the pipelines, of texts that aren't refused.
use index_pipeline::{IndexBody, index_plan};
use line_blocks::TEXT_MOST;
use record_pipeline::{RecordBody, record_plan};
use std::alloc::Global;
use std::marker::{Send, Sync};
use std::process::Abort;
use swan_model::Plan;
use swan_reducers::{FoldBody, Reducer, fold_plan};

/// The plan of the index of a text.
pub fn plan_of_index(rt: &impl Abort, alloc: Global, text: &[u8]) -> Plan<IndexBody> {
    assert!(rt; text.len() <= TEXT_MOST);
    match index_plan(alloc, text) {
        Ok(plan) => plan,
        Err(_) => panic!(rt; "refused"),
    }
}

/// The plan of the conversion of a text.
pub fn plan_of_conversion(rt: &impl Abort, alloc: Global, text: &[u8]) -> Plan<RecordBody> {
    assert!(rt; text.len() <= TEXT_MOST);
    match record_plan(alloc, text) {
        Ok(plan) => plan,
        Err(_) => panic!(rt; "refused"),
    }
}

/// The plan of the fold of a text.
pub fn plan_of_fold<R: Reducer + Send + Sync>(
    rt: &impl Abort,
    alloc: Global,
    reducer: R,
    text: &[u8],
) -> Plan<FoldBody<R>> {
    match fold_plan(alloc, reducer, text) {
        Ok(plan) => plan,
        Err(_) => panic!(rt; "refused"),
    }
}
