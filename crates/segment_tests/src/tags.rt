// Copies of tags, and which tags are the same.
use ring_segments::Tag;
use std::alloc::Global;
use std::process::Abort;
use swan_model::{NoMemory, Path};

/// What a tag names. A task is the root, or its child of this number.
#[derive(Clone, Copy)]
enum Row {
    /// The plan's queue of this index.
    Root(u32),
    /// The queue that a task makes by this step.
    Made(Option<u32>, u64),
    /// The segment that a task makes at a push, by this step.
    Step(Option<u32>, u64),
}

/// Rows that all name different segments.
const ROWS: [Row; 11] = [
    Row::Root(0),
    Row::Root(1),
    Row::Made(None, 0),
    Row::Made(None, 1),
    Row::Made(Some(0), 0),
    Row::Made(Some(0), 1),
    Row::Made(Some(1), 0),
    Row::Step(None, 0),
    Row::Step(None, 1),
    Row::Step(Some(0), 0),
    Row::Step(Some(1), 0),
];

/// The path of the root, or of its child of this number.
fn path_of(alloc: Global, child: Option<u32>) -> Result<Path, NoMemory> {
    let root = Path::root(alloc);
    match child {
        Some(number) => root.child(number),
        None => Ok(root),
    }
}

/// The tag that a row names.
fn tag_of(alloc: Global, row: Row) -> Result<Tag, NoMemory> {
    match row {
        Row::Root(index) => Ok(Tag::Root(index)),
        Row::Made(task, step) => Ok(Tag::Made {
            path: path_of(alloc, task)?,
            step,
        }),
        Row::Step(task, step) => Ok(Tag::Step {
            path: path_of(alloc, task)?,
            step,
        }),
    }
}

/// The tags of all rows.
fn tags(alloc: Global) -> Result<Vec<Tag>, NoMemory> {
    let mut tags = Vec::new(alloc);
    for row in ROWS {
        tags.push(tag_of(alloc, row)?)?;
    }
    Ok(tags)
}

/// Copies of tags, in their order.
fn copies(alloc: Global, tags: &[Tag]) -> Result<Vec<Tag>, NoMemory> {
    let mut copies = Vec::new(alloc);
    for tag in tags {
        copies.push(tag.copy()?)?;
    }
    Ok(copies)
}

/// Whether a tag is the same as the one at this place, and as no other.
fn is_at(tag: &Tag, place: usize, tags: &[Tag]) -> bool {
    for index in 0..tags.len() {
        let other = &tags[index];
        if tag.is_same(other) != (index == place) || other.is_same(tag) != (index == place) {
            return false;
        }
    }
    true
}

/// Whether each of the first tags is the same as the one at its place, and as no other.
fn are_at(first: &[Tag], tags: &[Tag]) -> bool {
    for place in 0..first.len() {
        if !is_at(&first[place], place, tags) {
            return false;
        }
    }
    true
}

/// What the tags and their copies are: the same as the one at their place, and as no other.
fn held(alloc: Global) -> Result<(bool, bool), NoMemory> {
    let tags = tags(alloc)?;
    let copies = copies(alloc, &tags)?;
    Ok((are_at(&tags, &tags), are_at(&copies, &tags)))
}

#[test]
fn a_tag_is_the_same_as_its_copy_and_as_no_other(rt: HostRuntime) {
    match held(rt.alloc()) {
        Ok((are_apart, are_copied)) => {
            assert!(rt; are_apart, "tags that are apart");
            assert!(rt; are_copied, "a copy");
        }
        Err(_) => panic!(rt; "no memory"),
    }
}
