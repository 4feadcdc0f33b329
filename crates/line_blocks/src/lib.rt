//! What tasks want that read the lines of a text.
//!
//! A pipeline over a text begins with its lines in one queue and an empty output (`text_lines`, `line_roots`,
//! `text_names`). Its root reads the lines one by one: `QueueReader` is the loop of a task that asks whether an item is
//! left and pops it. Lines are held until they are a block (`HeldLines`); `read_lines` is that loop over lines, which
//! hands them out in blocks. A block is given to a task that takes its lines off again, each with its number
//! (`LineBlock`).
//!
//! Promised, and proved of each call: exactly what its clauses say, by the definitions in `specs/`, which are meant
//! to be read in the order of `specs/Lib.antt`. The one answer that is free everywhere is want of memory.
#![tactic(auto)]

mod gives;
mod held_lines;
mod limits;
mod line_block;
mod line_reader;
mod queue_reader;
mod text_roots;

pub use gives::gives_of;
pub use held_lines::{AfterLine, HeldLines};
pub use limits::{limits_of_blocks_and_texts, places_of_a_root};
pub use line_block::{BLOCK_LINES, LineBlock, bytes_of};
pub use line_reader::{LineReader, LineStep, read_lines};
pub use queue_reader::{QueueReader, ReaderStep};
pub use text_roots::{INPUT, OUTPUT, TEXT_MOST, line_roots, text_lines, text_names};
