//! Files to read and sinks to write.
//!
//! Everything that a run takes from the world or gives to it goes through two traits: `Files`,
//! whose one call reads a whole file by its name, and `Sink`, whose one call takes some bytes of a
//! piece. There are four kinds of each: those that a caller writes, those in memory, which answer
//! exactly what they are told to, honest ones, of which no call fails, and those of the system.
//!
//! A third trait, `Gate`, is what a worker asks before it goes on with a task. It tells nothing, and
//! `OpenGate` is always open.
//!
//! Promised of every implementation of files and sinks:
//!
//! - A read adds the whole content to the buffer, of at most 67,108,864 bytes (`FILE_MOST`), or
//!   leaves the buffer as it was. Where contents are told, the bytes are the told ones; a file is too
//!   long only where the told content passes the limit, and such a file is never read.
//! - A put takes a front of its piece, at least one byte; one that fails took nothing, as far as bytes
//!   are told. `put_all` leaves all bytes in the sink, or a front of them.
//! - A fault of reading comes exactly where the count of faults of the files rose in that call, and a
//!   file that is too long exactly where their count of long reads did. A fault of writing comes
//!   only where the sink's count of faults rose. No count ever falls. A count stops at the last
//!   value of 64 bits, so "rose" means there that it stands at it.
//!
//! Not promised: that the system reads or writes at all. `OsFiles` and `OsSink` tell no content: that
//! a read gives what stands in the file, and that what a put took comes out, rests on the system.
#![tactic(auto)]

mod answer;
mod counts;
mod files;
mod gate;
mod honest_files;
mod honest_sink;
mod limits;
mod memory_files;
mod memory_sink;
mod os_files;
mod os_sink;
mod sink;
#[cfg(test)]
mod test_puts;
#[cfg(test)]
mod test_reads;

pub use answer::{Failed, ReadAnswer};
use files::FILE_MOST;
pub use files::{FileBlob, Files};
pub use gate::{Gate, OpenGate};
pub use honest_files::HonestFiles;
pub use honest_sink::HonestSink;
pub use limits::limits_of_files_and_sinks;
pub use memory_files::MemoryFiles;
pub use memory_sink::MemorySink;
pub use os_files::OsFiles;
pub use os_sink::OsSink;
pub use sink::{Sink, put_all};
