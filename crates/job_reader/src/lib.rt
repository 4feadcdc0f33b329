//! The text of a job: its reader and its canonical writer.
//!
//! A job is a list of lines, each of which says one thing: a note, a declaration, or a statement of a
//! task. People write jobs by hand, so the reader refuses exactly what is wrong: it names the first
//! faulty line and what is wrong with it. The writer prints any job in one form, which reads back as
//! the same job.
//!
//! The first line says of which edition of the language a job is. The second edition has all lines
//! of the first, and one statement more.
//!
//! What a text means stands in `specs/`, which is meant to be read in the order of `specs/Lib.antt`, without
//! any code beside it. What lines, tokens and literals are is said by relations over their pieces. The job of
//! a text and its first fault are functions of the lines and tokens that are found byte by byte, and the laws
//! `lines_are_pieces`, `tokens_are_pieces` and `literals_are_pieces` say that what is found so is what the
//! relations say. Whether a job's names are known, of the right kinds and used as they may be isn't asked here.
//!
//! The reader goes over the text line by line, in time linear in it, and stops at the first fault. The one
//! answer that is free is want of memory.
#![tactic(auto)]

mod atom;
mod block;
mod fault;
mod form;
mod job;
mod laws;
mod line;
mod lines;
mod literal;
mod number;
mod op;
mod position;
mod read;
mod scan;
mod shape;
mod trim;
mod words;
mod write;
mod write_atom;

pub use atom::{Atom, Atoms};
pub use fault::{JobFault, JobKind, ReadJob};
pub use job::Job;
pub use laws::{
    limits_of_jobs, lines_are_pieces, literals_are_pieces, text_reads_back, tokens_are_pieces,
};
pub use line::{Edition, Line};
pub use number::read_number;
pub use op::Op;
pub use read::read_job;
pub use write::write_job;
