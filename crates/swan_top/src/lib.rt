//! The top call: what the program does with its words.
//!
//! `swan` reads the words, reads and checks the job, reads the inputs, runs the job and writes the output and the
//! report, in this order; for a pipeline that is written in code, it reads the text and runs its plan; for a
//! generated run, it makes the job and the input in the place of reading them. Its clause `answered` is the
//! headline of the project: it says of every status what was read, what was decided of it, and what is then in the
//! sinks. The definitions that it cites stand in `specs/Headline.antt`, which is meant to be read from top to
//! bottom, with `specs/Command.antt` and `specs/Decision.antt` before it. Its clause `complete` says when a call
//! ends as its command says (`specs/Completeness.antt`). The law `honest_calls_end_well` says how calls end over files and
//! sinks that never fail, and `honest_call` is such a call, with the same as its clauses.
//!
//! `run` runs its plan by the runtime, with 1 to 256 workers, and `elide` by the elision; `index`, `convert` and `bulk` go by the
//! elision with one worker and by the runtime with several. Reading, refusals, texts and writes are one road for all
//! ways. A status that says that a run ended shows which one it went (`How`): that a core ran the plan to its end shows a
//! `Ran`, which only the outcome of a core gives.
//!
//! What an index and a conversion write is said by its clause `written_of_text` (`specs/Pipelines.antt`), of the text
//! alone. That a generated job is never refused is its clause `never_refused` (`specs/Generated.antt`).
//!
//! Not promised: that memory is found, that a call with several workers returns, and what real files and streams hold. Over
//! those only the causes of each status are known.
#![tactic(auto)]

mod accept;
mod command;
mod engine;
mod help;
mod honest;
mod how;
mod inputs;
mod limits;
mod read;
mod run;
mod run_end;
mod settle;
mod status;
mod top_call;
mod verdict;
mod way;
mod write;

pub use command::{Command, FUEL_WORD_MOST, NUMBER_WORD_MOST, Usage, read_words};
pub use honest::{honest_call, honest_calls_end_well};
pub use how::How;
pub use limits::limits_of_words;
pub use status::Status;
pub use top_call::swan;
