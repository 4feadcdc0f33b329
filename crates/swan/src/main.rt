//! The program: it gives the top call the words after its own name, the files of the system, standard
//! output and standard error, and ends with the code of the status.
#![tactic(auto)]

use std::env;
use std::io::{self, ErrorKind};
use std::process::ExitCode;
use swan_model::{Word, Words};
use swan_outside::{OpenGate, OsFiles, OsSink};
use swan_top::{Status, swan};

// Adds one word at the end.
fn push_word(rt: &HostRuntime, words: &mut Words, text: &str) -> io::Result<()> {
    let out_of_memory = || io::Error::from(ErrorKind::OutOfMemory);
    let word = Word::of(rt.alloc(), text).map_err(|_| out_of_memory())?;
    words.push(word).map_err(|_| out_of_memory())
}

// The words after the program's name.
fn words_of(rt: &HostRuntime) -> io::Result<Words> {
    let mut words = Words::new(rt.alloc());
    for word in env::args(rt)?.skip(1) {
        push_word(rt, &mut words, word.as_str())?;
    }
    Ok(words)
}

// The words; where one of them, or the program's own name, isn't UTF-8, one empty word, which is no command.
fn words_or_empty(rt: &HostRuntime) -> io::Result<Words> {
    match words_of(rt) {
        Err(error) if error.kind() == ErrorKind::InvalidData => {
            let mut words = Words::new(rt.alloc());
            push_word(rt, &mut words, "")?;
            Ok(words)
        }
        words => words,
    }
}

fn main(rt: HostRuntime) -> ExitCode {
    let status = match words_or_empty(&rt) {
        Ok(words) => swan(
            &rt,
            rt.alloc(),
            words.as_slice(),
            &mut OsFiles::new(rt),
            &mut OsSink::out(rt),
            &mut OsSink::err(rt),
            &OpenGate,
        ),
        Err(_) => Status::NoMemory,
    };
    ExitCode::from(status.code())
}
