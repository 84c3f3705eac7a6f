//! The program: its words and the standard streams go to the top call, whose status is the exit status.
//! It stands on `pop_tool` and `pop_io`.
//! Nothing stands above it: it is the trusted edge, and adds no clause to those of `run_plain`, which returns, and of
//! `run_tool`.
#![tactic(auto)]

use pop_io::{OpenGate, StdSink, StdSource};
use pop_tool::{Status, WORD_LIMIT, is_plain, run_plain, run_tool};
use std::alloc::AllocError;
use std::process::ExitCode;
use std::rt::Env;
use std::sync::Wait;
use std::thread::Threads;
use std::{env, io};

/// Why the words of the command line were not taken.
#[derive(Clone, Copy)]
enum WordsFault {
    /// A word is not UTF-8, or there are more than `WORD_LIMIT` words.
    Faulty,
    NoMemory,
}

/// The words after the program's name.
fn words_of(rt: &(impl Env + AllocGlobal)) -> io::Result<Vec<String>> {
    let mut words = Vec::new(rt.alloc());
    for (i, word) in env::args(rt)?.enumerate() {
        if 0 < i && words.push(word).is_err() {
            return Err(io::Error::from(io::ErrorKind::OutOfMemory));
        }
    }
    Ok(words)
}

fn words_in(rt: &(impl Env + AllocGlobal)) -> Result<Vec<String>, WordsFault> {
    match words_of(rt) {
        Ok(words) => Ok(words),
        Err(fault) => {
            if fault.kind() == io::ErrorKind::OutOfMemory {
                Err(WordsFault::NoMemory)
            } else {
                Err(WordsFault::Faulty)
            }
        }
    }
}

fn refs<'w>(rt: &impl AllocGlobal, words: &'w [String]) -> Result<Vec<&'w str>, AllocError> {
    let mut list = Vec::new(rt.alloc());
    for word in words {
        list.push(word.as_str())?;
    }
    Ok(list)
}

/// The status of the top call over the standard streams: of the one that returns, if the words need no threads. A
/// faulty command line is not handed on.
fn status_of<R>(rt: &R) -> Status
where
    R: Env + Input + Print + AllocGlobal + Threads + Wait + Sync,
{
    let words = match words_in(rt) {
        Ok(words) => words,
        Err(WordsFault::Faulty) => return Status::Usage,
        Err(WordsFault::NoMemory) => return Status::NoMemory,
    };
    let Ok(words) = refs(rt, &words) else {
        return Status::NoMemory;
    };
    if words.len() > WORD_LIMIT {
        return Status::Usage;
    }
    let mut source = StdSource::new(rt);
    let mut sink = StdSink::new(rt);
    if is_plain(&words) {
        return run_plain(rt.alloc(), &words, &mut source, &mut sink, &OpenGate);
    }
    run_tool(rt, rt.alloc(), &words, &mut source, &mut sink, &OpenGate)
}

fn main(rt: HostRuntime) -> ExitCode {
    ExitCode::from(status_of(&rt).code())
}
