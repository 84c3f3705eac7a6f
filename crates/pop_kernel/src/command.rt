//! A line of standard input: a word, and numbers.

use std::alloc::{AllocError, Global};

/// What a line asks for.
#[derive(Clone, Copy, PartialEq, Eq)]
pub enum Word {
    /// `table STATES SCALE`: a new table, in which nothing changes yet.
    Table,
    /// `true STATE`: the state's output is true.
    True,
    /// `meet FIRST SECOND WEIGHT MADE_FIRST MADE_SECOND`: what two states become.
    Meet,
    /// `coin FIRST SECOND WEIGHT WHOLE`, and `MADE_FIRST MADE_SECOND SHARE` for each outcome that changes something.
    Coin,
    /// `count STATE AGENTS`: so many agents begin in the state.
    Count,
    /// `way WAY`: runs go agent by agent if that is 1, by counts if it is 2, and else by the choice.
    Way,
    /// `run SEED` begins a run.
    Run,
    /// `curve SEED` begins a run with the rows of its curve.
    Curve,
    /// `go MEETINGS CHANGES NONE ALL WORK`: goes on to so many meetings or changes, to where none or all output true if
    /// that is 1, or by so many words and draws.
    Go,
    /// `tell` writes what stands to be written.
    Tell,
}

/// The word that a line begins with.
fn word_of(text: &str) -> Option<Word> {
    match text {
        "table" => Some(Word::Table),
        "true" => Some(Word::True),
        "meet" => Some(Word::Meet),
        "coin" => Some(Word::Coin),
        "count" => Some(Word::Count),
        "way" => Some(Word::Way),
        "run" => Some(Word::Run),
        "curve" => Some(Word::Curve),
        "go" => Some(Word::Go),
        "tell" => Some(Word::Tell),
        _ => None,
    }
}

/// A line's word and its numbers; none where it isn't such a line.
pub fn command_of(alloc: Global, line: &str) -> Result<Option<(Word, Vec<u128>)>, AllocError> {
    let mut numbers = Vec::new(alloc);
    let (first, rest) = match line.split_once(' ') {
        Some((first, rest)) => (first, rest),
        None => (line, ""),
    };
    for text in rest.split_ascii_whitespace() {
        let Ok(number) = text.parse::<u128>() else {
            return Ok(None);
        };
        numbers.push(number)?;
    }
    Ok(word_of(first).map(|word| (word, numbers)))
}
