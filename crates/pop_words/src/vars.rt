//! The vars line.

ghost use Rattle.std.specs.Prelude.{◌≡◌, true, false, ◌&&◌, IfOk};
ghost use Rattle.std.specs.Prelude.{Ok, Err, MatchOption};
ghost use Rattle.std.specs.Option.{option_copied};
ghost use Rattle.pop_io.specs.Names.{variable_name};
ghost use Rattle.pop_words.specs.Vars.{vars_of, Named, AreVariables};
ghost use Rattle.pop_words.specs.WordsBehind.{words_behind, can_join, NamedBehind};

use base_lines::cut;
use pop_io::{Failure, List, Text, VARIABLE_LIMIT, is_among, is_variable_name};
use std::alloc::Global;

/// A line that isn't `vars` and 1 to `VARIABLE_LIMIT` distinct names, one space before each.
#[derive(Clone, Copy, PartialEq, Eq)]
pub struct NoVars;

/// The names of the variables that a line lists.
pub fn read_vars(alloc: Global, line: &[u8]) -> Result<List<Text>, Failure<NoVars>>
    ensures vars { Named result (vars_of line.now) }
    ensures names { IfOk result AreVariables }
{
    let (first, rest) = cut(line, b' ');
    if first != b"vars".as_slice() {
        return Err(Failure::Fault(NoVars));
    }
    names_behind(alloc, rest)
}

/// The names, if all words are names and there is at least one.
fn names_behind(alloc: Global, words: Option<&[u8]>) -> Result<List<Text>, Failure<NoVars>>
    ensures { NamedBehind result (words_behind (option_copied words.entry)) }
{
    let mut names: Vec<Text> = Vec::new(alloc);
    let mut rest = words;
    'words: while let Some(bytes) = rest {
        let (word, after) = cut(bytes, b' ');
        let Some(name) = further_name(names.as_slice(), word) else {
            return Err(Failure::Fault(NoVars));
        };
        let text = String::from_str(alloc, name)?;
        names.push(Text::from_string(text))?;
        rest = after;
    }
    if names.is_empty() {
        return Err(Failure::Fault(NoVars));
    }
    Ok(List::from_vec(names))
}

/// The word as a text, if it is a further name.
fn further_name<'w>(names: &[Text], word: &'w [u8]) -> Option<&'w str>
    ensures { MatchOption result (can_join names.now word.now ≡ false)
        (λ name. (name.now ≡ word.now) × (can_join names.now word.now ≡ true)) }
{
    let name = name_of(word)?;
    if names.len() < VARIABLE_LIMIT && !is_among(names, word) {
        Some(name)
    } else {
        None
    }
}

/// The word as a text, if it has the form of a name.
fn name_of(word: &[u8]) -> Option<&str>
    ensures { MatchOption result (variable_name word.now ≡ false)
        (λ name. (name.now ≡ word.now) × (variable_name word.now ≡ true)) }
{
    let Ok(name) = str::from_utf8(word) else {
        return None;
    };
    if is_variable_name(name) {
        Some(name)
    } else {
        None
    }
}
