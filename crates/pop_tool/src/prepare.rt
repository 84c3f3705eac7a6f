//! From words and input to a text, or to a run that is still to be made.

ghost use Rattle.std.specs.Prelude.{◌≡◌, ◌<◌, ◌≤◌, ◌^◌, length, false, IfOk};
ghost use Rattle.base_lines.specs.Lines.{lines_of};
ghost use Rattle.pop_words.specs.declared.words.TheConstants.{WORD_LIMIT};
ghost use Rattle.pop_words.specs.CommandLine.{texts_of};
ghost use Rattle.pop_words.specs.Words.{HasLimits};
ghost use Rattle.tool_courses.specs.Prepared.{LeadsTo, NeedsNoThreads};
ghost use Rattle.pop_tool.specs.Commands.{IsPlain};
ghost use Rattle.pop_tool.specs.Plain.{ArePlain};
ghost use Rattle.pop_tool.specs.Answer.{IsOfCommand};
ghost use Rattle.pop_tool.specs.Source.{HasSuffix, words_read};
ghost use Rattle.pop_tool.specs.Written.{IsRightOutput};

use crate::table::{prepare_command, reads_input};
use pop_io::{Failure, NoMemory, ReadAll, Source, read_all};
use pop_words::{Command, read_words};
use std::alloc::Global;
use tool_courses::Prepared;
use tool_texts::{Output, Refusal, Stop};

/// What a command prepares, or the line that says why the input is refused.
fn prepare_for(alloc: Global, command: Command, input: &[u8]) -> Result<Prepared, NoMemory>
    requires short { length input.now < 2 ^ 32 }
    requires limits { HasLimits command }
    ensures leads { IfOk result (LeadsTo (IsOfCommand command (lines_of input.now))) }
    ensures plain { IsPlain command → IfOk result NeedsNoThreads }
{
    match prepare_command(alloc, command, input) {
        Ok(prepared) => Ok(prepared),
        Err(Failure::Fault(refusal)) => Ok(Prepared::Text(Output::of_refusal(alloc, &refusal)?)),
        Err(Failure::NoMemory) => Err(NoMemory),
    }
}

/// What is written for the words and what the source has left, or what is still to be made for it.
pub(crate) fn prepare<S: Source>(
    alloc: Global,
    words: &[&str],
    source: &mut S,
) -> Result<Prepared, NoMemory>
    requires { length words.now ≤ WORD_LIMIT }
    ensures leads { IfOk result (LeadsTo (IsRightOutput (texts_of words.now)
        (S.left source.old) (S.left source.new) (S.faults source.old) (S.faults source.new))) }
    ensures plain { ArePlain (texts_of words.now) → IfOk result NeedsNoThreads }
    ensures suffix { HasSuffix (S.left source.old) (S.left source.new) }
    ensures untouched { words_read (texts_of words.now) ≡ false → source.new ≡ source.old }
{
    let command = match read_words(words) {
        Ok(command) => command,
        Err(usage) => return Ok(Prepared::Text(Output::of_usage(alloc, &usage)?)),
    };
    if !reads_input(&command) {
        return prepare_for(alloc, command, &[]);
    }
    match read_all(alloc, source) {
        Ok(input) => prepare_for(alloc, command, input.as_slice()),
        Err(ReadAll::TooLong) => Ok(Prepared::Text(Output::of_refusal(alloc, &Refusal::TooLong)?)),
        Err(ReadAll::ReadFault) => Ok(Prepared::Text(Output::of_read_fault(alloc)?)),
        Err(ReadAll::NoMemory) => Err(NoMemory),
    }
}
