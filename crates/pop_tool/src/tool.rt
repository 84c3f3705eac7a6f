//! The top call: words, then what they prepare, then what is still to be made, then one write.

ghost use Rattle.std.specs.Prelude.{◌≡◌, ◌≤◌, ◌↔◌, length, false, IfOk, IsTrue};
ghost use Rattle.pop_words.specs.declared.words.TheConstants.{WORD_LIMIT};
ghost use Rattle.pop_words.specs.CommandLine.{texts_of};
ghost use Rattle.pop_tool.specs.Plain.{ArePlain};
ghost use Rattle.pop_tool.specs.Call.{AcceptsReplies, IsCall};
ghost use Rattle.pop_tool.specs.Source.{HasSuffix, words_read};
ghost use Rattle.pop_tool.specs.Written.{IsRightOutput};

use crate::perform::{perform, perform_alone};
use crate::prepare::prepare;
use crate::table::is_plain_command;
use crate::write::write;
use pop_io::{Gate, NoMemory, Sink, Source};
use pop_words::read_words;
use std::alloc::Global;
use std::sync::Wait;
use std::thread::Threads;
use tool_texts::{Output, Status};

/// Reads the whole input, and writes the text that answers the words and the input in one call. It waits for no thread,
/// and returns.
pub fn run_plain<S: Source, K: Sink, G: Gate>(
    alloc: Global,
    words: &[&str],
    source: &mut S,
    sink: &mut K,
    gate: &G,
) -> Status
    requires few { length words.now ≤ WORD_LIMIT }
    // The words ask neither for a run with two or more workers nor for `watch`.
    requires plain { ArePlain (texts_of words.now) }
    requires room { AcceptsReplies (K.accepts sink.old) (texts_of words.now) (S.left source.old) }
    ensures { IsCall S.left S.faults K.holds K.faults (texts_of words.now)
        source.old source.new sink.old sink.new result }
{
    let output = plain_output(alloc, words, source, gate);
    write(sink, output)
}

/// `run_plain` for all words. It makes a run with two or more workers, and a run of `watch`, on threads, and may then
/// wait.
pub fn run_tool<R: Threads + Wait + Sync, S: Source, K: Sink, G: Gate>(
    rt: &R,
    alloc: Global,
    words: &[&str],
    source: &mut S,
    sink: &mut K,
    gate: &G,
) -> Status
    requires few { length words.now ≤ WORD_LIMIT }
    requires room { AcceptsReplies (K.accepts sink.old) (texts_of words.now) (S.left source.old) }
    ensures { IsCall S.left S.faults K.holds K.faults (texts_of words.now)
        source.old source.new sink.old sink.new result }
{
    let output = any_output(rt, alloc, words, source, gate);
    write(sink, output)
}

/// Whether `run_plain` answers the words: they ask neither for a run with two or more workers nor for `watch`.
pub fn is_plain(words: &[&str]) -> bool
    requires { length words.now ≤ WORD_LIMIT }
    ensures { IsTrue result ↔ ArePlain (texts_of words.now) }
{
    match read_words(words) {
        Ok(command) => is_plain_command(&command),
        Err(_) => true,
    }
}

/// The output for words that need no threads.
fn plain_output<S: Source, G: Gate>(
    alloc: Global,
    words: &[&str],
    source: &mut S,
    gate: &G,
) -> Result<Output, NoMemory>
    requires few { length words.now ≤ WORD_LIMIT }
    requires plain { ArePlain (texts_of words.now) }
    ensures output { IfOk result (IsRightOutput (texts_of words.now) (S.left source.old) (S.left source.new)
        (S.faults source.old) (S.faults source.new)) }
    ensures suffix { HasSuffix (S.left source.old) (S.left source.new) }
    ensures untouched { words_read (texts_of words.now) ≡ false → source.new ≡ source.old }
{
    let prepared = prepare(alloc, words, source)?;
    perform_alone(alloc, prepared, gate)
}

/// The output for any words.
fn any_output<R: Threads + Wait + Sync, S: Source, G: Gate>(
    rt: &R,
    alloc: Global,
    words: &[&str],
    source: &mut S,
    gate: &G,
) -> Result<Output, NoMemory>
    requires { length words.now ≤ WORD_LIMIT }
    ensures output { IfOk result (IsRightOutput (texts_of words.now) (S.left source.old) (S.left source.new)
        (S.faults source.old) (S.faults source.new)) }
    ensures suffix { HasSuffix (S.left source.old) (S.left source.new) }
    ensures untouched { words_read (texts_of words.now) ≡ false → source.new ≡ source.old }
{
    let prepared = prepare(alloc, words, source)?;
    perform(rt, alloc, prepared, gate)
}
