//! The top call over a source and a sink in memory that never fail.

ghost use Rattle.std.specs.Prelude.{◌≢◌, ◌≤◌, length, Some};
ghost use Rattle.pop_words.specs.declared.words.TheConstants.{WORD_LIMIT};
ghost use Rattle.pop_words.specs.CommandLine.{texts_of};
ghost use Rattle.pop_tool.specs.Plain.{ArePlain};
ghost use Rattle.pop_tool.specs.Call.{AcceptsReplies};
ghost use Rattle.pop_tool.specs.Outcome.{Outcome};
ghost use Rattle.pop_tool.specs.Complete.{IsValidInput, IsCarriedOut};

use crate::tool::run_plain;
use pop_io::{CalmSink, CalmSource, Gate};
use std::alloc::Global;
use tool_texts::Status;

/// `run_plain` where nothing but memory can fail: valid input is answered.
pub fn run_calm<G: Gate>(
    alloc: Global,
    words: &[&str],
    source: &mut CalmSource,
    sink: &mut CalmSink,
    gate: &G,
) -> Status
    requires few { length words.now ≤ WORD_LIMIT }
    requires plain { ArePlain (texts_of words.now) }
    requires room { AcceptsReplies (λ text. length text ≤ sink.old.spare) (texts_of words.now) (Some source.old) }
    ensures outcome { Outcome (texts_of words.now) (Some source.old)
        (Some sink.old.held) (Some sink.new.held) result }
    ensures calm { (result ≢ Status.ReadFault) × (result ≢ Status.WriteFault) }
    ensures complete { IsValidInput (texts_of words.now) source.old → IsCarriedOut result }
{
    run_plain(alloc, words, source, sink, gate)
}
