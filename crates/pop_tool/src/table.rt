//! The table of commands.

ghost use Rattle.std.specs.Prelude.{◌≡◌, ◌↔◌, ◌<◌, ◌^◌, length, IfOk, IsTrue};
ghost use Rattle.base_lines.specs.Lines.{lines_of};
ghost use Rattle.pop_words.specs.Words.{HasLimits};
ghost use Rattle.tool_courses.specs.Prepared.{Prepares, NeedsNoThreads};
ghost use Rattle.pop_tool.specs.Commands.{CommandGives, IsPlain, reads, ready};

use comp_net::LeafChoice;
use pop_words::Command;
use run_spec::RunKind;
use std::alloc::Global;
use tool_courses::Prepared;
use tool_demos::prepare_demo;
use tool_nets::{compile_input, eval_input, play_input};
use tool_proofs::{check_input, settle_input, show_input};
use tool_replays::replay_input;
use tool_runs::{is_by_one, prepare_run};
use tool_texts::{Output, Stop};

/// What a command prepares for an input that isn't too long.
pub(crate) fn prepare_command(
    alloc: Global,
    command: Command,
    input: &[u8],
) -> Result<Prepared, Stop>
    requires short { length input.now < 2 ^ 32 }
    requires limits { HasLimits command }
    ensures leads { Prepares (CommandGives command (lines_of input.now)) result }
    ensures plain { IsPlain command → IfOk result NeedsNoThreads }
{
    match command {
        Command::Play => ready(play_input(alloc, input)),
        Command::Eval => ready(eval_input(alloc, input)),
        Command::Check => ready(check_input(alloc, input)),
        Command::Show => ready(show_input(alloc, input)),
        Command::Run(spec) => prepare_run(alloc, RunKind::Whole, spec, input),
        Command::Watch(spec) => prepare_run(alloc, RunKind::Watched, spec, input),
        Command::Replay => ready(replay_input(alloc, RunKind::Whole, input)),
        Command::ReplayWatched => ready(replay_input(alloc, RunKind::Watched, input)),
        Command::Settle => ready(settle_input(alloc, input)),
        Command::Compile => ready(compile_input(alloc, LeafChoice::Plain, input)),
        Command::Flocks => ready(compile_input(alloc, LeafChoice::Flocks, input)),
        Command::Succinct => ready(compile_input(alloc, LeafChoice::Succinct, input)),
        Command::Demo(number) => Ok(prepare_demo(alloc, number)?),
    }
}

/// What is prepared if the whole output is already there.
fn ready(output: Result<Output, Stop>) -> Result<Prepared, Stop>
    ensures { result ≡ ready output }
{
    match output {
        Ok(output) => Ok(Prepared::Text(output)),
        Err(stop) => Err(stop),
    }
}

/// Whether a command reads an input.
pub(crate) fn reads_input(command: &Command) -> bool
    ensures { result ≡ reads command.now }
{
    match command {
        Command::Demo(_) => false,
        _ => true,
    }
}

/// Whether a command needs no threads.
pub(crate) fn is_plain_command(command: &Command) -> bool
    ensures { IsTrue result ↔ IsPlain command.now }
{
    match command {
        Command::Run(spec) => is_by_one(spec),
        Command::Watch(_) => false,
        _ => true,
    }
}
