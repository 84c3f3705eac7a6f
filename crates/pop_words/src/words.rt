//! The words of the command line.

ghost use Rattle.std.specs.Prelude.{◌≡◌, ◌<◌, ◌≤◌, length, Some, IfSome, IfOk};
ghost use Rattle.pop_words.specs.declared.words.TheConstants.{WORD_LIMIT};
ghost use Rattle.pop_words.specs.CommandLine.{texts_of};
ghost use Rattle.run_spec.specs.Kinds.{most_workers_of};
ghost use Rattle.run_spec.specs.RunLimits.{IsWithinLimits};
ghost use Rattle.pop_words.specs.Words.{meaning_of, meaning_behind, form_named, run_command, demo_meaning};
ghost use Rattle.pop_words.specs.Words.{flagged_command, flag_meaning, HasLimits, FormHasLimits};

use crate::command::{Command, DEMO_LIMIT, Usage, UsageWhy};
use crate::options::read_options;
use base_lines::number_within;
use run_spec::{RunKind, RunSpec};

/// The most words: the number of a bad one has 32 bits.
pub const WORD_LIMIT: usize = u32::MAX as usize;

/// What follows a command's own word.
#[derive(Clone, Copy)]
pub(crate) enum Form {
    /// Nothing.
    Alone(Command),
    /// The options of a run of this kind, each with its number.
    WithOptions(RunKind),
    /// The number of a demo case.
    WithNumber,
    /// Nothing, or one of the flags that turn it into another command.
    WithFlag(Flags),
}

/// The flags of which one may follow a command's own word.
#[derive(Clone, Copy)]
pub(crate) enum Flags {
    OfCompile,
    OfReplay,
}

impl Flags {
    ghost use Rattle.std.specs.Prelude.{◌≡◌, IfSome};
    ghost use Rattle.pop_words.specs.Words.{unflagged_command, flagged_command, HasLimits};

    /// The command without a flag.
    fn unflagged(self) -> Command
        ensures { result ≡ unflagged_command self }
    {
        match self {
            Flags::OfCompile => Command::Compile,
            Flags::OfReplay => Command::Replay,
        }
    }

    /// The command with this flag, if the word is one.
    fn flagged(self, word: &str) -> Option<Command>
        ensures command { result ≡ flagged_command self word.now }
        ensures limits { IfSome result HasLimits }
    {
        match self {
            Flags::OfCompile => compile_with(word),
            Flags::OfReplay => replay_with(word),
        }
    }
}

/// The command of `compile` with this flag.
fn compile_with(word: &str) -> Option<Command>
    ensures command { result ≡ flagged_command Flags.OfCompile word.now }
    ensures limits { IfSome result HasLimits }
{
    match word {
        "--flocks" => Some(Command::Flocks),
        "--succinct" => Some(Command::Succinct),
        _ => None,
    }
}

/// The command of `replay` with this flag.
fn replay_with(word: &str) -> Option<Command>
    ensures command { result ≡ flagged_command Flags.OfReplay word.now }
    ensures limits { IfSome result HasLimits }
{
    match word {
        "--watched" => Some(Command::ReplayWatched),
        _ => None,
    }
}

/// The command that the words ask for. Allocates nothing.
pub fn read_words(words: &[&str]) -> Result<Command, Usage>
    requires { length words.now ≤ WORD_LIMIT }
    ensures meaning { result ≡ meaning_of (texts_of words.now) }
    ensures limits { IfOk result HasLimits }
{
    match words {
        [] => Err(bad(0, UsageWhy::Missing)),
        [first, rest @ ..] => match form_of(first) {
            Some(form) => read_behind(form, rest),
            None => Err(bad(0, UsageWhy::Unknown)),
        },
    }
}

/// The table of the commands: one row each.
fn form_of(word: &str) -> Option<Form>
    ensures form { result ≡ form_named word.now }
    ensures limits { IfSome result FormHasLimits }
{
    match word {
        "play" => Some(Form::Alone(Command::Play)),
        "eval" => Some(Form::Alone(Command::Eval)),
        "check" => Some(Form::Alone(Command::Check)),
        "show" => Some(Form::Alone(Command::Show)),
        "run" => Some(Form::WithOptions(RunKind::Whole)),
        "watch" => Some(Form::WithOptions(RunKind::Watched)),
        "replay" => Some(Form::WithFlag(Flags::OfReplay)),
        "settle" => Some(Form::Alone(Command::Settle)),
        "compile" => Some(Form::WithFlag(Flags::OfCompile)),
        "demo" => Some(Form::WithNumber),
        _ => None,
    }
}

fn read_behind(form: Form, words: &[&str]) -> Result<Command, Usage>
    requires few { length words.now < WORD_LIMIT }
    requires limits { FormHasLimits form }
    ensures meaning { result ≡ meaning_behind (Some form) (texts_of words.now) }
    ensures limits { IfOk result HasLimits }
{
    match form {
        Form::Alone(command) if words.is_empty() => Ok(command),
        Form::Alone(_) => Err(bad(1, UsageWhy::Unknown)),
        Form::WithOptions(kind) => Ok(command_of(kind, read_options(kind, words)?)),
        Form::WithNumber => read_number(words),
        Form::WithFlag(flags) => read_flag(flags, words),
    }
}

/// The command that makes a run of this kind.
fn command_of(kind: RunKind, spec: RunSpec) -> Command
    requires limits { IsWithinLimits spec }
    requires workers { spec.workers ≤ most_workers_of kind }
    ensures command { result ≡ run_command kind spec }
    ensures limits { HasLimits result }
{
    match kind {
        RunKind::Whole => Command::Run(spec),
        RunKind::Watched => Command::Watch(spec),
    }
}

/// One number of a demo case, and no more.
fn read_number(words: &[&str]) -> Result<Command, Usage>
    ensures meaning { result ≡ demo_meaning (texts_of words.now) }
    ensures limits { IfOk result HasLimits }
{
    let [first, rest @ ..] = words else {
        return Err(bad(1, UsageWhy::Missing));
    };
    let Some(number) = number_within(first.as_bytes(), 0, u64::from(DEMO_LIMIT)) else {
        return Err(bad(1, UsageWhy::Value));
    };
    if !rest.is_empty() {
        return Err(bad(2, UsageWhy::Unknown));
    }
    Ok(Command::Demo(number as u32))
}

/// The plain command if no word follows its own, and another one if only one of its flags does.
fn read_flag(flags: Flags, words: &[&str]) -> Result<Command, Usage>
    ensures meaning { result ≡ flag_meaning flags (texts_of words.now) }
    ensures limits { IfOk result HasLimits }
{
    let [flag, more @ ..] = words else {
        return Ok(flags.unflagged());
    };
    let Some(command) = flags.flagged(flag) else {
        return Err(bad(1, UsageWhy::Unknown));
    };
    if !more.is_empty() {
        return Err(bad(2, UsageWhy::Unknown));
    }
    Ok(command)
}

fn bad(word: u32, why: UsageWhy) -> Usage
    ensures { result ≡ record { word = word; why = why } }
{
    Usage { word, why }
}
