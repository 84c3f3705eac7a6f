//! The options of `run` and `watch`: each is followed by its number.

ghost use Rattle.std.specs.Prelude.{◌≡◌, ◌<◌, ◌≤◌, ◌+◌, ◌*◌, length, Some, IfSome, IfOk, position};
ghost use Rattle.std.specs.List.{list_any};
ghost use Rattle.std.specs.Str.{bytes_eq};
ghost use Rattle.pop_io.specs.declared.gate.TheConstants.{WORKER_LIMIT};
ghost use Rattle.pop_words.specs.declared.words.TheConstants.{WORD_LIMIT};
ghost use Rattle.pop_words.specs.CommandLine.{texts_of};
ghost use Rattle.run_spec.specs.declared.kind.RunKind.TheVariants.{Whole};
ghost use Rattle.run_spec.specs.Kinds.{most_workers_of};
ghost use Rattle.pop_words.specs.Options.{IsWithin, name_of, option_value, spec_of, options_meaning};
ghost use Rattle.run_spec.specs.RunLimits.{IsWithinLimits};
ghost use Rattle.pop_words.specs.Options.{word_fault, name_fault, number_fault, first_fault};

use crate::command::{Usage, UsageWhy};
use base_lines::number_within;
use pop_io::SHARD_LIMIT;
use run_spec::{MEETING_LIMIT, RunKind, RunSpec, SEED_LIMIT, TURN_LIMIT};

/// An option of a run.
#[derive(Clone, Copy)]
pub(crate) enum RunOption {
    Workers,
    Shards,
    Turns,
    Seed,
}

impl RunOption {
    ghost use Rattle.std.specs.Prelude.{◌≡◌, IfSome};
    ghost use Rattle.pop_words.specs.Options.{option_named, name_of, least_of, most_of, default_of, number_behind};
    ghost use Rattle.pop_words.specs.Options.{IsWithin};

    fn named(word: &str) -> Option<RunOption>
        ensures { result ≡ option_named word.now }
    {
        match word {
            "--workers" => Some(RunOption::Workers),
            "--shards" => Some(RunOption::Shards),
            "--turns" => Some(RunOption::Turns),
            "--seed" => Some(RunOption::Seed),
            _ => None,
        }
    }

    fn name(self) -> &'static str
        ensures { result.now ≡ name_of self }
    {
        match self {
            RunOption::Workers => "--workers",
            RunOption::Shards => "--shards",
            RunOption::Turns => "--turns",
            RunOption::Seed => "--seed",
        }
    }

    /// The least and the greatest number, and the default.
    fn numbers(self, kind: RunKind) -> (u64, u64, u64)
        ensures { result ≡ (least_of self, most_of kind self, default_of self) }
    {
        match self {
            RunOption::Workers => (1, u64::from(kind.most_workers()), 1),
            RunOption::Shards => (1, u64::from(SHARD_LIMIT), 16),
            RunOption::Turns => (0, TURN_LIMIT, 10_000),
            RunOption::Seed => (0, SEED_LIMIT, 0),
        }
    }

    fn number_of(self, kind: RunKind, word: &str) -> Option<u64>
        ensures number { result ≡ number_behind kind self word.now }
        ensures within { IfSome result (IsWithin kind self) }
    {
        let (least, most, _default) = self.numbers(kind);
        number_within(word.as_bytes(), least, most)
    }
}

/// The run of this kind that the words after the command's own ask for. The command's own is word 0.
pub(crate) fn read_options(kind: RunKind, words: &[&str]) -> Result<RunSpec, Usage>
    requires { length words.now < WORD_LIMIT }
    ensures meaning { result ≡ options_meaning kind (texts_of words.now) }
    ensures limits { IfOk result IsWithinLimits }
    ensures workers { IfOk result (λ spec. spec.workers ≤ most_workers_of kind) }
{
    if let Some((at, why)) = first_fault_of(kind, words) {
        return Err(behind(at, why));
    }
    if words.len() % 2 == 1 {
        return Err(behind(words.len(), UsageWhy::Missing));
    }
    let spec = spec_in(kind, words);
    if MEETING_LIMIT < u64::from(spec.workers) * spec.turns {
        return Err(behind(words.len(), UsageWhy::Product));
    }
    Ok(spec)
}

fn behind(at: usize, why: UsageWhy) -> Usage
    requires { at < WORD_LIMIT }
    ensures { result ≡ record { word = at + 1; why = why } }
{
    Usage {
        word: at as u32 + 1,
        why,
    }
}

fn first_fault_of(kind: RunKind, words: &[&str]) -> Option<(usize, UsageWhy)>
    ensures first { result ≡ first_fault kind (texts_of words.now) }
    ensures place { IfSome result (λ fault. fault.0 < length words.now) }
{
    for at in 0..words.len() {
        if let Some(why) = fault_at(kind, words, at) {
            return Some((at, why));
        }
    }
    None
}

/// Options and numbers alternate.
fn fault_at(kind: RunKind, words: &[&str], at: usize) -> Option<UsageWhy>
    requires { at < length words.now }
    ensures { result ≡ word_fault kind (texts_of words.now) at }
{
    if at % 2 == 0 {
        fault_of_name(&words[..at], words[at])
    } else {
        fault_of_number(kind, RunOption::named(words[at - 1])?, words[at])
    }
}

#[tactic(auto, using(crate::proofs::Firsts::list_any_map))]
fn fault_of_name(before: &[&str], word: &str) -> Option<UsageWhy>
    ensures { result ≡ name_fault (texts_of before.now) word.now }
{
    if RunOption::named(word).is_none() {
        return Some(UsageWhy::Unknown);
    }
    if has_word(before, word) {
        return Some(UsageWhy::Twice);
    }
    None
}

fn has_word(words: &[&str], word: &str) -> bool
    ensures { result ≡ list_any (λ other. bytes_eq word.now other.now) words.now }
{
    words.iter().any(|other| word == *other)
}

fn place_of_option(words: &[&str], option: RunOption) -> Option<usize>
    ensures { result ≡ position (λ word. bytes_eq word.now (name_of option)) words.now }
{
    let name = option.name();
    words.iter().position(|word| *word == name)
}

fn fault_of_number(kind: RunKind, option: RunOption, word: &str) -> Option<UsageWhy>
    ensures { result ≡ number_fault kind (Some option) word.now }
{
    if option.number_of(kind, word).is_some() {
        None
    } else {
        Some(UsageWhy::Value)
    }
}

/// The spec of options without a fault.
fn spec_in(kind: RunKind, words: &[&str]) -> RunSpec
    ensures spec { result ≡ spec_of kind (texts_of words.now) }
    ensures limits { IsWithinLimits result }
    ensures workers { result.workers ≤ most_workers_of kind }
    ensures few { result.workers * result.turns ≤ WORKER_LIMIT * TURN_LIMIT }
{
    RunSpec {
        workers: value_in(kind, words, RunOption::Workers) as u16,
        shards: value_in(kind, words, RunOption::Shards) as u32,
        turns: value_in(kind, words, RunOption::Turns),
        seed: value_in(kind, words, RunOption::Seed),
    }
}

/// The number after an option's name, or its default.
#[tactic(auto, using(crate::proofs::Firsts::position_map, crate::proofs::Limits::default_within, crate::proofs::Limits::within_whole))]
fn value_in(kind: RunKind, words: &[&str], option: RunOption) -> u64
    ensures value { result ≡ option_value kind (texts_of words.now) option }
    ensures within { IsWithin kind option result }
    ensures whole { IsWithin Whole option result }
{
    let (_least, _most, default) = option.numbers(kind);
    match place_of_option(words, option) {
        Some(at) if at + 1 < words.len() => option
            .number_of(kind, words[at + 1])
            .unwrap_or(default),
        _ => default,
    }
}
