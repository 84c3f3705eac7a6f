//! The check of a journal against the run that it records.

ghost use Rattle.std.specs.Prelude.{◌≡◌, ◌≤◌, ◌+◌, [], length, IfOk};
ghost use Rattle.pop_net.specs.Lanes.{crowd_of, AreValid};
ghost use Rattle.terminal_test.specs.TableNet.{table_net};
ghost use Rattle.run_spec.specs.RunLimits.{IsWithinLimits};
ghost use Rattle.run_picks.specs.CrowdSize.{IsCrowdSize};
ghost use Rattle.run_picks.specs.SameLanes.{HaveSameLanes};
ghost use Rattle.run_picks.specs.Run.{joined};
ghost use Rattle.pop_journal.specs.Rounds.{AreWatchedRounds};
ghost use Rattle.pop_journal.specs.Calls.{CanVerify, IsVerified, IsVerifiedUntil};
ghost use Rattle.run_text.specs.declared.last.Outcome.TheVariants.{Known};
ghost use Rattle.pop_journal.specs.Expected.{journal_compared_until};
ghost use Rattle.pop_journal.specs.Standing.{IsReplaying, Passes};

use crate::journal::{Journal, LINE_LIMIT};
use crate::lacking::lacking_last;
use crate::replay_context::{EndPlace, ReplayContext};
use crate::replayer::Replayer;
use pop_crowd::Crowd;
use pop_io::{Failure, NoMemory};
use pop_net::Net;
use run_picks::first_pickers;
use run_spec::{RunSpec, SEED_LIMIT};
use run_text::{Outcome, VerifyFault};
use std::alloc::Global;
use terminal_test::PairTable;

/// The net in which a run is over once its crowd is terminal, and what is known then.
#[derive(Clone, Copy)]
struct Rest<'a> {
    net: &'a Net,
    outcome: Outcome,
}

/// A crowd and its workers before the first round.
fn first_replayer(
    alloc: Global,
    net: &Net,
    crowd: Crowd,
    spec: &RunSpec,
) -> Result<Replayer, NoMemory>
    requires seed { spec.now.seed ≤ SEED_LIMIT }
    requires valid { AreValid net.now crowd }
    ensures stands { IfOk result (IsReplaying net.now (crowd_of net.now crowd) spec.now []) }
    ensures crowd { IfOk result (λ r. r.crowd ≡ crowd) }
    ensures few { IsCrowdSize (length crowd) }
{
    let _ = net;
    let _ = crowd.len();
    let pickers = first_pickers(alloc, spec)?;
    Ok(Replayer {
        crowd,
        pickers,
        last: None,
    })
}

/// Compares all lines of a journal after the first, given its workers before the first round.
fn compare_lines(
    alloc: Global,
    context: &ReplayContext<'_>,
    replayer: &mut Replayer,
) -> Result<u64, Failure<VerifyFault>>
    requires valid { AreValid context.now.net.now replayer.old.crowd }
    requires agents { IsCrowdSize (length replayer.old.crowd) }
    requires stands { IsReplaying context.now.net.now (crowd_of context.now.net.now replayer.old.crowd)
        context.now.journal.now.spec [] replayer.old }
    requires first { context.now.journal.now.first ≤ LINE_LIMIT }
    requires spec { IsWithinLimits context.now.journal.now.spec }
    requires rounds { AreWatchedRounds context.now.journal.now.spec (length replayer.old.crowd)
        context.now.journal.now.rounds }
    ensures passes { Passes (context.now.journal.now.first + 1)
        (journal_compared_until (table_net context.now.table.now) context.now.outcome context.now.net.now
        (crowd_of context.now.net.now replayer.old.crowd) context.now.journal.now) result }
    ensures meetings { IfOk result (λ k. k ≡ length (joined context.now.journal.now.rounds)) }
{
    let journal = context.journal;
    let mut line = journal.first + 1;
    let mut total = 0u64;
    for (k, meetings) in journal.rounds.as_slice().iter().enumerate() {
        let meetings = meetings.as_slice();
        replayer.compare_round(alloc, context, k as u64 + 1, meetings, line)?;
        line += 1 + meetings.len() as u64;
        total += meetings.len() as u64;
    }
    let rounds = journal.rounds.as_slice();
    let lacking = lacking_last(alloc, &journal.spec, rounds)?;
    let place = EndPlace {
        line,
        round: rounds.len() as u64 + 1,
        lacking,
    };
    let tail = journal.tail.as_slice();
    replayer.compare_end(alloc, context, place, tail)?;
    Ok(total)
}

/// Compares all lines of a journal after the first.
fn compare(
    alloc: Global,
    net: &Net,
    rest: &Rest<'_>,
    crowd: Crowd,
    journal: &Journal,
) -> Result<u64, Failure<VerifyFault>>
    requires lanes { HaveSameLanes rest.now.net.now net.now }
    requires valid { AreValid net.now crowd }
    requires first { journal.now.first ≤ LINE_LIMIT }
    requires spec { IsWithinLimits journal.now.spec }
    requires rounds { AreWatchedRounds journal.now.spec (length crowd) journal.now.rounds }
    ensures passes { Passes (journal.now.first + 1)
        (journal_compared_until rest.now.net.now rest.now.outcome net.now (crowd_of net.now crowd)
        journal.now) result }
    ensures meetings { IfOk result (λ k. k ≡ length (joined journal.now.rounds)) }
    ensures agents { IsCrowdSize (length crowd) }
{
    let table = PairTable::new(alloc, rest.net)?;
    let mut replayer = first_replayer(alloc, net, crowd, &journal.spec)?;
    let context = ReplayContext {
        net,
        table: &table,
        outcome: rest.outcome,
        journal,
    };
    compare_lines(alloc, &context, &mut replayer)
}

/// Compares each line of a journal after the first with the one expected after the lines before it.
/// Returns the number of meetings.
pub fn verify(
    alloc: Global,
    net: &Net,
    crowd: Crowd,
    journal: &Journal,
) -> Result<u64, Failure<VerifyFault>>
    requires { CanVerify net.now crowd journal.now }
    ensures { IsVerified net.now crowd journal.now result }
{
    let agreed = Rest {
        net,
        outcome: Outcome::Agreed,
    };
    compare(alloc, net, &agreed, crowd, journal)
}

/// As `verify`, for a run that is over once no move of `rest` is possible. Its last line is then `settled` with this
/// value, which the caller knows.
pub fn verify_settled(
    alloc: Global,
    net: &Net,
    rest: &Net,
    value: bool,
    crowd: Crowd,
    journal: &Journal,
) -> Result<u64, Failure<VerifyFault>>
    requires lanes { HaveSameLanes rest.now net.now }
    requires can { CanVerify net.now crowd journal.now }
    ensures { IsVerifiedUntil rest.now (Known value) net.now crowd journal.now result }
{
    let known = Rest {
        net: rest,
        outcome: Outcome::Known(value),
    };
    compare(alloc, net, &known, crowd, journal)
}
