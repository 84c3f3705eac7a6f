//! The worker that lacks meetings of a journal's last round.

ghost use Rattle.std.specs.Prelude.{◌≡◌, ◌+◌, ◌*◌, ◌<◌, ◌≤◌, ℕ, List as Items, length, All, IfOk, Some, find, nat_lt};
ghost use Rattle.std.specs.Prelude.{slice_get, slice_index_or};
ghost use Rattle.std.specs.List.{range_with_len};
ghost use Rattle.run_picks.specs.Run.{made_by};
ghost use Rattle.run_picks.specs.WatchedRun.{IsWatchedRound};
ghost use Rattle.pop_journal.specs.Expected.{lacking};
ghost use Rattle.pop_journal.specs.Standing.{lacking_behind};

use crate::limits::ROUND_LIMIT;
use pop_crowd::Meeting;
use pop_io::List;
use run_picks::ROUND_TURNS;
use run_spec::RunSpec;
use std::alloc::{AllocError, Global};

/// How many of these meetings each worker has made.
fn made_by_workers(
    alloc: Global,
    workers: u16,
    meetings: &[Meeting],
) -> Result<Vec<u64>, AllocError>
    requires { All (λ m. m.worker < workers) meetings.now }
    ensures long { IfOk result (λ made. length made.items ≡ workers) }
    ensures made { IfOk result
        (λ made. (w d : ℕ) → w < workers → slice_index_or made.items w d ≡ made_by w meetings.now) }
{
    let mut made = vec![in alloc; 0u64; usize::from(workers)]?;
    for meeting in meetings {
        made[meeting.worker as usize] += 1;
    }
    Ok(made)
}

/// The first worker that has made fewer meetings than its turns.
fn first_lacking(workers: u16, made: &[u64], turns: u64) -> Option<u16>
    requires { length made.now ≡ workers }
    ensures { result ≡ find (λ w. nat_lt (slice_index_or made.now w 0) turns) (range_with_len 0 workers) }
{
    (0..workers).find(|worker| made[*worker as usize] < turns)
}

/// The least worker that lacks meetings of a round.
fn lacking_worker(
    alloc: Global,
    spec: &RunSpec,
    round: u64,
    meetings: &[Meeting],
) -> Result<Option<u16>, AllocError>
    requires number { (1 ≤ round) × (round ≤ ROUND_LIMIT) }
    requires round { IsWatchedRound spec.now round meetings.now }
    ensures { IfOk result (λ worker. worker ≡ lacking spec.now round meetings.now) }
{
    let turns = ROUND_TURNS.min(spec.turns - ROUND_TURNS * (round - 1));
    let made = made_by_workers(alloc, spec.workers, meetings)?;
    Ok(first_lacking(spec.workers, &made, turns))
}

/// The least worker that lacks meetings of the last round.
pub(crate) fn lacking_last(
    alloc: Global,
    spec: &RunSpec,
    rounds: &[List<Meeting>],
) -> Result<Option<u16>, AllocError>
    requires few { length rounds.now ≤ ROUND_LIMIT }
    requires rounds { (k : ℕ) (meetings : Items Meeting) → slice_get rounds.now k ≡ Some meetings
        → IsWatchedRound spec.now (k + 1) meetings }
    ensures { IfOk result (λ worker. worker ≡ lacking_behind spec.now rounds.now (length rounds.now)) }
{
    let Some(meetings) = rounds.last() else {
        return Ok(None);
    };
    lacking_worker(alloc, spec, rounds.len() as u64, meetings.as_slice())
}
