//! Meetings that workers did not make on the field, made on the plain crowd.

ghost use Rattle.std.specs.Prelude.{◌≡◌, ℕ, ◌+◌, ◌<◌, ◌≤◌, length, OnOk, slice_index_or, vec_capacity};
ghost use Rattle.pop_net.specs.Lanes.{AreValid};
ghost use Rattle.run_picks.specs.Run.{made_by};
ghost use Rattle.pop_watch.specs.Playing.{HasPlayedOn, KeepsPlaying, AreAllMade};

use pair_workers::{ROUND_TURNS, RoundEnd, meet_next};
use pop_io::NoMemory;
use pop_net::Net;
use run_spec::WATCHED_WORKERS;

/// The next meeting of one worker, for which there is room.
fn push_next(net: &Net, played: &mut RoundEnd, worker: u16)
    requires valid { AreValid net.now played.old.crowd }
    requires worker { worker < length played.old.pickers.items }
    requires room { length played.old.meetings.items < vec_capacity played.old.meetings }
    ensures { HasPlayedOn net.now worker 1 played.old played.new }
{
    let picker = &mut played.pickers[worker as usize];
    let meeting = meet_next(net, &mut played.crowd, picker, worker);
    played.meetings.push_reserved(meeting);
}

/// The next meetings of one worker, for which there is room.
fn make_turns(net: &Net, played: &mut RoundEnd, worker: u16, turns: u64)
    requires valid { AreValid net.now played.old.crowd }
    requires worker { worker < length played.old.pickers.items }
    requires room { length played.old.meetings.items + turns ≤ vec_capacity played.old.meetings }
    ensures { HasPlayedOn net.now worker turns played.old played.new }
{
    'turns: for turn in 0..turns {
        push_next(net, played, worker);
    }
}

/// All meetings that the workers still have to make, worker by worker. Room for a whole round is reserved first.
pub(crate) fn make_missing(
    net: &Net,
    played: &mut RoundEnd,
    made: &[u64],
    turns: u64,
) -> Result<(), NoMemory>
    requires valid { AreValid net.now played.old.crowd }
    requires workers { (length made.now ≡ length played.old.pickers.items) × (length made.now ≤ WATCHED_WORKERS) }
    requires made { (w d : ℕ) → w < length made.now
        → slice_index_or made.now w d ≡ made_by w played.old.meetings.items }
    requires few { (w : ℕ) → w < length made.now → made_by w played.old.meetings.items ≤ turns }
    requires turns { turns ≤ ROUND_TURNS }
    ensures goes_on { OnOk result (KeepsPlaying net.now played.old played.new) }
    ensures all { OnOk result (AreAllMade (length made.now) turns played.new.meetings.items) }
    ensures valid { OnOk result (AreValid net.now played.new.crowd) }
{
    let workers = made.len() as u16;
    played.meetings.reserve(made.len() * turns as usize)?;
    'workers: for worker in 0..workers {
        make_turns(net, played, worker, turns - made[worker as usize]);
    }
    Ok(())
}
