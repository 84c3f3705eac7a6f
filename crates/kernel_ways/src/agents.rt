//! A crowd agent by agent.

ghost use Rattle.std.specs.Prelude.{◌≡◌, ◌<◌, ◌^◌, sum, length, MatchOption};
ghost use Rattle.kernel_ways.specs.Results.{HasCome, MeetingOf};

use crate::counts::change_counts;
use crate::table::Table;
use crate::tally::{Change, Goal, Tally};
use kernel_draws::{Words, bound_of, pair_of};

/// Two agents meet: none where nothing changes. The counts follow.
#[inline(always)]
fn meet(
    crowd: &mut [u8],
    counts: &mut [u32; 256],
    table: &Table,
    words: &mut Words,
    i: u32,
    j: u32,
) -> Option<Change>
    requires first { i < length crowd.old }
    requires second { j < length crowd.old }
    requires size { sum counts.old < 2 ^ 32 }
    ensures size { sum counts.new ≡ sum counts.old }
    ensures meeting { MatchOption result (crowd.new ≡ crowd.old) (λ change. MeetingOf table.now crowd.old i j change crowd.new) }
{
    let taken = (crowd[i as usize], crowd[j as usize]);
    let made = table.met(words, taken.0, taken.1, false)?;
    let change = Change { taken, made };
    if !change_counts(counts, change) {
        return None;
    }
    crowd[i as usize] = made.0;
    crowd[j as usize] = made.1;
    Some(change)
}

/// Goes on by so many words, each of which is a meeting unless it is one of the few that stand for no pair; less where
/// the goal comes first.
pub fn go_by_agents(
    crowd: &mut [u8],
    counts: &mut [u32; 256],
    table: &Table,
    words: &mut Words,
    tally: &mut Tally,
    goal: &Goal,
    most: u32,
)
    requires { sum counts.old < 2 ^ 32 }
    ensures size { sum counts.new ≡ sum counts.old }
    ensures met { HasCome table.now crowd.old crowd.new }
{
    let n = tally.agents;
    if n < 2 || crowd.len() != n as usize || goal.meetings <= tally.meetings {
        return;
    }
    let least = bound_of(u64::from(n) * u64::from(n - 1));
    let before = tally.meetings;
    let mut made = 0u32;
    for _ in 0..most {
        let Some(pair) = pair_of(words.next(), n, least) else {
            continue;
        };
        made += 1;
        let meeting = before.saturating_add(u128::from(made));
        if let Some(change) = meet(crowd, counts, table, words, pair.0, pair.1) {
            tally.note(&table.outputs, change, meeting);
            if tally.is_stopped(goal) {
                break;
            }
        }
        if goal.meetings <= meeting {
            break;
        }
    }
    tally.meetings = before.saturating_add(u128::from(made));
}
