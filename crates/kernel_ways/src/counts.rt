//! A crowd by counts: the meetings that change nothing are skipped.

ghost use Rattle.std.specs.Prelude.{◌≡◌, ◌≤◌, ◌<◌, ◌+◌, ◌-◌, ◌^◌, IfSome, sum, IsTrue};
ghost use Rattle.kernel_ways.specs.Results.{IsResult};

use crate::table::{Meet, Table};
use crate::tally::{Change, Goal, Tally};
use kernel_draws::{Words, below_wide, skipped};

/// Where one meeting in so many changes something, meetings are drawn one by one.
const FREQUENT: u128 = 8;

/// How many ordered pairs of agents are in these states, each as often as the weight says.
#[inline(always)]
fn weight_of(meet: &Meet, counts: &[u32; 256]) -> u128 {
    let firsts = counts[meet.first as usize];
    let seconds = counts[meet.second as usize].saturating_sub(u32::from(meet.first == meet.second));
    u128::from(u64::from(firsts) * u64::from(seconds)) * u128::from(meet.weight)
}

/// The weight of all that changes something.
pub fn moving(table: &Table, counts: &[u32; 256]) -> u128 {
    let mut total = 0u128;
    for meet in &table.meets {
        if 0 < counts[meet.first as usize] {
            total = total.saturating_add(weight_of(meet, counts));
        }
    }
    total
}

/// The meet that has the place `at` among the weights.
fn meet_at(table: &Table, counts: &[u32; 256], at: u128) -> Option<Meet> {
    let mut left = at;
    for meet in &table.meets {
        let here = weight_of(meet, counts);
        if left < here {
            return Some(*meet);
        }
        left -= here;
    }
    None
}

/// Takes an agent away from a state; false where none is there.
fn take_one(counts: &mut [u32; 256], state: u8) -> bool
    ensures taken { IsTrue result → sum counts.new + 1 ≡ sum counts.old }
    ensures not { (IsTrue result → ⊥) → counts.new ≡ counts.old }
{
    let count = counts[state as usize];
    if count == 0 {
        return false;
    }
    counts[state as usize] = count - 1;
    true
}

/// Puts an agent into a state.
pub fn put_one(counts: &mut [u32; 256], state: u8)
    requires { sum counts.old < 2 ^ 32 - 1 }
    ensures { sum counts.new ≡ sum counts.old + 1 }
{
    counts[state as usize] += 1;
}

/// Two agents change; nothing where they are not there. The crowd keeps its size.
#[inline(always)]
pub fn change_counts(counts: &mut [u32; 256], change: Change) -> bool
    requires { sum counts.old < 2 ^ 32 }
    ensures { sum counts.new ≡ sum counts.old }
{
    if !take_one(counts, change.taken.0) {
        return false;
    }
    if !take_one(counts, change.taken.1) {
        put_one(counts, change.taken.0);
        return false;
    }
    put_one(counts, change.made.0);
    put_one(counts, change.made.1);
    true
}

/// Goes on to the next meeting that may change something; its place among the weights, none where the goal comes first
/// or it changes nothing.
fn next_place(
    words: &mut Words,
    tally: &mut Tally,
    goal: &Goal,
    total: u128,
    all: u128,
) -> Option<u128>
    requires some { 0 < total }
    requires part { total ≤ all }
    requires room { all < 2 ^ 127 }
    ensures { tally.new.agents ≡ tally.old.agents }
{
    if goal.meetings <= tally.meetings {
        return None;
    }
    if all / FREQUENT <= total {
        tally.meetings += 1;
        let at = below_wide(words, all);
        return if at < total { Some(at) } else { None };
    }
    let skip = skipped(words, total, all);
    if goal.meetings - tally.meetings <= skip {
        tally.meetings = goal.meetings;
        return None;
    }
    tally.meetings += skip + 1;
    Some(below_wide(words, total))
}

/// The change at a place among the weights, made in the counts.
fn change_at(table: &Table, counts: &mut [u32; 256], words: &mut Words, at: u128) -> Option<Change>
    requires { sum counts.old < 2 ^ 32 }
    ensures size { sum counts.new ≡ sum counts.old }
    ensures made { IfSome result (λ change. IsResult table.now change.taken.0 change.taken.1 change.made) }
{
    let meet = meet_at(table, counts, at)?;
    let made = table.met(words, meet.first, meet.second, true)?;
    let change = Change {
        taken: (meet.first, meet.second),
        made,
    };
    if change_counts(counts, change) {
        Some(change)
    } else {
        None
    }
}

/// The weight of all pairs, whatever they become.
pub fn weight_of_all(table: &Table, agents: u32) -> u128 {
    let n = u64::from(agents);
    u128::from(n * n.saturating_sub(1)) * u128::from(table.scale)
}

/// Goes on by so many draws; less where the goal comes first, or nothing can change any more: then it says true.
pub fn go_by_counts(
    table: &Table,
    counts: &mut [u32; 256],
    words: &mut Words,
    tally: &mut Tally,
    goal: &Goal,
    most: u32,
) -> bool
    requires { sum counts.old < 2 ^ 32 }
    ensures { sum counts.new ≡ sum counts.old }
{
    let all = weight_of_all(table, tally.agents);
    let mut total = moving(table, counts);
    for _ in 0..most {
        if total == 0 || all < total || all >> 126 != 0 {
            return true;
        }
        let Some(at) = next_place(words, tally, goal, total, all) else {
            if goal.meetings <= tally.meetings {
                return false;
            }
            continue;
        };
        if let Some(change) = change_at(table, counts, words, at) {
            let meeting = tally.meetings;
            tally.note(&table.outputs, change, meeting);
            total = moving(table, counts);
            if tally.is_stopped(goal) {
                return false;
            }
        }
    }
    false
}
