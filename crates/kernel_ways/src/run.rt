//! A run on its way.

ghost use Rattle.std.specs.Prelude.{◌≡◌, ◌<◌, ◌^◌, sum, IfOk};

use crate::agents::go_by_agents;
use crate::choice::{Way, chosen};
use crate::counts::{change_counts, go_by_counts, moving, weight_of_all};
use crate::dealing::{deal, total_of};
use crate::table::Table;
use crate::tally::{Change, Goal, Tally};
use kernel_draws::Words;
use std::alloc::{AllocError, Global};

/// Of a curve, a row is due once this part of the time has gone by since the last one.
const SPACING: u128 = 200;

/// A row of a curve.
#[derive(Clone, Copy)]
pub struct Row {
    pub meetings: u128,
    pub counts: [u32; 256],
}

/// A crowd on its way, by counts and, where they are dealt, agent by agent.
#[derive(Drop)]
pub struct Run {
    pub counts: [u32; 256],
    pub tally: Tally,
    pub is_terminal: bool,
    pub rows: Vec<Row>,
    way: Option<Way>,
    words: Words,
    crowd: Vec<u8>,
    is_dealt: bool,
    row_at: u128,
    next_row: u128,
}

impl Run {
    /// A run of this seed, by one way or by the choice. With a curve, the first row is there.
    pub fn new(
        alloc: Global,
        counts: [u32; 256],
        tally: Tally,
        seed: u64,
        with_curve: bool,
        way: Option<Way>,
    ) -> Result<Run, AllocError>
        ensures { IfOk result (λ run. run.counts ≡ counts) }
    {
        let mut rows = Vec::new(alloc);
        if with_curve {
            rows.push(Row {
                meetings: 0,
                counts,
            })?;
        }
        Ok(Run {
            way,
            counts,
            tally,
            is_terminal: false,
            rows,
            words: Words::new(seed),
            crowd: Vec::new(alloc),
            is_dealt: false,
            row_at: 0,
            next_row: if with_curve { 1 } else { u128::MAX },
        })
    }
}

impl Run {
    /// Goes on by one look of the choice, by so many words or draws at most; whether nothing can change any more.
    fn look(&mut self, alloc: Global, table: &Table, goal: &Goal) -> Result<u32, AllocError>
        requires { sum self.old.counts < 2 ^ 32 }
        ensures { IfOk result (λ _. sum self.new.counts ≡ sum self.old.counts) }
    {
        let now = moving(table, &self.counts);
        let all = weight_of_all(table, self.tally.agents);
        if now == 0 {
            self.is_terminal = true;
            self.tally.meetings = self.tally.last_change;
            return Ok(0);
        }
        let meets = if table.meets.len() < 65_535 {
            table.meets.len() as u16
        } else {
            u16::MAX
        };
        let n = self.tally.agents;
        let choice = chosen(n, meets, share_of(now, all), self.is_dealt);
        match self.way.unwrap_or(choice) {
            Way::Agents => {
                if !self.is_dealt {
                    self.crowd = deal(alloc, &self.counts)?;
                    self.is_dealt = true;
                }
                let most = (n / 8).max(256);
                go_by_agents(
                    self.crowd.as_mut_slice(),
                    &mut self.counts,
                    table,
                    &mut self.words,
                    &mut self.tally,
                    goal,
                    most,
                );
                Ok(most)
            }
            Way::Counts => {
                self.is_dealt = false;
                let most = 64 + n / 64;
                go_by_counts(
                    table,
                    &mut self.counts,
                    &mut self.words,
                    &mut self.tally,
                    goal,
                    most,
                );
                Ok(most)
            }
        }
    }

    /// Notes the rows of a curve that a change has made due: the change before it, unless it stands in a row, and itself.
    fn note_rows(&mut self) -> Result<(), AllocError>
        ensures { self.new.counts ≡ self.old.counts }
    {
        let tally = self.tally;
        if tally.last_change < self.next_row {
            return Ok(());
        }
        if self.row_at < tally.before {
            let mut counts = self.counts;
            let back = Change {
                taken: tally.latest.made,
                made: tally.latest.taken,
            };
            put_back(&mut counts, back);
            self.rows.push(Row {
                meetings: tally.before,
                counts,
            })?;
        }
        self.rows.push(Row {
            meetings: tally.last_change,
            counts: self.counts,
        })?;
        self.row_at = tally.last_change;
        self.next_row = tally
            .last_change
            .saturating_add(1 + tally.last_change / SPACING);
        Ok(())
    }

    /// Goes on to the goal, or by so many words and draws; they are looked at a few at a time.
    pub fn go(
        &mut self,
        alloc: Global,
        table: &Table,
        goal: Goal,
        work: u64,
    ) -> Result<(), AllocError>
        requires { sum self.old.counts < 2 ^ 32 }
        ensures { IfOk result (λ _. sum self.new.counts ≡ sum self.old.counts) }
    {
        let mut left = work;
        for _ in 0..work {
            if self.is_terminal || self.tally.is_there(&goal) || left == 0 {
                break;
            }
            let goal = Goal {
                row: self.next_row,
                ..goal
            };
            let made = self.look(alloc, table, &goal)?;
            left = left.saturating_sub(u64::from(made));
            self.note_rows()?;
        }
        Ok(())
    }
}

/// A change taken back in counts that a curve shows.
fn put_back(counts: &mut [u32; 256], back: Change) {
    if total_of(counts) < 1 << 32 {
        change_counts(counts, back);
    }
}

/// Which share of the meetings changes something, in parts of 2^16.
fn share_of(now: u128, all: u128) -> u16 {
    if all <= now || all >> 100 != 0 {
        return u16::MAX;
    }
    let part = (now << 16) / all;
    if part < 65_535 { part as u16 } else { u16::MAX }
}
