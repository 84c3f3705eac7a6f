//! A table, the counts to begin with, and a run: what the lines have made so far.

use crate::answer::{write_rows, write_state};
use crate::command::{Word, command_of};
use crate::tables::{add_coin, add_meet, add_output, empty};
use kernel_ways::{Goal, Run, Table, Tally, Way, total_of};
use std::alloc::{AllocError, Global};
use std::io;
use std::io::Write;

/// A crowd has fewer agents than this.
const AGENTS_END: u64 = 1 << 32;

#[derive(Drop)]
pub struct Session {
    table: Table,
    counts: [u32; 256],
    way: Option<Way>,
    run: Option<Run>,
}

/// The number of agents that output true.
fn yes_of(table: &Table, counts: &[u32; 256]) -> u32 {
    let mut yes = 0u32;
    for state in 0..256usize {
        if table.outputs[state] == 1 {
            yes = yes.saturating_add(counts[state]);
        }
    }
    yes
}

/// Where a run is to stop, by numbers, and after how much work.
fn goal_of(numbers: &[u128]) -> Option<(Goal, u64)> {
    let [meetings, changes, none, all, work] = numbers else {
        return None;
    };
    let goal = Goal {
        meetings: *meetings,
        changes: u64::try_from(*changes).ok()?,
        row: u128::MAX,
        at_none: *none == 1,
        at_all: *all == 1,
    };
    Some((goal, u64::try_from(*work).ok()?))
}

impl Session {
    /// Nothing stands there yet: one state, and nobody in it.
    pub fn new(alloc: Global) -> Result<Session, AllocError> {
        Ok(Session {
            table: Table {
                states: 1,
                outputs: [0; 256],
                cells: Vec::new(alloc),
                coins: Vec::new(alloc),
                meets: Vec::new(alloc),
                scale: 1,
            },
            counts: [0; 256],
            way: None,
            run: None,
        })
    }

    /// Begins anew with a table in which nothing changes.
    fn begin(&mut self, alloc: Global, numbers: &[u128]) -> Result<Option<()>, AllocError> {
        let [states, scale] = numbers else {
            return Ok(None);
        };
        let Some(table) = empty(alloc, *states, *scale)? else {
            return Ok(None);
        };
        self.table = table;
        self.counts = [0; 256];
        self.run = None;
        Ok(Some(()))
    }

    /// Notes how many agents begin in a state.
    fn count(&mut self, numbers: &[u128]) -> Option<()> {
        let [state, agents] = numbers else {
            return None;
        };
        let state = u8::try_from(*state).ok()?;
        self.counts[state as usize] = u32::try_from(*agents).ok()?;
        Some(())
    }

    /// Notes by which way runs go.
    fn take_way(&mut self, numbers: &[u128]) -> Option<()> {
        let [way] = numbers else {
            return None;
        };
        self.way = match *way {
            1 => Some(Way::Agents),
            2 => Some(Way::Counts),
            _ => None,
        };
        Some(())
    }

    /// Begins a run.
    fn start(
        &mut self,
        alloc: Global,
        numbers: &[u128],
        with_curve: bool,
    ) -> Result<Option<()>, AllocError> {
        let [seed] = numbers else {
            return Ok(None);
        };
        let (agents, Ok(seed)) = (total_of(&self.counts), u64::try_from(*seed)) else {
            return Ok(None);
        };
        if agents < 2 || AGENTS_END <= agents {
            return Ok(None);
        }
        let tally = Tally::new(agents as u32, yes_of(&self.table, &self.counts));
        self.run = Some(Run::new(alloc, self.counts, tally, seed, with_curve, self.way)?);
        Ok(Some(()))
    }

    /// Goes on, and writes what the run has come to.
    fn go<W: Write>(
        &mut self,
        alloc: Global,
        numbers: &[u128],
        out: &mut W,
    ) -> io::Result<Option<()>> {
        let Some((goal, work)) = goal_of(numbers) else {
            return Ok(None);
        };
        let Some(run) = &mut self.run else {
            return Ok(None);
        };
        if AGENTS_END <= total_of(&run.counts) {
            return Ok(None);
        }
        run.go(alloc, &self.table, goal, work)?;
        write_rows(out, run.rows.as_slice(), self.table.states)?;
        run.rows.clear();
        write_state(out, run, self.table.states)?;
        Ok(Some(()))
    }

    /// Obeys a line; none where it can't be.
    fn obeyed<W: Write>(
        &mut self,
        alloc: Global,
        line: &str,
        out: &mut W,
    ) -> io::Result<Option<()>> {
        let Some((word, numbers)) = command_of(alloc, line)? else {
            return Ok(None);
        };
        let numbers = numbers.as_slice();
        match word {
            Word::Table => Ok(self.begin(alloc, numbers)?),
            Word::True => Ok(add_output(&mut self.table, numbers)),
            Word::Meet => Ok(add_meet(&mut self.table, numbers)?),
            Word::Coin => Ok(add_coin(alloc, &mut self.table, numbers)?),
            Word::Count => Ok(self.count(numbers)),
            Word::Way => Ok(self.take_way(numbers)),
            Word::Run => Ok(self.start(alloc, numbers, false)?),
            Word::Curve => Ok(self.start(alloc, numbers, true)?),
            Word::Go => self.go(alloc, numbers, out),
            Word::Tell => {
                out.flush()?;
                Ok(Some(()))
            }
        }
    }

    /// Obeys a line; false where it can't be.
    pub fn obey<W: Write>(&mut self, alloc: Global, line: &str, out: &mut W) -> io::Result<bool> {
        Ok(self.obeyed(alloc, line, out)?.is_some())
    }
}
