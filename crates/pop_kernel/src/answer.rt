//! What a run has come to, as lines.

use kernel_ways::{Row, Run, Tally};
use std::io;
use std::io::Write;

/// The counts of so many states behind what stands on the line.
fn write_counts<W: Write>(out: &mut W, counts: &[u32; 256], states: u16) -> io::Result<()> {
    for count in counts.iter().take(usize::from(states)) {
        write!(out, " {count}")?;
    }
    writeln!(out, "")
}

/// `row MEETINGS COUNT..`
fn write_row<W: Write>(out: &mut W, row: &Row, states: u16) -> io::Result<()> {
    let meetings = row.meetings;
    write!(out, "row {meetings}")?;
    write_counts(out, &row.counts, states)
}

/// `at MEETINGS CHANGES LAST_CHANGE AGREED SINCE TERMINAL COUNT..`, where a fact is 1 or 0.
pub fn write_state<W: Write>(out: &mut W, run: &Run, states: u16) -> io::Result<()> {
    let Tally {
        meetings,
        changes,
        last_change,
        is_agreed,
        since,
        ..
    } = run.tally;
    let (agreed, terminal) = (u8::from(is_agreed), u8::from(run.is_terminal));
    write!(
        out,
        "at {meetings} {changes} {last_change} {agreed} {since} {terminal}"
    )?;
    write_counts(out, &run.counts, states)
}

/// The rows that have come since the last answer.
pub fn write_rows<W: Write>(out: &mut W, rows: &[Row], states: u16) -> io::Result<()> {
    for row in rows {
        write_row(out, row, states)?;
    }
    Ok(())
}
