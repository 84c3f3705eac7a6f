//! How rows are run, one after the other.

use crate::row::{Row, number_of, text_of};
use anyhow::{Context, Result};
use base_lines::next_line;
use pop_io::{List, MemorySink, MemorySource, OpenGate, Trouble, TroubleKind};
use pop_tool::run_tool;
use serde_json::Value;
use std::alloc::{AllocError, Global};
use std::sync::Wait;
use std::thread::Threads;

/// More bytes than any row writes.
const ROOM: usize = 1 << 23;

/// The longest input that is also given byte by byte.
const CRUMBS_LIMIT: usize = 1024;

/// The most words of a row.
const WORD_LIMIT: usize = 100;

/// The text that a row gave, and whether it is right.
#[derive(Drop)]
struct Given {
    name: String,
    text: Vec<u8>,
    holds: bool,
}

/// The rows so far.
#[derive(Drop)]
pub(crate) struct Rows {
    given: Vec<Given>,
}

impl Rows {
    pub(crate) fn new(alloc: Global) -> Rows {
        Rows {
            given: Vec::new(alloc),
        }
    }

    /// The names of the rows that don't hold.
    pub(crate) fn failed(&self, alloc: Global) -> Result<Vec<&str>, AllocError> {
        let mut names = Vec::new(alloc);
        for given in self.given.as_slice() {
            if !given.holds {
                names.push(given.name.as_str())?;
            }
        }
        Ok(names)
    }

    pub(crate) fn len(&self) -> usize {
        self.given.len()
    }

    /// The text that an earlier row gave.
    fn given_by(&self, name: &str) -> &[u8] {
        match self
            .given
            .as_slice()
            .iter()
            .find(|given| given.name.as_str() == name)
        {
            Some(given) => given.text.as_slice(),
            None => &[],
        }
    }

    /// The bytes of these pieces, one after the other.
    fn joined(&self, alloc: Global, pieces: &[Value]) -> Result<Vec<u8>, AllocError> {
        let mut bytes = Vec::new(alloc);
        for piece in pieces {
            match piece.as_array() {
                Some(parts) => self.push_parts(&mut bytes, parts.as_slice())?,
                None => bytes.extend_from_slice(text_of(Some(piece)).as_bytes())?,
            }
        }
        Ok(bytes)
    }

    /// Adds a text this many times; or lines of the text that an earlier row gave, from the first to the last of these,
    /// counted from 1.
    fn push_parts(&self, bytes: &mut Vec<u8>, parts: &[Value]) -> Result<(), AllocError> {
        let text = text_of(parts.first());
        let number = number_of(parts.get(1));
        match parts.get(2) {
            None => push_times(bytes, text.as_bytes(), number),
            last => push_lines(bytes, self.given_by(text), number, number_of(last)),
        }
    }

    /// Runs the row that a line holds.
    pub(crate) fn try_line<R: Threads + Wait + Sync>(
        &mut self,
        rt: &R,
        alloc: Global,
        line: &str,
    ) -> Result<()> {
        let value: Value = serde_json::from_str(alloc, line)?;
        let row = Row::of_value(&value).context("a row lacks a member")?;
        self.try_row(rt, alloc, &row)
    }

    /// Runs a row as it stands, and, if its input is short and nothing upsets it, byte by byte. What `compile` wrote is
    /// given to `check`.
    fn try_row<R: Threads + Wait + Sync>(
        &mut self,
        rt: &R,
        alloc: Global,
        row: &Row<'_>,
    ) -> Result<()> {
        let input = self.joined(alloc, row.items("input"))?;
        let wanted = self.joined(alloc, row.items("text"))?;
        let (text, mut holds) = tried(rt, alloc, row, &input, &wanted)?;
        if holds && row.compiles() {
            holds = is_valid_bundle(rt, alloc, &text, row.items("leaves"))?;
        }
        let name = String::from_str(alloc, row.text("name"))?;
        self.given.push(Given { name, text, holds })?;
        Ok(())
    }
}

/// The text that a row gives, and whether it holds, for this input and the text that is wanted.
fn tried<R: Threads + Wait + Sync>(
    rt: &R,
    alloc: Global,
    row: &Row<'_>,
    input: &[u8],
    wanted: &[u8],
) -> Result<(Vec<u8>, bool)> {
    let (reads, writes) = (row.items("reads"), row.items("writes"));
    let (text, status) = answer(
        rt,
        alloc,
        row,
        input,
        &troubles(alloc, reads)?,
        &troubles(alloc, writes)?,
    )?;
    let mut holds = is_right(row, wanted, &text, status);
    if reads.is_empty() && writes.is_empty() && input.len() <= CRUMBS_LIMIT {
        holds = holds && holds_in_crumbs(rt, alloc, row, input, wanted)?;
    }
    if row.truth("prefixes") {
        holds = holds && prefixes_hold(rt, alloc, row, input, wanted)?;
    }
    Ok((text, holds))
}

/// Whether `check` certifies a bundle, and its net has leaves of these numbers of states, if there are such numbers.
fn is_valid_bundle<R: Threads + Wait + Sync>(
    rt: &R,
    alloc: Global,
    text: &[u8],
    leaves: &[Value],
) -> Result<bool> {
    let (answer, status) = answer_to(rt, alloc, &["check"], text, &[], &[])?;
    if status != 0 || !is_certificate(&answer) {
        return Ok(false);
    }
    if leaves.is_empty() {
        return Ok(true);
    }
    has_leaves(alloc, text, leaves)
}

/// Whether a text says that a proof is valid, with its bound, and that its layers are tame.
fn is_certificate(text: &[u8]) -> bool {
    let Some(number) = text.strip_prefix(b"certified ".as_slice()) else {
        return false;
    };
    match number.strip_suffix(b"\ntame\n".as_slice()) {
        Some(digits) => are_digits(digits),
        None => false,
    }
}

fn are_digits(bytes: &[u8]) -> bool {
    !bytes.is_empty() && bytes.iter().all(|byte| byte.is_ascii_digit())
}

/// Whether a bundle's net has leaves of these numbers of states, one number for each leaf.
fn has_leaves(alloc: Global, text: &[u8], wanted: &[Value]) -> Result<bool> {
    let bundle = Value::from_slice(alloc, text)?;
    match bundle.pointer("/net/leaves").and_then(Value::as_array) {
        Some(leaves) => Ok(have_states(leaves.as_slice(), wanted)),
        None => Ok(false),
    }
}

fn have_states(leaves: &[Value], wanted: &[Value]) -> bool {
    leaves.len() == wanted.len()
        && leaves.iter().zip(wanted).all(|(leaf, count)| state_count(leaf)
            == number_of(Some(count)))
}

fn state_count(leaf: &Value) -> u64 {
    match leaf.get("states").and_then(Value::as_array) {
        Some(states) => states.len() as u64,
        None => 0,
    }
}

/// Whether a row holds when each call moves one byte.
fn holds_in_crumbs<R: Threads + Wait + Sync>(
    rt: &R,
    alloc: Global,
    row: &Row<'_>,
    input: &[u8],
    wanted: &[u8],
) -> Result<bool> {
    let reads = crumbs(alloc, input.len())?;
    let writes = crumbs(alloc, wanted.len())?;
    let (text, status) = answer(rt, alloc, row, input, &reads, &writes)?;
    Ok(is_right(row, wanted, &text, status))
}

/// Whether each prefix of an input gives the row's text, once a line feed ends it.
fn prefixes_hold<R: Threads + Wait + Sync>(
    rt: &R,
    alloc: Global,
    row: &Row<'_>,
    input: &[u8],
    wanted: &[u8],
) -> Result<bool> {
    let mut line = Vec::new(alloc);
    for byte in input {
        line.push(*byte)?;
        let mut prefix = Vec::from_slice(alloc, &line)?;
        prefix.push(b'\n')?;
        let (text, status) = answer(rt, alloc, row, &prefix, &[], &[])?;
        if !is_right(row, wanted, &text, status) {
            return Ok(false);
        }
    }
    Ok(true)
}

/// Adds lines of a text, from the first to the last of these.
fn push_lines(bytes: &mut Vec<u8>, text: &[u8], first: u64, last: u64) -> Result<(), AllocError> {
    let mut rest = text;
    for number in 1..=last {
        let Some((line, more)) = next_line(rest) else {
            break;
        };
        if first <= number {
            bytes.extend_from_slice(line)?;
            bytes.push(b'\n')?;
        }
        rest = more;
    }
    Ok(())
}

/// Adds these bytes this many times.
fn push_times(bytes: &mut Vec<u8>, part: &[u8], times: u64) -> Result<(), AllocError> {
    for _ in 0..times {
        bytes.extend_from_slice(part)?;
    }
    Ok(())
}

/// Whether a text and an exit status are those of a row.
fn is_right(row: &Row<'_>, wanted: &[u8], text: &[u8], status: u8) -> bool {
    let is_text = if row.truth("begins") {
        text.starts_with(wanted)
    } else {
        text == wanted
    };
    is_text && has_status(row.items("status"), status) && has(text, row.text("with").as_bytes())
}

fn has_status(statuses: &[Value], status: u8) -> bool {
    statuses
        .iter()
        .any(|one| number_of(Some(one)) == u64::from(status))
}

/// Whether these bytes stand somewhere in a text.
fn has(text: &[u8], part: &[u8]) -> bool {
    part.is_empty() || text.windows(part.len()).any(|bytes| bytes == part)
}

/// At most one byte moves at each of the first calls.
fn crumbs(alloc: Global, calls: usize) -> Result<Vec<Trouble>, AllocError> {
    let mut troubles = Vec::new(alloc);
    for call in 0..calls {
        troubles.push(Trouble {
            call: call as u64 + 1,
            kind: TroubleKind::Part(1),
        })?;
    }
    Ok(troubles)
}

/// At which calls a source or a sink has a trouble: it moves at most this many bytes, or it fails.
fn troubles(alloc: Global, upsets: &[Value]) -> Result<Vec<Trouble>, AllocError> {
    let mut troubles = Vec::new(alloc);
    for upset in upsets {
        troubles.push(Trouble {
            call: number_of(upset.get("call")),
            kind: match upset.get("most").and_then(Value::as_u64) {
                Some(most) => TroubleKind::Part(most),
                None => TroubleKind::Fail,
            },
        })?;
    }
    Ok(troubles)
}

fn words_of<'r>(alloc: Global, row: &Row<'r>) -> Result<Vec<&'r str>, AllocError> {
    let mut words = Vec::new(alloc);
    for word in row.items("words") {
        words.push(text_of(Some(word)))?;
    }
    Ok(words)
}

fn list(alloc: Global, troubles: &[Trouble]) -> Result<List<Trouble>, AllocError> {
    Ok(List::from_vec(Vec::from_slice(alloc, troubles)?))
}

/// The source of an input, with these troubles.
fn source_of(alloc: Global, input: &[u8], reads: &[Trouble]) -> Result<MemorySource, AllocError> {
    let bytes = List::from_vec(Vec::from_slice(alloc, input)?);
    Ok(MemorySource::new(bytes, list(alloc, reads)?))
}

/// An empty sink with these troubles.
fn sink_of(alloc: Global, writes: &[Trouble]) -> Result<MemorySink> {
    let sink = MemorySink::new(alloc, ROOM, list(alloc, writes)?);
    sink.ok().context("out of memory")
}

/// The text and the exit status that the program's call gives for a row's words and this input.
fn answer<R: Threads + Wait + Sync>(
    rt: &R,
    alloc: Global,
    row: &Row<'_>,
    input: &[u8],
    reads: &[Trouble],
    writes: &[Trouble],
) -> Result<(Vec<u8>, u8)> {
    let words = words_of(alloc, row)?;
    answer_to(rt, alloc, &words, input, reads, writes)
}

/// The text and the exit status that the program's call gives for these words and this input.
fn answer_to<R: Threads + Wait + Sync>(
    rt: &R,
    alloc: Global,
    words: &[&str],
    input: &[u8],
    reads: &[Trouble],
    writes: &[Trouble],
) -> Result<(Vec<u8>, u8)> {
    let mut sink = sink_of(alloc, writes)?;
    let source = source_of(alloc, input, reads)?;
    let status = status_of(rt, alloc, words, source, &mut sink)?;
    let text = Vec::from_slice(alloc, sink.held())?;
    Ok((text, status))
}

/// The exit status that the program's call gives for these words.
fn status_of<R: Threads + Wait + Sync>(
    rt: &R,
    alloc: Global,
    words: &[&str],
    mut source: MemorySource,
    sink: &mut MemorySink,
) -> Result<u8> {
    if WORD_LIMIT < words.len() {
        return Err(anyhow::Error::msg("too many words"));
    }
    Ok(run_tool(rt, alloc, words, &mut source, sink, &OpenGate).code())
}
