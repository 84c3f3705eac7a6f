//! The kernel: runs of crowds by a table of what states become, read from standard input command by command.
//! It stands on `kernel_ways` and `kernel_draws`.
//! Nothing stands above it: it reads and writes lines, and adds no clause to those of a run.
#![tactic(auto)]

mod answer;
mod command;
mod session;
mod tables;

use session::Session;
use std::io;
use std::io::{BufRead, BufReader, BufWriter, Write};
use std::process::ExitCode;

/// The status where a line is no command, or stands where it can't.
const NO_COMMAND: u8 = 2;

/// Obeys each line; false at the first that can't be.
fn obey_all(rt: &HostRuntime) -> io::Result<bool> {
    let mut session = Session::new(rt.alloc())?;
    let mut out = BufWriter::new(rt.alloc(), io::writer(rt))?;
    for line in BufReader::new(rt.alloc(), rt.reader())?.lines(rt.alloc()) {
        let line = line?;
        if !session.obey(rt.alloc(), line.as_str(), &mut out)? {
            return Ok(false);
        }
    }
    out.flush()?;
    Ok(true)
}

fn main(rt: HostRuntime) -> ExitCode {
    match obey_all(&rt) {
        Ok(true) => ExitCode::SUCCESS,
        Ok(false) => ExitCode::from(NO_COMMAND),
        Err(_) => ExitCode::FAILURE,
    }
}
