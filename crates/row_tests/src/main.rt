//! The worked rows: each line of the standard input has words and an input, with what `run_tool` must give.
//! It stands on `pop_tool` and `pop_io`.
//! Nothing stands above it: it is a test of whole commands, and adds no clause.
//! No clause speaks of deadlock either: rows of many workers over one shard and two are the test of it.
#![tactic(auto)]

mod row;
mod rows;

use crate::rows::Rows;
use std::io::{BufRead, BufReader};

fn main(rt: HostRuntime) -> anyhow::Result<()> {
    let mut rows = Rows::new(rt.alloc());
    for line in BufReader::new(rt.alloc(), rt.reader())?.lines(rt.alloc()) {
        let line = line?;
        rows.try_line(&rt, rt.alloc(), line.as_str())?;
    }
    for name in rows.failed(rt.alloc())? {
        println!(rt; "{name} doesn't hold")?;
    }
    let tried = rows.len();
    println!(rt; "{tried} rows were tried")?;
    Ok(())
}
