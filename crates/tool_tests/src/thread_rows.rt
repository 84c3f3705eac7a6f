//! Runs whose workers wait for each other.

use crate::rows::{NET, PROOF, bytes_of, no_troubles, words_of};
use pair_workers::Picker;
use pop_io::{CalmSource, Gate, MemorySink};
use pop_tool::{Status, run_tool};
use std::alloc::Global;
use std::sync::Wait;
use std::sync::atomic::{AtomicU64, Ordering};
use std::test::Fail;
use std::thread::Threads;

/// More bytes than these runs write.
const ROOM: usize = 65_536;

/// The status that these words give for the majority bundle and a crowd line.
fn status_of<R: Threads + Wait + Sync, G: Gate>(
    rt: &R,
    alloc: Global,
    words: &str,
    crowd: &str,
    gate: &G,
) -> Result<Status, Fail> {
    let input = format!(in alloc; "{{\"net\":{NET},{PROOF}}}\n{crowd}\n")?;
    let mut source = CalmSource::new(bytes_of(alloc, input.as_str())?);
    let mut sink = MemorySink::new(alloc, ROOM, no_troubles(alloc))
        .ok()
        .ok_or("memory")?;
    let words = words_of(alloc, words)?;
    Ok(run_tool(rt, alloc, &words, &mut source, &mut sink, gate))
}

/// Workers 0 and 1 wait for each other, for a number of looks.
#[derive(Drop)]
struct Pair {
    there: [AtomicU64; 2],
    gave_up: AtomicU64,
}

impl Pair {
    fn new() -> Pair {
        Pair {
            there: [AtomicU64::new(0), AtomicU64::new(0)],
            gave_up: AtomicU64::new(0),
        }
    }

    fn wait(&self, worker: u16) {
        if worker > 1 {
            return;
        }
        self.there[worker as usize].store(1, Ordering::SeqCst);
        for _ in 0..100_000_000u64 {
            if self.there[1 - worker as usize].load(Ordering::SeqCst) == 1 {
                return;
            }
        }
        self.gave_up.store(1, Ordering::SeqCst);
    }

    /// Whether both came, and neither gave up.
    fn met(&self) -> bool {
        self.there[0].load(Ordering::SeqCst) == 1
            && self.there[1].load(Ordering::SeqCst) == 1
            && self.gave_up.load(Ordering::SeqCst) == 0
    }
}

/// They wait before their first meetings.
#[derive(Drop)]
struct Before(Pair);

impl Gate for Before {
    fn pass(&self, worker: u16, turn: u64) {
        if turn == 1 {
            self.0.wait(worker);
        }
    }

    fn held(&self, _seat: u16, _call: u64) {}
}

/// They wait inside their first meetings.
#[derive(Drop)]
struct Inside(Pair);

impl Gate for Inside {
    fn pass(&self, _worker: u16, _turn: u64) {}

    fn held(&self, seat: u16, call: u64) {
        if call == 1 {
            self.0.wait(seat);
        }
    }
}

#[test]
fn two_workers_run_beside_each_other(rt: HostRuntime) -> Result<(), Fail> {
    let gate = Before(Pair::new());
    let words = "run --workers 2 --turns 8";
    let status = status_of(&rt, rt.alloc(), words, "crowd x=100 y=100", &gate)?;
    assert!(rt; status == Status::Undecided && gate.0.met());
    Ok(())
}

/// Whether the first picks of workers 0 and 1 among 200 agents name four different agents.
fn name_four(seed: u64) -> bool {
    if seed > 1_000_000 {
        return false;
    }
    let (a, b) = Picker::new(seed, 0).pick(200);
    let (c, d) = Picker::new(seed, 1).pick(200);
    a != c && a != d && b != c && b != d
}

/// The least seed, if one is below 1,000, for which they do so.
fn seed_of_four() -> Option<u64> {
    (0..1_000u64).find(|seed| name_four(*seed))
}

#[test]
fn two_workers_are_inside_at_once(rt: HostRuntime) -> Result<(), Fail> {
    let gate = Inside(Pair::new());
    let seed = seed_of_four().ok_or("a seed")?;
    let words = format!(in rt.alloc(); "run --workers 2 --shards 200 --turns 1 --seed {seed}")?;
    let status = status_of(&rt, rt.alloc(), words.as_str(), "crowd x=100 y=100", &gate)?;
    assert!(rt; status == Status::Undecided && gate.0.met());
    Ok(())
}
