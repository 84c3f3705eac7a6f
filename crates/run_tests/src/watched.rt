//! Watched runs: one that the observer stops, and one whose journal is read and verified.

ghost use Rattle.std.specs.Prelude.{◌≡◌, ◌≤◌, length};
ghost use Rattle.run_spec.specs.RunLimits.{IsWithinLimits};

use pair_workers::{End, RunContext};
use pop_crowd::{Crowd, Meeting};
use pop_io::{Gate, OpenGate};
use pop_journal::{Journal, read_journal, verify};
use pop_net::Net;
use pop_watch::{push_run, whole_runs_are_watched};
use run_spec::{RunKind, RunSpec, WATCHED_WORKERS};
use sample_nets::majority;
use std::alloc::Global;
use std::sync::Wait;
use std::sync::atomic::{AtomicU64, Ordering};
use std::thread::Threads;

/// Holds the observer's first pass until both workers have come to turn 100, and both there until its last pass.
/// Each waits for a number of looks.
#[derive(Drop)]
struct AtTurn100 {
    first: AtomicU64,
    second: AtomicU64,
    looked: AtomicU64,
    gave_up: AtomicU64,
}

impl AtTurn100 {
    fn wait_for(&self, flag: &AtomicU64) {
        for _ in 0..100_000_000u64 {
            if flag.load(Ordering::SeqCst) == 1 {
                return;
            }
        }
        self.gave_up.store(1, Ordering::SeqCst);
    }

    /// A worker comes to turn 100.
    fn come(&self, own: &AtomicU64) {
        own.store(1, Ordering::SeqCst);
        self.wait_for(&self.looked);
    }

    /// The observer comes to a pass.
    fn observe(&self, turn: u64) {
        if turn != 1 {
            self.looked.store(1, Ordering::SeqCst);
            return;
        }
        self.wait_for(&self.first);
        self.wait_for(&self.second);
    }
}

impl Gate for AtTurn100 {
    fn pass(&self, worker: u16, turn: u64) {
        match (worker, turn) {
            (0, 100) => self.come(&self.first),
            (1, 100) => self.come(&self.second),
            (2, _) => self.observe(turn),
            _ => {}
        }
    }

    fn held(&self, _seat: u16, _call: u64) {}
}

/// The lines of a watched run of two agents, and why it ended.
fn watched<R: Threads + Wait + Sync, G: Gate>(
    rt: &R,
    alloc: Global,
    net: &Net,
    spec: &RunSpec,
    gate: &G,
) -> Option<(Vec<u8>, End)>
    requires net { length net.now.variables ≡ 2 }
    requires spec { IsWithinLimits spec.now × (spec.now.workers ≤ WATCHED_WORKERS) }
{
    let crowd = Crowd::of_counts(alloc, net, &[1, 1]).ok()?;
    let run = RunContext {
        net,
        rest: net,
        spec,
        gate,
    };
    let text = Vec::new(alloc);
    let (text, _, end) = push_run(rt, alloc, text, RunKind::Watched, &run, crowd).ok()?;
    Some((text, end))
}

/// How many meetings a worker has made.
fn made_by(meetings: &[Meeting], worker: u16) -> usize {
    meetings.iter().filter(|m| m.worker == worker).count()
}

/// Whether a run has one round, in which each of the two workers has made 99 meetings.
fn is_stopped(journal: &Journal) -> bool {
    let rounds = journal.rounds.as_slice();
    if rounds.len() != 1 {
        return false;
    }
    let met = rounds[0].as_slice();
    (made_by(met, 0), made_by(met, 1), met.len()) == (99, 99, 198)
}

/// Whether a run by two workers is stopped before its round is whole.
fn stops<R: Threads + Wait + Sync, G: Gate>(
    rt: &R,
    alloc: Global,
    net: &Net,
    gate: &G,
) -> Option<bool>
    requires { length net.now.variables ≡ 2 }
{
    let spec = RunSpec {
        workers: 2,
        shards: 16,
        turns: 200,
        seed: 0,
    };
    let (text, end) = watched(rt, alloc, net, &spec, gate)?;
    let journal = read_journal(alloc, RunKind::Watched, text.as_slice(), 1, 2).ok()?;
    Some(is_stopped(&journal) && end == End::Terminal)
}

/// The same for majority.
fn majority_stops<R: Threads + Wait + Sync, G: Gate>(
    rt: &R,
    alloc: Global,
    gate: &G,
) -> Option<bool> {
    let net = majority(alloc)?;
    stops(rt, alloc, &net, gate)
}

#[test]
fn the_observer_stops_a_round(rt: HostRuntime) {
    let gate = AtTurn100 {
        first: AtomicU64::new(0),
        second: AtomicU64::new(0),
        looked: AtomicU64::new(0),
        gave_up: AtomicU64::new(0),
    };
    whole_runs_are_watched();
    let stopped = majority_stops(&rt, rt.alloc(), &gate);
    assert!(rt; stopped == Some(true) && gate.gave_up.load(Ordering::SeqCst) == 0);
}

/// How many meetings the journal of a watched run of two agents has, if it holds.
fn verified(alloc: Global, net: &Net, text: &[u8]) -> Option<u64>
    requires { length net.now.variables ≡ 2 }
{
    let crowd = Crowd::of_counts(alloc, net, &[1, 1]).ok()?;
    let journal = read_journal(alloc, RunKind::Watched, text, 1, crowd.len()).ok()?;
    verify(alloc, net, crowd, &journal).ok()
}

/// The lines of a run up to its end.
const LINES: &str = "watch workers 1 shards 16 turns 1 seed 0\nround 1\n0 1 0 *\nend\n";

const TEXT: &str =
    "watch workers 1 shards 16 turns 1 seed 0\nround 1\n0 1 0 *\nend\na 1\nb 1\nundecided 0 1\n";

/// Whether a run by one worker has these lines, and its journal one meeting.
fn writes_and_verifies<R: Threads + Wait + Sync>(rt: &R, alloc: Global, net: &Net) -> Option<bool>
    requires { length net.now.variables ≡ 2 }
{
    let spec = RunSpec {
        workers: 1,
        shards: 16,
        turns: 1,
        seed: 0,
    };
    let (text, end) = watched(rt, alloc, net, &spec, &OpenGate)?;
    let meetings = verified(alloc, net, TEXT.as_bytes())?;
    Some(text.as_slice() == LINES.as_bytes() && end == End::Open(0, 1) && meetings == 1)
}

/// The same for majority.
fn majority_writes<R: Threads + Wait + Sync>(rt: &R, alloc: Global) -> Option<bool> {
    let net = majority(alloc)?;
    writes_and_verifies(rt, alloc, &net)
}

#[test]
fn a_watched_run_is_written_and_verified(rt: HostRuntime) {
    assert!(rt; majority_writes(&rt, rt.alloc()) == Some(true));
}
